//! Where slots lead, and in which order a walk comes to them.

use crate::fault::LinkFault;
use instruction_set::Instruction;
use program_interface::MOST_SLOTS;
use std::alloc::{AllocError, Global};

/// Where an instruction leads: to the slot behind it, and by a jump.
#[derive(Clone, Copy)]
pub(crate) struct Ways {
    pub behind: Option<usize>,
    pub target: Option<usize>,
}

/// The place of a slot in a list, or nothing.
pub(crate) fn found(list: &[Option<usize>], place: usize) -> Option<usize> {
    *list.get(place)?
}

/// Sets what a list has at a place.
pub(crate) fn set(list: &mut [Option<usize>], place: usize, number: usize) {
    if let Some(old) = list.get_mut(place) {
        *old = Some(number);
    }
}

/// A slot at which an instruction begins.
fn begun(slots: &[Option<Instruction>], slot: i64) -> Result<usize, LinkFault> {
    if slot < 0 {
        return Err(LinkFault::Leaves(0));
    }
    match slots.get(slot as usize) {
        Some(Some(_)) => Ok(slot as usize),
        _ => Err(LinkFault::Leaves(slot as usize)),
    }
}

/// Where what stands at a slot leads.
pub(crate) fn ways_from(slots: &[Option<Instruction>], slot: usize) -> Result<Ways, LinkFault> {
    let instruction = match slots.get(slot) {
        Some(Some(instruction)) if slot < MOST_SLOTS => instruction,
        _ => return Err(LinkFault::Leaves(slot)),
    };
    let goes_on = !matches!(
        instruction,
        Instruction::Exit | Instruction::Jump { .. } | Instruction::JumpLong { .. }
    );
    let behind = if goes_on {
        Some(begun(slots, slot as i64 + instruction.slots() as i64)?)
    } else {
        None
    };
    let target = match instruction.distance() {
        Some(distance) => Some(begun(slots, Instruction::target(slot, distance))?),
        None => None,
    };
    Ok(Ways { behind, target })
}

/// How far a walk has come at a slot.
#[derive(Clone, Copy, PartialEq, Eq)]
enum Stage {
    New,
    Open,
    Done,
}

fn stage_of(stages: &[Stage], slot: usize) -> Stage {
    match stages.get(slot) {
        Some(stage) => *stage,
        None => Stage::Done,
    }
}

fn set_stage(stages: &mut [Stage], slot: usize, stage: Stage) {
    if let Some(old) = stages.get_mut(slot) {
        *old = stage;
    }
}

/// Adds a slot to those that are to be walked from.
fn push_new(
    stack: &mut Vec<usize>,
    stages: &[Stage],
    slot: Option<usize>,
) -> Result<(), AllocError> {
    if let Some(slot) = slot {
        if stage_of(stages, slot) == Stage::New {
            stack.push(slot)?;
        }
    }
    Ok(())
}

/// The slots that are come to from the first, each behind all that it leads to but back.
pub(crate) fn last_first(
    alloc: Global,
    slots: &[Option<Instruction>],
) -> Result<Vec<usize>, LinkFault> {
    let mut stages = vec![in alloc; Stage::New; slots.len()]?;
    let mut done = Vec::new(alloc);
    let mut stack = vec![in alloc; 0; 1]?;
    for _ in 0..8 * MOST_SLOTS {
        let Some(slot) = stack.pop() else {
            break;
        };
        walk(slots, slot, &mut stages, &mut stack, &mut done)?;
    }
    Ok(done)
}

/// Goes on from a slot that is new to those that it leads to; where these are done, so is it.
fn walk(
    slots: &[Option<Instruction>],
    slot: usize,
    stages: &mut [Stage],
    stack: &mut Vec<usize>,
    done: &mut Vec<usize>,
) -> Result<(), LinkFault> {
    match stage_of(stages, slot) {
        Stage::New => {
            let ways = ways_from(slots, slot)?;
            set_stage(stages, slot, Stage::Open);
            stack.extend_from_slice(&[slot])?;
            push_new(stack, stages, ways.behind)?;
            push_new(stack, stages, ways.target)?;
        }
        Stage::Open => {
            set_stage(stages, slot, Stage::Done);
            done.extend_from_slice(&[slot])?;
        }
        Stage::Done => {}
    }
    Ok(())
}
