//! Loops, by slots: from where a jump leads back to, up to the last jump that leads there. Two loops have no slot in common, or one is
//! within the other.

use crate::lists::number_at;
use crate::pieces::target;
use instruction_set::Instruction;
use std::alloc::{AllocError, Global};

/// The loops of a program.
#[derive(Drop)]
pub(crate) struct Loops {
    /// The last slot of the loop that begins at each slot; the slot itself, where none begins there or it is one of one slot.
    ends: Vec<usize>,
    /// Does a loop begin at each slot?
    heads: Vec<bool>,
    /// The first slot of the innermost loop around each slot that doesn't begin there.
    around: Vec<Option<usize>>,
}

/// The slot to which an instruction leads back.
fn back(slot: usize, instruction: &Option<Instruction>) -> Option<usize> {
    let Some(instruction) = instruction else {
        return None;
    };
    let distance = instruction.distance()?;
    let to = target(slot, distance);
    if to >= 0 && to as u64 <= slot as u64 {
        Some(to as usize)
    } else {
        None
    }
}

/// The greater of a number in a list and another one.
fn raise(list: &mut [usize], at: usize, number: usize) {
    if let Some(found) = list.get_mut(at) {
        *found = number.max(*found);
    }
}

/// The last slots of loops, each as if there were no other.
fn first_ends(
    alloc: Global,
    slots: &[Option<Instruction>],
) -> Result<(Vec<usize>, Vec<bool>), AllocError> {
    let mut ends = Vec::new(alloc);
    for slot in 0..slots.len() {
        ends.push(slot)?;
    }
    let mut heads = vec![in alloc; false; slots.len()]?;
    for (slot, instruction) in slots.iter().enumerate() {
        if let Some(target) = back(slot, instruction) {
            raise(&mut ends, target, slot);
            if let Some(head) = heads.get_mut(target) {
                *head = true;
            }
        }
    }
    Ok((ends, heads))
}

/// The last slot of the loop that begins at a slot, with the loops that begin within it.
fn whole_end(ends: &[usize], head: usize) -> usize {
    let mut end = number_at(ends, head);
    for slot in 0..ends.len() {
        if slot > head && slot <= end {
            end = number_at(ends, slot).max(end);
        }
    }
    end
}

impl Loops {
    /// The loops of these slots.
    pub fn of(alloc: Global, slots: &[Option<Instruction>]) -> Result<Loops, AllocError> {
        let (mut ends, heads) = first_ends(alloc, slots)?;
        for slot in 0..heads.len() {
            if heads[slot] {
                let end = whole_end(&ends, slot);
                raise(&mut ends, slot, end);
            }
        }
        let mut around: Vec<Option<usize>> = Vec::new(alloc);
        for slot in 0..heads.len() {
            let before = innermost_before(&around, &ends, &heads, slot);
            around.push(before)?;
        }
        Ok(Loops {
            ends,
            heads,
            around,
        })
    }

    /// The last slot of the loop that begins at a slot.
    pub fn end(&self, head: usize) -> usize {
        number_at(&self.ends, head)
    }

    /// The last slot from which a jump leads back to where a loop begins; that itself, where none does.
    pub fn back(&self, slots: &[Option<Instruction>], head: usize) -> usize {
        let mut last = head;
        for slot in head..self.end(head).saturating_add(1) {
            if let Some(instruction) = slots.get(slot) {
                if back(slot, instruction) == Some(head) {
                    last = slot;
                }
            }
        }
        last
    }

    /// Does a loop begin at a slot?
    pub fn begins(&self, slot: usize) -> bool {
        matches!(self.heads.get(slot), Some(true))
    }

    /// Does the loop that begins at a slot have another one?
    pub fn has(&self, head: usize, slot: i64) -> bool {
        slot >= 0 && head as u64 <= slot as u64 && slot as u64 <= self.end(head) as u64
    }

    /// The first slot of the innermost loop that a slot is in.
    pub fn innermost(&self, slot: usize) -> Option<usize> {
        match self.heads.get(slot) {
            Some(true) => Some(slot),
            _ => self.around(slot),
        }
    }

    /// The first slot of the innermost loop that a slot is in, but for one that begins there.
    pub fn around(&self, slot: usize) -> Option<usize> {
        *self.around.get(slot)?
    }

    /// The first slot of the outermost loop that a slot is in.
    pub fn outermost(&self, slot: usize) -> Option<usize> {
        let mut outer = self.innermost(slot)?;
        for _ in 0..self.heads.len() {
            match self.around(outer) {
                Some(found) => outer = found,
                None => break,
            }
        }
        Some(outer)
    }
}

/// The first slot of the innermost loop around a slot that doesn't begin there: the loop that begins right before it or one around that.
fn innermost_before(
    around: &[Option<usize>],
    ends: &[usize],
    heads: &[bool],
    slot: usize,
) -> Option<usize> {
    if slot == 0 {
        return None;
    }
    let mut head = match heads.get(slot - 1) {
        Some(true) => Some(slot - 1),
        _ => *around.get(slot - 1)?,
    };
    for _ in 0..ends.len() {
        let Some(found) = head else {
            return None;
        };
        if number_at(ends, found) >= slot {
            return head;
        }
        head = *around.get(found)?;
    }
    None
}
