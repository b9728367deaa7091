//! How far a program is laid out: all rounds of its loops, as far as they are known, or as many as there are slots for.

use crate::area_sets::{AreaSet, NO_AREA};
use crate::assembling::{Linked, assembled};
use crate::fault::LinkFault;
use crate::guards::GuardPlace;
use crate::layout::{Layout, empty_rows};
use crate::lists::{answers_of, number_at, set_number};
use crate::liveness::{Registers, live_registers};
use crate::loops::Loops;
use crate::ordering::{Sequence, ordered};
use crate::remainders::with_remainders;
use crate::target::{LoopRule, Target};
use instruction_set::Instruction;
use program_interface::MOST_SLOTS;
use std::alloc::{AllocError, Global};
use std::mem;

/// What is known beforehand: how much records may have, and what scratch may.
#[derive(Clone, Copy)]
pub(crate) struct Plan {
    /// So many bytes has a record at most that can be of several lengths.
    pub longest: u64,
    /// Is it left out of sight how much can be emitted in all?
    pub is_counted: bool,
    /// The areas of addresses that scratch may have.
    pub scratch: AreaSet,
}

/// What is laid out.
#[derive(Drop)]
struct Parts {
    slots: Vec<Option<Instruction>>,
    origins: Vec<usize>,
    loops: Loops,
    live: Vec<Registers>,
    own: usize,
    target: Target,
    /// Needs an address at each slot no guard of its position?
    free: Vec<bool>,
}

/// Lays a program out, with so many rounds of each loop, where block runs leave no addresses in scratch but of these areas.
fn laid_once<'a>(
    alloc: Global,
    parts: &'a Parts,
    caps: &'a [usize],
    plan: Plan,
) -> Result<Layout<'a>, LinkFault> {
    let mut layout = Layout {
        slots: &parts.slots,
        origins: &parts.origins,
        target: parts.target,
        free: &parts.free,
        loops: &parts.loops,
        live: &parts.live,
        plan,
        rows: empty_rows(alloc, parts.slots.len())?,
        rounds: Vec::new(alloc),
        caps,
        is_cut: Vec::new(alloc),
        leaves: Vec::new(alloc),
        before: 0,
        emitted: 0,
        pieces: Vec::new(alloc),
        own: parts.own,
        uses_block: false,
        uses_scratch: false,
        uses_context: false,
        guards: Vec::new(alloc),
        last_guards: Vec::new(alloc),
        stored: 0,
        mark: None,
        here: 0,
        ended: Vec::new(alloc),
        passed: Vec::new(alloc),
        scratch: plan.scratch,
    };
    match layout.run(alloc) {
        Ok(()) => Ok(layout),
        Err(fault) => Err(fault),
    }
}

/// Lays a program out, with so many rounds of each loop.
fn laid_out<'a>(
    alloc: Global,
    parts: &'a Parts,
    caps: &'a [usize],
    plan: Plan,
) -> Result<Layout<'a>, LinkFault> {
    let mut plan = plan;
    for _ in 0..4 {
        let layout = laid_once(alloc, parts, caps, plan)?;
        if layout.scratch == plan.scratch {
            return Ok(layout);
        }
        plan.scratch = layout.scratch;
    }
    laid_once(alloc, parts, caps, plan)
}

/// The number in the middle of two.
fn middle(low: usize, high: usize) -> usize {
    (low & high) + ((low ^ high) >> 1)
}

/// The longest record, of those that can be of several lengths, with which all fit the block.
fn longest(alloc: Global, parts: &Parts, caps: &[usize]) -> Result<u64, LinkFault> {
    let limit = parts.target.limit;
    let (mut low, mut high) = (0, limit);
    for _ in 0..13 {
        let middle = middle(low, high);
        if middle == low {
            break;
        }
        let plan = Plan {
            longest: middle as u64,
            is_counted: true,
            scratch: NO_AREA,
        };
        if laid_out(alloc, parts, caps, plan)?.emitted <= limit {
            low = middle;
        } else {
            high = middle;
        }
    }
    Ok(if low == 0 { limit as u64 } else { low as u64 })
}

/// A program that is made, and which loops it has no further than so many rounds.
#[derive(Drop)]
struct Made {
    linked: Linked,
    is_cut: Vec<bool>,
    /// A guard that always ends the block run, if there is one.
    ended: Option<GuardPlace>,
    /// The most bytes that are emitted, frame lengths counted.
    emitted: usize,
}

/// The program of what is laid out.
fn made_of(alloc: Global, layout: &mut Layout<'_>) -> Result<Made, LinkFault> {
    Ok(Made {
        linked: assembled(alloc, layout)?,
        ended: layout.first_ended(),
        emitted: layout.emitted,
        is_cut: mem::replace(&mut layout.is_cut, Vec::new(alloc)),
    })
}

/// A program with so many rounds of each loop, where this is known beforehand.
fn made_by(alloc: Global, parts: &Parts, caps: &[usize], plan: Plan) -> Result<Made, LinkFault> {
    let mut layout = laid_out(alloc, parts, caps, plan)?;
    let made = made_of(alloc, &mut layout);
    drop(layout);
    made
}

/// A program with so many rounds of each loop.
fn made_with(alloc: Global, parts: &Parts, caps: &[usize]) -> Result<Made, LinkFault> {
    let plan = Plan {
        longest: u64::MAX,
        is_counted: true,
        scratch: NO_AREA,
    };
    let made = made_by(alloc, parts, caps, plan)?;
    if made.emitted <= parts.target.limit {
        return Ok(made);
    }
    drop(made);
    let plan = Plan {
        longest: longest(alloc, parts, caps)?,
        is_counted: false,
        scratch: NO_AREA,
    };
    made_by(alloc, parts, caps, plan)
}

/// A program with so many rounds of each loop; none, where it has more slots than can be.
fn attempt_within(alloc: Global, parts: &Parts, caps: &[usize]) -> Result<Option<Made>, LinkFault> {
    match made_with(alloc, parts, caps) {
        Ok(found) => Ok(Some(found)),
        Err(LinkFault::Loop { .. } | LinkFault::TooLong { .. }) => Ok(None),
        Err(fault) => Err(fault),
    }
}

/// Sets all numbers of a list.
fn fill(list: &mut [usize], number: usize) {
    for found in list.iter_mut() {
        *found = number;
    }
}

/// A program, and between how many rounds, for which there are slots, and how many, for which there are none, the most are.
#[derive(Drop)]
struct Between {
    best: Made,
    low: usize,
    high: usize,
}

/// A program with 1, 2, 4 and so on rounds of each loop, the last for which there are slots.
fn doubled(alloc: Global, parts: &Parts, caps: &mut [usize]) -> Result<Option<Between>, LinkFault> {
    let mut found = None;
    for cut in 0..11u32 {
        let low = 1usize << cut;
        fill(caps, low);
        let Some(best) = attempt_within(alloc, parts, caps)? else {
            break;
        };
        let high = 2 * low;
        found = Some(Between { best, low, high });
    }
    Ok(found)
}

/// A program with as many rounds as there are slots for, about, the same for each loop, if there is one. Leaves the rounds in the list.
fn shortened(alloc: Global, parts: &Parts, caps: &mut [usize]) -> Result<Option<Made>, LinkFault> {
    let Some(mut found) = doubled(alloc, parts, caps)? else {
        return Ok(None);
    };
    for _ in 0..6 {
        let middle = middle(found.low, found.high);
        if middle.saturating_sub(found.low) <= found.low / 32 {
            break;
        }
        fill(caps, middle);
        match attempt_within(alloc, parts, caps)? {
            Some(best) => {
                found = Between {
                    best,
                    low: middle,
                    high: found.high,
                };
            }
            None => found.high = middle,
        }
    }
    fill(caps, found.low);
    Ok(Some(found.best))
}

/// The most rounds of one loop for which there are slots beside those of the others, about, if these are more.
fn raised(
    alloc: Global,
    parts: &Parts,
    caps: &mut [usize],
    head: usize,
) -> Result<Option<Made>, LinkFault> {
    let mut best = None;
    let mut low = number_at(caps, head);
    let mut high = low.saturating_mul(2).saturating_add(8);
    for _ in 0..3 {
        let middle = middle(low, high);
        if middle == low {
            break;
        }
        set_number(caps, head, middle);
        match attempt_within(alloc, parts, caps)? {
            Some(found) => {
                best = Some(found);
                low = middle;
            }
            None => high = middle,
        }
    }
    set_number(caps, head, low);
    Ok(best)
}

/// How many loops get rounds of their own.
const MOST_RAISED: usize = 3;

/// The first loops that are cut, if there are several.
fn to_raise(alloc: Global, is_cut: &[bool]) -> Result<Vec<usize>, AllocError> {
    let mut heads = Vec::new(alloc);
    for (head, is_cut) in is_cut.iter().enumerate() {
        if *is_cut && heads.len() < MOST_RAISED {
            heads.push(head)?;
        }
    }
    if heads.len() < 2 {
        return Ok(Vec::new(alloc));
    }
    Ok(heads)
}

/// Is there more than a program can have?
fn is_length(fault: &LinkFault) -> bool {
    matches!(fault, LinkFault::Loop { .. } | LinkFault::TooLong { .. })
}

/// A program with as many rounds as there are slots for: first the same for each loop, then more for one after the other.
fn cut(alloc: Global, parts: &Parts) -> Result<Option<Linked>, LinkFault> {
    let mut caps = vec![in alloc; 0; parts.slots.len()]?;
    let Some(mut best) = shortened(alloc, parts, &mut caps)? else {
        return Ok(None);
    };
    for head in to_raise(alloc, &best.is_cut)? {
        if let Some(found) = raised(alloc, parts, &mut caps, head)? {
            best = found;
        }
    }
    Ok(Some(best.linked))
}

/// A program with all rounds; where it has more slots than can be, and loops may be cut, with as many rounds as there are slots for.
fn planned(alloc: Global, parts: &Parts) -> Result<Linked, LinkFault> {
    let caps = vec![in alloc; usize::MAX; parts.slots.len()]?;
    match made_with(alloc, parts, &caps) {
        Ok(found) => match found.ended {
            Some(place) => Err(LinkFault::Ends(place)),
            None => Ok(found.linked),
        },
        Err(fault) if parts.target.rule == LoopRule::Whole || !is_length(&fault) => Err(fault),
        Err(fault) => match cut(alloc, parts)? {
            Some(linked) => Ok(linked),
            None => Err(fault),
        },
    }
}

/// A program that does on blocks of one size what these slots do, without a jump back, as far as that can be told: where an access or an
/// emit would trap, a guard ends the block run, and where loops may be cut, where one would go round more often than there are slots
/// for. Below so many bytes of the stack there are 32 that the slots don't use. Addresses at slots that are free are accessed or emitted
/// from without a guard of their position.
///
/// # Errors
///
/// An instruction leads to no other; a loop isn't known to end; there are more slots than a program can have; a guard always ends the
/// block run; an address may be of the context or of another area; a guard has no bytes of scratch to write to, or none of the stack.
pub fn link(
    alloc: Global,
    slots: &[Option<Instruction>],
    own: usize,
    target: Target,
    free: &[bool],
) -> Result<Linked, LinkFault> {
    let Sequence { slots, origins } = ordered(alloc, &with_remainders(alloc, slots)?)?;
    let free_slots = answers_of(alloc, free, &origins)?;
    let parts = Parts {
        loops: Loops::of(alloc, &slots)?,
        live: live_registers(alloc, &slots)?,
        slots,
        origins,
        own,
        target,
        free: free_slots,
    };
    planned(alloc, &parts)
}
