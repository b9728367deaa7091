//! The slots of a program in an order in which each leads to a later one, but for jumps back to where a loop begins; and in which those of
//! a loop stand one behind the other.

use crate::fault::LinkFault;
use crate::flow::{found, last_first, set, ways_from};
use instruction_set::Instruction;
use program_interface::MOST_SLOTS;
use std::alloc::{AllocError, Global};

/// Which slots lead to each: lists of the numbers of edges, two for each slot.
#[derive(Drop)]
struct Edges {
    first: Vec<Option<usize>>,
    next: Vec<Option<usize>>,
}

impl Edges {
    /// One edge more.
    fn add(&mut self, edge: usize, to: Option<usize>) {
        if let Some(to) = to {
            if let Some(before) = found(&self.first, to) {
                set(&mut self.next, edge, before);
            }
            set(&mut self.first, to, edge);
        }
    }

    /// Adds the slots that lead to one.
    fn push_sources(&self, into: &mut Vec<usize>, to: usize) -> Result<(), AllocError> {
        let mut edge = found(&self.first, to);
        for _ in 0..2 * MOST_SLOTS {
            let Some(number) = edge else {
                break;
            };
            into.extend_from_slice(&[number / 2])?;
            edge = found(&self.next, number);
        }
        Ok(())
    }
}

/// All edges of slots that are come to.
fn edges_of(
    alloc: Global,
    slots: &[Option<Instruction>],
    reached: &[usize],
) -> Result<Edges, LinkFault> {
    let mut edges = Edges {
        first: vec![in alloc; None; slots.len()]?,
        next: vec![in alloc; None; slots.len().min(MOST_SLOTS) * 2]?,
    };
    for slot in reached {
        let ways = ways_from(slots, *slot)?;
        if *slot < MOST_SLOTS {
            edges.add(2 * *slot, ways.behind);
            edges.add(2 * *slot + 1, ways.target);
        }
    }
    Ok(edges)
}

/// The outermost loop that is known around a slot, by its first slot.
fn outermost(heads: &[Option<usize>], slot: usize) -> usize {
    let mut outer = slot;
    for _ in 0..heads.len() {
        match found(heads, outer) {
            Some(head) => outer = head,
            None => break,
        }
    }
    outer
}

/// Finds the slots of the loop that begins at one: from those that lead back to it backward.
fn find_loop(
    alloc: Global,
    edges: &Edges,
    ranks: &[Option<usize>],
    heads: &mut [Option<usize>],
    head: usize,
) -> Result<(), AllocError> {
    let Some(rank) = found(ranks, head) else {
        return Ok(());
    };
    let mut sources = Vec::new(alloc);
    edges.push_sources(&mut sources, head)?;
    let mut work = Vec::new(alloc);
    for source in sources {
        if is_behind(ranks, source, rank) {
            work.extend_from_slice(&[source])?;
        }
    }
    for _ in 0..8 * MOST_SLOTS {
        let Some(slot) = work.pop() else {
            break;
        };
        let outer = outermost(heads, slot);
        if outer != head && is_behind(ranks, outer, rank) {
            set(heads, outer, head);
            edges.push_sources(&mut work, outer)?;
        }
    }
    Ok(())
}

/// Is a slot's rank at least this one?
fn is_behind(ranks: &[Option<usize>], slot: usize, rank: usize) -> bool {
    match found(ranks, slot) {
        Some(found) => found >= rank,
        None => false,
    }
}

/// The first slot of the innermost loop around each slot, but for one that begins there.
fn loops_around(
    alloc: Global,
    slots: &[Option<Instruction>],
    reached: &[usize],
) -> Result<Vec<Option<usize>>, LinkFault> {
    let edges = edges_of(alloc, slots, reached)?;
    let mut ranks = vec![in alloc; None; slots.len()]?;
    for (place, slot) in reached.iter().enumerate() {
        set(&mut ranks, *slot, reached.len().saturating_sub(place));
    }
    let mut heads = vec![in alloc; None; slots.len()]?;
    for slot in reached {
        find_loop(alloc, &edges, &ranks, &mut heads, *slot)?;
    }
    Ok(heads)
}

/// The slots that are come to, in order.
fn in_order(alloc: Global, slots: &[Option<Instruction>]) -> Result<Vec<usize>, LinkFault> {
    let reached = last_first(alloc, slots)?;
    let heads = loops_around(alloc, slots, &reached)?;
    let mut first = vec![in alloc; None; slots.len()]?;
    let mut next = vec![in alloc; None; slots.len()]?;
    let mut top = None;
    for slot in reached.iter() {
        match found(&heads, *slot) {
            Some(head) => {
                if let Some(before) = found(&first, head) {
                    set(&mut next, *slot, before);
                }
                set(&mut first, head, *slot);
            }
            None => {
                if let Some(before) = top {
                    set(&mut next, *slot, before);
                }
                top = Some(*slot);
            }
        }
    }
    let order = walked(alloc, top, &first, &next)?;
    Ok(order)
}

/// A list of slots, behind each of which those of the loop stand that begins there.
fn walked(
    alloc: Global,
    top: Option<usize>,
    first: &[Option<usize>],
    next: &[Option<usize>],
) -> Result<Vec<usize>, AllocError> {
    let mut order = Vec::new(alloc);
    let mut stack = Vec::new(alloc);
    push_some(&mut stack, top)?;
    for _ in 0..2 * MOST_SLOTS {
        let Some(slot) = stack.pop() else {
            break;
        };
        order.extend_from_slice(&[slot])?;
        push_some(&mut stack, found(next, slot))?;
        push_some(&mut stack, found(first, slot))?;
    }
    Ok(order)
}

fn push_some(into: &mut Vec<usize>, slot: Option<usize>) -> Result<(), AllocError> {
    match slot {
        Some(slot) => into.extend_from_slice(&[slot]),
        None => Ok(()),
    }
}

/// A slot in order, and whether a jump to the slot behind it stands there in place of what it has.
#[derive(Clone, Copy)]
struct Placed {
    slot: usize,
    /// The slot that is jumped to.
    jump: Option<usize>,
}

/// The slots in order, with a jump where the next one isn't that behind.
fn with_jumps(
    alloc: Global,
    slots: &[Option<Instruction>],
    order: &[usize],
) -> Result<Vec<Placed>, LinkFault> {
    let mut placed = Vec::new(alloc);
    for (place, slot) in order.iter().enumerate() {
        placed.extend_from_slice(&[Placed {
            slot: *slot,
            jump: None,
        }])?;
        let ways = ways_from(slots, *slot)?;
        let next = match order.get(place.saturating_add(1)) {
            Some(next) => Some(*next),
            None => None,
        };
        if ways.behind.is_some() && ways.behind != next {
            placed.extend_from_slice(&[Placed {
                slot: *slot,
                jump: ways.behind,
            }])?;
        }
    }
    Ok(placed)
}

/// The place of each slot among those in order, a wide one counted twice.
fn places(
    alloc: Global,
    slots: &[Option<Instruction>],
    placed: &[Placed],
) -> Result<Vec<Option<usize>>, AllocError> {
    let mut places = vec![in alloc; None; slots.len()]?;
    let mut place: usize = 0;
    for one in placed {
        if one.jump.is_none() {
            set(&mut places, one.slot, place);
            if let Some(Some(instruction)) = slots.get(one.slot) {
                place = place.saturating_add(instruction.slots());
            }
        } else {
            place = place.saturating_add(1);
        }
    }
    Ok(places)
}

/// An instruction that leads from one place to another.
fn led(instruction: &Instruction, from: usize, to: usize) -> Instruction {
    let from = from.min(4 * MOST_SLOTS) as i64;
    let to = to.min(4 * MOST_SLOTS) as i64;
    let distance = (to - from - 1).clamp(-30000, 30000) as i16;
    match *instruction {
        Instruction::Branch {
            width,
            relation,
            dst,
            source,
            ..
        } => Instruction::Branch {
            width,
            relation,
            dst,
            source,
            distance,
        },
        _ => Instruction::Jump { distance },
    }
}

/// Slots in order.
#[derive(Drop)]
pub(crate) struct Sequence {
    /// Its slots.
    pub slots: Vec<Option<Instruction>>,
    /// The slot that each was made of.
    pub origins: Vec<usize>,
}

impl Sequence {
    /// Adds an instruction that was made of a slot.
    fn push(&mut self, instruction: Instruction, origin: usize) -> Result<(), AllocError> {
        self.slots.extend_from_slice(&[Some(instruction)])?;
        self.origins.extend_from_slice(&[origin])?;
        if instruction.slots() == 2 {
            self.slots.extend_from_slice(&[None])?;
            self.origins.extend_from_slice(&[origin])?;
        }
        Ok(())
    }
}

/// Adds what stands at a slot in order.
fn push_placed(
    into: &mut Sequence,
    slots: &[Option<Instruction>],
    places: &[Option<usize>],
    one: Placed,
) -> Result<(), LinkFault> {
    let here = into.slots.len();
    if let Some(to) = one.jump {
        let to = found(places, to).unwrap_or(0);
        into.push(led(&Instruction::Jump { distance: 0 }, here, to), one.slot)?;
        return Ok(());
    }
    let Some(Some(instruction)) = slots.get(one.slot) else {
        return Err(LinkFault::Leaves(one.slot));
    };
    let placed = match ways_from(slots, one.slot)?.target {
        Some(target) => led(instruction, here, found(places, target).unwrap_or(0)),
        None => *instruction,
    };
    into.push(placed, one.slot)?;
    Ok(())
}

/// The same program, whose slots stand in order.
pub(crate) fn ordered(alloc: Global, slots: &[Option<Instruction>]) -> Result<Sequence, LinkFault> {
    let order = in_order(alloc, slots)?;
    let placed = with_jumps(alloc, slots, &order)?;
    let places = places(alloc, slots, &placed)?;
    let mut all = Sequence {
        slots: Vec::new(alloc),
        origins: Vec::new(alloc),
    };
    for one in placed {
        push_placed(&mut all, slots, &places, one)?;
    }
    Ok(all)
}
