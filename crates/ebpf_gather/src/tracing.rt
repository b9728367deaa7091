//! Which slot of which function each slot of a program was made of.

use crate::gathering::Gathered;
use crate::wanted::Wanted;
use ebpf_inline::{FunctionSlot, MOST_FRAMES, kept_count, moved_frame_pointer};
use program_interface::MOST_SLOTS;
use std::alloc::{AllocError, Global};

/// A slot of a function.
#[derive(Clone, Copy, Debug, PartialEq, Eq)]
pub struct Origin {
    /// The number of the function's symbol.
    pub symbol: usize,
    /// The slot.
    pub slot: usize,
}

/// Adds a slot so many times, up to one more than a program can have.
fn push_times(
    into: &mut Vec<Option<Origin>>,
    origin: Option<Origin>,
    count: usize,
) -> Result<(), AllocError> {
    for _ in 0..count {
        if into.len() <= MOST_SLOTS {
            into.extend_from_slice(&[origin])?;
        }
    }
    Ok(())
}

/// What the data takes: a store of 4 bytes each.
fn push_data(into: &mut Vec<Option<Origin>>, sections: &[Vec<u8>]) -> Result<(), AllocError> {
    for section in sections {
        push_times(into, None, section.len().div_ceil(8).saturating_mul(2))?;
    }
    Ok(())
}

/// How many slots take the place of a slot that calls nothing.
fn slots_taken(slots: &[FunctionSlot], slot: usize) -> usize {
    match slots.get(slot) {
        Some(FunctionSlot::Begins(instruction)) if moved_frame_pointer(instruction).is_some() => 2,
        Some(FunctionSlot::Address { .. }) => 2,
        Some(FunctionSlot::Inside) => match slots.get(slot.saturating_sub(1)) {
            Some(FunctionSlot::Address { .. }) => 0,
            _ => 1,
        },
        _ => 1,
    }
}

/// What takes the place of a slot of a function.
#[cycle(origins)]
fn push_slot(
    into: &mut Vec<Option<Origin>>,
    gathered: &Gathered,
    slots: &[FunctionSlot],
    slot: usize,
    origin: Option<Origin>,
    depth: usize,
) -> Result<(), AllocError> {
    match slots.get(slot) {
        Some(FunctionSlot::Calls(callee)) => {
            let callee = *callee;
            push_call(into, gathered, callee, origin, depth)
        }
        _ => push_times(into, origin, slots_taken(slots, slot)),
    }
}

/// What takes the place of a call: what is kept is stored, then come the slots of what is called, and what is kept is loaded again.
#[cycle(origins)]
fn push_call(
    into: &mut Vec<Option<Origin>>,
    gathered: &Gathered,
    callee: usize,
    origin: Option<Origin>,
    depth: usize,
) -> Result<(), AllocError> {
    let kept = match gathered.unit.functions.get(callee) {
        Some(body) => kept_count(&body.slots),
        None => 0,
    };
    push_times(into, origin, kept)?;
    if depth > 0 {
        push_function(into, gathered, callee, origin, depth - 1)?;
    }
    push_times(into, origin, kept)
}

/// The slot of the object that a slot of a function is: of one of the C library's that of the call, of those in front none.
fn origin_in(
    gathered: &Gathered,
    function: usize,
    slot: usize,
    caller: Option<Origin>,
) -> Option<Origin> {
    let before = if function == gathered.unit.start {
        gathered.before
    } else {
        0
    };
    match gathered.functions.get(function) {
        Some(Wanted::Symbol(symbol)) if slot >= before => Some(Origin {
            symbol: *symbol,
            slot: slot - before,
        }),
        Some(Wanted::Symbol(_)) => None,
        _ => caller,
    }
}

/// The slots of a function, with those of all that it calls. Those of the C library's are those of the call.
#[cycle(origins)]
fn push_function(
    into: &mut Vec<Option<Origin>>,
    gathered: &Gathered,
    function: usize,
    caller: Option<Origin>,
    depth: usize,
) -> Result<(), AllocError> {
    let Some(body) = gathered.unit.functions.get(function) else {
        return Ok(());
    };
    for slot in 0..body.slots.len() {
        let origin = origin_in(gathered, function, slot, caller);
        push_slot(into, gathered, &body.slots, slot, origin, depth)?;
        if into.len() > MOST_SLOTS {
            break;
        }
    }
    Ok(())
}

/// What each slot was made of in the program that `ebpf_inline` makes of the unit: nothing, where it stores data.
///
/// # Errors
///
/// Want of memory.
pub fn origins(alloc: Global, gathered: &Gathered) -> Result<Vec<Option<Origin>>, AllocError> {
    let mut into = Vec::new(alloc);
    push_data(&mut into, &gathered.unit.sections)?;
    push_function(&mut into, gathered, gathered.unit.start, None, MOST_FRAMES)?;
    Ok(into)
}
