//! All functions that a program is made of.

use crate::addresses::stored_addresses;
use crate::fault::GatherFault;
use crate::frame::{ALIGNED, frame_bytes};
use crate::library::library_slots;
use crate::slots::{Found, function_slots};
use crate::wanted::{Wanted, symbol_of};
use ebpf_inline::{FunctionBody, FunctionSlot, TranslationUnit};
use ebpf_object::{Function, Object};
use program_interface::{MOST_SLOTS, STACK_BYTES};
use std::alloc::{AllocError, Global};

/// The bytes that the function to start with has below its own: for what is put in between its instructions.
pub const SPARE_BYTES: usize = 32;

/// What a program is made of.
#[derive(Drop)]
pub struct Gathered {
    /// The functions, and the data that they give addresses of.
    pub unit: TranslationUnit,
    /// What each of the functions is, by its number.
    pub functions: Vec<Wanted>,
    /// So many bytes of the stack has the function to start with, without the [`SPARE_BYTES`] below them.
    pub own: usize,
    /// So many slots of the function to start with are in front of those of the object's: they put addresses into data.
    pub before: usize,
}

/// The slots of a function.
fn slots_of(
    alloc: Global,
    object: &Object<'_>,
    wanted: Wanted,
    found: &mut Found,
) -> Result<Vec<FunctionSlot>, GatherFault> {
    match wanted {
        Wanted::Symbol(symbol) => function_slots(alloc, object, symbol, found),
        Wanted::Library(call) => Ok(library_slots(alloc, call)?),
    }
}

/// The bytes of the sections with these numbers, with zeros behind all but the last, so that what follows is aligned.
fn section_bytes(
    alloc: Global,
    object: &Object<'_>,
    sections: &[usize],
) -> Result<Vec<Vec<u8>>, AllocError> {
    let mut all = Vec::new(alloc);
    for (place, number) in sections.iter().enumerate() {
        let mut bytes = Vec::new(alloc);
        if *number < object.section_count() {
            let contents = object.contents(*number);
            bytes.extend_from_slice(contents)?;
            if contents.len() <= STACK_BYTES && place + 1 < sections.len() {
                bytes.resize(contents.len().div_ceil(ALIGNED) * ALIGNED, 0)?;
            }
        }
        all.push(bytes)?;
    }
    Ok(all)
}

/// The bytes of a frame with room below for what is put in between instructions.
fn with_spare(own: usize) -> usize {
    (own.min(STACK_BYTES) + SPARE_BYTES).div_ceil(ALIGNED) * ALIGNED
}

/// Slots, and others behind them.
fn with_slots(
    first: Vec<FunctionSlot>,
    others: &[FunctionSlot],
) -> Result<Vec<FunctionSlot>, AllocError> {
    let mut slots = first;
    slots.extend_from_slice(others)?;
    Ok(slots)
}

/// All functions, with those that they call, each once, the one to start with first; and how many bytes of the stack that has of its own.
fn functions_of(
    alloc: Global,
    object: &Object<'_>,
    found: &mut Found,
) -> Result<(Vec<FunctionBody>, usize), GatherFault> {
    let mut functions = Vec::new(alloc);
    let mut own = 0;
    for number in 0..MOST_SLOTS {
        let Some(wanted) = found.functions.get(number) else {
            break;
        };
        let wanted = *wanted;
        let slots = slots_of(alloc, object, wanted, found)?;
        let mut bytes = frame_bytes(&slots);
        if number == 0 {
            own = bytes;
            bytes = with_spare(bytes);
        }
        let body = FunctionBody {
            slots,
            frame_bytes: bytes,
        };
        functions.push(body).map_err(AllocError::from)?;
    }
    Ok((functions, own))
}

/// The functions that a program is made of which starts with this one: it, and all that are called, directly or by others, each
/// once; and the sections of data that they refer to, and those that data has addresses of, which are put there first. `memcpy`, `memset` and `memcmp` of a constant length are functions of their own.
///
/// # Errors
///
/// The first slot, by functions in the order in which they are called, that refers to nothing that a program can have; else the first
/// address in data that is none of constant data.
pub fn gather(
    alloc: Global,
    object: &Object<'_>,
    start: Function,
) -> Result<Gathered, GatherFault> {
    let Some(symbol) = symbol_of(object, start) else {
        return Err(GatherFault::NoStart);
    };
    let mut found = Found {
        functions: Vec::new(alloc),
        sections: Vec::new(alloc),
        uses: Vec::new(alloc),
    };
    found
        .functions
        .extend_from_slice(&[Wanted::Symbol(symbol)])?;
    let (mut functions, own) = functions_of(alloc, object, &mut found)?;
    let stored = stored_addresses(alloc, object, &mut found)?;
    let before = stored.len();
    if let Some(first) = functions.first_mut() {
        first.slots = with_slots(stored, &first.slots)?;
    }
    let sections = section_bytes(alloc, object, &found.sections)?;
    let unit = TranslationUnit {
        functions,
        sections,
        start: 0,
    };
    Ok(Gathered {
        unit,
        functions: found.functions,
        own,
        before,
    })
}
