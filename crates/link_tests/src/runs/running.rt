//! Block runs with every check.

use instruction_set::Program;
use interp::Machine;
use program_interface::{CONTEXT_BYTES, SCRATCH_BYTES, STACK_BYTES};
use program_meaning::End;
use std::alloc::{AllocError, Global};

/// The most bytes that a block run may emit.
const LIMIT: usize = 65535;

/// The most steps that it may take.
const FUEL: u64 = 1_000_000;

/// What a block run leaves.
#[derive(Debug, PartialEq, Drop)]
pub(crate) struct Left {
    pub end: End,
    pub group: Vec<u8>,
    pub scratch: [u8; SCRATCH_BYTES],
}

/// Room for what is emitted.
pub(crate) fn group_room(alloc: Global) -> Result<Vec<u8>, AllocError> {
    let mut room = Vec::new(alloc);
    room.resize(LIMIT, 0)?;
    Ok(room)
}

/// Runs a program on a block; nothing, where it has no instruction.
pub(crate) fn run(
    alloc: Global,
    program: &Program,
    block: &[u8],
    context: &[u8; CONTEXT_BYTES],
    before: &[u8; SCRATCH_BYTES],
    room: &mut [u8],
) -> Result<Option<Left>, AllocError> {
    if room.len() < LIMIT || block.len() > 0xffff_ffff {
        return Ok(None);
    }
    let mut scratch = *before;
    let mut stack = [0; STACK_BYTES];
    let mut machine = Machine::new(block, context, &mut scratch, &mut stack);
    if program.at(machine.slot()).is_none() {
        return Ok(None);
    }
    let end = machine.run_checked(program, LIMIT, FUEL, room);
    let length = machine.group_length();
    let mut group = Vec::new(alloc);
    group.extend_from_slice(&room[..length])?;
    Ok(Some(Left {
        end,
        group,
        scratch,
    }))
}
