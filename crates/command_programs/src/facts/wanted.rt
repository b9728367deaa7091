//! Which registers a program still reads.

ghost use Rattle.std.specs.Prelude.{◌<◌};
ghost use Rattle.program_interface.specs.declared.TheConstants.{MOST_SLOTS};

use super::reads::registers_read;
use super::register_set::RegisterSet;
use instruction_set::{Instruction, Program, Register};
use std::alloc::{AllocError, Global};

/// For each slot the registers that are read from there on before they are written, on one way or another. Of jumps only
/// those forward count.
pub(crate) fn registers_wanted(
    alloc: Global,
    program: &Program,
) -> Result<Vec<RegisterSet>, AllocError> {
    let slots = program.slots();
    let mut wanted = vec![in alloc; RegisterSet::NONE; slots]?;
    for slot in (0..slots).rev() {
        if let Some(instruction) = program.at(slot) {
            let here = before(instruction, behind(slot, instruction, &wanted));
            if let Some(place) = wanted.get_mut(slot) {
                *place = here;
            }
        }
    }
    Ok(wanted)
}

/// The registers that are wanted at the slots that an instruction leads to.
fn behind(slot: usize, instruction: &Instruction, wanted: &[RegisterSet]) -> RegisterSet
    requires { slot < MOST_SLOTS }
{
    match *instruction {
        Instruction::Exit => RegisterSet::NONE,
        Instruction::Jump { .. } | Instruction::JumpLong { .. } => {
            at_target(slot, instruction, wanted)
        }
        _ => at(slot + instruction.slots(), wanted).or(at_target(slot, instruction, wanted)),
    }
}

/// Those at the target of a jump, none of another instruction.
fn at_target(slot: usize, instruction: &Instruction, wanted: &[RegisterSet]) -> RegisterSet {
    match target(slot, instruction) {
        Some(target) => at(target, wanted),
        None => RegisterSet::NONE,
    }
}

fn at(slot: usize, wanted: &[RegisterSet]) -> RegisterSet {
    wanted.get(slot).copied().unwrap_or(RegisterSet::NONE)
}

/// The slot that a jump leads to, if it isn't in front of the program.
pub(crate) fn target(slot: usize, instruction: &Instruction) -> Option<usize> {
    let distance = i64::from(instruction.distance()?);
    let behind = i64::try_from(slot).ok()?.checked_add(1)?;
    usize::try_from(behind.checked_add(distance)?).ok()
}

/// The registers that are wanted in front of an instruction, where these are behind it.
fn before(instruction: &Instruction, behind: RegisterSet) -> RegisterSet {
    let [first, second] = registers_read(instruction);
    left(instruction, behind).with(first).with(second)
}

/// Those of the registers that an instruction doesn't write. EXIT gives out R0.
fn left(instruction: &Instruction, behind: RegisterSet) -> RegisterSet {
    match *instruction {
        Instruction::Call { .. } => behind.except(RegisterSet::CLEARED),
        Instruction::Exit => behind.with(Some(Register::R0)),
        _ => behind.without(instruction.destination()),
    }
}
