//! Which registers are read behind a slot before they are written.

use crate::pieces::target;
use instruction_set::{Instruction, Register, Source};
use std::alloc::{AllocError, Global};

/// A set of registers: a bit for each.
pub(crate) type Registers = u16;

/// All registers.
pub(crate) const ALL: Registers = 0x7ff;

/// The registers that a call clears.
const CLEARED: Registers = 0x3f;

/// How often all slots are looked at, until what is found doesn't change.
const MOST_PASSES: usize = 64;

/// The set of one register.
pub(crate) fn bit(register: Register) -> Registers {
    1 << register.index()
}

/// The set of a second operand's register.
fn source_bit(source: Source) -> Registers {
    match source {
        Source::Register(register) => bit(register),
        Source::Immediate(_) => 0,
    }
}

/// The registers that an instruction reads.
pub(crate) fn reads(instruction: &Instruction) -> Registers {
    match *instruction {
        Instruction::LoadImmediate { .. }
        | Instruction::Jump { .. }
        | Instruction::JumpLong { .. } => 0,
        Instruction::Load { src, .. }
        | Instruction::LoadSigned { src, .. }
        | Instruction::MoveSigned { src, .. } => bit(src),
        Instruction::StoreImmediate { dst, .. }
        | Instruction::Negate { dst, .. }
        | Instruction::SwapBytes { dst, .. } => bit(dst),
        Instruction::StoreRegister { dst, src, .. } => bit(dst) | bit(src),
        Instruction::Arithmetic {
            operation: instruction_set::Operation::Move,
            source,
            ..
        } => source_bit(source),
        Instruction::Arithmetic { dst, source, .. } | Instruction::Branch { dst, source, .. } =>
            bit(dst) | source_bit(source),
        Instruction::Call { .. } => bit(Register::R1) | bit(Register::R2),
        Instruction::Exit => bit(Register::R0),
    }
}

/// The registers that an instruction writes.
pub(crate) fn writes(instruction: &Instruction) -> Registers {
    if let Instruction::Call { .. } = *instruction {
        return CLEARED;
    }
    match instruction.destination() {
        Some(register) => bit(register),
        None => 0,
    }
}

/// The registers that are read from an instruction on, where these are read behind it.
pub(crate) fn before(instruction: &Instruction, behind: Registers) -> Registers {
    (behind & (ALL ^ (writes(instruction) & ALL))) | reads(instruction)
}

/// The set at a slot of a list.
pub(crate) fn at(live: &[Registers], slot: usize) -> Registers {
    match live.get(slot) {
        Some(found) => *found,
        None => 0,
    }
}

/// The registers that are read from a slot on, by what is known of those behind it.
fn read_from(slot: usize, instruction: &Instruction, live: &[Registers]) -> Registers {
    let mut behind = match instruction {
        Instruction::Exit | Instruction::Jump { .. } | Instruction::JumpLong { .. } => 0,
        _ => at(live, slot.saturating_add(instruction.slots())),
    };
    if let Some(distance) = instruction.distance() {
        let to = target(slot, distance);
        if to >= 0 {
            behind |= at(live, to as usize);
        }
    }
    before(instruction, behind)
}

/// Looks at all slots once, from the last on. Does something change?
fn pass(slots: &[Option<Instruction>], live: &mut [Registers]) -> bool {
    let mut changes = false;
    for back in 0..slots.len() {
        let slot = slots.len() - 1 - back;
        if let Some(instruction) = &slots[slot] {
            let found = read_from(slot, instruction, live);
            if let Some(before) = live.get_mut(slot) {
                if *before != found {
                    changes = true;
                    *before = found;
                }
            }
        }
    }
    changes
}

/// The registers that are read from each slot on before they are written; perhaps more.
pub(crate) fn live_registers(
    alloc: Global,
    slots: &[Option<Instruction>],
) -> Result<Vec<Registers>, AllocError> {
    let mut live = vec![in alloc; 0; slots.len()]?;
    for _ in 0..MOST_PASSES {
        if !pass(slots, &mut live) {
            return Ok(live);
        }
    }
    for slot in live.iter_mut() {
        *slot = ALL;
    }
    Ok(live)
}
