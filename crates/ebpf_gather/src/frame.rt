//! How many bytes of the stack a function has.

use ebpf_inline::FunctionSlot;
use instruction_set::{Instruction, Operation, Register, Source, Width};
use program_interface::STACK_BYTES;

/// The register to which an instruction moves another.
fn moved(instruction: &Instruction) -> Option<(Register, Register)> {
    match *instruction {
        Instruction::Arithmetic {
            width: Width::Bits64,
            operation: Operation::Move,
            dst,
            source: Source::Register(src),
        } => Some((dst, src)),
        _ => None,
    }
}

/// The register to which an instruction adds a negative number, and how much that takes from it.
fn lowered(instruction: &Instruction) -> Option<(Register, u32)> {
    match *instruction {
        Instruction::Arithmetic {
            width: Width::Bits64,
            operation: Operation::Add,
            dst,
            source: Source::Immediate(value),
        } if value < 0 => Some((dst, value.unsigned_abs())),
        _ => None,
    }
}

/// Does a function anywhere move R10 to a register?
fn has_frame_pointer(slots: &[FunctionSlot], register: Register) -> bool {
    slots.iter().any(|slot| match slot {
        FunctionSlot::Begins(instruction) => {
            moved(instruction) == Some((register, Register::FRAME_POINTER))
        }
        _ => false,
    })
}

/// How far below R10 an instruction names a byte.
fn depth(slots: &[FunctionSlot], instruction: &Instruction) -> usize {
    if let Some(access) = instruction.access() {
        if access.base == Register::FRAME_POINTER && access.offset < 0 {
            return usize::from(access.offset.unsigned_abs());
        }
        return 0;
    }
    match lowered(instruction) {
        Some((register, bytes)) if has_frame_pointer(slots, register) => {
            bytes.min(STACK_BYTES as u32) as usize
        }
        _ => 0,
    }
}

/// The bytes by which clang takes the stack to be aligned.
pub(crate) const ALIGNED: usize = 16;

/// How many bytes below R10 are a function's own: a multiple of those by which the stack is aligned, down to the lowest byte that an instruction names by R10 or by a register
/// to which the function moves it.
pub(crate) fn frame_bytes(slots: &[FunctionSlot]) -> usize {
    let mut most = 0;
    for slot in slots {
        if let FunctionSlot::Begins(instruction) = slot {
            most = depth(slots, instruction).max(most);
        }
    }
    most.min(STACK_BYTES).div_ceil(ALIGNED) * ALIGNED
}
