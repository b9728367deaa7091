//! Functions of C's library, written out for so many bytes.

ghost use Rattle.std.specs.Prelude.{◌+◌, ◌/◌, ◌≤◌};
ghost use Rattle.program_interface.specs.declared.area.TheConstants.{STACK_BYTES};

use crate::wanted::{LibraryCall, LibraryFunction};
use ebpf_inline::FunctionSlot;
use instruction_set::{
    Instruction, Operation, Register, Relation, Size, Source, Swap, SwapSize, Width,
};
use program_interface::STACK_BYTES;
use std::alloc::{AllocError, Global};

/// Adds an instruction.
fn push(slots: &mut Vec<FunctionSlot>, instruction: Instruction) -> Result<(), AllocError> {
    slots.extend_from_slice(&[FunctionSlot::Begins(instruction)])
}

/// 64-bit arithmetic.
fn compute(operation: Operation, dst: Register, source: Source) -> Instruction {
    Instruction::Arithmetic {
        width: Width::Bits64,
        operation,
        dst,
        source,
    }
}

/// The largest access that so many bytes have room for.
fn largest(bytes: usize) -> (Size, usize)
    ensures { result.1 ≤ 8 }
{
    if bytes >= 8 {
        (Size::DoubleWord, 8)
    } else if bytes >= 4 {
        (Size::Word, 4)
    } else if bytes >= 2 {
        (Size::HalfWord, 2)
    } else {
        (Size::Byte, 1)
    }
}

/// The register with this number.
fn register(number: u8) -> Register {
    Register::from_number(number.min(9))
}

/// R1 goes to R0, and the function ends.
fn push_end(slots: &mut Vec<FunctionSlot>) -> Result<(), AllocError> {
    push(
        slots,
        compute(
            Operation::Move,
            Register::R0,
            Source::Register(Register::R1),
        ),
    )?;
    push(slots, Instruction::Exit)
}

/// The bytes at R2 go to R1.
fn push_copy(slots: &mut Vec<FunctionSlot>, bytes: usize) -> Result<(), AllocError> {
    let mut at = 0;
    for _ in 0..bytes {
        if at >= bytes || at > STACK_BYTES {
            break;
        }
        let (size, step) = largest(bytes - at);
        push(
            slots,
            Instruction::Load {
                size,
                dst: register(4),
                src: Register::R2,
                offset: at as i16,
            },
        )?;
        push(
            slots,
            Instruction::StoreRegister {
                size,
                dst: Register::R1,
                src: register(4),
                offset: at as i16,
            },
        )?;
        at += step;
    }
    push_end(slots)
}

/// The low byte of R2 goes to each byte at R1.
fn push_fill(slots: &mut Vec<FunctionSlot>, bytes: usize) -> Result<(), AllocError> {
    push(
        slots,
        compute(Operation::And, Register::R2, Source::Immediate(255)),
    )?;
    push(
        slots,
        Instruction::LoadImmediate {
            dst: register(4),
            value: 0x0101_0101_0101_0101,
        },
    )?;
    slots.extend_from_slice(&[FunctionSlot::Inside])?;
    push(
        slots,
        compute(
            Operation::Multiply,
            Register::R2,
            Source::Register(register(4)),
        ),
    )?;
    let mut at = 0;
    for _ in 0..bytes {
        if at >= bytes || at > STACK_BYTES {
            break;
        }
        let (size, step) = largest(bytes - at);
        push(
            slots,
            Instruction::StoreRegister {
                size,
                dst: Register::R1,
                src: Register::R2,
                offset: at as i16,
            },
        )?;
        at += step;
    }
    push_end(slots)
}

/// How many accesses so many bytes take.
fn steps(bytes: usize) -> usize
    ensures { result ≤ bytes / 8 + 3 }
{
    bytes / 8 + (bytes / 4) % 2 + (bytes / 2) % 2 + bytes % 2
}

/// Where words at R1 and R2 differ, R0 is what is told of the first two bytes that do: 1 or -1. The words in R4 and R5 are swapped, so that
/// their first bytes count most.
fn push_order(slots: &mut Vec<FunctionSlot>) -> Result<(), AllocError> {
    for number in 4..6u8 {
        push(
            slots,
            Instruction::SwapBytes {
                swap: Swap::ToBig,
                size: SwapSize::Bits64,
                dst: register(number),
            },
        )?;
    }
    push(
        slots,
        compute(Operation::Move, Register::R0, Source::Immediate(1)),
    )?;
    push(
        slots,
        Instruction::Branch {
            width: Width::Bits64,
            relation: Relation::Greater,
            dst: register(4),
            source: Source::Register(register(5)),
            distance: 1,
        },
    )?;
    push(
        slots,
        compute(Operation::Move, Register::R0, Source::Immediate(-1)),
    )?;
    push(slots, Instruction::Exit)
}

/// R0 is 0 where the bytes at R1 and R2 are the same; else 1 or -1, as the first two that differ are in order.
fn push_compare(slots: &mut Vec<FunctionSlot>, bytes: usize) -> Result<(), AllocError> {
    let mut at = 0;
    for _ in 0..bytes {
        if at >= bytes || at > STACK_BYTES {
            break;
        }
        let (size, step) = largest(bytes - at);
        push_load(slots, size, register(4), Register::R1, at)?;
        push_load(slots, size, register(5), Register::R2, at)?;
        at += step;
        push(
            slots,
            Instruction::Branch {
                width: Width::Bits64,
                relation: Relation::NotEqual,
                dst: register(4),
                source: Source::Register(register(5)),
                distance: over_compares(bytes.saturating_sub(at)),
            },
        )?;
    }
    push(
        slots,
        compute(Operation::Move, Register::R0, Source::Immediate(0)),
    )?;
    push(slots, Instruction::Exit)?;
    push_order(slots)
}

/// A load of bytes behind an address.
fn push_load(
    slots: &mut Vec<FunctionSlot>,
    size: Size,
    dst: Register,
    src: Register,
    at: usize,
) -> Result<(), AllocError>
    requires { at ≤ STACK_BYTES }
{
    push(
        slots,
        Instruction::Load {
            size,
            dst,
            src,
            offset: at as i16,
        },
    )
}

/// Over the compares of so many bytes, and the two slots behind them.
fn over_compares(bytes: usize) -> i16 {
    (3 * steps(bytes.min(STACK_BYTES)) + 2) as i16
}

/// The slots of a function of C's library for so many bytes.
pub(crate) fn library_slots(
    alloc: Global,
    call: LibraryCall,
) -> Result<Vec<FunctionSlot>, AllocError> {
    let mut slots = Vec::new(alloc);
    match call.function {
        LibraryFunction::Copy => push_copy(&mut slots, call.bytes)?,
        LibraryFunction::Fill => push_fill(&mut slots, call.bytes)?,
        LibraryFunction::Compare => push_compare(&mut slots, call.bytes)?,
    }
    Ok(slots)
}

/// The function of C's library with this name.
pub(crate) fn library_function(name: &[u8]) -> Option<LibraryFunction> {
    match name {
        b"memcpy" => Some(LibraryFunction::Copy),
        b"memset" => Some(LibraryFunction::Fill),
        b"memcmp" | b"bcmp" => Some(LibraryFunction::Compare),
        _ => None,
    }
}
