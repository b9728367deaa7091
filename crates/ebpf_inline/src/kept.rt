//! The registers that a call keeps are stored and loaded.

ghost use Rattle.std.specs.Prelude.{◌≡◌, ◌≤◌, ◌<◌, ◌+◌, ◌*◌, ◌++◌, [], ◌∷◌, IfOk, if◌then◌else◌, length};
ghost use Rattle.ebpf_inline.specs.Bodies.{cell, loads, stores};
ghost use Rattle.ebpf_inline.specs.Units.{kept_by, slots_write};
ghost use Rattle.program_interface.specs.declared.area.TheConstants.{STACK_BYTES};

use crate::unit::FunctionSlot;
use crate::written::slots_write;
use instruction_set::{Instruction, Register, Size};
use std::alloc::{AllocError, Global};

/// The register with this number, where slots of a function write it.
fn push_written(
    into: &mut Vec<Register>,
    slots: &[FunctionSlot],
    number: u8,
) -> Result<(), AllocError>
    requires { number < 11 }
    ensures { IfOk result (λ _. into.new.items ≡ into.old.items ++ (if slots_write slots.now number then number ∷ [] else [])) }
{
    let register = Register::from_number(number);
    if slots_write(slots, register) {
        into.push(register)?;
    }
    Ok(())
}

/// The registers that are kept for who calls a function with these slots: those of R6 to R9 that they write (BPF ABI 1.0, Registers and
/// calling convention).
pub(crate) fn kept_registers(
    alloc: Global,
    slots: &[FunctionSlot],
) -> Result<Vec<Register>, AllocError>
    ensures { IfOk result (λ kept. kept.items ≡ kept_by slots.now) }
{
    let mut kept = Vec::new(alloc);
    push_written(&mut kept, slots, 6)?;
    push_written(&mut kept, slots, 7)?;
    push_written(&mut kept, slots, 8)?;
    push_written(&mut kept, slots, 9)?;
    Ok(kept)
}

/// The offset from R10 of the lowest of 8 bytes that end so many bytes below it.
fn cell(below: usize) -> i16
    requires { below ≤ STACK_BYTES }
    ensures { result ≡ cell below }
{
    -((below + 8) as i16)
}

/// Registers are stored one below the other, the first in the 8 bytes that end so many bytes below R10.
pub(crate) fn push_stores(
    into: &mut Vec<Option<Instruction>>,
    below: usize,
    kept: &[Register],
) -> Result<(), AllocError>
    requires { below + 8 * length kept.now ≤ STACK_BYTES }
    ensures { IfOk result (λ _. into.new.items ≡ into.old.items ++ stores below kept.now) }
{
    let mut end = below;
    for register in kept {
        into.extend_from_slice(&[Some(Instruction::StoreRegister {
            size: Size::DoubleWord,
            dst: Register::FRAME_POINTER,
            src: *register,
            offset: cell(end),
        })])?;
        end += 8;
    }
    Ok(())
}

/// Registers are loaded from there.
pub(crate) fn push_loads(
    into: &mut Vec<Option<Instruction>>,
    below: usize,
    kept: &[Register],
) -> Result<(), AllocError>
    requires { below + 8 * length kept.now ≤ STACK_BYTES }
    ensures { IfOk result (λ _. into.new.items ≡ into.old.items ++ loads below kept.now) }
{
    let mut end = below;
    for register in kept {
        into.extend_from_slice(&[Some(Instruction::Load {
            size: Size::DoubleWord,
            dst: *register,
            src: Register::FRAME_POINTER,
            offset: cell(end),
        })])?;
        end += 8;
    }
    Ok(())
}
