//! Instructions in place of others that do the same, by what is known: a number in place of what gives it, and an access by a register that
//! has an area's first address. What computed the other address is then often read no more.

ghost use Rattle.std.specs.Prelude.{◌≡◌, IfSome};
ghost use Rattle.accepted_programs.specs.Facts.{fact};
ghost use Rattle.ebpf_link.specs.Folding.{IsFolded};
ghost use Rattle.ebpf_link.specs.Spelling.{IsSpelled};
ghost use Rattle.instruction_set.specs.declared.operation.Width.TheVariants.{Bits64};
ghost use Rattle.interval_domain.specs.Intervals.{intervals};

use crate::known::Known;
use crate::liveness::{Registers, bit};
use crate::pieces::compute;
use instruction_set::{Instruction, Operation, Register, Source};
use program_interface::{Area, REGISTERS, STACK_BYTES};
use word_domain::{Domain, Offsets};

/// The number that a register is known to have, where an immediate can spell it.
fn number(known: &Known, register: Register) -> Option<i32>
    ensures { IfSome result (λ number. IsSpelled Bits64 number (fact intervals known.now.facts register)) }
{
    let bounds = known.get(register).bounds();
    if bounds.low == bounds.high {
        small(bounds.low.cast_signed())
    } else {
        None
    }
}

/// A word as an immediate.
pub(crate) fn small(word: i64) -> Option<i32>
    ensures { IfSome result (λ number. number ≡ word) }
{
    if word >= -0x8000_0000 && word <= 0x7fff_ffff {
        Some(word as i32)
    } else {
        None
    }
}

/// A move of a number, in place of an instruction behind which its destination is known to have it.
pub(crate) fn folded(known: &Known, instruction: &Instruction) -> Instruction
    ensures { IsFolded known.now.facts instruction.now result }
{
    let Some(dst) = instruction.destination() else {
        return *instruction;
    };
    match number(known, dst) {
        Some(number) => compute(Operation::Move, dst, Source::Immediate(number)),
        None => *instruction,
    }
}

/// The distance of an address that is known, of this area.
fn distance(told: Option<Offsets>, area: Area) -> Option<i64> {
    let told = told?;
    if told.low == told.high && told.area == area {
        Some(told.low)
    } else {
        None
    }
}

/// The distance of the address by which an area is accessed best: of the stack its end, which R10 has, of others the first.
fn best(area: Area) -> i64 {
    match area {
        Area::Stack => STACK_BYTES as i64,
        _ => 0,
    }
}

/// A register, other than the base, by which an access to an area is done best: that with the best address, else one of these that has an
/// address whose distance is known.
fn holder(known: &Known, area: Area, base: Register, others: Registers) -> Option<(Register, i64)> {
    let mut found = None;
    for back in 0..REGISTERS {
        let register = Register::from_number((REGISTERS - 1 - back) as u8);
        if let Some(distance) = distance(known.get(register).offsets(), area) {
            if distance == best(area) {
                return Some((register, distance));
            }
            if register != base && (others & bit(register)) != 0 {
                found = Some((register, distance));
            }
        }
    }
    found
}

/// The register and the offset by which an access is done best.
fn better(
    known: &Known,
    base: Register,
    offset: i16,
    others: Registers,
) -> Option<(Register, i16)> {
    let area = known.get(base).offsets()?.area;
    let here = distance(known.get(base).offsets(), area)?;
    let (holder, distance) = holder(known, area, base, others)?;
    let from = here.wrapping_add(i64::from(offset)).wrapping_sub(distance);
    if from >= -0x8000 && from <= 0x7fff {
        Some((holder, from as i16))
    } else {
        None
    }
}

/// The same access, by a register that is kept: that with its area's best address, or one of these others.
pub(crate) fn rebased(known: &Known, instruction: &Instruction, others: Registers) -> Instruction {
    let Some(access) = instruction.access() else {
        return *instruction;
    };
    let Some((base, offset)) = better(known, access.base, access.offset, others) else {
        return *instruction;
    };
    match *instruction {
        Instruction::Load { size, dst, .. } => Instruction::Load {
            size,
            dst,
            src: base,
            offset,
        },
        Instruction::LoadSigned { size, dst, .. } => Instruction::LoadSigned {
            size,
            dst,
            src: base,
            offset,
        },
        Instruction::StoreImmediate { size, value, .. } => Instruction::StoreImmediate {
            size,
            dst: base,
            offset,
            value,
        },
        Instruction::StoreRegister { size, src, .. } => Instruction::StoreRegister {
            size,
            dst: base,
            src,
            offset,
        },
        other => other,
    }
}
