//! Single instructions, and the numbers in them.

ghost use Rattle.std.specs.Prelude.{◌≡◌, ◌<◌, ◌^◌, ◌∷◌, ◌++◌, [], pos, OnOk};

use instruction_set::{Instruction, Operation, Register, Size, Source, Width};
use std::alloc::AllocError;

/// One instruction more.
pub(crate) fn push(code: &mut Vec<Instruction>, instruction: Instruction) -> Result<(), AllocError>
    ensures { OnOk result (code.new.items ≡ code.old.items ++ (instruction ∷ [])) }
{
    code.extend_from_slice(&[instruction])
}

/// A number as an offset or a distance.
pub(crate) fn short(number: u64) -> i16
    requires { number < 2 ^ 15 }
    ensures { result ≡ pos number }
{
    number as i16
}

/// A number as an immediate.
pub(crate) fn long(number: u64) -> i32
    requires { number < 2 ^ 31 }
    ensures { result ≡ pos number }
{
    number as i32
}

/// A 64-bit operation.
pub(crate) fn arithmetic(operation: Operation, dst: u8, source: Source) -> Instruction
    requires { dst < 11 }
    ensures { result ≡ Instruction.Arithmetic Width.Bits64 operation dst source }
{
    Instruction::Arithmetic {
        width: Width::Bits64,
        operation,
        dst: Register::from_number(dst),
        source,
    }
}

/// A register as a source.
pub(crate) fn from_register(number: u8) -> Source
    requires { number < 11 }
    ensures { result ≡ Source.Register number }
{
    Source::Register(Register::from_number(number))
}

/// A load by an address in a register and an offset.
pub(crate) fn load(size: Size, dst: u8, src: u8, offset: i16) -> Instruction
    requires dst { dst < 11 }
    requires src { src < 11 }
    ensures { result ≡ Instruction.Load size dst src offset }
{
    Instruction::Load {
        size,
        dst: Register::from_number(dst),
        src: Register::from_number(src),
        offset,
    }
}
