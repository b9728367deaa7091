//! The pieces of a program that is laid out.

ghost use Rattle.std.specs.Prelude.{◌≡◌, pos};
ghost use Rattle.instruction_set.specs.declared.operation.Width.TheVariants.{Bits64};

use instruction_set::{Instruction, Operation, Register, Relation, Source, Width};

/// A piece of a program that is laid out.
#[derive(Clone, Copy)]
pub(crate) enum Piece {
    /// What stands at this slot begins here, once more.
    Begins(usize),
    /// An instruction that isn't a jump.
    Plain(Instruction),
    /// A jump to where this slot begins next.
    Jump(Instruction, usize),
    /// R0 gets the kind, the slot and the number of the guard at this place.
    Told(usize),
}

/// 64-bit arithmetic.
pub(crate) fn compute(operation: Operation, dst: Register, source: Source) -> Instruction
    ensures { result ≡ Instruction.Arithmetic Bits64 operation dst source }
{
    Instruction::Arithmetic {
        width: Width::Bits64,
        operation,
        dst,
        source,
    }
}

/// A 64-bit compare with a number.
pub(crate) fn compare(relation: Relation, dst: Register, number: i32) -> Instruction
    ensures { result ≡ Instruction.Branch Bits64 relation dst (Source.Immediate number) (pos 0) }
{
    Instruction::Branch {
        width: Width::Bits64,
        relation,
        dst,
        source: Source::Immediate(number),
        distance: 0,
    }
}

/// The slot to which a jump leads.
pub(crate) fn target(slot: usize, distance: i32) -> i64 {
    slot.min(1 << 20) as i64 + 1 + i64::from(distance)
}
