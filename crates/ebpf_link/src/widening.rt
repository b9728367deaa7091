//! Arithmetic and compares of 64 bits in place of such of 32 bits that do the same: profile 3 knows sums of words alone.

ghost use Rattle.std.specs.Prelude.{true, ◌≡◌};
ghost use Rattle.ebpf_link.specs.Widening.{AreSmall, IsSameWide, IsSmall, IsUnsigned, IsWidened, wide_of};

use crate::known::{Known, source_fact};
use instruction_set::{Instruction, Operation, Register, Relation, Source, Width};
use word_domain::Domain;

/// Has an operand at most 32 bits?
fn is_low(known: &Known, source: Source) -> bool
    ensures { result ≡ true → IsSmall known.now.facts source }
{
    source_fact(known, source).bounds().high < 0x1_0000_0000
}

/// Has the sum of two operands at most 32 bits?
fn is_small(known: &Known, dst: Register, source: Source) -> bool
    ensures { result ≡ true → AreSmall known.now.facts dst source }
{
    let first = known.get(dst).bounds().high;
    let second = source_fact(known, source).bounds().high;
    first < 0x1_0000_0000 && second < 0x1_0000_0000 - first
}

/// Does a relation take no sign?
fn is_unsigned(relation: Relation) -> bool
    ensures { result ≡ true → IsUnsigned relation }
{
    match relation {
        Relation::Equal => true,
        Relation::NotEqual => true,
        Relation::Greater => true,
        Relation::GreaterOrEqual => true,
        Relation::Less => true,
        Relation::LessOrEqual => true,
        _ => false,
    }
}

/// Does an instruction do the same by 64 bits?
fn is_same_wide(known: &Known, instruction: &Instruction) -> bool
    ensures { result ≡ true → IsSameWide known.now.facts instruction.now }
{
    match *instruction {
        Instruction::Arithmetic {
            operation: Operation::Move,
            source,
            ..
        } => is_low(known, source),
        Instruction::Arithmetic {
            operation: Operation::Add,
            dst,
            source,
            ..
        } => is_small(known, dst, source),
        Instruction::Branch {
            relation,
            dst,
            source,
            ..
        } => {
            is_unsigned(relation) && is_low(known, Source::Register(dst)) && is_low(known, source)
        }
        _ => false,
    }
}

/// The same instruction, of 64 bits.
fn wide(instruction: Instruction) -> Instruction
    ensures { result ≡ wide_of instruction }
{
    match instruction {
        Instruction::Arithmetic {
            operation,
            dst,
            source,
            ..
        } => Instruction::Arithmetic {
            width: Width::Bits64,
            operation,
            dst,
            source,
        },
        Instruction::Branch {
            relation,
            dst,
            source,
            distance,
            ..
        } => Instruction::Branch {
            width: Width::Bits64,
            relation,
            dst,
            source,
            distance,
        },
        other => other,
    }
}

/// The same instruction, of 64 bits where that does the same.
pub(crate) fn widened(known: &Known, instruction: &Instruction) -> Instruction
    ensures { IsWidened known.now.facts instruction.now result }
{
    if is_same_wide(known, instruction) {
        wide(*instruction)
    } else {
        *instruction
    }
}
