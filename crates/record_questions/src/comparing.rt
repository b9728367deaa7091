//! The code that compares a field.

ghost use Rattle.std.specs.Prelude.{◌≡◌, ◌<◌, ◌≤◌, ◌++◌, ◌-◌, ◌^◌, pos, ◌+◌, OnOk};
ghost use Rattle.record_questions.specs.Asked.{IsField, IsOperand};
ghost use Rattle.record_questions.specs.Code.{comparison_code, comparison_slots, jump_of, jump_where, opposite};

use crate::emitting::{push, short};
use crate::loads::{field_slots, operand_slots, push_field, push_operand, source_of};
use crate::question::{Comparison, Field, Operand, Sign};
use instruction_set::{Instruction, Register, Relation, Width};
use std::alloc::AllocError;

/// The comparison that holds where this one doesn't.
fn opposite(comparison: Comparison) -> Comparison
    ensures { result ≡ opposite comparison }
{
    match comparison {
        Comparison::Equal => Comparison::NotEqual,
        Comparison::NotEqual => Comparison::Equal,
        Comparison::Less => Comparison::GreaterOrEqual,
        Comparison::LessOrEqual => Comparison::Greater,
        Comparison::Greater => Comparison::LessOrEqual,
        Comparison::GreaterOrEqual => Comparison::Less,
    }
}

/// The jump that is taken where a comparison holds.
fn jump_where(sign: Sign, comparison: Comparison) -> Relation
    ensures { result ≡ jump_where sign comparison }
{
    match (sign, comparison) {
        (_, Comparison::Equal) => Relation::Equal,
        (_, Comparison::NotEqual) => Relation::NotEqual,
        (Sign::Unsigned, Comparison::Less) => Relation::Less,
        (Sign::Unsigned, Comparison::LessOrEqual) => Relation::LessOrEqual,
        (Sign::Unsigned, Comparison::Greater) => Relation::Greater,
        (Sign::Unsigned, Comparison::GreaterOrEqual) => Relation::GreaterOrEqual,
        (Sign::Signed, Comparison::Less) => Relation::SignedLess,
        (Sign::Signed, Comparison::LessOrEqual) => Relation::SignedLessOrEqual,
        (Sign::Signed, Comparison::Greater) => Relation::SignedGreater,
        (Sign::Signed, Comparison::GreaterOrEqual) => Relation::SignedGreaterOrEqual,
    }
}

/// The jump of a comparison, after which the program goes on where it holds, or where it doesn't.
fn jump_of(sign: Sign, goes_on: bool, comparison: Comparison) -> Relation
    ensures { result ≡ jump_of sign goes_on comparison }
{
    if goes_on {
        jump_where(sign, opposite(comparison))
    } else {
        jump_where(sign, comparison)
    }
}

/// How many slots a comparison takes.
pub(crate) fn comparison_slots(field: Field, operand: Operand) -> u64
    ensures value { result ≡ comparison_slots field operand }
    ensures few { result ≤ 7 }
{
    field_slots(field) + (operand_slots(operand) + 1)
}

/// Of the record at a byte of the block: after this code the program goes on where a comparison holds (`goes_on`), or where it doesn't;
/// else it jumps so many slots further.
pub(crate) fn push_comparison(
    code: &mut Vec<Instruction>,
    byte: u32,
    goes_on: bool,
    field: Field,
    comparison: Comparison,
    operand: Operand,
    skip: u64,
) -> Result<(), AllocError>
    requires field { IsField (2 ^ 15 - byte) field }
    requires operand { IsOperand (2 ^ 15 - byte) field.sign operand }
    requires skip { skip < 2 ^ 15 }
    ensures { OnOk result (code.new.items ≡ code.old.items ++ comparison_code byte goes_on field comparison operand skip) }
{
    push_field(code, 4, byte, field)?;
    push_operand(code, byte, field.sign, operand)?;
    let distance = short(skip);
    push(
        code,
        Instruction::Branch {
            width: Width::Bits64,
            relation: jump_of(field.sign, goes_on, comparison),
            dst: Register::from_number(4),
            source: source_of(operand),
            distance,
        },
    )?;
    Ok(())
}
