//! The text of a question.

ghost use Rattle.std.specs.Prelude.{◌≡◌, ◌++◌, IfOk, OnOk};
ghost use Rattle.std.specs.String.{string_bytes};
ghost use Rattle.question_words.specs.Condition.{said, Compare};
ghost use Rattle.question_words.specs.Field.{field_text};
ghost use Rattle.question_words.specs.Operand.{operand_word};
ghost use Rattle.question_words.specs.Printing.{bytes_text, condition_text, part_text};

use crate::field::{letter, shape_letters};
use crate::operand::comparison_word;
use record_questions::{Comparison, Field, Operand, Predicate};
use std::alloc::{AllocError, Global};

/// The text of a condition: fields by their types and offsets, numbers decimal, `!=` for bytes that aren't to be there, and parentheses
/// around each `&&` and `||` inside another condition and around what is after a `!`. It is read back as the same where numbers fit
/// their fields, bytes are one or more, and the text has at most `MOST_BYTES` bytes.
///
/// # Errors
///
/// Want of memory.
pub fn text_of(alloc: Global, condition: &Predicate) -> Result<String, AllocError>
    ensures { IfOk result (λ text. string_bytes text ≡ condition_text (said condition.now)) }
{
    let mut text = String::new(alloc);
    match condition {
        Predicate::And(first, second) => push_two(&mut text, first, " && ", second)?,
        Predicate::Or(first, second) => push_two(&mut text, first, " || ", second)?,
        other => push_part(&mut text, other)?,
    }
    Ok(text)
}

fn push_two(
    out: &mut String,
    first: &Predicate,
    joint: &str,
    second: &Predicate,
) -> Result<(), AllocError>
    ensures { OnOk result (string_bytes out.new
        ≡ string_bytes out.old ++ (part_text (said first.now) ++ (joint.now ++ part_text (said second.now)))) }
{
    push_part(out, first)?;
    out.push_str(joint)?;
    push_part(out, second)
}

/// Adds a condition inside another.
fn push_part(out: &mut String, condition: &Predicate) -> Result<(), AllocError>
    ensures { OnOk result (string_bytes out.new ≡ string_bytes out.old ++ part_text (said condition.now)) }
{
    match condition {
        Predicate::Compare {
            field,
            comparison,
            operand,
        } => push_comparison(out, *field, *comparison, *operand),
        Predicate::Bytes { offset, bytes } => push_bytes(out, *offset, " == 0x", bytes),
        Predicate::And(first, second) => {
            out.push_str("(")?;
            push_part(out, first)?;
            out.push_str(" && ")?;
            push_part(out, second)?;
            out.push_str(")")
        }
        Predicate::Or(first, second) => {
            out.push_str("(")?;
            push_part(out, first)?;
            out.push_str(" || ")?;
            push_part(out, second)?;
            out.push_str(")")
        }
        Predicate::Not(condition) => match &**condition {
            Predicate::Bytes { offset, bytes } => push_bytes(out, *offset, " != 0x", bytes),
            Predicate::And(..) | Predicate::Or(..) => {
                out.push_str("!")?;
                push_part(out, condition)
            }
            _ => {
                out.push_str("!(")?;
                push_part(out, condition)?;
                out.push_str(")")
            }
        },
    }
}

fn push_comparison(
    out: &mut String,
    field: Field,
    comparison: Comparison,
    operand: Operand,
) -> Result<(), AllocError>
    ensures { OnOk result (string_bytes out.new ≡ string_bytes out.old ++ part_text (Compare field comparison operand)) }
{
    push_field(out, field)?;
    out.push_str(" ")?;
    out.push_str(comparison_word(comparison))?;
    out.push_str(" ")?;
    push_operand(out, operand)
}

fn push_field(out: &mut String, field: Field) -> Result<(), AllocError>
    ensures { OnOk result (string_bytes out.new ≡ string_bytes out.old ++ field_text field) }
{
    let Field {
        size,
        offset,
        sign,
        order,
    } = field;
    out.push_str(letter(sign))?;
    out.push_str(shape_letters(size, order))?;
    write!(out, "@{offset}")
}

fn push_operand(out: &mut String, operand: Operand) -> Result<(), AllocError>
    ensures { OnOk result (string_bytes out.new ≡ string_bytes out.old ++ operand_word operand) }
{
    match operand {
        Operand::Number(number) => write!(out, "{number}"),
        Operand::Argument => out.push_str("arg"),
        Operand::Field(field) => push_field(out, field),
    }
}

fn push_bytes(
    out: &mut String,
    offset: u16,
    comparison: &str,
    bytes: &[u8],
) -> Result<(), AllocError>
    ensures { OnOk result (string_bytes out.new ≡ string_bytes out.old ++ bytes_text offset comparison.now bytes.now) }
{
    let digits = hex::encode(*out.allocator(), bytes)?;
    write!(out, "bytes@{offset}")?;
    out.push_str(comparison)?;
    out.push_str(digits.as_str())
}
