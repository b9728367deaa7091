//! Texts in quotes, with which a field is compared.

ghost use Rattle.std.specs.Prelude.{◌≡◌, ◌==◌, length, slice_index};
ghost use Rattle.common_definitions.specs.Gives.{Gives};
ghost use Rattle.instruction_set.specs.Instruction.{size_of};
ghost use Rattle.question_words.specs.Fault.{fault_of};
ghost use Rattle.question_words.specs.Layout.{entries};
ghost use Rattle.question_words.specs.Reading.{against as against_of, is_equal as is_equal_of, operand_against as operand_against_of, text_against as text_against_of, text_at};
ghost use Rattle.question_words.specs.steps.Views.{opens, reading_view};

use crate::fault::{FaultKind, ReadFault, fault, located};
use crate::layout::Layout;
use crate::operand::operand;
use crate::stack::Open;
use crate::stage::{Reading, bytes, bytes_predicate, settle};
use record_questions::{Comparison, Field, Predicate};
use std::alloc::Global;

/// After a field and a comparison: a text in quotes, or an operand.
#[tactic(auto, unfolding(crate::specs::Reading::against))]
pub(crate) fn against(
    alloc: Global,
    layout: &Layout,
    column: usize,
    word: &[u8],
    field: Field,
    comparison: Comparison,
    before: Vec<Open>,
) -> Result<Reading, ReadFault>
    ensures { Gives fault_of reading_view result
        (against_of (entries layout.now) column word.now field comparison (opens before.items)) }
{
    if is_quoted(word) {
        text_against(alloc, column, word, field, comparison, before)
    } else {
        operand_against(alloc, layout, column, word, field, comparison, before)
    }
}

fn is_quoted(word: &[u8]) -> bool
    ensures { result ≡ (slice_index word.now 0 == 34) }
{
    matches!(word, [b'"', ..])
}

/// A field is compared with an operand.
#[tactic(auto, unfolding(crate::specs::Reading::operand_against))]
fn operand_against(
    alloc: Global,
    layout: &Layout,
    column: usize,
    word: &[u8],
    field: Field,
    comparison: Comparison,
    before: Vec<Open>,
) -> Result<Reading, ReadFault>
    ensures { Gives fault_of reading_view result
        (operand_against_of (entries layout.now) column word.now field comparison (opens before.items)) }
{
    let operand = located(column, operand(layout, field, word))?;
    let condition = Predicate::Compare {
        field,
        comparison,
        operand,
    };
    Ok(settle(alloc, before, condition)?)
}

/// A field is compared with a text.
#[tactic(auto, unfolding(crate::specs::Reading::text_against))]
fn text_against(
    alloc: Global,
    column: usize,
    word: &[u8],
    field: Field,
    comparison: Comparison,
    before: Vec<Open>,
) -> Result<Reading, ReadFault>
    ensures { Gives fault_of reading_view result (text_against_of column word.now field comparison (opens before.items)) }
{
    let there = located(column, is_equal(comparison))?;
    let bytes = text(alloc, column, field, word)?;
    let condition = bytes_predicate(alloc, field.offset, there, bytes)?;
    Ok(settle(alloc, before, condition)?)
}

/// Is a text asked for, or another?
fn is_equal(comparison: Comparison) -> Result<bool, FaultKind>
    ensures { result ≡ is_equal_of comparison }
{
    match comparison {
        Comparison::Equal => Ok(true),
        Comparison::NotEqual => Ok(false),
        _ => Err(FaultKind::BytesComparison),
    }
}

/// The text that a word is, which has as many bytes as a field.
#[tactic(auto, unfolding(crate::specs::Reading::text_at))]
fn text(alloc: Global, column: usize, field: Field, word: &[u8]) -> Result<Vec<u8>, ReadFault>
    ensures { Gives fault_of (λ bytes. bytes.items) result (text_at column field word.now) }
{
    let bytes = bytes(alloc, column, word)?;
    if has_size(field, &bytes) {
        Ok(bytes)
    } else {
        Err(fault(column, FaultKind::Length))
    }
}

/// Are the bytes as many as a field has?
fn has_size(field: Field, bytes: &[u8]) -> bool
    ensures { result ≡ (length bytes.now == size_of field.size) }
{
    bytes.len() as u64 == field.size.bytes()
}
