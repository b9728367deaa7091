//! What is read so far, and what a word makes of it.

ghost use Rattle.std.specs.Prelude.{◌≡◌, ◌∷◌, ◌||◌, codes, IfOk};
ghost use Rattle.std.specs.Str.{bytes_eq};
ghost use Rattle.std.specs.Result.{result_map_both};
ghost use Rattle.common_definitions.specs.Gives.{Gives};
ghost use Rattle.text_lines.specs.Cut.{cut_at};
ghost use Rattle.question_words.specs.Condition.{said};
ghost use Rattle.question_words.specs.Fault.{at, fault_of};
ghost use Rattle.question_words.specs.Layout.{entries};
ghost use Rattle.question_words.specs.Operand.{begins_number};
ghost use Rattle.question_words.specs.Reading.{all_of, bytes_before_quote, bytes_condition, bytes_of, bytes_written, closed as closed_at, compared as compared_of, finished, is_blank, is_there, joined as joined_at, next as next_of, settled, step as step_of, subject_in, subject_of, wanted as wanted_at, with_or as with_or_of, Wanted as AtWanted};
ghost use Rattle.question_words.specs.steps.Views.{open_view, opens, reading_view, stage_view};

use crate::fault::{FaultKind, ReadFault, fault, located};
use crate::field::{field, offset};
use crate::layout::Layout;
use crate::operand::{begins_word, comparison, is_number};
use crate::stack::{Open, put, take};
use crate::text::against;
use crate::within::{Within, lacking, next_within};
use hex::FromHexError;
use record_questions::{Comparison, Field, Predicate};
use std::alloc::{AllocError, Global};
use text_lines::cut;

/// What the place that is read begins with.
#[derive(Drop)]
pub(crate) enum Stage {
    /// A condition is wanted.
    Wanted,
    /// A comparison is wanted after this field.
    Compared(Field),
    /// An operand is wanted after this field and comparison.
    Against(Field, Comparison),
    /// `==` or `!=` is wanted after the offset of bytes.
    BytesCompared(u16),
    /// The bytes are wanted, which are to be there or not.
    AgainstBytes(u16, bool),
    /// A part of a range or a set is wanted after this field and `in`.
    In(Field, Within),
    /// A condition is whole, but for what is open.
    Whole(Predicate),
}

/// What is read so far.
#[derive(Drop)]
pub(crate) struct Reading {
    /// What the place begins with.
    pub(crate) stage: Stage,
    /// What is open before it, the nearest last.
    pub(crate) before: Vec<Open>,
}

/// What is read after one more word.
pub(crate) fn step(
    alloc: Global,
    layout: &Layout,
    column: usize,
    word: &[u8],
    reading: Reading,
) -> Result<Reading, ReadFault>
    ensures { Gives fault_of reading_view result (step_of (entries layout.now) column word.now (reading_view reading)) }
{
    if is_space(word) {
        return Ok(reading);
    }
    let Reading { stage, before } = reading;
    next(alloc, layout, column, word, stage, before)
}

fn is_space(word: &[u8]) -> bool
    ensures { result ≡ is_blank word.now }
{
    matches!(word, b" " | b"\t" | b"\n" | b"\r")
}

fn next(
    alloc: Global,
    layout: &Layout,
    column: usize,
    word: &[u8],
    stage: Stage,
    before: Vec<Open>,
) -> Result<Reading, ReadFault>
    ensures { Gives fault_of reading_view result (next_of (entries layout.now) column word.now (stage_view stage) (opens before.items)) }
{
    match stage {
        Stage::Wanted => wanted(layout, column, word, before),
        Stage::Compared(field) => compared(column, word, field, before),
        Stage::Against(field, comparison) => {
            against(alloc, layout, column, word, field, comparison, before)
        }
        Stage::BytesCompared(offset) => {
            let there = located(column, there(word))?;
            let stage = Stage::AgainstBytes(offset, there);
            Ok(Reading { stage, before })
        }
        Stage::AgainstBytes(offset, there) => {
            let bytes = bytes(alloc, column, word)?;
            let condition = bytes_predicate(alloc, offset, there, bytes)?;
            Ok(settle(alloc, before, condition)?)
        }
        Stage::In(field, part) => next_within(alloc, layout, column, word, field, part, before),
        Stage::Whole(condition) => joined(alloc, column, word, condition, before),
    }
}

/// A condition is wanted: a `!`, a `(`, or what is compared.
#[tactic(auto, unfolding(crate::specs::Reading::wanted))]
fn wanted(
    layout: &Layout,
    column: usize,
    word: &[u8],
    before: Vec<Open>,
) -> Result<Reading, ReadFault>
    ensures { Gives fault_of reading_view result (wanted_at (entries layout.now) column word.now (opens before.items)) }
{
    match word {
        b"!" => Ok(opened(before, Open::Not)?),
        b"(" => Ok(opened(before, Open::Parenthesis)?),
        _ => {
            let stage = located(column, subject(layout, word))?;
            Ok(Reading { stage, before })
        }
    }
}

/// A condition is wanted after what is opened.
fn opened(before: Vec<Open>, part: Open) -> Result<Reading, AllocError>
    ensures { IfOk result (λ reading. reading_view reading
        ≡ record { stage = AtWanted; before = open_view part ∷ opens before.items }) }
{
    let mut before = before;
    put(&mut before, part)?;
    Ok(Reading {
        stage: Stage::Wanted,
        before,
    })
}

/// What is compared: a field, or bytes.
fn subject(layout: &Layout, word: &[u8]) -> Result<Stage, FaultKind>
    ensures { result_map_both stage_view (λ kind. kind) result ≡ subject_of (entries layout.now) word.now }
{
    if is_on_the_right(word) {
        Err(FaultKind::Left)
    } else if begins_word(word) {
        named(layout, word)
    } else {
        Err(FaultKind::Condition)
    }
}

/// Is it a number, or the argument?
fn is_on_the_right(word: &[u8]) -> bool
    ensures { result ≡ (begins_number word.now || bytes_eq word.now (codes "arg")) }
{
    is_number(word) || matches!(word, b"arg")
}

/// The field or the bytes that a word says.
fn named(layout: &Layout, word: &[u8]) -> Result<Stage, FaultKind>
    ensures { result_map_both stage_view (λ kind. kind) result ≡ subject_in (entries layout.now) word.now (cut_at 64 word.now) }
{
    if let Some((b"bytes", at)) = cut(word, b'@') {
        return Ok(Stage::BytesCompared(offset(at)?));
    }
    Ok(Stage::Compared(field(layout, word)?))
}

/// After a field: a comparison, or `in`.
#[tactic(auto, unfolding(crate::specs::Reading::compared))]
fn compared(
    column: usize,
    word: &[u8],
    field: Field,
    before: Vec<Open>,
) -> Result<Reading, ReadFault>
    ensures { Gives fault_of reading_view result (compared_of column word.now field (opens before.items)) }
{
    let stage = if matches!(word, b"in") {
        Stage::In(field, Within::Begun)
    } else {
        Stage::Against(field, located(column, comparison(word))?)
    };
    Ok(Reading { stage, before })
}

/// Are bytes to be there, or not?
fn there(word: &[u8]) -> Result<bool, FaultKind>
    ensures { result ≡ is_there word.now }
{
    match word {
        b"==" => Ok(true),
        b"!=" => Ok(false),
        _ => Err(FaultKind::BytesComparison),
    }
}

/// The bytes that a word is.
pub(crate) fn bytes(alloc: Global, column: usize, word: &[u8]) -> Result<Vec<u8>, ReadFault>
    ensures { Gives fault_of (λ bytes. bytes.items) result (at column (bytes_of word.now)) }
{
    match word {
        [b'"', inside @ ..] => quoted(alloc, column, inside),
        [b'0', b'x', digits @ ..] => written(alloc, column, digits),
        _ => Err(fault(column, FaultKind::Bytes)),
    }
}

/// The bytes before the second quote, one or more.
fn quoted(alloc: Global, column: usize, inside: &[u8]) -> Result<Vec<u8>, ReadFault>
    ensures { Gives fault_of (λ bytes. bytes.items) result (at column (bytes_before_quote (cut_at 34 inside.now))) }
{
    match cut(inside, b'"') {
        Some((text, _)) if !text.is_empty() => Ok(Vec::from_slice(alloc, text)?),
        Some(_) => Err(fault(column, FaultKind::Bytes)),
        None => Err(fault(column, FaultKind::Quote)),
    }
}

/// The bytes that digits write, one or more.
fn written(alloc: Global, column: usize, digits: &[u8]) -> Result<Vec<u8>, ReadFault>
    ensures { Gives fault_of (λ bytes. bytes.items) result (at column (bytes_written digits.now)) }
{
    if digits.is_empty() {
        return Err(fault(column, FaultKind::Bytes));
    }
    match hex::decode(alloc, digits) {
        Ok(bytes) => Ok(bytes),
        Err(FromHexError::OutOfMemory) => Err(ReadFault::Memory),
        Err(_) => Err(fault(column, FaultKind::Bytes)),
    }
}

/// The condition that a record has these bytes, or hasn't.
pub(crate) fn bytes_predicate(
    alloc: Global,
    offset: u16,
    there: bool,
    bytes: Vec<u8>,
) -> Result<Predicate, AllocError>
    ensures { IfOk result (λ condition. said condition ≡ bytes_condition offset there bytes.items) }
{
    let condition = Predicate::Bytes { offset, bytes };
    if there {
        return Ok(condition);
    }
    Ok(Predicate::Not(Box::new(alloc, condition)?))
}

/// A condition is whole: an `&&`, an `||` or a `)` is after it.
#[tactic(auto, unfolding(crate::specs::Reading::joined))]
fn joined(
    alloc: Global,
    column: usize,
    word: &[u8],
    condition: Predicate,
    before: Vec<Open>,
) -> Result<Reading, ReadFault>
    ensures { Gives fault_of reading_view result (joined_at column word.now (said condition) (opens before.items)) }
{
    match word {
        b"&&" => Ok(opened(before, Open::And(condition))?),
        b"||" => {
            let (condition, before) = with_or(alloc, before, condition)?;
            Ok(opened(before, Open::Or(condition))?)
        }
        b")" => {
            let (condition, before) = with_or(alloc, before, condition)?;
            closed(alloc, column, before, condition)
        }
        _ => Err(fault(column, FaultKind::Joint)),
    }
}

/// A `)` closes the parenthesis that is open.
fn closed(
    alloc: Global,
    column: usize,
    before: Vec<Open>,
    condition: Predicate,
) -> Result<Reading, ReadFault>
    ensures { Gives fault_of reading_view result (closed_at column (said condition, opens before.items)) }
{
    let mut before = before;
    match take(&mut before) {
        Some(Open::Parenthesis) => Ok(settle(alloc, before, condition)?),
        _ => Err(fault(column, FaultKind::NotOpened)),
    }
}

/// A condition is whole: a `!` and an `&&` before it take it.
pub(crate) fn settle(
    alloc: Global,
    before: Vec<Open>,
    condition: Predicate,
) -> Result<Reading, AllocError>
    ensures { IfOk result (λ reading. reading_view reading ≡ settled (opens before.items) (said condition)) }
{
    let mut before = before;
    let mut whole = condition;
    while let Some(part) = take(&mut before) {
        match part {
            Open::Not => whole = Predicate::Not(Box::new(alloc, whole)?),
            Open::And(first) => {
                let first = Box::new(alloc, first)?;
                whole = Predicate::And(first, Box::new(alloc, whole)?);
            }
            other => {
                put(&mut before, other)?;
                break;
            }
        }
    }
    Ok(Reading {
        stage: Stage::Whole(whole),
        before,
    })
}

/// An `||` before a condition takes it.
fn with_or(
    alloc: Global,
    before: Vec<Open>,
    condition: Predicate,
) -> Result<(Predicate, Vec<Open>), AllocError>
    ensures { IfOk result (λ whole. (said whole.0, opens whole.1.items) ≡ with_or_of (opens before.items) (said condition)) }
{
    let mut before = before;
    match take(&mut before) {
        Some(Open::Or(first)) => {
            let first = Box::new(alloc, first)?;
            Ok((Predicate::Or(first, Box::new(alloc, condition)?), before))
        }
        Some(other) => {
            put(&mut before, other)?;
            Ok((condition, before))
        }
        None => Ok((condition, before)),
    }
}

/// The condition that is read where the text ends.
pub(crate) fn finish(alloc: Global, column: usize, reading: Reading) -> Result<Predicate, ReadFault>
    ensures { Gives fault_of said result (finished column (stage_view reading.stage) (opens reading.before.items)) }
{
    let Reading { stage, before } = reading;
    let kind = match stage {
        Stage::Whole(condition) => return all(alloc, column, before, condition),
        Stage::Wanted => FaultKind::Condition,
        Stage::Compared(_) => FaultKind::Comparison,
        Stage::Against(..) => FaultKind::Operand,
        Stage::BytesCompared(_) => FaultKind::BytesComparison,
        Stage::AgainstBytes(..) => FaultKind::Bytes,
        Stage::In(_, part) => lacking(part),
    };
    Err(fault(column, kind))
}

/// A condition that is whole, where nothing else is open.
fn all(
    alloc: Global,
    column: usize,
    before: Vec<Open>,
    condition: Predicate,
) -> Result<Predicate, ReadFault>
    ensures { Gives fault_of said result (all_of column (with_or_of (opens before.items) (said condition))) }
{
    let (condition, before) = with_or(alloc, before, condition)?;
    only(column, before, condition)
}

fn only(column: usize, before: Vec<Open>, condition: Predicate) -> Result<Predicate, ReadFault>
    ensures { Gives fault_of said result (all_of column (said condition, opens before.items)) }
{
    let mut before = before;
    match take(&mut before) {
        None => Ok(condition),
        Some(_) => Err(fault(column, FaultKind::NotClosed)),
    }
}
