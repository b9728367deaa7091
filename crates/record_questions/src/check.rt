//! Whether a question can be asked.

ghost use Rattle.std.specs.Prelude.{◌≡◌, ◌≤◌, ◌+◌, IsTrue, ◌↔◌, length};
ghost use Rattle.common_definitions.specs.Bytes.{AreBytes};
ghost use Rattle.instruction_set.specs.Instruction.{size_of};
ghost use Rattle.record_questions.specs.Asked.{AreRanges, AreTallies, IsField, IsGrouping, IsNumber, IsOperand, IsPredicate, IsQuestion, IsRange, IsTally, emitted_bytes, stacked_bytes};
ghost use Rattle.record_questions.specs.Code.{counted};
ghost use Rattle.record_questions.specs.Tallies.{groups, words_of};

use crate::question::{ByteRange, Field, Grouping, Operand, Predicate, Question, Sign, Tally};
use instruction_set::Size;
use program_interface::{SCRATCH_BYTES, STACK_BYTES};

/// `Size::bytes` as a `u16`, and that it is small, so that sums with it fit.
pub(crate) fn bytes_of(size: Size) -> u16
    ensures value { result ≡ size_of size }
    ensures some { 1 ≤ result }
    ensures few { result ≤ 8 }
{
    match size {
        Size::Byte => 1,
        Size::HalfWord => 2,
        Size::Word => 4,
        Size::DoubleWord => 8,
    }
}

/// Does a field lie in a record of so many bytes?
fn is_field(bytes: u16, field: Field) -> bool
    ensures { IsTrue result ↔ IsField bytes field }
{
    u32::from(field.offset) + u32::from(bytes_of(field.size)) <= u32::from(bytes)
}

/// Do 64 bits hold a number?
fn is_number(sign: Sign, number: i128) -> bool
    ensures { IsTrue result ↔ IsNumber sign number }
{
    match sign {
        Sign::Unsigned => 0 <= number && number < 0x1_0000_0000_0000_0000,
        Sign::Signed => { -0x8000_0000_0000_0000 <= number && number < 0x8000_0000_0000_0000 }
    }
}

/// Can a field of this sign be compared with an operand?
fn is_operand(bytes: u16, sign: Sign, operand: Operand) -> bool
    ensures { IsTrue result ↔ IsOperand bytes sign operand }
{
    match operand {
        Operand::Number(number) => is_number(sign, number),
        Operand::Argument => true,
        Operand::Field(field) => is_field(bytes, field) && field.sign == sign,
    }
}

/// Are these some bytes that have room in a record of so many, from an offset on?
fn have_room(bytes: u16, offset: u16, these: &[u8]) -> bool
    ensures { IsTrue result ↔ ((1 ≤ length these.now) × (offset + length these.now ≤ bytes) × AreBytes these.now) }
{
    !these.is_empty() && offset <= bytes && these.len() <= usize::from(bytes - offset)
}

/// Does what a predicate looks at lie in a record of so many bytes?
fn is_predicate(bytes: u16, predicate: &Predicate) -> bool
    ensures { IsTrue result ↔ IsPredicate bytes predicate.now }
{
    match predicate {
        Predicate::Compare {
            field,
            comparison: _,
            operand,
        } => is_field(bytes, *field) && is_operand(bytes, field.sign, *operand),
        Predicate::Bytes {
            offset,
            bytes: these,
        } => have_room(bytes, *offset, these),
        Predicate::And(first, second) => is_predicate(bytes, first) && is_predicate(bytes, second),
        Predicate::Or(first, second) => is_predicate(bytes, first) && is_predicate(bytes, second),
        Predicate::Not(other) => is_predicate(bytes, other),
    }
}

/// Does a range lie in a record of so many bytes?
fn is_range(bytes: u16, range: ByteRange) -> bool
    ensures { IsTrue result ↔ IsRange bytes range }
{
    1 <= range.size && u32::from(range.offset) + u32::from(range.size) <= u32::from(bytes)
}

/// Does each of these lie in a record of so many bytes?
fn are_ranges(bytes: u16, ranges: &[ByteRange]) -> bool
    ensures { IsTrue result ↔ AreRanges bytes ranges.now }
{
    match ranges {
        [] => true,
        [first, rest @ ..] => is_range(bytes, *first) && are_ranges(bytes, rest),
    }
}

/// How many bytes ranges have.
pub fn emitted_bytes(ranges: &[ByteRange]) -> u64
    ensures { result ≡ counted (emitted_bytes ranges.now) }
{
    match ranges {
        [] => 0,
        [first, rest @ ..] => u64::from(first.size).saturating_add(emitted_bytes(rest)),
    }
}

/// How many bytes of the stack ranges take: none where there is one, since that is emitted from the block.
pub fn stacked_bytes(ranges: &[ByteRange]) -> u64
    ensures { result ≡ counted (stacked_bytes ranges.now) }
{
    match ranges {
        [] => 0,
        [_] => 0,
        _ => emitted_bytes(ranges),
    }
}

/// Can this be tallied of a record of so many bytes?
fn is_tally(bytes: u16, tally: Tally) -> bool
    ensures { IsTrue result ↔ IsTally bytes tally }
{
    match tally {
        Tally::Count => true,
        Tally::Sum(field) | Tally::Least(field) | Tally::Greatest(field) => is_field(bytes, field),
    }
}

/// Can each of these be tallied of a record of so many bytes?
fn are_tallies(bytes: u16, tallies: &[Tally]) -> bool
    ensures { IsTrue result ↔ AreTallies bytes tallies.now }
{
    match tallies {
        [] => true,
        [first, rest @ ..] => is_tally(bytes, *first) && are_tallies(bytes, rest),
    }
}

/// Are these groups by a field of a record of so many bytes?
fn is_grouping(bytes: u16, by: Option<Grouping>) -> bool
    ensures { IsTrue result ↔ IsGrouping bytes by }
{
    match by {
        None => true,
        Some(by) => {
            is_field(bytes, by.field)
                && by.field.sign == Sign::Unsigned
                && 1 <= by.values
                && u32::from(by.first) + u32::from(by.values) <= 0x1_0000
        }
    }
}

/// How many groups there are.
fn groups(by: Option<Grouping>) -> u16
    ensures { result ≡ groups by }
{
    match by {
        None => 1,
        Some(by) => by.values,
    }
}

/// How many words all tallies of all groups have, as far as 64 bits count.
pub fn words_of(question: &Question) -> usize
    ensures { result ≡ counted (words_of question.now) }
{
    usize::from(groups(question.by)).saturating_mul(question.tallies.len())
}

/// Can a question be asked of blocks of so many bytes?
pub fn is_question(block: u32, question: &Question) -> bool
    ensures { IsTrue result ↔ IsQuestion block question.now }
{
    1 <= question.size
        && 1 <= question.count
        && u32::from(question.first) + u32::from(question.count) * u32::from(question.size) <= block
        && is_predicate(question.size, &question.wanted)
        && are_ranges(question.size, &question.emitted)
        && stacked_bytes(&question.emitted) <= STACK_BYTES as u64
        && are_tallies(question.size, &question.tallies)
        && is_grouping(question.size, question.by)
        && words_of(question) <= SCRATCH_BYTES / 8
}
