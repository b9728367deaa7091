//! What a field is compared with.

ghost use Rattle.std.specs.Prelude.{◌≡◌, slice_index};
ghost use Rattle.question_words.specs.Operand.{operand_of, number_for, field_for, is_of_type, least_of, greatest_of, begins_number, comparison_of, comparison_text};
ghost use Rattle.question_words.specs.Cutting.{is_word_byte};
ghost use Rattle.question_words.specs.Layout.{entries};

use crate::cutting::is_in_word;
use crate::fault::FaultKind;
use crate::field;
use crate::layout::Layout;
use crate::number::number;
use instruction_set::Size;
use record_questions::{Comparison, Field, Operand, Sign};

/// The operand that a word is, after a field and a comparison.
pub(crate) fn operand(layout: &Layout, against: Field, word: &[u8]) -> Result<Operand, FaultKind>
    ensures { result ≡ operand_of (entries layout.now) against word.now }
{
    if is_number(word) {
        number_of_type(against, number(word)?)
    } else if matches!(word, b"arg") {
        Ok(Operand::Argument)
    } else if begins_word(word) {
        field_of_sign(against, field::field(layout, word)?)
    } else {
        Err(FaultKind::Operand)
    }
}

/// A field, where it has a sign as the other has, or neither has one.
fn field_of_sign(against: Field, field: Field) -> Result<Operand, FaultKind>
    ensures { result ≡ field_for against field }
{
    match (against.sign, field.sign) {
        (Sign::Unsigned, Sign::Unsigned) | (Sign::Signed, Sign::Signed) => {
            Ok(Operand::Field(field))
        }
        _ => Err(FaultKind::Sign),
    }
}

/// A number, where a field's type has it.
fn number_of_type(field: Field, number: i128) -> Result<Operand, FaultKind>
    ensures { result ≡ number_for field number }
{
    if has_number(field, number) {
        Ok(Operand::Number(number))
    } else {
        Err(FaultKind::Range)
    }
}

/// Has a field's type this number?
fn has_number(field: Field, number: i128) -> bool
    ensures { result ≡ is_of_type field number }
{
    least(field) <= number && number <= greatest(field)
}

/// The least number of a field's type.
fn least(field: Field) -> i128
    ensures { result ≡ least_of field.sign field.size }
{
    match (field.sign, field.size) {
        (Sign::Unsigned, _) => 0,
        (Sign::Signed, Size::Byte) => -0x80,
        (Sign::Signed, Size::HalfWord) => -0x8000,
        (Sign::Signed, Size::Word) => -0x8000_0000,
        (Sign::Signed, Size::DoubleWord) => -0x8000_0000_0000_0000,
    }
}

/// The greatest number of a field's type.
fn greatest(field: Field) -> i128
    ensures { result ≡ greatest_of field.sign field.size }
{
    match (field.sign, field.size) {
        (Sign::Unsigned, Size::Byte) => 0xff,
        (Sign::Unsigned, Size::HalfWord) => 0xffff,
        (Sign::Unsigned, Size::Word) => 0xffff_ffff,
        (Sign::Unsigned, Size::DoubleWord) => 0xffff_ffff_ffff_ffff,
        (Sign::Signed, Size::Byte) => 0x7f,
        (Sign::Signed, Size::HalfWord) => 0x7fff,
        (Sign::Signed, Size::Word) => 0x7fff_ffff,
        (Sign::Signed, Size::DoubleWord) => 0x7fff_ffff_ffff_ffff,
    }
}

/// Does a word begin as numbers do?
pub(crate) fn is_number(word: &[u8]) -> bool
    ensures { result ≡ begins_number word.now }
{
    match word {
        [first, ..] => first.is_ascii_digit() || *first == b'-',
        [] => false,
    }
}

/// Does a word begin as names and fields do?
pub(crate) fn begins_word(word: &[u8]) -> bool
    ensures { result ≡ is_word_byte (slice_index word.now 0) }
{
    match word {
        [first, ..] => is_in_word(*first),
        [] => false,
    }
}

/// The comparison that a word is.
pub(crate) fn comparison(word: &[u8]) -> Result<Comparison, FaultKind>
    ensures { result ≡ comparison_of word.now }
{
    match word {
        b"==" => Ok(Comparison::Equal),
        b"!=" => Ok(Comparison::NotEqual),
        b"<" => Ok(Comparison::Less),
        b"<=" => Ok(Comparison::LessOrEqual),
        b">" => Ok(Comparison::Greater),
        b">=" => Ok(Comparison::GreaterOrEqual),
        _ => Err(FaultKind::Comparison),
    }
}

/// A comparison as a word.
pub(crate) fn comparison_word(comparison: Comparison) -> &'static str
    ensures { result.now ≡ comparison_text comparison }
{
    match comparison {
        Comparison::Equal => "==",
        Comparison::NotEqual => "!=",
        Comparison::Less => "<",
        Comparison::LessOrEqual => "<=",
        Comparison::Greater => ">",
        Comparison::GreaterOrEqual => ">=",
    }
}
