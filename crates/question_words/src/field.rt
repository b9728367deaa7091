//! Fields: a type and an offset, or a name of the layout.

ghost use Rattle.std.specs.Prelude.{◌≡◌, [], ◌∷◌};
ghost use Rattle.question_words.specs.Field.{field_of, typed_of, offset_of, sign_of, shape_of, sign_letter, shape_text};
ghost use Rattle.question_words.specs.Layout.{entries};

use crate::fault::FaultKind;
use crate::layout::Layout;
use instruction_set::Size;
use record_questions::{ByteOrder, Field, Sign};
use text_lines::{cut, decimal};

/// The field that a word is.
pub(crate) fn field(layout: &Layout, word: &[u8]) -> Result<Field, FaultKind>
    ensures { result ≡ field_of (entries layout.now) word.now }
{
    match cut(word, b'@') {
        Some((kind, offset)) => typed(kind, offset),
        None => match layout.field(word) {
            Some(field) => Ok(field),
            None => Err(FaultKind::Name),
        },
    }
}

/// The field of a type, at an offset.
pub(crate) fn typed(kind: &[u8], at: &[u8]) -> Result<Field, FaultKind>
    ensures { result ≡ typed_of kind.now at.now }
{
    let (letter, rest) = match kind {
        [letter, rest @ ..] => (*letter, rest),
        [] => return Err(FaultKind::Type),
    };
    let sign = sign(letter)?;
    let (size, order) = shape(rest)?;
    let offset = offset(at)?;
    Ok(Field {
        size,
        offset,
        sign,
        order,
    })
}

/// The sign of a type's first letter.
fn sign(letter: u8) -> Result<Sign, FaultKind>
    ensures { result ≡ sign_of letter }
{
    match letter {
        b'u' => Ok(Sign::Unsigned),
        b'i' => Ok(Sign::Signed),
        _ => Err(FaultKind::Type),
    }
}

/// The size and the order of bytes of a type's other letters.
fn shape(text: &[u8]) -> Result<(Size, ByteOrder), FaultKind>
    ensures { result ≡ shape_of text.now }
{
    match text {
        b"8" => Ok((Size::Byte, ByteOrder::Little)),
        b"16" => Ok((Size::HalfWord, ByteOrder::Little)),
        b"32" => Ok((Size::Word, ByteOrder::Little)),
        b"64" => Ok((Size::DoubleWord, ByteOrder::Little)),
        b"8be" => Ok((Size::Byte, ByteOrder::Big)),
        b"16be" => Ok((Size::HalfWord, ByteOrder::Big)),
        b"32be" => Ok((Size::Word, ByteOrder::Big)),
        b"64be" => Ok((Size::DoubleWord, ByteOrder::Big)),
        _ => Err(FaultKind::Type),
    }
}

/// The offset that decimal digits write.
pub(crate) fn offset(text: &[u8]) -> Result<u16, FaultKind>
    ensures { result ≡ offset_of text.now }
{
    match decimal(text) {
        Some(number) if number < 0x1_0000 => Ok(number as u16),
        _ => Err(FaultKind::Offset),
    }
}

/// The letter of a sign.
pub(crate) fn letter(sign: Sign) -> &'static str
    ensures { result.now ≡ sign_letter sign ∷ [] }
{
    match sign {
        Sign::Unsigned => "u",
        Sign::Signed => "i",
    }
}

/// The letters of a size and an order of bytes.
pub(crate) fn shape_letters(size: Size, order: ByteOrder) -> &'static str
    ensures { result.now ≡ shape_text size order }
{
    match (order, size) {
        (ByteOrder::Little, Size::Byte) => "8",
        (ByteOrder::Little, Size::HalfWord) => "16",
        (ByteOrder::Little, Size::Word) => "32",
        (ByteOrder::Little, Size::DoubleWord) => "64",
        (ByteOrder::Big, Size::Byte) => "8be",
        (ByteOrder::Big, Size::HalfWord) => "16be",
        (ByteOrder::Big, Size::Word) => "32be",
        (ByteOrder::Big, Size::DoubleWord) => "64be",
    }
}
