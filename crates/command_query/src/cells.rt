//! What records have in columns.

ghost use Rattle.std.specs.Prelude.{◌≡◌, ◌≤◌, ◌↔◌, length, IfSome, IsSome};
ghost use Rattle.instruction_set.specs.Instruction.{size_of};
ghost use Rattle.record_questions.specs.Question.{number_of, signed_by};
ghost use Rattle.command_query.specs.Cells.{HasColumn, IsValueIn, LiesAmong};

use crate::columns::{Column, Kind, bytes_of};
use byteorder::{BigEndian, ByteOrder as _, LittleEndian};
use record_questions::{ByteOrder, Field, Sign};
use std::str;

/// What a row has in a column.
#[derive(Clone, Copy)]
pub(crate) enum Cell<'r> {
    /// A number.
    Number(i128),
    /// A text.
    Text(&'r str),
    /// Bytes.
    Bytes(&'r [u8]),
    /// Nothing: a tally that records have and none matches.
    Nothing,
}

/// What bytes of a record have in a column, where the first of them is at an offset of it.
pub(crate) fn cell_of<'r>(column: &Column, from: u16, bytes: &'r [u8]) -> Cell<'r>
    ensures { HasColumn from column.now.kind bytes.now result }
{
    match column.kind {
        Kind::Number(field) => match number_in(field, from, bytes) {
            Some(number) => Cell::Number(number),
            None => Cell::Nothing,
        },
        Kind::Text { offset, size } => text_in(part(bytes, from, offset, size)),
        Kind::Bytes { offset, size } => Cell::Bytes(part(bytes, from, offset, size)),
    }
}

/// The value of a field of a record, by bytes of which the first is at an offset of it; `None` where it isn't among them.
fn number_in(field: Field, from: u16, bytes: &[u8]) -> Option<i128>
    ensures found { IsSome result ↔ LiesAmong from field bytes.now }
    ensures value { IfSome result (IsValueIn from field bytes.now) }
{
    if field.offset < from {
        return None;
    }
    let first = usize::from(field.offset - from);
    if bytes.len() < first + usize::from(bytes_of(field.size)) {
        return None;
    }
    Some(spelled(field, &bytes[first..]))
}

/// The value of a field that bytes begin with.
fn spelled(field: Field, bytes: &[u8]) -> i128
    requires { size_of field.size ≤ length bytes.now }
    ensures { result ≡ signed_by field.sign (size_of field.size) (number_of field.order (size_of field.size) bytes.now) }
{
    let size = usize::from(bytes_of(field.size));
    match (field.sign, field.order) {
        (Sign::Unsigned, ByteOrder::Little) => i128::from(LittleEndian::read_uint(bytes, size)),
        (Sign::Unsigned, ByteOrder::Big) => i128::from(BigEndian::read_uint(bytes, size)),
        (Sign::Signed, ByteOrder::Little) => i128::from(LittleEndian::read_int(bytes, size)),
        (Sign::Signed, ByteOrder::Big) => i128::from(BigEndian::read_int(bytes, size)),
    }
}

/// So many bytes at an offset of a record, of bytes of which the first is at another; none where they aren't all among them.
fn part(bytes: &[u8], from: u16, offset: u16, size: u16) -> &[u8] {
    let first = usize::from(offset.saturating_sub(from));
    bytes.get(first..first + usize::from(size)).unwrap_or(&[])
}

/// Bytes as text, without the zeros and blanks after it; as bytes where they are none.
fn text_in(bytes: &[u8]) -> Cell<'_> {
    match str::from_utf8(without_filling(bytes)) {
        Ok(text) => Cell::Text(text),
        Err(_) => Cell::Bytes(bytes),
    }
}

/// Bytes without the zeros and blanks after them.
fn without_filling(bytes: &[u8]) -> &[u8] {
    let mut inside = bytes;
    while let [rest @ .., 0 | b' '] = inside {
        inside = rest;
    }
    inside
}
