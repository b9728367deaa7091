//! Headers.

ghost use Rattle.std.specs.Prelude.{◌≡◌, ◌≤◌, ◌<◌, ◌+◌, ◌^◌, length, slice_index, MatchOption};
ghost use Rattle.event_frames.specs.Frames.{header};
ghost use Rattle.event_frames.specs.Streams.{IsFirstWrong, IsHeader, field_at, least_at, most_at, most_of_length, most_of_number, most_of_submission, most_part};

use crate::fault::Field;
use byteorder::{ByteOrder, LittleEndian};

/// Bytes of a header.
pub const HEADER_BYTES: usize = 16;

/// A header of these fields: the kind of what it begins, a part of that kind, the queue, a number of the kind, and how many bytes of data
/// follow.
pub fn header(kind: u8, part: u8, queue: u16, number: u32, size: u32) -> [u8; HEADER_BYTES]
    ensures { result ≡ header kind part queue number size }
{
    let mut bytes = [0; HEADER_BYTES];
    bytes[0] = kind;
    bytes[1] = part;
    LittleEndian::write_u16(&mut bytes[2..], queue);
    LittleEndian::write_u32(&mut bytes[4..], number);
    LittleEndian::write_u32(&mut bytes[8..], size);
    bytes
}

/// The place of the first byte of a header, or of what has come of it, that no request has there.
pub(crate) fn first_wrong(bytes: &[u8]) -> Option<usize>
    requires { length bytes.now ≤ 16 }
    ensures { MatchOption result (IsHeader bytes.now) (λ place. IsFirstWrong bytes.now place) }
{
    for (place, byte) in bytes.iter().enumerate() {
        if *byte < least_at(bytes, place) || *byte > most_at(bytes, place) {
            return Some(place);
        }
    }
    None
}

/// The least that a byte may be.
fn least_at(bytes: &[u8], place: usize) -> u8
    requires { place < length bytes.now }
    ensures { result ≡ least_at bytes.now place }
{
    if place == 0 {
        1
    } else if place == 1 {
        if bytes[0] == 3 { 1 } else { 0 }
    } else {
        0
    }
}

/// The most that a byte may be.
fn most_at(bytes: &[u8], place: usize) -> u8
    requires { place < length bytes.now }
    ensures { result ≡ most_at bytes.now place }
{
    let kind = bytes[0];
    if place == 0 {
        5
    } else if place == 1 {
        most_part(kind)
    } else if place < 4 {
        most_of_submission(kind)
    } else if place < 8 {
        most_of_number(kind)
    } else if place < 10 {
        most_of_submission(kind)
    } else if place == 10 {
        most_of_length(kind, u16::from(bytes[8]) + u16::from(bytes[9]))
    } else {
        0
    }
}

/// That of the part.
fn most_part(kind: u8) -> u8
    ensures { result ≡ most_part kind }
{
    if kind == 2 {
        255
    } else if kind == 3 {
        2
    } else {
        0
    }
}

/// That of a byte that a submission alone has.
fn most_of_submission(kind: u8) -> u8
    ensures { result ≡ most_of_submission kind }
{
    if kind == 1 { 255 } else { 0 }
}

/// That of a byte of the number.
fn most_of_number(kind: u8) -> u8
    ensures { result ≡ most_of_number kind }
{
    if kind == 3 || kind == 4 { 255 } else { 0 }
}

/// That of the length's third byte, behind two with this sum.
fn most_of_length(kind: u8, below: u16) -> u8
    ensures { result ≡ most_of_length kind below }
{
    if kind == 1 {
        if below == 0 { 2 } else { 1 }
    } else {
        0
    }
}

/// The field that the byte at a place is of.
pub(crate) fn field_at(place: usize) -> Field
    ensures { result ≡ field_at place }
{
    if place == 0 {
        Field::Kind
    } else if place == 1 {
        Field::Part
    } else if place < 4 {
        Field::Queue
    } else if place < 8 {
        Field::Number
    } else if place < 12 {
        Field::Length
    } else {
        Field::Zeros
    }
}
