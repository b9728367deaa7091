//! Operands: registers, memory operands and the targets of jumps.

ghost use Rattle.std.specs.Prelude.{◌≡◌, ◌<◌, length, drop, position, slice_index, option_copied, IfSome};
ghost use Rattle.std.specs.List.{position_or_len, before_first, list_all};
ghost use Rattle.std.specs.Result.{result_map_both};
ghost use Rattle.ebpf_asm.specs.Fault.{read_both};
ghost use Rattle.ebpf_asm.specs.Operand.{inside_brackets, register_of, source_told, offset_of, memory_told, is_sign_byte, is_label_name, is_label_byte, begins_label, distance_told, label_of, short_of, long_of};

use crate::fault::FaultKind;
use crate::number::{immediate, long, short, signed};
use instruction_set::{Register, Source};

/// Both, where both could be read. An operand that can't be read is told before a number that is
/// out of range.
pub(crate) fn both<A: Drop, B: Drop>(
    first: Result<A, FaultKind>,
    second: Result<B, FaultKind>,
) -> Result<(A, B), FaultKind>
    ensures { result ≡ read_both first second }
{
    match (first, second) {
        (Ok(a), Ok(b)) => Ok((a, b)),
        (Err(FaultKind::OutOfRange), Err(fault)) => Err(fault),
        (Err(fault), _) => Err(fault),
        (_, Err(fault)) => Err(fault),
    }
}

/// A register, `r0` to `r10`.
pub(crate) fn register(text: &[u8]) -> Result<Register, FaultKind>
    ensures { result ≡ register_of text.now }
{
    let number = match text {
        b"r10" => 10,
        [b'r', digit @ b'0'..=b'9'] => *digit - b'0',
        _ => return Err(FaultKind::Operand),
    };
    Ok(Register::from_number(number))
}

/// A register or an immediate.
#[tactic(auto, unfolding(crate::specs::Operand::source_told))]
pub(crate) fn source(text: &[u8]) -> Result<Source, FaultKind>
    ensures { result ≡ source_told text.now }
{
    match text {
        [b'r', ..] => Ok(Source::Register(register(text)?)),
        _ => Ok(Source::Immediate(immediate(text)?)),
    }
}

/// A memory operand: in brackets a register, and behind it an offset, where there is one.
#[tactic(auto, unfolding(crate::specs::Operand::memory_told))]
pub(crate) fn memory(text: &[u8]) -> Result<(Register, i16), FaultKind>
    ensures { result ≡ memory_told text.now }
{
    let (base, behind) = split_at_sign(bracketed(text)?);
    both(register(base), offset(behind))
}

/// What stands between brackets.
fn bracketed(text: &[u8]) -> Result<&[u8], FaultKind>
    ensures { result_map_both (λ inside. inside.now) (λ fault. fault) result ≡ inside_brackets text.now }
{
    match text {
        [b'[', inside @ .., b']'] => Ok(inside),
        _ => Err(FaultKind::Operand),
    }
}

/// The text before the first sign, and the rest.
fn split_at_sign(text: &[u8]) -> (&[u8], &[u8])
    ensures front { result.0.now ≡ before_first is_sign_byte text.now }
    ensures back { result.1.now ≡ drop (position_or_len is_sign_byte text.now) text.now }
{
    text.split_at(first_sign(text).unwrap_or(text.len()))
}

fn first_sign(text: &[u8]) -> Option<usize>
    ensures value { result ≡ position is_sign_byte text.now }
    ensures within { IfSome result (λ at. at < length text.now) }
{
    text.iter().position(|byte| is_sign(*byte))
}

/// The offset behind a memory operand's register: none is 0.
#[tactic(auto, unfolding(crate::specs::Operand::offset_of))]
fn offset(text: &[u8]) -> Result<i16, FaultKind>
    ensures { result ≡ offset_of text.now }
{
    if text.is_empty() {
        return Ok(0);
    }
    short(signed(text)?)
}

fn is_sign(byte: u8) -> bool
    ensures { result ≡ is_sign_byte byte }
{
    byte == b'+' || byte == b'-'
}

/// The distance of a jump in 16 bits, so many slots on from the next one; 0 where the text is a label.
#[tactic(auto, unfolding(crate::specs::Operand::distance_told))]
pub(crate) fn short_distance(text: &[u8]) -> Result<i16, FaultKind>
    ensures { result ≡ distance_told short_of text.now }
{
    match text {
        [b'+' | b'-', ..] => short(signed(text)?),
        _ if is_name(text) => Ok(0),
        _ => Err(FaultKind::Operand),
    }
}

/// The distance of a jump in 32 bits, as in `short_distance`.
#[tactic(auto, unfolding(crate::specs::Operand::distance_told))]
pub(crate) fn long_distance(text: &[u8]) -> Result<i32, FaultKind>
    ensures { result ≡ distance_told long_of text.now }
{
    match text {
        [b'+' | b'-', ..] => long(signed(text)?),
        _ if is_name(text) => Ok(0),
        _ => Err(FaultKind::Operand),
    }
}

/// The label that a text is, if it is one.
pub(crate) fn label(text: &[u8]) -> Option<&[u8]>
    ensures { option_copied result ≡ label_of text.now }
{
    is_name(text).then_some(text)
}

/// A label's name: a letter or `_`, then letters, digits or `_`.
fn is_name(text: &[u8]) -> bool
    ensures { result ≡ is_label_name text.now }
{
    begins_name(text) && has_name_bytes(text)
}

fn begins_name(text: &[u8]) -> bool
    ensures { result ≡ begins_label (slice_index text.now 0) }
{
    match text {
        [first, ..] => first.is_ascii_alphabetic() || *first == b'_',
        [] => false,
    }
}

fn has_name_bytes(text: &[u8]) -> bool
    ensures { result ≡ list_all is_label_byte text.now }
{
    text.iter()
        .all(|byte| byte.is_ascii_alphanumeric() || *byte == b'_')
}
