//! Numbers.

ghost use Rattle.std.specs.Prelude.{◌≡◌, ◌+◌, ◌*◌, ◌^◌, ◌≤◌, ℕ};
ghost use Rattle.ebpf_asm.specs.Operand.{numeral_of, magnitude_of, literal_of, signed_of, short_of, long_of, immediate_told, wide_of};
ghost use Rattle.common_definitions.specs.Below.{below};

use crate::fault::FaultKind;

/// An immediate: the low 32 bits of a number from -2^31 to 2^32 - 1.
#[tactic(auto, unfolding(crate::specs::Operand::immediate_told))]
pub(crate) fn immediate(text: &[u8]) -> Result<i32, FaultKind>
    ensures { result ≡ immediate_told text.now }
{
    let number = number(text)?;
    if !(-0x8000_0000..=0xffff_ffff).contains(&number) {
        return Err(FaultKind::OutOfRange);
    }
    if number < 0 {
        Ok(number as i32)
    } else {
        Ok((number as u32).cast_signed())
    }
}

/// A wide value: the low 64 bits of a number from -2^63 to 2^64 - 1.
#[tactic(auto, unfolding(crate::specs::Operand::wide_of))]
pub(crate) fn wide(text: &[u8]) -> Result<u64, FaultKind>
    ensures { result ≡ wide_of text.now }
{
    let number = number(text)?;
    if !(-0x8000_0000_0000_0000..=0xffff_ffff_ffff_ffff).contains(&number) {
        return Err(FaultKind::OutOfRange);
    }
    if number < 0 {
        Ok((number as i64).cast_unsigned())
    } else {
        Ok(number as u64)
    }
}

/// The number, where a field of 16 bits takes it.
pub(crate) fn short(number: i128) -> Result<i16, FaultKind>
    ensures { result ≡ short_of number }
{
    i16::try_from(number).ok().ok_or(FaultKind::OutOfRange)
}

/// The number, where a field of 32 bits takes it.
pub(crate) fn long(number: i128) -> Result<i32, FaultKind>
    ensures { result ≡ long_of number }
{
    i32::try_from(number).ok().ok_or(FaultKind::OutOfRange)
}

/// A `+` or a `-`, and a number without a sign.
#[tactic(auto, unfolding(crate::specs::Operand::signed_of))]
pub(crate) fn signed(text: &[u8]) -> Result<i128, FaultKind>
    ensures { result ≡ signed_of text.now }
{
    match text {
        [b'+', number @ ..] => Ok(i128::from(magnitude(number)?)),
        [b'-', number @ ..] => Ok(-i128::from(magnitude(number)?)),
        _ => Err(FaultKind::Operand),
    }
}

/// A decimal number behind a `-`, or a number without a sign.
#[tactic(auto, unfolding(crate::specs::Operand::literal_of))]
fn number(text: &[u8]) -> Result<i128, FaultKind>
    ensures { result ≡ literal_of text.now }
{
    match text {
        [b'-', digits @ ..] => Ok(-i128::from(numeral(digits, 10)?)),
        _ => Ok(i128::from(magnitude(text)?)),
    }
}

/// A number without a sign: hexadecimal behind `0x`, else decimal.
#[tactic(auto, unfolding(crate::specs::Operand::magnitude_of))]
fn magnitude(text: &[u8]) -> Result<u64, FaultKind>
    ensures { result ≡ magnitude_of text.now }
{
    match text {
        [b'0', b'x', digits @ ..] => numeral(digits, 16),
        _ => numeral(text, 10),
    }
}

/// The number that digits write, which is below 2^64.
fn numeral(text: &[u8], radix: u32) -> Result<u64, FaultKind>
    requires least { 2 ≤ radix }
    requires most { radix ≤ 16 }
    ensures { result ≡ numeral_of radix text.now }
{
    if text.is_empty() {
        return Err(FaultKind::Operand);
    }
    let mut value = Some(0u64);
    for byte in text {
        let digit = char::from(*byte).to_digit(radix).ok_or(FaultKind::Operand)?;
        value = with_digit(value, radix, digit);
    }
    value.ok_or(FaultKind::OutOfRange)
}

/// The number with one more digit behind it, unless it is 2^64 or more.
fn with_digit(value: Option<u64>, radix: u32, digit: u32) -> Option<u64>
    requires { 2 ≤ radix }
    ensures { (n : ℕ) → value ≡ below (2 ^ 64) n → result ≡ below (2 ^ 64) (n * radix + digit) }
{
    let value = value?;
    value
        .checked_mul(u64::from(radix))?
        .checked_add(u64::from(digit))
}
