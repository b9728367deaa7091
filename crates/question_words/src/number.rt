//! Numbers.

ghost use Rattle.std.specs.Prelude.{◌≡◌, ◌+◌, ◌*◌, ◌^◌, ◌≤◌, ℕ};
ghost use Rattle.question_words.specs.Number.{numeral_of, magnitude_of, literal_of};
ghost use Rattle.common_definitions.specs.Below.{below};

use crate::fault::FaultKind;

/// The number that a word writes: decimal after a `-`, or one without a sign.
pub(crate) fn number(text: &[u8]) -> Result<i128, FaultKind>
    ensures { result ≡ literal_of text.now }
{
    match text {
        [b'-', digits @ ..] => Ok(-i128::from(numeral(digits, 10)?)),
        _ => Ok(i128::from(magnitude(text)?)),
    }
}

/// A number without a sign: hexadecimal after `0x`, else decimal.
fn magnitude(text: &[u8]) -> Result<u64, FaultKind>
    ensures { result ≡ magnitude_of text.now }
{
    match text {
        [b'0', b'x', digits @ ..] => numeral(digits, 16),
        _ => numeral(text, 10),
    }
}

/// The number that digits write, which is below 2^64.
fn numeral(text: &[u8], radix: u32) -> Result<u64, FaultKind>
    requires least { 2 ≤ radix }
    requires most { radix ≤ 16 }
    ensures { result ≡ numeral_of radix text.now }
{
    if text.is_empty() {
        return Err(FaultKind::Number);
    }
    let mut value = Some(0u64);
    for byte in text {
        let digit = char::from(*byte).to_digit(radix).ok_or(FaultKind::Number)?;
        value = with_digit(value, radix, digit);
    }
    value.ok_or(FaultKind::Range)
}

/// The number with one more digit at its end, unless it is 2^64 or more.
fn with_digit(value: Option<u64>, radix: u32, digit: u32) -> Option<u64>
    requires { 2 ≤ radix }
    ensures { (n : ℕ) → value ≡ below (2 ^ 64) n → result ≡ below (2 ^ 64) (n * radix + digit) }
{
    let value = value?;
    value
        .checked_mul(u64::from(radix))?
        .checked_add(u64::from(digit))
}
