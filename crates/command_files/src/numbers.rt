//! Words that spell numbers in decimal or in hexadecimal.

ghost use Rattle.std.specs.Prelude.{◌≡◌, ◌≤◌};
ghost use Rattle.command_files.specs.Number.{decimal_or_hexadecimal, numeral_of};

/// The number that decimal digits spell, or hexadecimal ones behind `0x`, and nothing else, if it is below 2^64.
pub(crate) fn decimal_or_hexadecimal(word: &str) -> Option<u64>
    ensures { result ≡ decimal_or_hexadecimal word.now }
{
    match word.strip_prefix("0x") {
        Some(digits) => numeral(digits, 16),
        None => numeral(word, 10),
    }
}

/// The number that digits of a radix spell, and nothing else, if it is below 2^64.
fn numeral(digits: &str, radix: u32) -> Option<u64>
    requires least { 2 ≤ radix }
    requires most { radix ≤ 36 }
    ensures { result ≡ numeral_of radix digits.now }
{
    if digits.starts_with('+') {
        return None;
    }
    u64::from_str_radix(digits, radix).ok()
}
