//! Numbers in text.

ghost use Rattle.std.specs.Prelude.{◌≡◌, true};
ghost use Rattle.std.specs.List.{list_all};
ghost use Rattle.std.specs.Char.{is_ascii_digit};
ghost use Rattle.text_lines.specs.Number.{decimal_of};

use std::str;

/// The number that decimal digits alone spell, leading zeros allowed, if it is below 2^32.
#[tactic(auto, using(crate::proofs::NumberLemmas::no_decimal))]
pub fn decimal(word: &[u8]) -> Option<u32>
    ensures { result ≡ decimal_of word.now }
{
    if is_all_digits(word) {
        value_of(word)
    } else {
        None
    }
}

fn is_all_digits(word: &[u8]) -> bool
    ensures { result ≡ list_all is_ascii_digit word.now }
{
    word.iter().all(|byte| byte.is_ascii_digit())
}

/// The number that digits spell, if there are any and it is below 2^32.
fn value_of(digits: &[u8]) -> Option<u32>
    requires { list_all is_ascii_digit digits.now ≡ true }
    ensures { result ≡ decimal_of digits.now }
{
    str::from_utf8(digits).unwrap().parse().ok()
}
