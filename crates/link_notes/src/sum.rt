//! The sum of a program's bytes, by which it is known which program notes are of.

ghost use Rattle.std.specs.Prelude.{◌≡◌};
ghost use Rattle.link_notes.specs.Sum.{after_bit, after_byte, sum_of};

/// The polynomial of CRC-32, with its bits in reverse.
const POLYNOMIAL: u32 = 0xedb8_8320;

/// The sum of a program's bytes, which notes have: their CRC-32, as zip files have it.
#[tactic(auto, using(crate::proofs::SumLemmas::byte_more))]
pub fn program_sum(bytes: &[u8]) -> u32
    ensures { result ≡ sum_of bytes.now }
{
    let mut left = u32::MAX;
    for byte in bytes {
        left = after_byte(left, *byte);
    }
    left ^ u32::MAX
}

/// What is left of a division once a byte is divided too.
#[tactic(auto, using(crate::proofs::SumLemmas::bit_more))]
fn after_byte(left: u32, byte: u8) -> u32
    ensures { result ≡ after_byte left byte }
{
    let mut left = left ^ u32::from(byte);
    for _bit in 0..8_u32 {
        left = after_bit(left);
    }
    left
}

/// What is left of it once a bit is divided too.
fn after_bit(left: u32) -> u32
    ensures { result ≡ after_bit left }
{
    if left % 2 == 1 {
        (left / 2) ^ POLYNOMIAL
    } else {
        left / 2
    }
}
