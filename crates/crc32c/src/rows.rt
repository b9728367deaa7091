//! What bits of 0 make of a remainder.

ghost use Rattle.std.specs.Prelude.{◌≡◌, ◌<◌, ℕ, get_or, map};
ghost use Rattle.std.specs.List.{range_with_len};
ghost use Rattle.crc32c.specs.Crc.{next_bit, after_zeros, row_at};

/// The divisor without its highest power, the highest coefficient in the lowest bit.
const DIVISOR: u32 = 0x82f6_3b78;

/// What eight bits of 0 make of each remainder of eight bits, then what sixteen make of each, and so on up to 128.
pub(crate) fn rows() -> [u32; 4096]
    ensures { result ≡ map row_at (range_with_len 0 4096) }
{
    let mut rows = [0; 4096];
    for index in 0..4096 {
        rows[index] = next(&rows, index);
    }
    rows
}

/// The entry at this index, where those before it are made. All but the first 256 follow from the entry of a byte of 0 less.
fn next(rows: &[u32; 4096], index: usize) -> u32
    requires within { index < 4096 }
    requires made { (k : ℕ) → k < index → get_or rows.now k 0 ≡ row_at k }
    ensures { result ≡ row_at index }
{
    if index < 256 {
        return after_byte(index as u32);
    }
    let before = rows[index - 256];
    rows[(before % 256) as usize] ^ (before / 256)
}

/// What a byte of 0 makes of a remainder.
fn after_byte(remainder: u32) -> u32
    ensures { result ≡ after_zeros 8 remainder }
{
    let mut remainder = remainder;
    for _ in 0..8u32 {
        remainder = after_zero(remainder);
    }
    remainder
}

/// What a bit of 0 makes of a remainder.
fn after_zero(remainder: u32) -> u32
    ensures { result ≡ next_bit remainder 0 }
{
    let half = remainder / 2;
    if remainder % 2 == 0 {
        half
    } else {
        half ^ DIVISOR
    }
}
