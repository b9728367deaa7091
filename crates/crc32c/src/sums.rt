//! The sum.

ghost use Rattle.std.specs.Prelude.{◌≡◌, ◌<◌, ◌≤◌, ◌+◌, ◌*◌, [], ◌∷◌, ◌++◌, List, ℕ, map};
ghost use Rattle.std.specs.List.{range_with_len, fold};
ghost use Rattle.crc32c.specs.Crc.{after_zeros, next_byte, row_at, sum_of};

use crate::rows::rows;

/// What makes sums: a table of 16 KiB.
#[derive(Drop)]
pub struct Sums {
    rows: [u32; 4096],
    ghost right: { rows ≡ map row_at (range_with_len 0 4096) },
}

impl Sums {
    /// Makes the table.
    pub fn new() -> Sums {
        Sums { rows: rows() }
    }

    /// The CRC-32C of bytes.
    pub fn sum(&self, bytes: &[u8]) -> u32
        ensures { result ≡ sum_of bytes.now }
    {
        self.extended(0, bytes)
    }

    /// The CRC-32C of some bytes and then of these, of which `sum` is that of the first. The sum of no bytes is 0.
    pub fn extended(&self, sum: u32, bytes: &[u8]) -> u32
        ensures { (before : List ℕ) → sum ≡ sum_of before → result ≡ sum_of (before ++ bytes.now) }
    {
        let mut remainder = sum ^ u32::MAX;
        let mut rest = bytes;
        while let Some((sixteen, others)) = rest.split_first_chunk::<16>() {
            remainder = self.after_sixteen(remainder, sixteen);
            rest = others;
        }
        self.after_bytes(remainder, rest) ^ u32::MAX
    }

    /// What bytes make of a remainder, one after another.
    fn after_bytes(&self, remainder: u32, bytes: &[u8]) -> u32
        ensures { result ≡ fold next_byte remainder bytes.now }
    {
        let mut remainder = remainder;
        for byte in bytes {
            remainder = self.after_byte(remainder, *byte);
        }
        remainder
    }

    /// What sixteen bytes make of a remainder, all at once. It is added to the first four. The others don't wait for it, so they are
    /// looked up first.
    fn after_sixteen(&self, remainder: u32, bytes: &[u8; 16]) -> u32
        ensures { result ≡ fold next_byte remainder bytes.now }
    {
        let later = self.four(8, bytes[4], bytes[5], bytes[6], bytes[7])
            ^ (self.four(4, bytes[8], bytes[9], bytes[10], bytes[11])
                ^ self.four(0, bytes[12], bytes[13], bytes[14], bytes[15]));
        let first = (remainder % 256) as u8 ^ bytes[0];
        let second = (remainder / 256 % 256) as u8 ^ bytes[1];
        let third = (remainder / 256 / 256 % 256) as u8 ^ bytes[2];
        let fourth = (remainder / 256 / 256 / 256 % 256) as u8 ^ bytes[3];
        self.four(12, first, second, third, fourth) ^ later
    }

    /// What four bytes and so many bytes of 0 after them come to, where nothing was before.
    fn four(&self, zeros: usize, first: u8, second: u8, third: u8, fourth: u8) -> u32
        requires { zeros ≤ 12 }
        ensures { result ≡ after_zeros (8 * zeros) (fold next_byte 0 (first ∷ second ∷ third ∷ fourth ∷ [])) }
    {
        (self.row(zeros + 3, first) ^ self.row(zeros + 2, second))
            ^ (self.row(zeros + 1, third) ^ self.row(zeros, fourth))
    }

    /// What a byte makes of a remainder.
    fn after_byte(&self, remainder: u32, byte: u8) -> u32
        ensures { result ≡ next_byte remainder byte }
    {
        self.row(0, (remainder % 256) as u8 ^ byte) ^ (remainder / 256)
    }

    /// What so many bytes of 0 and one more make of a remainder of eight bits.
    fn row(&self, zeros: usize, remainder: u8) -> u32
        requires { zeros < 16 }
        ensures { result ≡ after_zeros (8 * zeros + 8) remainder }
    {
        self.rows[256 * zeros + usize::from(remainder)]
    }
}
