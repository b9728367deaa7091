//! Numbers that look random.

/// Numbers of a linear congruence modulo 2^64.
#[derive(Drop)]
pub struct Numbers(u64);

impl Numbers {
    /// The numbers behind this one.
    pub fn behind(seed: u64) -> Numbers {
        Numbers(seed)
    }

    /// The next number, of 32 bits: the upper half of the congruence.
    pub fn draw(&mut self) -> u64 {
        let next = self.0.wrapping_mul(0x5851_f42d_4c95_7f2d);
        self.0 = next.wrapping_add(0x1405_7b7e_f767_814f);
        self.0 >> 32
    }
}
