//! Choices that a seed makes.

ghost use Rattle.std.specs.Prelude.{◌≡◌, ◌<◌, ◌≤◌, ℕ, length, vec_len, IfOk};

use std::alloc::{AllocError, Global};

/// A sequence of choices, which its seed determines.
#[derive(Clone, Copy, Debug)]
pub(crate) struct Choices(u64);

/// What has come to the disk of a byte that was being written.
#[derive(Clone, Copy, Debug)]
enum Byte {
    Old,
    New,
    Garbage,
    /// One of the three.
    Any,
}

impl Choices {
    pub(crate) const fn new(seed: u64) -> Self {
        Choices(seed)
    }

    // SplitMix64
    fn next(&mut self) -> u64 {
        self.0 = self.0.wrapping_add(0x9e37_79b9_7f4a_7c15);
        let mixed = (self.0 ^ (self.0 >> 30)).wrapping_mul(0xbf58_476d_1ce4_e5b9);
        let mixed = (mixed ^ (mixed >> 27)).wrapping_mul(0x94d0_49bb_1331_11eb);
        mixed ^ (mixed >> 31)
    }

    /// A number up to the largest.
    pub(crate) fn up_to(&mut self, largest: usize) -> usize
        ensures { result ≤ largest }
    {
        let chosen = self.next();
        match usize::try_from(chosen) {
            Ok(chosen) if chosen <= largest => chosen,
            Ok(chosen) if largest < usize::MAX => chosen % (largest + 1),
            _ => largest,
        }
    }

    fn byte(&mut self) -> u8 {
        self.next().to_le_bytes()[0]
    }

    fn kind(&mut self) -> Byte {
        match self.byte() % 4 {
            0 => Byte::Old,
            1 => Byte::New,
            2 => Byte::Garbage,
            _ => Byte::Any,
        }
    }

    fn of_kind(&mut self, kind: Byte, old: u8, new: u8) -> u8 {
        match kind {
            Byte::Old => old,
            Byte::New => new,
            Byte::Garbage => self.byte(),
            Byte::Any => match self.byte() % 3 {
                0 => old,
                1 => new,
                _ => self.byte(),
            },
        }
    }

    /// Bytes in place of these, of which a first part is of one kind, and the others of another: what was there, what was
    /// written, anything, or each byte one of these. Past the end of the file there were zeros.
    pub(crate) fn torn(
        &mut self,
        alloc: Global,
        old: &[u8],
        new: &[u8],
    ) -> Result<Vec<u8>, AllocError>
        ensures { IfOk result (λ torn. vec_len torn ≡ length new.now) }
    {
        let first = self.kind();
        let second = self.kind();
        let turn = self.up_to(new.len());
        let mut torn = Vec::with_capacity(alloc, new.len())?;
        for (index, byte) in new.iter().enumerate() {
            let before = old.get(index).copied().unwrap_or(0);
            let kind = if index < turn { first } else { second };
            torn.push(self.of_kind(kind, before, *byte))?;
        }
        Ok(torn)
    }
}
