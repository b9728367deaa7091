//! The sizes of a block.

ghost use Rattle.std.specs.Prelude.{◌≡◌, ◌≤◌};
ghost use Rattle.program_interface.specs.BlockSize.{IsBlockSize, block_size};

use std::marker::Model;

/// The sizes that a logical block may have, in bytes, the smallest first (profile).
pub const BLOCK_SIZES: [u32; 6] = [512, 1024, 2048, 4096, 8192, 16384];

/// The largest of them.
pub const LARGEST_BLOCK: usize = BLOCK_SIZES[BLOCK_SIZES.len() - 1] as usize;

/// The size of a logical block, one of [`BLOCK_SIZES`]. A clause sees the number of bytes.
#[derive(Clone, Copy, Debug, PartialEq, Eq)]
pub struct BlockSize {
    bytes: u32,
}

impl Model for BlockSize {
    ghost use Rattle.std.specs.Prelude.{ℕ};
    ghost use Rattle.program_interface.specs.BlockSize.{IsBlockSize};

    ghost Value = { ℕ };

    ghost view = { λ s. s.bytes };

    ghost invariant = { λ s. IsBlockSize s.bytes };

    ghost inverse = { λ n. record { bytes = n } };
}

impl BlockSize {
    /// The block size of so many bytes, or `None` where that is none of [`BLOCK_SIZES`].
    pub fn new(bytes: u32) -> Option<BlockSize>
        ensures { result ≡ block_size bytes }
    {
        if BLOCK_SIZES.contains(&bytes) {
            Some(BlockSize { bytes })
        } else {
            None
        }
    }

    /// The number of bytes.
    pub fn bytes(self) -> u32
        ensures value { result ≡ self }
        ensures known { IsBlockSize result }
        ensures least { 512 ≤ result }
        ensures most { result ≤ LARGEST_BLOCK }
    {
        self.bytes
    }
}
