//! The sizes that a run is granted.

ghost use Rattle.std.specs.Prelude.{◌≡◌, ◌≤◌};
ghost use Rattle.program_interface.specs.RunSizes.{sizes_with};
ghost use Rattle.program_interface.specs.declared.block_size.TheConstants.{LARGEST_BLOCK};

use crate::block_size::BlockSize;
use std::marker::Model;

/// How many bytes a block has, and how many a program may emit for each: the group of a block has at
/// most that many, and fits a block. A clause sees the two numbers.
#[derive(Clone, Copy, Debug, PartialEq, Eq)]
pub struct RunSizes {
    block: BlockSize,
    limit: u32,
}

impl Model for RunSizes {
    ghost use Rattle.program_interface.specs.RunSizes.{Sizes, AreSizes};

    ghost Value = { Sizes };

    ghost view = { λ s. record { block = s.block; limit = s.limit } };

    ghost invariant = { λ s. AreSizes (record { block = s.block; limit = s.limit }) };

    ghost inverse = { λ s. record { block = s.block; limit = s.limit } };
}

impl RunSizes {
    /// Blocks of this size, and at most `limit` bytes emitted for each; `None` where that is more than a
    /// block.
    pub fn new(block: BlockSize, limit: u32) -> Option<RunSizes>
        ensures { result ≡ sizes_with block limit }
    {
        if limit > block.bytes() {
            return None;
        }
        Some(RunSizes { block, limit })
    }

    /// The size of a block.
    pub fn block(self) -> BlockSize
        ensures { result ≡ self.block }
    {
        self.block
    }

    /// The most bytes of a group, the lengths of its frames counted.
    pub fn limit(self) -> u32
        ensures value { result ≡ self.limit }
        ensures fits { result ≤ self.block }
        ensures most { result ≤ LARGEST_BLOCK }
    {
        // Brings in what holds of each block size.
        let _ = self.block.bytes();
        self.limit
    }
}
