//! The context.

ghost use Rattle.std.specs.Prelude.{◌≡◌};
ghost use Rattle.program_interface.specs.Context.{context_bytes};

use crate::area::CONTEXT_BYTES;
use crate::block_size::BlockSize;
use byteorder::{ByteOrder, LittleEndian};

/// What a program is told of the block that it runs on (profile).
#[derive(Clone, Copy, Debug, PartialEq, Eq)]
pub struct Context {
    /// The block's LBA.
    pub lba: u64,
    /// How many blocks of the run come before it.
    pub index: u32,
    /// How many blocks the run has.
    pub count: u32,
    /// The size of a block.
    pub block: BlockSize,
    /// The run's argument.
    pub argument: u32,
}

impl Context {
    /// The bytes of the area of this name, little-endian.
    pub fn encode(&self) -> [u8; CONTEXT_BYTES]
        ensures { result ≡ context_bytes self.now }
    {
        let low = (self.lba % 0x1_0000_0000) as u32;
        let high = (self.lba >> 32) as u32;
        let dwords = [
            low,
            high,
            self.index,
            self.count,
            self.block.bytes(),
            self.argument,
            0,
            0,
        ];
        let mut bytes = [0; CONTEXT_BYTES];
        LittleEndian::write_u32_into(&dwords, &mut bytes);
        bytes
    }
}
