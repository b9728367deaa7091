//! What a user is told of bytes that are no output blocks.

ghost use Rattle.std.specs.Prelude.{◌≡◌, ◌<◌, length};
ghost use Rattle.emit_append.specs.Refusal.{StandsAt, refused_byte};

use program_interface::BlockSize;
use thiserror::Error;

/// The lowest byte of output blocks that is refused, counted from 0, and what stands there.
#[derive(Clone, Copy, Debug, PartialEq, Eq, Error)]
pub enum FrameRefusal {
    /// Behind the last whole block, of `block` bytes, stand so many bytes, `left`, of which the first is byte `at`.
    #[error("byte {at}: {left} of the {block} bytes of a block; whole blocks are expected")]
    Part { at: usize, left: usize, block: u32 },
    /// Byte `at`, which begins neither a frame nor zeros, and what it is.
    #[error("byte {at}: {byte:02x}h; a frame that ends in its block, or zeros to its end, are expected")]
    Byte { at: usize, byte: u8 },
}

impl FrameRefusal {
    /// What stands at byte `at` of these bytes, where [`unpack`](crate::unpack) refuses it: that byte, or, where it is
    /// the first behind all whole blocks, how many bytes are left of a block.
    pub fn of(at: usize, bytes: &[u8], block: BlockSize) -> FrameRefusal
        ensures place { refused_byte result ≡ at }
        ensures there { at < length bytes.now → StandsAt block bytes.now at result }
    {
        let block = block.bytes();
        let left = bytes.len() % block as usize;
        if left > 0 && bytes.len() - left == at {
            return FrameRefusal::Part { at, left, block };
        }
        FrameRefusal::Byte {
            at,
            byte: bytes.get(at).copied().unwrap_or(0),
        }
    }

    /// Which byte is refused.
    pub fn refused_byte(self) -> usize
        ensures { result ≡ refused_byte self }
    {
        match self {
            FrameRefusal::Part { at, .. } | FrameRefusal::Byte { at, .. } => at,
        }
    }
}
