//! Why output blocks could not be read back.

ghost use Rattle.std.specs.Prelude.{◌≡◌};
ghost use Rattle.emit_append.specs.declared.fault.UnpackFault.TheVariants.{Memory};

use std::alloc::{AllocError, AllocFailed};
use thiserror::Error;

/// Why output blocks could not be read back.
#[derive(Clone, Copy, Debug, PartialEq, Eq, Error)]
pub enum UnpackFault {
    /// The byte with this number is the lowest one that is refused: the length of a frame that passes
    /// its block's end, a byte other than zero where no frame follows, or the first byte of a last
    /// part that is shorter than a block.
    #[error("byte {0} is refused")]
    At(usize),
    /// No memory could be had for a record.
    #[error("no memory")]
    Memory,
}

impl From<AllocError> for UnpackFault {
    ghost from_gives = { λ _ e. e ≡ Memory };

    fn from(_error: AllocError) -> UnpackFault {
        UnpackFault::Memory
    }
}

impl<T: Drop> From<AllocFailed<T>> for UnpackFault {
    ghost from_gives = { λ _ e. e ≡ Memory };

    fn from(_error: AllocFailed<T>) -> UnpackFault {
        UnpackFault::Memory
    }
}
