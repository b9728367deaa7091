//! Why a stream is served no further.

ghost use Rattle.std.specs.Prelude.{◌≡◌};
ghost use Rattle.device_serve.specs.Faults.{of_file};
ghost use Rattle.device_serve.specs.declared.fault.ServeFault.TheVariants.{Memory, Stream};

use event_frames::StreamFault;
use event_text::LineFault;
use std::alloc::AllocError;
use stored_file::FileError;

/// Why a stream is served no further.
#[derive(Clone, Copy, Debug, PartialEq, Eq)]
pub enum ServeFault {
    /// It can't be read.
    Read,
    /// Of frames, a byte is wrong, or they end within a frame.
    Stream(StreamFault),
    /// Of lines, one is rejected.
    Line {
        /// The line's number; the first is 1.
        number: usize,
        /// Why it is rejected.
        fault: LineFault,
    },
    /// What answers it can't be written.
    Write,
    /// The image can't be saved.
    Save,
    /// The disk failed, or has no room.
    Disk,
    /// No memory.
    Memory,
}

impl From<AllocError> for ServeFault {
    ghost from_gives = { λ _ fault. fault ≡ Memory };

    fn from(_error: AllocError) -> ServeFault {
        ServeFault::Memory
    }
}

impl From<StreamFault> for ServeFault {
    ghost from_gives = { λ fault told. told ≡ Stream fault };

    fn from(fault: StreamFault) -> ServeFault {
        ServeFault::Stream(fault)
    }
}

impl From<FileError> for ServeFault {
    ghost from_gives = { λ error fault. fault ≡ of_file error };

    fn from(error: FileError) -> ServeFault {
        match error {
            FileError::Memory => ServeFault::Memory,
            FileError::NoRoom | FileError::Failed => ServeFault::Disk,
        }
    }
}
