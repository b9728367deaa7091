//! Why a file isn't opened.

ghost use Rattle.std.specs.Prelude.{◌≡◌};
ghost use Rattle.stored_file.specs.declared.stored_file.FileError.TheVariants.{Memory};
ghost use Rattle.durable_machine.specs.declared.fault.Fault.TheVariants.{OfFile};

use std::alloc::AllocError;
use stored_file::FileError;

/// Why a file isn't opened.
#[derive(Clone, Copy, Debug, PartialEq, Eq)]
pub enum Fault {
    /// It doesn't begin with a base in whole sectors.
    Unreadable,
    /// From this byte on it has what no crash leaves there: an open gate and more than its sector, but no whole batch. Such
    /// bytes have changed, or went missing, since they were written.
    Damaged(usize),
    /// The event at this byte changes nothing when it is done again, though memory was given. Only events that changed the machine are
    /// written: so its bytes have changed, or another version of the machine wrote it.
    Undone(usize),
    /// A call for it failed, or memory is wanting.
    OfFile(FileError),
}

impl From<AllocError> for Fault {
    ghost from_gives = { λ _ fault. fault ≡ OfFile Memory };

    fn from(_: AllocError) -> Self {
        Fault::OfFile(FileError::Memory)
    }
}

impl From<FileError> for Fault {
    ghost from_gives = { λ error fault. fault ≡ OfFile error };

    fn from(error: FileError) -> Self {
        Fault::OfFile(error)
    }
}
