//! Why the bytes of a file can't be moved by a command.

ghost use Rattle.std.specs.Prelude.{◌≡◌};
ghost use Rattle.command_files.specs.DataFault.{data_number};

use nvme_entry::MOST_TRANSFER;
use thiserror::Error;

/// Why a file of so many bytes can't be moved by a command of the device.
#[derive(Clone, Copy, Debug, Error)]
pub enum DataFault {
    /// There are none.
    #[error("0 bytes; from 1 to {most} are expected", most = MOST_TRANSFER)]
    Empty,
    /// They are more than one command moves.
    #[error("{0} bytes; a command moves at most {most}", most = MOST_TRANSFER)]
    TooLong(usize),
    /// They aren't whole blocks.
    #[error("{bytes} bytes; whole blocks of {block} are expected")]
    NotWholeBlocks { bytes: usize, block: u32 },
}

impl DataFault {
    /// The fault's number, from 1 to 3 (profile).
    pub(crate) fn number(self) -> u8
        ensures { result ≡ data_number self }
    {
        match self {
            DataFault::Empty => 1,
            DataFault::TooLong(_) => 2,
            DataFault::NotWholeBlocks { .. } => 3,
        }
    }
}
