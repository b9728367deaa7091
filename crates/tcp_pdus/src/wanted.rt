//! What a capsule's entry still wants of the host.

ghost use Rattle.std.specs.Prelude.{◌≡◌, ◌≤◌, length};
ghost use Rattle.tcp_pdus.specs.Sgl.{wanted_checked};

use crate::direction::{Direction, ENTRY_BYTES, uses_sgls};
use crate::sgl::{SglDescriptor, TransferLength};
use zone_state::Status;

/// How many bytes of data the host is to send for an R2T, if it is to send any: of an entry whose capsule has so many bytes of data.
///
/// # Errors
///
/// That of the first check that fails, with which the command is completed at once: Invalid Field in Command where the data pointer
/// is no SGL; SGL Descriptor Type Invalid for data in the capsule of a command to which the host sends none; SGL Offset Invalid where
/// that is not all that stands in the capsule; Invalid Field in Command where the transport moves the data and some is in the capsule,
/// or the host sends more than [`MAX_H2C_DATA`]; SGL Descriptor Type Invalid for another type.
///
/// [`MAX_H2C_DATA`]: crate::MAX_H2C_DATA
pub fn wanted_data(entry: &[u8], inside: usize) -> Result<Option<TransferLength>, Status>
    requires { ENTRY_BYTES ≤ length entry.now }
    ensures { result ≡ wanted_checked entry.now inside }
{
    if !uses_sgls(entry) {
        return Err(Status::INVALID_FIELD_IN_COMMAND);
    }
    SglDescriptor::read(entry).check(Direction::of(entry), inside)
}
