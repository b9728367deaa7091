//! The checks of a command's data.

ghost use Rattle.std.specs.Prelude.{◌≡◌, ◌≤◌, ◌*◌, ◌==◌, nat_le, [], ◌∷◌, length, OnOk};
ghost use Rattle.common_definitions.specs.Checks.{demand, first_failed, unless_failed};
ghost use Rattle.zone_state.specs.declared.status.TheConstants.Status.{INVALID_FIELD_IN_COMMAND};

use image_store::Image;
use nvme_entry::{BlockCount, MOST_TRANSFER, Status};

/// The bytes of so many blocks.
pub fn bytes_of_blocks(image: &Image, blocks: BlockCount) -> u64
    ensures value { result ≡ blocks * image.now.block }
    ensures some { 1 ≤ image.now.block }
{
    u64::from(blocks.get()) * u64::from(image.geometry().block().bytes())
}

/// Tests a transfer of `bytes`, of which `beside` should stand beside the entry.
///
/// # Errors
///
/// [`Status::INVALID_FIELD_IN_COMMAND`] for more bytes than a transfer may have, and where others stand beside the entry.
pub fn check_transfer(bytes: u64, beside: u64, input: &[u8]) -> Result<(), Status>
    ensures value { let given = demand (length input.now == beside) INVALID_FIELD_IN_COMMAND in
        result ≡ unless_failed (first_failed (demand (nat_le bytes MOST_TRANSFER) INVALID_FIELD_IN_COMMAND ∷ given ∷ [])) tt }
    ensures whole { OnOk result (length input.now ≡ beside) }
    ensures most { OnOk result (bytes ≤ MOST_TRANSFER) }
{
    if bytes > MOST_TRANSFER as u64 {
        return Err(Status::INVALID_FIELD_IN_COMMAND);
    }
    if input.len() as u64 != beside {
        return Err(Status::INVALID_FIELD_IN_COMMAND);
    }
    Ok(())
}
