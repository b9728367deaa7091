//! Logical blocks and the zones that contain them.

ghost use Rattle.std.specs.Prelude.{◌≡◌, ◌+◌, ◌==◌, nat_le, nat_lt, [], ◌∷◌, IfOk};
ghost use Rattle.std.specs.Result.{result_err};
ghost use Rattle.common_definitions.specs.Checks.{demand, first_failed, unless_failed};
ghost use Rattle.zone_state.specs.declared.status.TheConstants.Status.{INVALID_FIELD_IN_COMMAND, LBA_OUT_OF_RANGE, ZONE_BOUNDARY_ERROR};
ghost use Rattle.zns_commands.specs.Address.{block_total, zone_number, zone_block_in, zone_offset, IsZoneBlock};
ghost use Rattle.zns_commands.specs.steps.Checks.{address_check, range_checks};

use image_store::{Image, ZoneBlock};
use nvme_entry::{BlockCount, Status};

/// A logical block, as a block of its zone.
///
/// # Errors
///
/// [`Status::LBA_OUT_OF_RANGE`] where the namespace doesn't have it.
pub fn zone_block(image: &Image, lba: u64) -> Result<ZoneBlock, Status>
    ensures value { result ≡ unless_failed (address_check image.now lba) (zone_block_in image.now lba) }
    ensures block { IfOk result (IsZoneBlock image.now lba) }
{
    image
        .geometry()
        .zone_block(lba)
        .ok_or(Status::LBA_OUT_OF_RANGE)
}

/// The number of the zone whose lowest block is `lba`.
///
/// # Errors
///
/// [`Status::LBA_OUT_OF_RANGE`] for a block that the namespace doesn't have, [`Status::INVALID_FIELD_IN_COMMAND`] for one
/// that isn't the lowest of its zone.
pub fn lowest(image: &Image, lba: u64) -> Result<u32, Status>
    ensures value { let inside = demand (nat_lt lba (block_total image.now)) LBA_OUT_OF_RANGE in
        let first = demand (zone_offset image.now lba == 0) INVALID_FIELD_IN_COMMAND in
        result ≡ unless_failed (first_failed (inside ∷ first ∷ [])) (zone_number image.now lba) }
    ensures block { IfOk result (λ zone. IsZoneBlock image.now lba (record { zone = zone; offset = 0 })) }
{
    let block = zone_block(image, lba)?;
    if block.offset != 0 {
        return Err(Status::INVALID_FIELD_IN_COMMAND);
    }
    Ok(block.zone)
}

/// The first of a range of blocks, as a block of its zone.
///
/// # Errors
///
/// [`Status::LBA_OUT_OF_RANGE`] where the namespace doesn't have all of them.
pub fn first_block(image: &Image, lba: u64, blocks: BlockCount) -> Result<ZoneBlock, Status>
    ensures value { let inside = demand (nat_le (lba + blocks) (block_total image.now)) LBA_OUT_OF_RANGE in
        result ≡ unless_failed inside (zone_block_in image.now lba) }
    ensures block { IfOk result (IsZoneBlock image.now lba) }
{
    let block = zone_block(image, lba)?;
    if u64::from(blocks.get()) > image.geometry().blocks() - lba {
        return Err(Status::LBA_OUT_OF_RANGE);
    }
    Ok(block)
}

/// Tests that so many blocks, from this one of a zone on, lie in that zone.
///
/// # Errors
///
/// [`Status::ZONE_BOUNDARY_ERROR`] where they go on into another zone.
pub fn check_within_zone(image: &Image, first: ZoneBlock, blocks: BlockCount) -> Result<(), Status>
    ensures { result_err result ≡ demand (nat_le (first.offset + blocks) image.now.size) ZONE_BOUNDARY_ERROR }
{
    if u64::from(first.offset) + u64::from(blocks.get()) > u64::from(image.geometry().size()) {
        return Err(Status::ZONE_BOUNDARY_ERROR);
    }
    Ok(())
}

/// The first of a range of blocks that lies in one zone, as a block of that zone.
///
/// # Errors
///
/// Those of [`first_block`] and of [`check_within_zone`].
pub fn range(image: &Image, lba: u64, blocks: BlockCount) -> Result<ZoneBlock, Status>
    ensures value { result ≡ unless_failed (first_failed (range_checks image.now lba blocks)) (zone_block_in image.now lba) }
    ensures block { IfOk result (IsZoneBlock image.now lba) }
{
    let block = first_block(image, lba, blocks)?;
    check_within_zone(image, block, blocks)?;
    Ok(block)
}
