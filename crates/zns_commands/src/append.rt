//! Zone Append.

ghost use Rattle.std.specs.Prelude.{◌≡◌, length, OnOk, OnErr};
ghost use Rattle.nvme_entry.specs.declared.command.StandardCommand.TheVariants.{Append};
ghost use Rattle.common_definitions.specs.Checks.{unless_failed};
ghost use Rattle.zns_commands.specs.Address.{IsZoneBlock, zone_number, write_pointer};
ghost use Rattle.zns_commands.specs.Effect.{Tells};
ghost use Rattle.zns_commands.specs.Append.{assigned_lba};
ghost use Rattle.zns_commands.specs.Meaning.{meaning, refusal_of};
ghost use Rattle.zns_commands.specs.Write.{with_written};

use crate::address::lowest;
use crate::answer::Answer;
use crate::write::{check_at_write_pointer, check_data, put};
use image_store::Image;
use nvme_entry::{BlockCount, Status};
use zone_resources::Holds;

/// Writes the data, so many blocks, at the write pointer of the zone whose lowest block is `lba`, and answers the LBA
/// that the first of them went to (ZNS 1.1, 3.4.1). An append whose status isn't success changes nothing.
pub fn append(
    image: &mut Image,
    holds: &Holds,
    lba: u64,
    blocks: BlockCount,
    input: &[u8],
) -> Answer
    ensures answer { Tells result image.new (meaning image.old holds.now (Append lba blocks) input.now) }
    ensures no_data { result.length ≡ 0 }
{
    Answer::without_data(try_append(image, holds, lba, blocks, input))
}

/// What [`append`] does: the block that the first one went to, or the status that refuses it.
fn try_append(
    image: &mut Image,
    holds: &Holds,
    lba: u64,
    blocks: BlockCount,
    input: &[u8],
) -> Result<u64, Status>
    ensures value { result ≡ unless_failed (refusal_of image.old holds.now (Append lba blocks) input.now) (assigned_lba image.old lba) }
    ensures ok { OnOk result (image.new ≡ with_written image.old holds.now (zone_number image.old lba) input.now) }
    ensures err { OnErr result (image.new ≡ image.old) }
{
    check_data(image, blocks, input)?;
    let zone = lowest(image, lba)?;
    let plan = check_at_write_pointer(image, holds, zone, blocks)?;
    let assigned = pointer(image, zone, lba);
    put(image, plan, blocks, input);
    Ok(assigned)
}

/// The block that the next write to a zone goes to; `lba` is the zone's lowest.
fn pointer(image: &Image, zone: u32, lba: u64) -> u64
    requires { IsZoneBlock image.now lba (record { zone = zone; offset = 0 }) }
    ensures { result ≡ write_pointer image.now zone }
{
    lba + u64::from(image.zone(zone).written())
}
