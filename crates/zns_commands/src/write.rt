//! Writing to a zone, and Write.

ghost use Rattle.std.specs.Prelude.{◌≡◌, ◌<◌, ◌*◌, length, ℕ, IfOk, OnOk, OnErr};
ghost use Rattle.nvme_entry.specs.declared.command.StandardCommand.TheVariants.{Write};
ghost use Rattle.image_store.specs.Namespace.{zone_at};
ghost use Rattle.common_definitions.specs.Checks.{first_failed, unless_failed};
ghost use Rattle.zns_commands.specs.Address.{zone_number};
ghost use Rattle.zns_commands.specs.Effect.{Tells};
ghost use Rattle.zns_commands.specs.Meaning.{meaning, refusal_of};
ghost use Rattle.zns_commands.specs.Write.{with_written};
ghost use Rattle.zns_commands.specs.steps.Accepted.{CanWrite, IsWhole};
ghost use Rattle.zns_commands.specs.steps.Checks.{transfer_checks, zone_write_checks};
ghost use Rattle.zns_commands.specs.steps.Plans.{write_plan, written_by};

use crate::address::range;
use crate::answer::Answer;
use crate::resources::{give_way, room_for};
use crate::transfer::{bytes_of_blocks, check_transfer};
use image_store::Image;
use nvme_entry::{BlockCount, Status};
use zone_resources::Holds;

/// A write that isn't refused: the zone that is written, and the one that gives way to it.
#[derive(Clone, Copy, Debug)]
pub struct WritePlan {
    /// The zone's number.
    pub zone: u32,
    /// The number of the zone that is closed before, for the open resource that it has.
    pub closing: Option<u32>,
}

/// The checks of the data of a write: whole blocks, as many as the command says.
///
/// # Errors
///
/// [`Status::INVALID_FIELD_IN_COMMAND`] for other data, and for more than a transfer may have.
pub fn check_data(image: &Image, blocks: BlockCount, input: &[u8]) -> Result<(), Status>
    ensures value { let bytes = blocks * image.now.block in result ≡ unless_failed (first_failed (transfer_checks bytes bytes input.now)) tt }
    ensures whole { OnOk result (IsWhole image.now blocks input.now) }
{
    let bytes = bytes_of_blocks(image, blocks);
    check_transfer(bytes, bytes, input)
}

/// The checks of a write to a zone, from its block `at` on.
///
/// # Errors
///
/// The first that applies: [`Status::ZONE_HELD`] where a run appends to the zone; those of [`Zone::check_write`]; those of
/// [`room_for`].
///
/// [`Zone::check_write`]: zone_state::Zone::check_write
fn check_write(
    image: &Image,
    holds: &Holds,
    zone: u32,
    at: u32,
    blocks: BlockCount,
) -> Result<WritePlan, Status>
    requires { zone < length image.now.zones }
    ensures value { result ≡ unless_failed (first_failed (zone_write_checks image.now holds.now zone at blocks)) (write_plan image.now holds.now zone) }
    ensures can { IfOk result (CanWrite image.now at blocks) }
{
    if holds.is_destination(zone) {
        return Err(Status::ZONE_HELD);
    }
    image.zone(zone).check_write(at, blocks.get())?;
    let closing = room_for(image, holds, zone)?;
    // Brings in what holds of each image.
    let _ = image.geometry();
    Ok(WritePlan { zone, closing })
}

/// The checks of a write to a zone from its write pointer on.
///
/// # Errors
///
/// Those of [`check_write`].
pub fn check_at_write_pointer(
    image: &Image,
    holds: &Holds,
    zone: u32,
    blocks: BlockCount,
) -> Result<WritePlan, Status>
    requires { zone < length image.now.zones }
    ensures value { let at = length (zone_at image.now zone).blocks in
        result ≡ unless_failed (first_failed (zone_write_checks image.now holds.now zone at blocks)) (write_plan image.now holds.now zone) }
    ensures can { IfOk result (CanWrite image.now (length (zone_at image.now zone).blocks) blocks) }
{
    let at = image.zone(zone).written();
    check_write(image, holds, zone, at, blocks)
}

/// Closes the zone that gives way, and writes the data at the write pointer of the zone of a plan.
pub fn put(image: &mut Image, plan: WritePlan, blocks: BlockCount, input: &[u8])
    requires can { (at : ℕ) × CanWrite image.old at blocks plan }
    requires whole { IsWhole image.old blocks input.now }
    ensures { image.new ≡ written_by image.old plan input.now }
{
    give_way(image, plan.zone, plan.closing);
    image.append(plan.zone, input);
}

/// Writes the data from `lba` on, which is the write pointer of its zone. A refused write changes
/// nothing.
pub fn write(image: &mut Image, holds: &Holds, lba: u64, blocks: BlockCount, input: &[u8]) -> Answer
    ensures answer { Tells result image.new (meaning image.old holds.now (Write lba blocks) input.now) }
    ensures no_data { result.length ≡ 0 }
{
    Answer::without_data(try_write(image, holds, lba, blocks, input))
}

/// What [`write`] does: the number 0, or the status that refuses it.
fn try_write(
    image: &mut Image,
    holds: &Holds,
    lba: u64,
    blocks: BlockCount,
    input: &[u8],
) -> Result<u64, Status>
    ensures value { result ≡ unless_failed (refusal_of image.old holds.now (Write lba blocks) input.now) 0 }
    ensures ok { OnOk result (image.new ≡ with_written image.old holds.now (zone_number image.old lba) input.now) }
    ensures err { OnErr result (image.new ≡ image.old) }
{
    check_data(image, blocks, input)?;
    let block = range(image, lba, blocks)?;
    let plan = check_write(image, holds, block.zone, block.offset, blocks)?;
    put(image, plan, blocks, input);
    Ok(0)
}
