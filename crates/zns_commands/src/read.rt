//! Read.

ghost use Rattle.std.specs.Prelude.{◌≡◌, ◌≤◌, ◌<◌, ◌*◌, ◌+◌, ◌++◌, nat_le, length, take, drop, replicate, is_some, IfOk, IfSome, OnOk};
ghost use Rattle.std.specs.List.{concat};
ghost use Rattle.std.specs.Result.{result_err};
ghost use Rattle.zone_resources.specs.Holds.{no_holds};
ghost use Rattle.nvme_entry.specs.declared.command.StandardCommand.TheVariants.{Read};
ghost use Rattle.image_store.specs.Namespace.{zone_at};
ghost use Rattle.common_definitions.specs.Checks.{first_failed, unless_failed};
ghost use Rattle.zns_commands.specs.Address.{zone_block_in};
ghost use Rattle.zns_commands.specs.Answer.{success_answer};
ghost use Rattle.zns_commands.specs.Effect.{effect_of_answer};
ghost use Rattle.zns_commands.specs.Meaning.{meaning};
ghost use Rattle.zns_commands.specs.Read.{read_checks, read_refusal, blocks_read, is_stored};

use crate::address::range;
use crate::answer::Answer;
use crate::transfer::{bytes_of_blocks, check_transfer};
use image_store::{Image, ZoneBlock};
use nvme_entry::{BlockCount, MOST_TRANSFER, Status, put_front};
use zone_state::ZoneState;

/// Tests that the blocks of a zone can be read.
///
/// # Errors
///
/// [`Status::ZONE_IS_OFFLINE`] where the zone is Offline.
pub fn check_readable(image: &Image, zone: u32) -> Result<(), Status>
    requires { zone < length image.now.zones }
    ensures { result_err result ≡ read_refusal (zone_at image.now zone).state }
{
    if image.zone(zone).state() == ZoneState::Offline {
        return Err(Status::ZONE_IS_OFFLINE);
    }
    Ok(())
}

/// Makes the checks of a read, and gives the block that it begins at.
fn check_read(
    image: &Image,
    lba: u64,
    blocks: BlockCount,
    input: &[u8],
) -> Result<ZoneBlock, Status>
    ensures value { result ≡ unless_failed (first_failed (read_checks image.now lba blocks input.now)) (zone_block_in image.now lba) }
    ensures inside { IfOk result (λ block. block.zone < length image.now.zones) }
    ensures most { OnOk result (blocks * image.now.block ≤ MOST_TRANSFER) }
{
    let bytes = bytes_of_blocks(image, blocks);
    check_transfer(bytes, 0, input)?;
    let block = range(image, lba, blocks)?;
    check_readable(image, block.zone)?;
    Ok(block)
}

/// Puts zeros at the front.
fn clear_front(output: &mut [u8], count: usize)
    requires { count ≤ length output.old }
    ensures { output.new ≡ replicate count 0 ++ drop count output.old }
{
    output[..count].fill(0);
}

/// Puts bytes at the front, and so many zeros behind them.
fn give(output: &mut [u8], bytes: &[u8], zeros: usize)
    requires { length bytes.now + zeros ≤ length output.old }
    ensures { output.new ≡ bytes.now ++ (replicate zeros 0 ++ drop (length bytes.now + zeros) output.old) }
{
    put_front(output, bytes);
    clear_front(&mut output[bytes.len()..], zeros);
}

/// Gives the blocks from this one on, and says how many bytes they are.
fn give_blocks(image: &Image, from: ZoneBlock, blocks: BlockCount, output: &mut [u8]) -> usize
    requires inside { from.zone < length image.now.zones }
    requires room { blocks * image.now.block ≤ length output.old }
    ensures length { result ≡ blocks * image.now.block }
    ensures front { take result output.new ≡ concat (blocks_read image.now.block (zone_at image.now from.zone).blocks from.offset blocks) }
    ensures rest { drop result output.new ≡ drop result output.old }
{
    let block = image.geometry().block().bytes() as usize;
    let written = image.zone(from.zone).written();
    let first = from.offset.min(written);
    let stored = blocks.get().min(written - first);
    let missing = (blocks.get() - stored) as usize;
    give(
        output,
        image.blocks(from.zone, first, stored),
        missing * block,
    );
    blocks.get() as usize * block
}

/// Gives the data of the blocks from `lba` on. It changes nothing, and no hold matters to it.
pub fn read(image: &Image, lba: u64, blocks: BlockCount, input: &[u8], output: &mut [u8]) -> Answer
    requires { MOST_TRANSFER ≤ length output.old }
    ensures answer { effect_of_answer result image.now output.new ≡ meaning image.now no_holds (Read lba blocks) input.now }
    ensures most { result.length ≤ MOST_TRANSFER }
    ensures rest { drop result.length output.new ≡ drop result.length output.old }
{
    match check_read(image, lba, blocks, input) {
        Ok(first) => Answer::success(0, give_blocks(image, first, blocks, output)),
        Err(status) => Answer::refused(status),
    }
}

/// The bytes of the blocks from this one on as they lie in the image; `None` where one of them isn't written.
fn stored_blocks(image: &Image, from: ZoneBlock, blocks: BlockCount) -> Option<&[u8]>
    requires { from.zone < length image.now.zones }
    ensures written { is_some result ≡ nat_le (from.offset + blocks) (length (zone_at image.now from.zone).blocks) }
    ensures length { IfSome result (λ bytes. length bytes.now ≡ blocks * image.now.block) }
    ensures value { IfSome result (λ bytes.
        bytes.now ≡ concat (blocks_read image.now.block (zone_at image.now from.zone).blocks from.offset blocks)) }
{
    let end = u64::from(from.offset) + u64::from(blocks.get());
    if end > u64::from(image.zone(from.zone).written()) {
        return None;
    }
    Some(image.blocks(from.zone, from.offset, blocks.get()))
}

/// The data that [`read`] gives, as it lies in the image: where the Read isn't refused and all its blocks are written.
/// `None` otherwise.
pub fn read_stored<'a>(
    image: &'a Image,
    lba: u64,
    blocks: BlockCount,
    input: &[u8],
) -> Option<&'a [u8]>
    ensures stored { is_some result ≡ is_stored image.now lba blocks input.now }
    ensures meaning { IfSome result (λ bytes. effect_of_answer (success_answer 0 (length bytes.now)) image.now bytes.now
        ≡ meaning image.now no_holds (Read lba blocks) input.now) }
    ensures most { IfSome result (λ bytes. length bytes.now ≤ MOST_TRANSFER) }
{
    match check_read(image, lba, blocks, input) {
        Ok(first) => stored_blocks(image, first, blocks),
        Err(_) => None,
    }
}
