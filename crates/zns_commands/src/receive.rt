//! Zone Management Receive.

ghost use Rattle.std.specs.Prelude.{◌≡◌, ◌≤◌, ◌*◌, ◌++◌, ◌^◌, length, take, drop};
ghost use Rattle.common_definitions.specs.Checks.{first_failed, unless_failed};
ghost use Rattle.zone_resources.specs.Holds.{no_holds};
ghost use Rattle.nvme_entry.specs.Report.{report};
ghost use Rattle.nvme_entry.specs.declared.command.StandardCommand.TheVariants.{Receive};
ghost use Rattle.zns_commands.specs.Address.{zone_number};
ghost use Rattle.image_store.specs.Namespace.{counted_zones};
ghost use Rattle.zns_commands.specs.Effect.{effect_of_answer};
ghost use Rattle.zns_commands.specs.Meaning.{meaning};
ghost use Rattle.zns_commands.specs.Receive.{receive_checks};

use crate::address::zone_block;
use crate::answer::Answer;
use crate::transfer::check_transfer;
use image_store::Image;
use nvme_entry::{DwordCount, MOST_TRANSFER, Report, Status, ZoneFilter};

/// Makes the checks of a report, and gives the zone that it begins at.
fn check_report(image: &Image, lba: u64, dwords: DwordCount, input: &[u8]) -> Result<u32, Status>
    ensures { result ≡ unless_failed (first_failed (receive_checks image.now lba dwords input.now)) (zone_number image.now lba) }
{
    check_transfer(dwords.bytes() as u64, 0, input)?;
    let block = zone_block(image, lba)?;
    Ok(block.zone)
}

/// Puts a report of so many bytes at the front.
fn put_report(output: &mut [u8], bytes: usize, zones: &Report)
    requires room { bytes ≤ length output.old }
    requires few { length zones.now.zones.now ≤ 2 ^ 32 }
    ensures { output.new ≡ report bytes zones.now.zones.now zones.now.first zones.now.size zones.now.filter zones.now.partial ++ drop bytes output.old }
{
    zones.write(&mut output[..bytes]);
}

/// Gives the report of the zones from one on, and says how many bytes it is.
fn give_report(
    image: &Image,
    first: u32,
    dwords: DwordCount,
    filter: ZoneFilter,
    partial: bool,
    output: &mut [u8],
) -> usize
    requires { 4 * dwords ≤ length output.old }
    ensures length { result ≡ 4 * dwords }
    ensures front { take result output.new ≡ report (4 * dwords) (counted_zones image.now) first image.now.size filter partial }
    ensures rest { drop result output.new ≡ drop result output.old }
{
    let zones = Report {
        zones: image.zones(),
        first,
        size: image.geometry().size(),
        filter,
        partial,
    };
    let bytes = dwords.bytes();
    put_report(output, bytes, &zones);
    bytes
}

/// Gives a report of the zones from the one that contains `lba` on. It changes nothing, and no hold matters to it.
pub fn receive(
    image: &Image,
    lba: u64,
    dwords: DwordCount,
    filter: ZoneFilter,
    partial: bool,
    input: &[u8],
    output: &mut [u8],
) -> Answer
    requires { MOST_TRANSFER ≤ length output.old }
    ensures answer { effect_of_answer result image.now output.new
        ≡ meaning image.now no_holds (Receive lba dwords filter partial) input.now }
    ensures most { result.length ≤ MOST_TRANSFER }
    ensures rest { drop result.length output.new ≡ drop result.length output.old }
{
    match check_report(image, lba, dwords, input) {
        Ok(first) => {
            let length = give_report(image, first, dwords, filter, partial, output);
            Answer::success(0, length)
        }
        Err(status) => Answer::refused(status),
    }
}
