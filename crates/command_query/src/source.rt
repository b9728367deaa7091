//! The blocks that are asked about.

use crate::refused::refused;
use clap::ArgMatches;
use command_files::arguments::{number, required};
use command_files::{Counted, Failure};
use image_store::Image;
use std::alloc::Global;
use zone_state::ZoneState;

/// The option that names the zone.
pub(crate) const ZONE: &str = "zone";

/// The option that says how many of its blocks are asked about.
pub(crate) const BLOCKS: &str = "blocks";

/// The first blocks of a zone, all of them written.
#[derive(Clone, Copy, Debug, PartialEq, Eq)]
pub(crate) struct SourceBlocks {
    /// The zone.
    pub(crate) zone: u32,
    /// The address of its first block.
    pub(crate) lba: u64,
    /// How many blocks are asked about: one at least.
    pub(crate) blocks: u32,
}

/// The blocks that the words ask about.
///
/// # Errors
///
/// There is no such zone, nothing of it can be read, or it has fewer blocks.
pub(crate) fn source_asked<'a>(
    alloc: Global,
    matches: &ArgMatches<'a>,
    image: &Image,
) -> Result<SourceBlocks, Failure<'a>> {
    let number_of_zone = number(matches, ZONE)?;
    let zones = image.zones();
    let Some(zone) = zones.get(number_of_zone as usize) else {
        let last = zones.len().saturating_sub(1);
        let told = format!(in alloc; "--zone {number_of_zone}: the image has zones 0 to {last}");
        return Err(refused(told));
    };
    if zone.state() == ZoneState::Offline {
        let told = format!(in alloc;
            "--zone {number_of_zone}: the zone is offline, so that nothing of it can be read"
        );
        return Err(refused(told));
    }
    if zone.written() == 0 {
        let told = format!(in alloc;
            "--zone {number_of_zone}: no block of the zone is written; `zscli zones` lists what is"
        );
        return Err(refused(told));
    }
    let blocks = blocks_asked(alloc, matches, zone.written())?;
    let size = image.geometry().size();
    Ok(SourceBlocks {
        zone: number_of_zone,
        lba: first_of(number_of_zone, size),
        blocks,
    })
}

/// The address of the first block of a zone, in zones of so many blocks.
// There are at most 4096 zones, which the type of a number doesn't say.
pub(crate) fn first_of(zone: u32, size: u32) -> u64 {
    u64::from(zone).saturating_mul(u64::from(size))
}

/// How many blocks are asked about, of so many that are written.
fn blocks_asked<'a>(
    alloc: Global,
    matches: &ArgMatches<'a>,
    written: u32,
) -> Result<u32, Failure<'a>> {
    if required(matches, BLOCKS).is_empty() {
        return Ok(written);
    }
    let asked = number(matches, BLOCKS)?;
    if asked == 0 || asked > written {
        let most = Counted(u64::from(written), "block");
        let told = format!(in alloc;
            "--blocks {asked}: {most} of the zone are written; ask of 1 to {written}"
        );
        return Err(refused(told));
    }
    Ok(asked)
}
