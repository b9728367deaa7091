//! The zone that an answer is appended to.

use crate::refused::refused;
use clap::ArgMatches;
use command_files::Failure;
use command_files::arguments::{number, required};
use image_store::Image;
use std::alloc::Global;
use zone_state::ZoneState;

/// The option that names the zone which keeps the answer.
pub(crate) const INTO: &str = "into";

/// The zone to which the answer of a question about another is appended: the one that the words name, and else the first that is Empty.
/// Where nothing is appended one that is open serves too.
///
/// # Errors
///
/// There is no such zone, it is the one that is asked about, or nothing is appended to it.
pub(crate) fn destination_for<'a>(
    alloc: Global,
    matches: &ArgMatches<'a>,
    image: &Image,
    source: u32,
    appends: bool,
) -> Result<u32, Failure<'a>> {
    if !required(matches, INTO).is_empty() {
        return named_zone(alloc, matches, image, source, appends);
    }
    match destination_in(image, source, appends) {
        Some(zone) => Ok(zone),
        None => {
            let told = format!(in alloc;
                "no zone is Empty for the answer; reset one whose blocks aren't wanted any more, as by `zscli entry reset`"
            );
            Err(refused(told))
        }
    }
}

/// The zone that the words name.
fn named_zone<'a>(
    alloc: Global,
    matches: &ArgMatches<'a>,
    image: &Image,
    source: u32,
    appends: bool,
) -> Result<u32, Failure<'a>> {
    let zone = number(matches, INTO)?;
    let zones = image.geometry().zones();
    if zone >= zones {
        let last = zones.saturating_sub(1);
        let told = format!(in alloc; "--into {zone}: the image has zones 0 to {last}");
        return Err(refused(told));
    }
    if zone == source {
        let told = format!(in alloc; "--into {zone}: the zone is asked about; name another");
        return Err(refused(told));
    }
    if !appends {
        let told = format!(in alloc;
            "--into {zone}: rows are kept in a zone, and tallies aren't; ask without --into"
        );
        return Err(refused(told));
    }
    Ok(zone)
}

/// The first zone that serves.
fn destination_in(image: &Image, source: u32, appends: bool) -> Option<u32> {
    for zone in 0..image.geometry().zones() {
        if zone != source && serves(image, zone, appends) {
            return Some(zone);
        }
    }
    None
}

/// Does a zone serve?
fn serves(image: &Image, zone: u32, appends: bool) -> bool {
    match image.zones().get(zone as usize) {
        Some(zone) => { zone.state() == ZoneState::Empty || (!appends && zone.state().is_open()) }
        None => false,
    }
}
