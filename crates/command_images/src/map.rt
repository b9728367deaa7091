//! The zones of an image as a picture for a terminal.

use image_store::Geometry;
use image_text::ZoneTable;
use kept_device::KeptRun;
use nvme_entry::RunCommand;
use std::alloc::AllocError;
use zone_state::{Zone, ZoneState};

/// How many columns a full zone's bar has.
const BAR: u64 = 32;

/// What ends a color.
const PLAIN: &str = "\x1b[0m";

/// The zones, each on a line, and the runs that read and append to it.
///
/// # Errors
///
/// Want of memory.
pub(crate) fn push_map(
    table: &ZoneTable,
    runs: &[Option<KeptRun>],
    colored: bool,
    out: &mut String,
) -> Result<(), AllocError> {
    for (number, zone) in table.zones.iter().enumerate() {
        push_zone(number, zone, colored, out)?;
        push_runs(number, table.geometry, runs, out)?;
        out.push_str("\n")?;
    }
    Ok(())
}

/// Adds a zone: its number, the letter of its state, and how much of it is written.
fn push_zone(
    number: usize,
    zone: &Zone,
    colored: bool,
    out: &mut String,
) -> Result<(), AllocError> {
    let (letter, color) = drawn(zone.state());
    let written = zone.written();
    let capacity = zone.capacity();
    write!(out, "{number:4} ")?;
    if colored {
        out.push_str(color)?;
    }
    write!(out, "{letter} ")?;
    push_bar(columns(written, capacity), "#", out)?;
    if colored {
        out.push_str(PLAIN)?;
    }
    push_bar(BAR.saturating_sub(columns(written, capacity)), ".", out)?;
    write!(out, " {written}/{capacity}")
}

/// How many columns of a bar are written: none only where no block is, and all only where each block is.
fn columns(written: u32, capacity: u32) -> u64 {
    if written >= capacity {
        return BAR;
    }
    let part = u64::from(written) * BAR / u64::from(capacity);
    if written > 0 { part.max(1) } else { 0 }
}

/// Adds so many columns of a bar.
fn push_bar(columns: u64, mark: &str, out: &mut String) -> Result<(), AllocError> {
    for _column in 0..columns {
        out.push_str(mark)?;
    }
    Ok(())
}

/// Adds which runs read a zone, and which one appends to it.
fn push_runs(
    zone: usize,
    geometry: Geometry,
    runs: &[Option<KeptRun>],
    out: &mut String,
) -> Result<(), AllocError> {
    for (number, run) in runs.iter().enumerate() {
        if let Some(run) = run {
            push_run(number, zone, geometry, run.command, out)?;
        }
    }
    Ok(())
}

/// Adds what a run does with a zone, if anything.
fn push_run(
    number: usize,
    zone: usize,
    geometry: Geometry,
    command: RunCommand,
    out: &mut String,
) -> Result<(), AllocError> {
    if is_at(command.lba, zone, geometry) {
        write!(out, " <{number}")?;
    }
    if is_at(command.destination, zone, geometry) {
        write!(out, " >{number}")?;
    }
    Ok(())
}

/// Is a block of this address in the zone?
fn is_at(lba: u64, zone: usize, geometry: Geometry) -> bool {
    match geometry.zone_block(lba) {
        Some(block) => block.zone as usize == zone,
        None => false,
    }
}

/// The letter of a state, and what begins its color on a terminal.
fn drawn(state: ZoneState) -> (char, &'static str) {
    match state {
        ZoneState::Empty => ('e', "\x1b[2m"),
        ZoneState::ImplicitlyOpened => ('i', "\x1b[32m"),
        ZoneState::ExplicitlyOpened => ('o', "\x1b[36m"),
        ZoneState::Closed => ('c', "\x1b[33m"),
        ZoneState::Full => ('f', "\x1b[34m"),
        ZoneState::ReadOnly => ('r', "\x1b[35m"),
        ZoneState::Offline => ('x', "\x1b[31m"),
    }
}
