//! Blocks that are in no zone, or cross the capacity of one.

ghost use Rattle.std.specs.Prelude.{◌≡◌, ◌+◌, ◌≤◌, ◌⊎◌, IfSome, IfOk, OnOk, Some};
ghost use Rattle.image_store.specs.Geometry.{zone_block_of};
ghost use Rattle.command_entry.specs.Zones.{AreInZones, first_counted};

use crate::kinds::Kind;
use crate::words::EntryWords;
use crate::wrong_line::wrong_words;
use clap::Command;
use clap::error::ErrorKind;
use command_files::{Counted, Failure};
use image_store::{Geometry, ZoneBlock};
use std::alloc::{AllocError, Global};

/// Checks that the blocks of which words speak are in zones of this geometry, if one is known: the address that they name, and that to
/// which a run appends. So many blocks from there on are within the capacity of its zone. An append begins at the write pointer, which isn't
/// known here: no more blocks than a zone's capacity are taken.
pub(crate) fn check_zones<'a>(
    alloc: Global,
    command_line: &mut Command<'a>,
    words: &EntryWords<'a>,
    blocks: usize,
    geometry: Option<Geometry>,
) -> Result<(), Failure<'a>>
    ensures { IfSome geometry (λ geometry. OnOk result (AreInZones geometry words.now blocks)) }
{
    let Some(geometry) = geometry else {
        return Ok(());
    };
    let first = zone_block(alloc, command_line, words.numbers.lba, geometry)?;
    zone_block(alloc, command_line, words.numbers.destination, geometry)?;
    check_room(alloc, command_line, words, blocks, first, geometry)
}

/// The place in its zone of the block with this address.
fn zone_block<'a>(
    alloc: Global,
    command_line: &mut Command<'a>,
    lba: u64,
    geometry: Geometry,
) -> Result<ZoneBlock, Failure<'a>>
    ensures { IfOk result (λ block. zone_block_of geometry lba ≡ Some block) }
{
    match geometry.zone_block(lba) {
        Some(block) => Ok(block),
        None => {
            let text = outside(alloc, lba, geometry)?;
            Err(wrong_words(command_line, ErrorKind::ValueValidation, text.as_str()))
        }
    }
}

/// What the user is told of an address in no zone.
fn outside(alloc: Global, lba: u64, geometry: Geometry) -> Result<String, AllocError> {
    let blocks = geometry.blocks();
    format!(in alloc; "LBA {lba}: in no zone, since all zones have {blocks} LBAs from 0 on")
}

/// Checks that so many blocks from a place on are within the capacity of its zone.
fn check_room<'a>(
    alloc: Global,
    command_line: &mut Command<'a>,
    words: &EntryWords<'a>,
    blocks: usize,
    place: ZoneBlock,
    geometry: Geometry,
) -> Result<(), Failure<'a>>
    ensures { OnOk result ((blocks + first_counted words.now.kind place ≤ geometry.capacity) ⊎ (blocks ≡ 0)) }
{
    let first = match words.kind {
        Kind::Append => 0,
        _ => place.offset,
    };
    let capacity = geometry.capacity();
    if blocks as u64 <= u64::from(capacity.saturating_sub(first)) {
        return Ok(());
    }
    let text = crossing(
        alloc,
        words.numbers.lba,
        blocks as u64,
        place.zone,
        capacity,
    )?;
    Err(wrong_words(command_line, ErrorKind::ValueValidation, text.as_str()))
}

/// What the user is told of such blocks.
fn crossing(
    alloc: Global,
    lba: u64,
    blocks: u64,
    zone: u32,
    capacity: u32,
) -> Result<String, AllocError> {
    let moved = Counted(blocks, "block");
    let most = Counted(u64::from(capacity), "block");
    format!(in alloc; "{moved} from LBA {lba} on: not within the capacity of zone {zone}, {most}")
}
