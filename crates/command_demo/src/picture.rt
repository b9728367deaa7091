//! The zones in a picture, and what is in their blocks.

ghost use Rattle.std.specs.Prelude.{◌<◌, length};

use crate::events::DESTINATION;
use crate::orders::push_order;
use emit_append::{UnpackFault, unpack};
use image_store::Image;
use program_interface::BlockSize;
use std::alloc::{AllocError, Global};
use zone_state::Zone;

/// The characters of a zone's bar.
const BAR: u32 = 32;

/// Adds each zone on a line, and below it what is in its written blocks.
pub(crate) fn push_zones(alloc: Global, image: &Image, out: &mut String) -> Result<(), AllocError> {
    let geometry = image.geometry();
    for number in 0..geometry.zones() {
        let lowest = u64::from(number).saturating_mul(u64::from(geometry.size()));
        push_zone(number, lowest, image.zone(number), out)?;
        let blocks = written_blocks(image, number);
        push_contents(alloc, lowest, blocks, geometry.block(), out)?;
    }
    Ok(())
}

/// The bytes of a zone's written blocks.
fn written_blocks(image: &Image, zone: u32) -> &[u8]
    requires { zone < length image.now.zones }
{
    image.blocks(zone, 0, image.zone(zone).written())
}

/// Adds a zone's state, how much of it is written, and its write pointer.
fn push_zone(number: u32, lowest: u64, zone: Zone, out: &mut String) -> Result<(), AllocError> {
    let state = zone.state();
    let written = zone.written();
    let capacity = zone.capacity();
    let pointer = lowest.saturating_add(u64::from(written));
    write!(out, "zone {number} [")?;
    let full = filled(written, capacity);
    for place in 0..BAR {
        out.push_str(if place < full { "#" } else { "." })?;
    }
    writeln!(
        out,
        "] {state}, {written} of {capacity} blocks, write pointer at LBA {pointer}"
    )
}

/// How many characters of a bar are filled: one at least where a block is written.
fn filled(written: u32, capacity: u32) -> u32 {
    let part = u64::from(written) * u64::from(BAR) / u64::from(capacity.max(1));
    let part = part.min(u64::from(BAR)) as u32;
    part.max(u32::from(written > 0))
}

/// Adds what is in the written blocks of a zone: an order in each, or the records of the run.
fn push_contents(
    alloc: Global,
    zone: u64,
    blocks: &[u8],
    size: BlockSize,
    out: &mut String,
) -> Result<(), AllocError> {
    let mut lba = zone;
    for block in blocks.chunks_exact(size.bytes() as usize) {
        if zone == DESTINATION {
            push_records(alloc, lba, block, size, out)?;
        } else {
            write!(out, "  LBA {lba}: ")?;
            push_order(block, out)?;
        }
        lba = lba.saturating_add(1);
    }
    Ok(())
}

/// Adds the records of an output block.
fn push_records(
    alloc: Global,
    lba: u64,
    block: &[u8],
    size: BlockSize,
    out: &mut String,
) -> Result<(), AllocError> {
    let records = match unpack(alloc, block, size) {
        Ok(records) => records,
        Err(UnpackFault::At(_)) => Vec::new(alloc),
        Err(UnpackFault::Memory) => return Err(AllocError),
    };
    for record in &records {
        write!(out, "  LBA {lba}, a record: ")?;
        push_order(record.as_slice(), out)?;
    }
    Ok(())
}
