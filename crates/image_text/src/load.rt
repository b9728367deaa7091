//! Loading the fields of an image.

ghost use Rattle.std.specs.Prelude.{◌≡◌, ◌≤◌, ◌<◌, ◌-◌, ◌+◌, ◌^◌, length, IfOk, OnOk};
ghost use Rattle.zone_resources.specs.Admission.{IsWithin};
ghost use Rattle.image_store.specs.ImageInMemory.{IsFlat, namespace_of};
ghost use Rattle.image_text.specs.Loading.{LoadGives, LoadsTable, LoadsText, CountsLoad};
ghost use Rattle.image_text.specs.steps.LoadStages.{AreZones, FillsZones, TellsRows, blocks_after, bytes_after, spliced_in};
ghost use Rattle.image_text.specs.Reading.{bytes_in, header_in, zone_rows_in, total_kept, limits_kept, end_in};

use crate::fault::LoadFault;
use crate::header::Header;
use crate::streams::Source;
use crate::table::ZoneTable;
use crate::{header, zone_row};
use image_store::{Geometry, Limits, Zone};
use std::alloc::Global;
use zone_resources::Counts;

/// The geometry, zones and blocks of the image whose text comes from a source.
///
/// # Errors
///
/// Those of [`ImageText::load`](crate::ImageText::load).
pub fn load<R: Source>(
    alloc: Global,
    source: &mut R,
) -> Result<(Geometry, Vec<Zone>, Vec<u8>), LoadFault>
    requires { R.failures source.old < 2 ^ 64 - 1 }
    ensures parts { R.tells → LoadsText (λ parts. namespace_of parts.0 parts.1.items parts.2.items) (R.rest source.old) result }
    ensures flat { IfOk result (λ parts. IsFlat parts.0 parts.1.items parts.2.items) }
    ensures within { IfOk result (λ parts. IsWithin parts.1.items parts.0.limits) }
    ensures failures { CountsLoad (R.failures source.old) (R.failures source.new) result }
{
    let table = read_table(alloc, source)?;
    let blocks = read_blocks(alloc, source, table.geometry, &table.zones)?;
    read_end(source)?;
    Ok((table.geometry, table.zones, blocks))
}

/// The geometry and zones of the image whose text comes from a source, of whose blocks none is read.
///
/// # Errors
///
/// Those of [`ImageText::load`](crate::ImageText::load).
pub fn load_table<R: Source>(alloc: Global, source: &mut R) -> Result<ZoneTable, LoadFault>
    requires { R.failures source.old < 2 ^ 64 - 1 }
    ensures table { R.tells → LoadsTable (λ table. (table.geometry, table.zones.items)) (R.rest source.old) result }
    ensures failures { CountsLoad (R.failures source.old) (R.failures source.new) result }
{
    let table = read_table(alloc, source)?;
    skip_zones(source, table.geometry, &table.zones)?;
    read_end(source)?;
    Ok(table)
}

/// Reads the header and the rows of the zones, and tests them.
fn read_table<R: Source>(alloc: Global, source: &mut R) -> Result<ZoneTable, LoadFault>
    requires { R.failures source.old < 2 ^ 64 - 1 }
    ensures rows { R.tells
        → TellsRows (λ table. (table.geometry, table.zones.items)) (R.rest source.old) (R.rest source.new) result }
    ensures fit { IfOk result (λ table. AreZones table.geometry table.zones.items) }
    ensures within { IfOk result (λ table. IsWithin table.zones.items table.geometry.limits) }
    ensures failures { CountsLoad (R.failures source.old) (R.failures source.new) result }
{
    let header = read_header(source)?;
    let geometry = header.geometry;
    let zones = read_zone_rows(alloc, source, geometry)?;
    check_total(&zones, header.total)?;
    check_limits(&zones, geometry.limits())?;
    Ok(ZoneTable { geometry, zones })
}

/// Reads the header.
fn read_header<R: Source>(source: &mut R) -> Result<Header, LoadFault>
    requires { R.failures source.old < 2 ^ 64 - 1 }
    ensures header { R.tells → LoadGives ⊥ (λ header. (header, R.rest source.new)) result (header_in (R.rest source.old)) }
    ensures failures { CountsLoad (R.failures source.old) (R.failures source.new) result }
{
    let mut bytes = [0; header::HEADER_BYTES];
    fill(source, &mut bytes)?;
    header::decode(&bytes)
}

/// Reads the rows of the zones, all of them before any is looked at.
fn read_zone_rows<R: Source>(
    alloc: Global,
    source: &mut R,
    geometry: Geometry,
) -> Result<Vec<Zone>, LoadFault>
    requires { R.failures source.old < 2 ^ 64 - 1 }
    ensures rows { R.tells → LoadGives (Unit {0}) (λ zones. (zones.items, R.rest source.new)) result (zone_rows_in geometry (R.rest source.old)) }
    ensures fit { IfOk result (λ zones. AreZones geometry zones.items) }
    ensures failures { CountsLoad (R.failures source.old) (R.failures source.new) result }
{
    let count = geometry.zones();
    let mut bytes = vec![in alloc; 0; count as usize * zone_row::ZONE_ROW_BYTES]?;
    fill(source, &mut bytes)?;
    zone_row::decode_all(alloc, &bytes, count, geometry.capacity())
}

/// Refuses zones with another number of written blocks than the header tells, if it tells one.
fn check_total(zones: &[Zone], total: Option<u64>) -> Result<(), LoadFault>
    requires { length zones.now < 2 ^ 32 }
    ensures { result ≡ total_kept total zones.now }
{
    let Some(told) = total else {
        return Ok(());
    };
    let counted = zone_row::written_blocks(zones);
    if told != counted {
        return Err(LoadFault::Total { told, counted });
    }
    Ok(())
}

/// Refuses zones that hold more resources than may be held.
fn check_limits(zones: &[Zone], limits: Limits) -> Result<(), LoadFault>
    ensures value { result ≡ limits_kept limits zones.now }
    ensures within { OnOk result (IsWithin zones.now limits) }
{
    let counts = Counts::of(zones);
    let few_open = counts.opened <= limits.open_limit as usize;
    let few_active = counts.active <= limits.active_limit as usize;
    if few_open && few_active {
        Ok(())
    } else {
        Err(LoadFault::Limits {
            opened: counts.opened,
            active: counts.active,
            limits,
        })
    }
}

/// Reads the written blocks of the zones, each straight into its place.
fn read_blocks<R: Source>(
    alloc: Global,
    source: &mut R,
    geometry: Geometry,
    zones: &[Zone],
) -> Result<Vec<u8>, LoadFault>
    requires fit { AreZones geometry zones.now }
    requires few { R.failures source.old < 2 ^ 64 - 1 }
    ensures blocks { R.tells
        → FillsZones (Unit {0}) geometry zones.now (λ all. all.items) (R.rest source.old) (R.rest source.new) result }
    ensures flat { IfOk result (λ blocks. IsFlat geometry zones.now blocks.items) }
    ensures failures { CountsLoad (R.failures source.old) (R.failures source.new) result }
{
    let mut blocks = vec![in alloc; 0; geometry.room()]?;
    fill_zones(source, geometry, zones, &mut blocks)?;
    Ok(blocks)
}

/// Reads the written blocks of each zone into its room.
fn fill_zones<R: Source>(
    source: &mut R,
    geometry: Geometry,
    zones: &[Zone],
    blocks: &mut [u8],
) -> Result<(), LoadFault>
    requires flat { IsFlat geometry zones.now blocks.old }
    requires few { R.failures source.old < 2 ^ 64 - 1 }
    ensures blocks { R.tells → FillsZones ⊥ geometry zones.now (λ _. blocks.new) (R.rest source.old) (R.rest source.new) result }
    ensures failures { CountsLoad (R.failures source.old) (R.failures source.new) result }
{
    let block = geometry.block().bytes() as usize;
    let room = geometry.zone_room();
    for (number, zone) in zones.iter().enumerate() {
        let written = zone.written() as usize * block;
        fill_part(source, blocks, number * room, written)?;
    }
    Ok(())
}

/// Reads until a part of `to` is full.
fn fill_part<R: Source>(
    source: &mut R,
    to: &mut [u8],
    start: usize,
    count: usize,
) -> Result<(), LoadFault>
    requires inside { start + count ≤ length to.old }
    requires few { R.failures source.old < 2 ^ 64 - 1 }
    ensures bytes { R.tells → LoadGives ⊥ (λ _. (to.new, R.rest source.new)) result (spliced_in start count to.old (R.rest source.old)) }
    ensures failures { CountsLoad (R.failures source.old) (R.failures source.new) result }
{
    fill(source, &mut to[start..start + count])
}

/// Passes over the written blocks of the zones.
fn skip_zones<R: Source>(
    source: &mut R,
    geometry: Geometry,
    zones: &[Zone],
) -> Result<(), LoadFault>
    requires { R.failures source.old < 2 ^ 64 - 1 }
    ensures after { R.tells
        → LoadGives ⊥ (λ _. R.rest source.new) result (blocks_after geometry.block zones.now (R.rest source.old)) }
    ensures failures { CountsLoad (R.failures source.old) (R.failures source.new) result }
{
    let block = geometry.block().bytes();
    for zone in zones {
        skip_all(source, u64::from(zone.written()) * u64::from(block))?;
    }
    Ok(())
}

/// Passes over so many bytes.
#[tactic(auto, using(crate::proofs::Tables::all_skipped, crate::proofs::Tables::some_skipped, crate::proofs::Tables::none_skipped))]
fn skip_all<R: Source>(source: &mut R, count: u64) -> Result<(), LoadFault>
    requires { R.failures source.old < 2 ^ 64 - 1 }
    ensures after { R.tells → LoadGives ⊥ (λ _. R.rest source.new) result (bytes_after count (R.rest source.old)) }
    ensures failures { CountsLoad (R.failures source.old) (R.failures source.new) result }
{
    let mut left = count;
    while left > 0 {
        let skipped = source.skip(left)?;
        if skipped == 0 {
            return Err(LoadFault::Truncated);
        }
        left -= skipped;
    }
    Ok(())
}

/// Refuses bytes that still come.
fn read_end<R: Source>(source: &mut R) -> Result<(), LoadFault>
    requires { R.failures source.old < 2 ^ 64 - 1 }
    ensures end { R.tells → LoadGives ⊥ (λ end. end) result (end_in (R.rest source.old)) }
    ensures failures { CountsLoad (R.failures source.old) (R.failures source.new) result }
{
    let more = source.skip(1)?;
    if more > 0 {
        return Err(LoadFault::Trailing);
    }
    Ok(())
}

/// Reads until `to` is full.
fn fill<R: Source>(source: &mut R, to: &mut [u8]) -> Result<(), LoadFault>
    requires { R.failures source.old < 2 ^ 64 - 1 }
    ensures bytes { R.tells → LoadGives ⊥ (λ _. (to.new, R.rest source.new)) result (bytes_in (length to.old) (R.rest source.old)) }
    ensures failures { CountsLoad (R.failures source.old) (R.failures source.new) result }
{
    let mut at = 0;
    while at < to.len() {
        let count = source.read(&mut to[at..])?;
        if count == 0 {
            return Err(LoadFault::Truncated);
        }
        at += count;
    }
    Ok(())
}
