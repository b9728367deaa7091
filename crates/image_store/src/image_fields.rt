//! The fields of an image, over slices: a zone of which nothing is written, what changes them, and the bytes of written blocks.
//! The methods that change an image or give its blocks only call these.

ghost use Rattle.std.specs.Prelude.{◌≡◌, ◌≤◌, ◌<◌, ◌+◌, ◌*◌, length, get_or, set, take, drop, Ok};
ghost use Rattle.std.specs.List.{concat};
ghost use Rattle.zone_resources.specs.Counts.{counts_of};
ghost use Rattle.zone_state.specs.Zone.{write_check, IsZone, kept};
ghost use Rattle.image_store.specs.Blocks.{block_count};
ghost use Rattle.image_store.specs.ImageInMemory.{IsFlat, IsImage, namespace_of, no_counted_zone};
ghost use Rattle.image_store.specs.steps.EmptyZone.{empty_counted_zone};
ghost use Rattle.common_definitions.specs.Bytes.{spliced};
ghost use Rattle.image_store.specs.Namespace.{appended, with_state, zone_at, IsWithinLimits};

use crate::geometry::Geometry;
use zone_resources::Counts;
use zone_state::{Zone, ZoneState};

/// A zone of which nothing is written.
pub fn empty_zone(capacity: u32) -> Zone
    requires { 1 ≤ capacity }
    ensures { result ≡ empty_counted_zone capacity }
{
    Zone::new(ZoneState::Empty, 0, capacity).unwrap()
}

/// Puts bytes in their place from one on.
fn splice(bytes: &mut [u8], at: usize, new: &[u8])
    requires { at + length new.now ≤ length bytes.old }
    ensures { bytes.new ≡ spliced at new.now bytes.old }
{
    bytes[at..at + new.len()].copy_from_slice(new);
}

/// The bytes of a part.
fn part(bytes: &[u8], start: usize, len: usize) -> &[u8]
    requires { start + len ≤ length bytes.now }
    ensures value { result.now ≡ take len (drop start bytes.now) }
    ensures size { length result.now ≡ len }
{
    &bytes[start..start + len]
}

/// Puts a counted zone in its place, and follows it in the counts.
fn replace(zones: &mut [Zone], counts: &mut Counts, zone: usize, is: Zone)
    requires inside { zone < length zones.old }
    requires counted { counts.old ≡ counts_of zones.old }
    ensures zones { zones.new ≡ set zones.old zone is }
    ensures counted { counts.new ≡ counts_of zones.new }
{
    counts.moved(zones[zone].state(), is.state());
    zones[zone] = is;
}

/// Puts a zone in another state, with the written blocks that it keeps there.
pub fn set_state(
    geometry: Geometry,
    zones: &mut [Zone],
    counts: &mut Counts,
    blocks: &[u8],
    zone: usize,
    to: ZoneState,
)
    requires image { IsImage geometry zones.old counts.old blocks.now }
    requires inside { zone < length zones.old }
    requires fits { IsZone to (kept to (get_or zones.old zone no_counted_zone).written) geometry.capacity }
    requires allowed { IsWithinLimits (with_state (namespace_of geometry zones.old blocks.now) zone to) }
    ensures state { namespace_of geometry zones.new blocks.now ≡ with_state (namespace_of geometry zones.old blocks.now) zone to }
    ensures image { IsImage geometry zones.new counts.new blocks.now }
{
    let written = to.kept(zones[zone].written());
    let is = Zone::new(to, written, geometry.capacity()).unwrap();
    replace(zones, counts, zone, is);
}

/// Writes whole blocks at the write pointer of a zone.
pub fn append(
    geometry: Geometry,
    zones: &mut [Zone],
    counts: &mut Counts,
    blocks: &mut [u8],
    zone: usize,
    bytes: &[u8],
)
    requires image { IsImage geometry zones.old counts.old blocks.old }
    requires inside { zone < length zones.old }
    requires some { 1 ≤ block_count geometry.block bytes.now }
    requires whole { length bytes.now ≡ block_count geometry.block bytes.now * geometry.block }
    requires allowed { let z = get_or zones.old zone no_counted_zone in write_check z z.written (block_count geometry.block bytes.now) ≡ Ok tt }
    requires limits { IsWithinLimits (appended (namespace_of geometry zones.old blocks.old) zone bytes.now) }
    ensures state { namespace_of geometry zones.new blocks.new ≡ appended (namespace_of geometry zones.old blocks.old) zone bytes.now }
    ensures image { IsImage geometry zones.new counts.new blocks.new }
{
    let block = geometry.block().bytes() as usize;
    let mut is = zones[zone];
    splice(
        blocks,
        zone * geometry.zone_room() + is.written() as usize * block,
        bytes,
    );
    is.note_written((bytes.len() / block) as u32);
    replace(zones, counts, zone, is);
}

/// The bytes of `count` written blocks of a zone, from its block `first` on.
pub fn blocks<'a>(
    geometry: Geometry,
    zones: &[Zone],
    blocks: &'a [u8],
    zone: usize,
    first: usize,
    count: usize,
) -> &'a [u8]
    requires flat { IsFlat geometry zones.now blocks.now }
    requires inside { zone < length zones.now }
    requires written { first + count ≤ (get_or zones.now zone no_counted_zone).written }
    ensures size { length result.now ≡ count * geometry.block }
    ensures value { result.now ≡ concat (take count (drop first (zone_at (namespace_of geometry zones.now blocks.now) zone).blocks)) }
{
    let block = geometry.block().bytes() as usize;
    let start = zone * geometry.zone_room() + first * block;
    part(blocks, start, count * block)
}
