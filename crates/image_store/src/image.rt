//! The image.

ghost use Rattle.std.specs.Prelude.{◌≡◌, ◌≤◌, ◌<◌, ◌+◌, ◌*◌, length, IfOk, take, drop, Ok};
ghost use Rattle.std.specs.List.{concat};
ghost use Rattle.zone_resources.specs.Admission.{IsWithin};
ghost use Rattle.zone_resources.specs.Counts.{counts_of};
ghost use Rattle.zone_state.specs.Zone.{write_check, IsZone, kept};
ghost use Rattle.image_store.specs.Geometry.{IsShape};
ghost use Rattle.image_store.specs.Blocks.{block_count};
ghost use Rattle.image_store.specs.ImageInMemory.{IsFlat, namespace_of};
ghost use Rattle.image_store.specs.Namespace.{appended, with_state, counted, counted_zones, zone_at, all_empty, shape, IsWithinLimits, IsNamespace};

use crate::bytes::are_bytes;
use crate::geometry::Geometry;
use crate::image_fields;
use std::alloc::{AllocError, Global};
use std::marker::Model;
use zone_resources::Counts;
use zone_state::{Zone, ZoneState};

/// The zones of a namespace with their written blocks. The room for all blocks is taken when the
/// image is made, so writing to it wants no memory.
#[derive(Drop)]
pub struct Image {
    geometry: Geometry,
    zones: Vec<Zone>,
    counts: Counts,
    blocks: Vec<u8>,
}

impl Model for Image {
    ghost use Rattle.image_store.specs.Namespace.{ZonedNamespace};
    ghost use Rattle.image_store.specs.ImageInMemory.{namespace_of, IsImage};

    ghost Value = { ZonedNamespace };

    ghost view = { λ i. namespace_of i.geometry i.zones.items i.blocks.items };

    ghost invariant = { λ i. IsImage i.geometry i.zones.items i.counts i.blocks.items };
}

impl Image {
    /// An image of this geometry, of which nothing is written.
    ///
    /// # Errors
    ///
    /// [`AllocError`] where memory is refused.
    pub fn empty(alloc: Global, geometry: Geometry) -> Result<Image, AllocError>
        ensures { IfOk result (λ image. image ≡ all_empty geometry) }
    {
        let zone = image_fields::empty_zone(geometry.capacity());
        let zones = vec![in alloc; zone; geometry.zones() as usize]?;
        let counts = Counts::of(&zones);
        Ok(Image {
            geometry,
            zones,
            counts,
            blocks: vec![in alloc; 0; geometry.room()]?,
        })
    }

    /// The image of these zones, where their blocks lie in one vector: a room of the same size for each zone, at whose
    /// front its written ones are. It stands for the list of the zones, each with the list of its written blocks.
    pub fn from_parts(geometry: Geometry, zones: Vec<Zone>, blocks: Vec<u8>) -> Image
        requires flat { IsFlat geometry zones.items blocks.items }
        requires within { IsWithin zones.items geometry.limits }
        ensures { result ≡ namespace_of geometry zones.items blocks.items }
    {
        let counts = Counts::of(&zones);
        are_bytes(&blocks);
        Image {
            geometry,
            zones,
            counts,
            blocks,
        }
    }

    /// The shape of the image's namespace. In each image the open and active zones are within the limits, each zone's
    /// state fits its written blocks, and each block is whole.
    pub fn geometry(&self) -> Geometry
        ensures value { result ≡ shape self.now }
        ensures known { IsShape result }
        ensures sound { IsNamespace self.now }
    {
        self.geometry
    }

    /// The zones, without their blocks.
    pub fn zones(&self) -> &[Zone]
        ensures { result.now ≡ counted_zones self.now }
    {
        &self.zones
    }

    /// How many zones are open, and how many are active.
    pub fn counts(&self) -> Counts
        ensures { result ≡ counts_of (counted_zones self.now) }
    {
        self.counts
    }

    /// The zone with this number, without its blocks.
    pub fn zone(&self, zone: u32) -> Zone
        requires { zone < length self.now.zones }
        ensures { result ≡ counted self.now.capacity (zone_at self.now zone) }
    {
        let zones = self.zones.as_slice();
        zones[zone as usize]
    }

    /// The bytes of `count` written blocks of a zone, from its block `first` on.
    pub fn blocks(&self, zone: u32, first: u32, count: u32) -> &[u8]
        requires inside { zone < length self.now.zones }
        requires written { first + count ≤ length (zone_at self.now zone).blocks }
        ensures value { result.now ≡ concat (take count (drop first (zone_at self.now zone).blocks)) }
        ensures size { length result.now ≡ count * self.now.block }
    {
        image_fields::blocks(
            self.geometry,
            &self.zones,
            &self.blocks,
            zone as usize,
            first as usize,
            count as usize,
        )
    }

    /// Puts a zone in another state, with the written blocks that it keeps there: none where it comes to be Empty or
    /// Offline, and else all, which the state has to allow. With that state the open and active zones have to be within
    /// the limits. No other zone changes, and no memory is wanted.
    pub fn set_state(&mut self, zone: u32, to: ZoneState)
        requires inside { zone < length self.old.zones }
        requires fits { IsZone to (kept to (length (zone_at self.old zone).blocks)) self.old.capacity }
        requires allowed { IsWithinLimits (with_state self.old zone to) }
        ensures { self.new ≡ with_state self.old zone to }
    {
        image_fields::set_state(
            self.geometry,
            &mut self.zones,
            &mut self.counts,
            &self.blocks,
            zone as usize,
            to,
        );
    }

    /// Writes whole blocks, one or more, at the write pointer of a zone that takes them. With the state in which the
    /// zone then is, the open and active zones have to be within the limits. No other zone changes, and no memory is
    /// wanted.
    pub fn append(&mut self, zone: u32, bytes: &[u8])
        requires inside { zone < length self.old.zones }
        requires some { 1 ≤ block_count self.old.block bytes.now }
        requires whole { length bytes.now ≡ block_count self.old.block bytes.now * self.old.block }
        requires allowed { let z = counted self.old.capacity (zone_at self.old zone) in write_check z z.written (block_count self.old.block bytes.now) ≡ Ok tt }
        requires limits { IsWithinLimits (appended self.old zone bytes.now) }
        ensures { self.new ≡ appended self.old zone bytes.now }
    {
        image_fields::append(
            self.geometry,
            &mut self.zones,
            &mut self.counts,
            &mut self.blocks,
            zone as usize,
            bytes,
        );
    }
}
