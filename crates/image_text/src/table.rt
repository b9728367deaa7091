//! What stands before the blocks of an image.

ghost use Rattle.std.specs.Prelude.{◌≡◌, ◌<◌, ◌-◌, ◌^◌};
ghost use Rattle.zone_resources.specs.Counts.{counts_of};
ghost use Rattle.image_text.specs.Loading.{CountsLoad, LoadsTable};

use crate::fault::LoadFault;
use crate::load;
use crate::streams::Source;
use image_store::{Geometry, Zone};
use std::alloc::Global;
use zone_resources::Counts;

/// What stands before the blocks of an image: its shape, and its zones, without their blocks.
#[derive(Drop)]
pub struct ZoneTable {
    /// The shape.
    pub geometry: Geometry,
    /// The zones, without their blocks.
    pub zones: Vec<Zone>,
}

impl ZoneTable {
    /// The table of the image whose text comes from a source. Just the texts load that [`ImageText::load`](crate::ImageText::load) loads, and
    /// others have the same first fault: the blocks are passed over, so that only their number counts, and what follows them.
    ///
    /// # Errors
    ///
    /// Those of [`ImageText::load`](crate::ImageText::load).
    pub fn load<R: Source>(alloc: Global, source: &mut R) -> Result<ZoneTable, LoadFault>
        requires { R.failures source.old < 2 ^ 64 - 1 }
        ensures table { R.tells → LoadsTable (λ table. (table.geometry, table.zones.items)) (R.rest source.old) result }
        ensures failures { CountsLoad (R.failures source.old) (R.failures source.new) result }
    {
        load::load_table(alloc, source)
    }

    /// How many zones are open, and how many are active.
    pub fn counts(&self) -> Counts
        ensures { result ≡ counts_of self.now.zones.items }
    {
        Counts::of(&self.zones)
    }
}
