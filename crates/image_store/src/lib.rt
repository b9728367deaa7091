//! A namespace's zones and the blocks written in them, over one flat vector of bytes.
#![tactic(auto)]

mod bytes;
mod geometry;
mod image;
mod image_fields;
pub mod laws;

pub use geometry::{Geometry, GeometryRefusal, MOST_ZONES, ZoneBlock};
pub use image::Image;
pub use zone_resources::Limits;
pub use zone_state::Zone;
