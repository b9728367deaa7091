//! Images as texts: the text of each version, what is read of one, and the streams that it comes from and goes to.
#![tactic(auto)]

mod bytes;
mod fault;
mod header;
mod image;
pub mod laws;
mod load;
mod memory_streams;
mod same_text;
mod save;
mod streams;
mod table;
mod version;
mod zone_row;

pub use fault::{HeaderFault, LoadFault, ZoneRowFault};
pub use image::ImageText;
pub use memory_streams::Buffer;
pub use streams::{Sink, Source, StreamFault};
pub use table::ZoneTable;
pub use version::Version;
