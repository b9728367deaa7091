//! What the commands of the Zoned Namespace Command Set do to a namespace.
#![tactic(auto)]

mod address;
mod answer;
mod append;
mod fault;
pub mod laws;
mod namespace;
mod read;
mod receive;
mod resources;
mod send;
mod transfer;
mod write;

pub use address::{check_within_zone, first_block, lowest};
pub use answer::Answer;
pub use image_store::{Geometry, Image};
pub use namespace::Namespace;
pub use nvme_entry::{BlockCount, DwordCount, MOST_TRANSFER, StandardCommand, Status, ZoneFilter};
pub use read::{check_readable, read_stored};
pub use transfer::check_transfer;
pub use zone_resources::{Holds, Limits};
pub use zone_state::{FaultRefused, FaultState};
