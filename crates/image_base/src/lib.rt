//! The base of a device's journal: who made it, the image that the device began with and sections for what it had beside it, at the front
//! of a file. It tells its own length.
#![tactic(auto)]

mod base;
mod front;
mod length;
mod sections;

pub use base::{Base, load_base, save_base};
pub use front::{FRONT, MAGIC, Maker, THIS_DEVICE, other_maker};
pub use length::base_length;
pub use sections::SECTIONS;
