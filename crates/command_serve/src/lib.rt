//! The commands that serve a device as requests come, and that fold the journal of one.
#![tactic(auto)]

mod durable_files;
pub mod fold;
mod form;
mod image_keeper;
mod imaged;
mod journaled;
mod memory_reading;
mod opening;
mod pieces;
mod salvaging;
pub mod serve;
mod told;

pub use durable_files::DurableFiles;
pub use form::Form;
pub use image_keeper::ImageKeeper;
pub use memory_reading::MemoryReading;
