//! The commands that make an image, list and report its zones and save it in the last version, and images in files.
#![tactic(auto)]

pub mod device_file;
pub mod format;
pub mod image_file;
mod map;
pub mod report;
pub mod upgrade;
pub mod zones;
