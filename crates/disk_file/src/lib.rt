//! A file of the system that is held, as a [`StoredFile`](stored_file::StoredFile).
#![tactic(auto)]

mod disk_calls;
mod disk_reading;

pub use disk_calls::{DiskCalls, open};
pub use disk_reading::{DiskReading, begin, opened};
