//! A zoned device that comes back after a crash: its events are frames, which are on the disk before their replies are handed out, and
//! its base tells the device that it began with.
#![tactic(auto)]

mod changes;
mod durable_device;
mod folding;
mod frame_device;
mod frame_event;
pub mod laws;
mod notes;
mod reading;
mod sections;

pub use changes::{asks_change, is_idle, is_refusal};
pub use durable_device::{DurableDevice, Folding, MOST_JOURNAL};
pub use folding::Folds;
pub use frame_device::{FrameDevice, base_of};
pub use notes::{may_change, note, note_submission, note_turn};
pub use reading::device_in;
