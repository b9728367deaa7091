//! The device: events happen to it, one after another, and it gives a reply for each.
#![tactic(auto)]

mod active_run;
mod admission;
mod completion;
mod device;
mod device_state;
mod keeping;
mod kept_run;
mod kept_runs;
mod kept_slots;
pub mod laws;
mod load;
mod loaded_program;
mod places;
mod restoring;
mod results;
mod run_again;
mod runs_again;
mod submission;
mod turn;

pub use device::{Device, Stopped};
pub use device_events::{Event, NotTaken, Out, Reply};
pub use restoring::KeptDevice;
pub use submission::StoredReply;
