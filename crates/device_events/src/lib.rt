//! What happens to a device, what it replies, and what takes its replies.
#![tactic(auto)]

mod completion_entry;
mod event;
mod out;
mod reply;

pub use completion_entry::CompletionEntry;
pub use event::Event;
pub use out::{NotTaken, Out};
pub use reply::Reply;
