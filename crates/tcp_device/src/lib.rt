//! The device behind an NVMe/TCP target: commands of hosts go to the device, and its completions to the hosts. Where a [`Keeper`] keeps
//! the device's events in a file, what is sent to hosts answers only events that are on the disk. A loop serves a [`DurableTarget`], or,
//! where the device is in memory alone, a [`MemoryTarget`].
#![tactic(auto)]

mod durable;
mod events;
mod file_calls;
mod keeper;
mod keeping;
pub mod laws;
mod loop_serving;
mod memory;
mod outcome;
mod pending;
mod pieces;
mod serve;
mod served;
mod turns;

pub use durable::DurableTarget;
pub use keeper::{Keeper, target_of};
pub use loop_serving::{begin_in_file, begin_in_memory, serve_in_file, serve_in_memory};
pub use memory::MemoryTarget;
pub use pieces::pieces_join;
pub use served::ServedTarget;
