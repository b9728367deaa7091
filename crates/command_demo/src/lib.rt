//! The command `demo`: a pushdown on a device in memory, in words.
#![tactic(auto)]

pub mod demo;
mod events;
mod orders;
mod picture;
