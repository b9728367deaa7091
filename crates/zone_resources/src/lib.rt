//! The resources that the zones of a namespace share: how many zones may be open and active at one
//! time, how many are, and which zone gives way to another.
//!
//! Every open zone holds an open resource, and every active one an active resource ([`Counts`]).
//! A command for one zone that makes it open or active is admitted by [`admit`] against the
//! namespace's [`Limits`], which may name a zone to be closed first. [`Holds`] are the zones that
//! active runs use, and what they are kept from.
#![tactic(auto)]

mod admission;
mod counts;
mod holds;
pub mod laws;

pub use admission::{Limits, Wanted, admit};
pub use counts::Counts;
pub use holds::{Holds, RUNS};
