//! The checked eBPF machine: it runs programs as they are meant to run.
#![tactic(auto)]

mod accesses;
mod machine;

pub use machine::{Flow, Machine, Step};
