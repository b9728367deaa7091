//! What the tests of several crates take in: programs by name, and texts with parts that repeat.
#![tactic(auto)]

pub mod programs;
pub mod texts;
