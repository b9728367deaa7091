//! The command that makes a program of an object as clang makes it.
#![tactic(auto)]

mod guard_lines;
pub mod link;
mod making;
mod notes;
mod refusal;
mod source;
mod variables;
