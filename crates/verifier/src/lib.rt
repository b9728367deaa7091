//! The verifier: says of a program that it never traps, over any domain of facts about
//! words: those of the registers and of the stack.
#![tactic(auto)]

mod cells;
mod edges;
mod facts;
mod fault;
mod judging;
mod known;
mod places;
mod reasons;
mod rows;
mod sums;
mod verified;
mod verifying;

pub use fault::VerifyFault;
pub use judging::{Judgement, judge};
pub use known::known_facts;
pub use rows::Refused;
pub use verified::Verified;
pub use verifying::verify;
