//! Questions about records of one length: which records of a block match a predicate, which of their bytes are emitted, and what is
//! tallied of them. Each is answered by a program.
#![tactic(auto)]

mod check;
mod chunks;
mod code;
mod comparing;
mod emitting;
mod fault;
mod frames;
pub mod laws;
mod loads;
mod question;
mod tallying;
mod testing;

pub use check::{emitted_bytes, is_question, stacked_bytes, words_of};
pub use code::instructions;
pub use fault::CodeFault;
pub use question::{
    ByteOrder, ByteRange, Comparison, Field, Grouping, Operand, Predicate, Question, Sign, Tally,
};
