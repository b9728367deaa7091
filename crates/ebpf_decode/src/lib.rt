//! eBPF programs as bytes: the encoding of the instructions of RFC 9669 that this project runs.
#![tactic(auto)]

mod decoding;
mod encoding;
mod fault;
mod fields;
pub mod laws;
mod opcode;
mod refusal;

pub use decoding::{decode, read, slot_at};
pub use encoding::{encode, push_instruction};
pub use fault::{DecodeFault, Fault, FaultKind};
pub use refusal::ProgramRefusal;
