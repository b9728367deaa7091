//! The instruction set of RFC 9669 as types: instructions with what belongs to each, and
//! programs of them.
#![tactic(auto)]

mod access;
pub mod codes;
mod fields;
mod instruction;
pub mod laws;
mod operation;
mod program;
mod register;

pub use access::{Access, AccessKind};
pub use fields::Fields;
pub use instruction::{Instruction, Source};
pub use operation::{Operation, Relation, SignExtension, SignedSize, Size, Swap, SwapSize, Width};
pub use program::Program;
pub use register::Register;
