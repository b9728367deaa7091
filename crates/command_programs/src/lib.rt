//! The commands that make, list, judge and run programs, and list what they emit.
#![tactic(auto)]

pub mod asm;
pub mod disasm;
mod facts;
mod flags;
mod printing;
mod program;
mod refusal_fields;
mod refusal_lines;
mod refused_instruction;
mod sizes;
mod step_lines;
pub mod trace;
pub mod unpack;
mod verdict;
pub mod verify;
