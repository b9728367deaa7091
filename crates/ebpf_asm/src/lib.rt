//! Assembly text of eBPF programs (profile), both ways.
#![tactic(auto)]

mod assembly;
mod fault;
mod label;
pub mod laws;
mod line;
mod listing;
mod mnemonic;
mod number;
mod operand;
mod refusal;
mod statement;
mod text;

pub use assembly::assemble;
pub use fault::{AssembleFault, Fault, FaultKind};
pub use listing::{disassemble, disassemble_with_slots, instruction_text};
pub use refusal::AssemblyRefusal;
