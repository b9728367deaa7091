//! What is kept of a device beside its namespace: the programs in its slots and its active runs; and how each is spelled, as a section
//! of bytes.
#![tactic(auto)]

mod fault;
mod kept;
pub mod laws;
mod numbers;
mod places;
mod slots;

pub use fault::SectionFault;
pub use kept::{KeptProgram, KeptRun};
pub use places::{read_run, run_section};
pub use slots::{program_section, read_program};
