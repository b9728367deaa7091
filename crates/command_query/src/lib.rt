//! The command `query`: a question about the records of a zone, which programs on a device in memory answer.
#![tactic(auto)]

mod adding;
mod answering;
mod cells;
mod columns;
mod commands;
mod compiled;
mod destination;
mod explained;
mod grouped;
mod layout;
mod layout_fault;
mod parts;
pub mod query;
mod ranges;
mod records;
mod refused;
mod rows;
mod source;
mod tallied;
mod told;
mod understood;
mod wanted;
