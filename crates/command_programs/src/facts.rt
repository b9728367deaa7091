//! What is known at the slots of a program, as lines that users read, and of the registers that an instruction reads.

mod forgotten;
mod listing;
mod reads;
mod register_set;
mod told;
mod wanted;
mod ways;

pub(crate) use listing::fact_lines;
pub(crate) use reads::{ReadRegister, read_registers};
pub(crate) use told::Told;
