//! Which programs are accepted, over any domain of facts about registers and the stack, and what acceptance is worth: that a
//! program never traps.
#![tactic(auto)]

mod facts;
pub mod laws;
mod reason;
mod sums;

pub use facts::{CELL_BYTES, CELLS, Facts};
pub use reason::{Reason, Refusal};
pub use sums::{Fit, Sum};
