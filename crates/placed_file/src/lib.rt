//! A new file in the place of the one that a name leads to: whenever the power fails, the name leads to all of the old bytes or to
//! all of the new.
//!
//! No clause of the library's says what a crash leaves of files. So each call is noted with its answer ([`Progress`]), and what a
//! crash leaves under the name is read off these notes by `LeavesUnder` and `MightHaveLeft` (`specs/Placing.antt`): that they say
//! what the system does is the premise.
#![tactic(auto)]

mod notes;
mod placing;
mod progress;

pub use notes::{Attempts, Written};
pub use placing::{Placing, put_in_place};
pub use progress::Progress;
