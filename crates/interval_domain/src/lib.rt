//! The domains of intervals and of constants: facts about words as bounds, the rules for what an instruction makes of them, and
//! that the rules are sound.
#![tactic(auto)]

mod arithmetic;
mod constants;
mod edge;
mod fact;
mod intervals;
mod range;
mod text;

pub use constants::Constants;
pub use fact::Fact;
pub use intervals::Intervals;
