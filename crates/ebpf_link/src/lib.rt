//! A program without loops out of one with them, for blocks of one size: slots that are laid out one behind the other as often as they
//! can be come to, as far as a verifier's facts tell, with guards in front of what these don't tell.
#![tactic(auto)]

mod area_sets;
mod assembling;
mod constants;
mod copies;
mod deciding;
mod emits;
mod ends;
mod fault;
mod fields;
mod flow;
mod folding;
mod guards;
mod idle;
mod known;
mod labels;
pub mod laws;
mod layout;
mod lists;
mod liveness;
mod loops;
mod marks;
mod ordering;
mod origins;
mod pieces;
mod planning;
mod remainders;
mod scratch_words;
mod several;
mod spilling;
mod stack;
mod sums;
mod target;
mod threading;
mod visiting;
mod widening;
mod within;

pub use assembling::{Cut, Linked, LinkedGuard};
pub use fault::{LinkFault, Widest};
pub use guards::{BLOCK_GUARD, EMIT_GUARD, Guard, GuardPlace, MEMORY_GUARD, Need, ROUNDS_GUARD};
pub use marks::{CELLS_BYTES, MARK_BYTES};
pub use planning::link;
pub use target::{LoopRule, MarkRule, Target};
