//! Functions of eBPF that call one another, and constant data: what hinders them from being one program, and that program, without calls
//! of functions.
#![tactic(auto)]

mod body;
mod checks;
mod data;
mod fault;
mod frame;
mod inlining;
mod jumps;
mod kept;
mod sizes;
mod unit;
mod unit_fault;
mod written;

pub use checks::slot_fault;
pub use fault::InlineFault;
pub use frame::{Frame, MOST_FRAMES, frame_address, in_frame, moved_frame_pointer};
pub use inlining::inline;
pub use jumps::by_distance;
pub use sizes::{called_frame, slots_at, tree_slots, within};
pub use unit::{FunctionBody, FunctionSlot, TranslationUnit, frame_bytes, slots_of};
pub use unit_fault::{SlotFault, UnitFault};
pub use written::{kept_count, slots_write};
