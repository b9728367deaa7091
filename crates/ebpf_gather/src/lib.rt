//! What the functions of an object of eBPF refer to: the function that a program starts with, and of each slot the function that it
//! calls, or the data whose address it gives. And all functions that a program is made of, with the constant data that they refer to, as
//! functions that call one another: what `ebpf_inline` makes one program of.
#![tactic(auto)]

mod addresses;
mod calls;
mod fault;
mod frame;
mod gathering;
mod library;
mod lookup;
mod reference;
mod slots;
mod start;
mod symbols;
mod tracing;
mod wanted;

pub use calls::{MOST_CALLS, called_slots};
pub use fault::{CallFault, GatherFault, ReferenceFault, SlotProblem, StartFault};
pub use gathering::{Gathered, SPARE_BYTES, gather};
pub use reference::{Reference, reference_of};
pub use start::{named_function, only_function};
pub use tracing::{Origin, origins};
pub use wanted::{LibraryCall, LibraryFunction, Wanted};
