//! What programs mean: what RFC 9669 says of each instruction, over four areas of memory.
#![tactic(auto)]

mod area_offset;
mod cause;
mod end;
pub mod laws;
mod place;
mod trap_free;
mod word;

pub use area_offset::AreaOffset;
pub use cause::Cause;
pub use end::End;
pub use place::Place;
pub use trap_free::TrapFree;
pub use word::{Arithmetic, alu, extend, is_taken};
