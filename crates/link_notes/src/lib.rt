//! What a program was linked for, and where its guards are: the text that `zscli link` writes beside a program.
//!
//! ```text
//! linked 1
//! sum 2748361907
//! block 4096
//! emit 512
//! profile 2
//! guard-at 1008
//! guard 1 slot 37 filter.c:12 in either: 2 bytes aren't all within the 1024 of scratch
//! ```
//!
//! `sum`, `emit` and `guard-at` may be missing. There is a line `guard` for each guard, or none.
#![tactic(auto)]

mod ended;
pub mod laws;
mod notes;
mod printing;
mod reading;
mod sum;
mod unread;
mod words;

pub use ended::{ENDED_BYTES, Ended, ended_at};
pub use notes::{GuardNote, LinkNotes, UNKNOWN_PLACE};
pub use printing::print;
pub use reading::{NotesFault, Wanted, parse};
pub use sum::program_sum;
