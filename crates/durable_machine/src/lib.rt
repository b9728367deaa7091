//! A machine whose events are on a disk before their replies are handed out, and which comes back in the same state
//! after a crash at any moment.
//!
//! A file begins with a base, which stands for a machine, in whole sectors. After it stands the journal of the events
//! that have happened to the machine since. A crash leaves a file that stands for the machine after the first of the
//! batches of events that were handed in: none skipped, none in part, and all that were acknowledged.
//!
//! An event is a text of bytes; several of them are added to the journal at once, as a batch, all or none. The batches stand in sectors
//! of their own: a gate, a sector that isn't all 0, the seal of the events, the events, of which each has a 1 and its length before it (8
//! bytes, the lowest first), and zeros up to the end of a sector. At the end stands a closed gate, a sector of zeros. What stands after
//! it doesn't count.
//!
//! A batch is written after the closed gate, with a closed gate of its own after it. When that is on the disk, the gate is opened. So
//! what is torn stands after a closed gate, or is a gate that was to be opened and has a whole batch after it; no sum is trusted, and no
//! length that isn't known is followed. As a gate has a sector of its own, a disk may tear the whole sector where it writes one byte of
//! it.
//!
//! The seal has the offset of the batch's gate in the file, how many bytes spell its events, and the CRC-32C of these numbers and of the
//! events. A gate that isn't closed with more than its sector, where no batch stands whole and sealed, is nothing that a crash leaves: it
//! is damage, which is reported, and nothing is cut off then. [`salvage`] gives what stands before it.
#![tactic(auto)]

mod base;
mod batch;
mod committing;
mod fault;
mod finding;
mod gates;
mod in_file;
mod in_memory;
mod journal;
mod journal_reading;
pub mod laws;
mod machine;
mod opening;
mod pieces;
mod reading;
mod replay;
mod rescue;
mod seal;
mod sectors;
mod store;

pub use base::put_base;
pub use batch::Batch;
pub use fault::Fault;
pub use finding::{Found, find};
pub use in_file::InFile;
pub use in_memory::InMemory;
pub use journal::{Journal, add_event, repair};
pub use journal_reading::{first_batch, first_event, is_end};
pub use machine::{Applied, Machine};
pub use opening::Durable;
pub use reading::machine_in;
pub use rescue::{Salvaged, salvage};
pub use sectors::in_sectors;
pub use store::Store;
