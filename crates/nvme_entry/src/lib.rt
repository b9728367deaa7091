//! NVM Express entries: the 64 bytes of a submission, read into a command or made of one, the 16 bytes
//! of a completion, made and read back, and the report of zones that a command may ask for, of which
//! descriptors are read back too.
#![tactic(auto)]

mod command;
mod completion;
mod descriptor;
mod dwords;
mod encoding;
mod entry;
mod filter;
pub mod laws;
mod output;
mod program_slot;
mod report;

pub use command::{
    BlockCount, Command, DwordCount, LoadCommand, MOST_BLOCKS, MOST_DWORDS, MOST_TRANSFER,
    RunCommand, StandardCommand,
};
pub use completion::Completion;
pub use descriptor::{DESCRIPTOR_BYTES, ZONE_TYPE, ZoneDescriptor};
pub use entry::Entry;
pub use filter::ZoneFilter;
pub use output::put_front;
pub use program_slot::{PROGRAM_SLOTS, ProgramSlot};
pub use report::{REPORT_HEADER_BYTES, Report, zones_told};
pub use zone_state::Status;
