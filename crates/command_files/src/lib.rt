//! What commands share: why they end before their work is done, what the user is told and the exit status; the files that they
//! name; how the words of a command line are read, also those that spell numbers and profiles; and numbers as a user reads them.
#![tactic(auto)]

pub mod arguments;
mod counted;
mod data_fault;
mod disk;
mod failure;
mod file_cause;
mod file_lines;
mod file_reader;
mod files;
mod held_file;
mod journal_fault;
pub mod laws;
mod limits;
mod lines;
mod memory_files;
mod notes;
mod numbers;
mod object_file;
mod option_lines;
mod pieces;
mod profile;
mod shown;
mod unfinished;
mod whole;
mod writing;

pub use counted::Counted;
pub use data_fault::DataFault;
pub use disk::{Disk, STANDARD_INPUT};
pub use failure::{Conclusion, Failure, conclude, printed};
pub use file_cause::FileCause;
pub use file_reader::FileReader;
pub use files::{FileFault, Files};
pub use journal_fault::JournalFault;
pub use limits::{MOST_OF_BLOCK, MOST_OF_BLOCKS, MOST_OF_EVENTS, MOST_OF_PROGRAM, MOST_OF_TEXT};
pub use memory_files::{MemoryFiles, MemoryReader, MemoryWriter};
pub use notes::{
    GivenNumbers, is_others, linked_line, notes_path, push_damage, push_others, read_or_none,
};
pub use object_file::object_refusal;
pub use profile::{PROFILE, Profile, profile_asked};
pub use shown::Shown;
pub use unfinished::FileWriter;
pub use whole::{cannot_read, cannot_write, read, size_as_block, write};
