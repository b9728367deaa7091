//! A file on a disk that may stop at any moment: what its calls do, and what a crash leaves of them.
//!
//! [`SystemFile`] is such a file of the system, over the calls that are made for it, whatever these are. No clause of the library's
//! says what a file of the system holds. So each call is noted with its answer, for clauses alone, and what is known of the file
//! (`told_of`, in `specs/Calls.antt`) is computed from these notes. What is proved of such a file has one premise, by name: that a
//! crash leaves of the file what `LeftBehind` says of the calls that were made.
#![tactic(auto)]

mod change;
mod choices;
mod durable;
mod file_calls;
mod file_reading;
mod left;
mod record;
mod slice_reading;
mod stored_file;
mod system_file;
mod tearing_file;
mod written;

pub use durable::{read_whole, write_durably};
pub use file_calls::FileCalls;
pub use file_reading::FileReading;
pub use record::Record;
pub use slice_reading::SliceReading;
pub use stored_file::{FileError, SECTOR, StoredFile};
pub use system_file::SystemFile;
pub use tearing_file::TearingFile;
