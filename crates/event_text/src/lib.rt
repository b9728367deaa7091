//! Events as text: the lines of a command file that tell them, and the lines that their replies are
//! printed as and read back from.
#![tactic(auto)]

mod command_file;
mod fault;
pub mod laws;
mod lines;
mod reply_file;
mod submission;
mod words;

pub use command_file::{CommandFile, EventFault, ParseFault, event_of, parse};
pub use fault::LineFault;
pub use lines::{LineRoom, Lines, push_line};
pub use reply_file::{RepliesFault, Told, ToldReply, replies};
pub use submission::submission_line;
