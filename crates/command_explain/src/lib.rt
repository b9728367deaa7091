//! The command that says in words, or as JSON, what `exec` printed.
#![tactic(auto)]

mod completion_words;
mod ended;
pub mod explain;
mod fitting;
mod json;
mod live;
mod pairing;
mod refusal_words;
mod report_words;
mod submissions;
mod uses;
mod waiting;
mod worded_command;

pub use completion_words::push_answer;
pub use live::push_reply_words;
pub use worded_command::push_command;
