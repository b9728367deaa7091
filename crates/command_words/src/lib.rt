//! How commands stand on the command line, as tables, the parser that is made of a table, and the layout of its help.
#![tactic(auto)]

mod layout;
mod table;

pub use layout::laid_out;
pub use table::{Argument, Takes, Words, command, command_over};
