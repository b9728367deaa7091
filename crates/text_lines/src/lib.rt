//! Text in lines: what ends a line, what of it is a comment, how the rest is cut into words,
//! the numbers that words spell, and the beginning of a text that a sentence shows.
#![tactic(auto)]

mod cutting;
mod excerpt;
pub mod laws;
mod lines;
mod number;

pub use cutting::{cut, trim, trim_start, word};
pub use excerpt::Excerpt;
pub use lines::{first_line, is_all_ascii, line_behind, without_comment};
pub use number::decimal;
