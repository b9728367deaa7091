//! Lines of the source of an eBPF object: which file and which line an instruction was made of, as the line tables of DWARF tell it
//! (versions 2 to 5, sections 6.2), which `clang -g` writes into `.debug_line`. Where that is missing or damaged, no line is told.
#![tactic(auto)]

mod cursor;
mod file_names;
mod lines;
mod machine;
mod unit;

pub use lines::{Lines, Row};
