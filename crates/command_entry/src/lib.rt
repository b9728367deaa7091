//! The commands `entry` and `entries`: lines of a command file, made of words.
#![tactic(auto)]

mod adding;
mod asked;
mod command_text;
mod data_file;
pub mod entries;
pub mod entry;
mod event_line;
mod identifiers;
mod kinds;
mod linked;
mod numbering;
mod pieces;
mod printing;
mod worded_lines;
mod words;
mod wrong_line;
mod zone_room;
