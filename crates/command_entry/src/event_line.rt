//! Lines that stand in a command file as they are.

use crate::command_text::CommandText;
use crate::wrong_line::wrong_words;
use clap::Command;
use clap::error::ErrorKind;
use command_files::Failure;
use event_text::{ParseFault, parse};
use std::alloc::Global;

/// Adds a line of an event as it stands.
pub(crate) fn add_event<'a>(
    alloc: Global,
    command_line: &mut Command<'a>,
    line: &[u8],
    text: &mut CommandText,
) -> Result<(), Failure<'a>> {
    match parse(alloc, line) {
        Ok(_) => Ok(text.add_line(line)?),
        Err(ParseFault::Line { fault, .. }) => {
            let text = format!(in alloc; "{fault}")?;
            Err(wrong_words(command_line, ErrorKind::InvalidValue, text.as_str()))
        }
        Err(ParseFault::Memory) => Err(Failure::NoMemory),
    }
}
