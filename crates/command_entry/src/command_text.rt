//! The text of a command file, as it grows.

ghost use Rattle.std.specs.Prelude.{◌≤◌};
ghost use Rattle.nvme_entry.specs.Encoding.{program_length};
ghost use Rattle.nvme_entry.specs.declared.command.TheConstants.{MOST_TRANSFER};

use crate::identifiers::Identifiers;
use crate::numbering::Numbering;
use crate::printing::line_of;
use crate::wrong_line::wrong_words;
use clap::Command;
use clap::error::ErrorKind;
use command_files::Failure;
use image_store::Geometry;
use std::alloc::{AllocError, Global};

/// Why words that leave the command identifier out are wrong.
const NONE_LEFT: &str =
    "each command identifier of the queue has an entry before this one; --cid names one of them";

/// The lines of a command file, and the identifiers that they have.
#[derive(Drop)]
pub(crate) struct CommandText {
    text: Vec<u8>,
    numbering: Numbering,
    /// That of the namespace whose blocks the lines speak of, where it is known.
    pub(crate) geometry: Option<Geometry>,
}

impl CommandText {
    /// No lines, of blocks of a namespace with this geometry.
    pub(crate) fn new(alloc: Global, geometry: Option<Geometry>) -> CommandText {
        CommandText {
            text: Vec::new(alloc),
            numbering: Numbering::new(alloc),
            geometry,
        }
    }

    /// The lines.
    pub(crate) fn into_bytes(self) -> Vec<u8> {
        let CommandText { text, .. } = self;
        text
    }

    /// Adds the line that submits the entry of a command, with data beside it. Where the words name no identifier, it has the
    /// one that counts on from those of its queue.
    pub(crate) fn add<'a>(
        &mut self,
        alloc: Global,
        command_line: &mut Command<'a>,
        identifiers: Identifiers,
        command: nvme_entry::Command,
        input: &[u8],
    ) -> Result<(), Failure<'a>>
        requires { program_length command ≤ MOST_TRANSFER }
    {
        let queue = identifiers.queue;
        let Some(cid) = identifiers.cid.or(self.numbering.next(queue)) else {
            return Err(wrong_words(command_line, ErrorKind::MissingRequiredArgument, NONE_LEFT));
        };
        self.numbering.note(queue, cid)?;
        let line = line_of(alloc, queue, cid, command, input)?;
        self.text.extend_from_slice(line.as_slice())?;
        Ok(())
    }

    /// Adds a line as it stands.
    pub(crate) fn add_line(&mut self, line: &[u8]) -> Result<(), AllocError> {
        self.text.extend_from_slice(line)?;
        self.text.push(b'\n')?;
        Ok(())
    }
}
