//! What a user asks for.

ghost use Rattle.std.specs.Prelude.{◌≡◌, ◌≤◌, IfSome};
ghost use Rattle.nvme_entry.specs.Encoding.{program_length};
ghost use Rattle.nvme_entry.specs.declared.command.TheConstants.{MOST_TRANSFER};

use crate::data_file::check_data;
use crate::kinds::Kind;
use crate::words::EntryWords;
use command_files::Failure;
use command_files::arguments::no_command;
use nvme_entry::{BlockCount, Command, LoadCommand, MOST_TRANSFER, RunCommand, StandardCommand};

/// A command, and the data that stands beside its entry.
#[derive(Drop)]
pub(crate) struct Asked {
    pub(crate) command: Command,
    pub(crate) input: Vec<u8>,
    ghost within: { program_length command ≤ MOST_TRANSFER },
}

impl Asked {
    /// What words ask for, with the bytes of the file that they name.
    pub(crate) fn of<'a>(
        command_line: &mut clap::Command<'a>,
        words: &EntryWords<'a>,
        input: Vec<u8>,
    ) -> Result<Asked, Failure<'a>> {
        check_data(words, input.as_slice(), MOST_TRANSFER)?;
        let bytes = input.len() as u32;
        let blocks = words
            .numbers
            .blocks
            .or(BlockCount::new(bytes / words.block.bytes()));
        match command_of(words, words.numbers.lba, blocks, bytes) {
            Some(command) => Ok(Asked { command, input }),
            None => Err(no_command(command_line)),
        }
    }
}

/// The command that words ask for, with this address, so many blocks, and so many bytes of a program. `None` where a number that it
/// needs isn't there, which the parser of the command line refuses.
pub(crate) fn command_of(
    words: &EntryWords<'_>,
    lba: u64,
    blocks: Option<BlockCount>,
    bytes: u32,
) -> Option<Command>
    ensures { IfSome result (λ command. program_length command ≤ bytes) }
{
    let numbers = words.numbers;
    let standard = match words.kind {
        Kind::Append => StandardCommand::Append {
            lba,
            blocks: blocks?,
        },
        Kind::Write => StandardCommand::Write {
            lba,
            blocks: blocks?,
        },
        Kind::Read => StandardCommand::Read {
            lba,
            blocks: blocks?,
        },
        Kind::Send(action) => StandardCommand::Send {
            lba,
            action,
            select_all: words.select_all,
        },
        Kind::Report => StandardCommand::Receive {
            lba,
            dwords: numbers.dwords?,
            filter: words.filter,
            partial: words.partial,
        },
        Kind::Load => {
            return Some(Command::Load(LoadCommand {
                slot: numbers.slot?,
                limit: numbers.limit,
                bytes,
            }));
        }
        Kind::Run => {
            return Some(Command::Run(RunCommand {
                lba,
                blocks: blocks?,
                slot: numbers.slot?,
                argument: numbers.argument,
                destination: numbers.destination,
            }));
        }
        Kind::Result => return Some(Command::Result(numbers.slot?)),
    };
    Some(Command::Standard(standard))
}
