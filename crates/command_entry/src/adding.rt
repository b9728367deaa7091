//! Lines that are added to a command file.

ghost use Rattle.std.specs.Prelude.{◌≡◌, ◌≤◌, ◌++◌, map, Some, IfOk, OnOk, OnErr};
ghost use Rattle.nvme_entry.specs.Encoding.{program_length};
ghost use Rattle.device_events.specs.ToldEvents.{told_of};
ghost use Rattle.event_text.specs.CommandFile.{events_in};
ghost use Rattle.command_entry.specs.Added.{AddsCommand, AddsLine, AreOf, IsChosen, ended};

use crate::identifiers::{Identifiers, next_identifier};
use crate::printing::line_of;
use crate::wrong_line::wrong_words;
use clap::Command;
use clap::error::ErrorKind;
use command_files::{Failure, FileCause, FileFault, Files, MOST_OF_EVENTS, cannot_read, write};
use device_events::Event;
use event_text::{CommandFile, parse};
use nvme_entry::MOST_TRANSFER;
use std::alloc::{AllocError, Global};

/// Why a command line that leaves the command identifier out is wrong.
const NONE_LEFT: &str =
    "each command identifier of the queue has a submission in the file; --cid names one of them";

/// Adds the line that submits the entry of a command, with data beside it, to the end of the command file with this
/// name. Where there is none it is begun. The identifier is the one that the words name, or else one that no submission
/// in the file to this queue has.
pub(crate) fn add<'a, F: Files>(
    alloc: Global,
    command_line: &mut Command<'a>,
    path: &'a str,
    identifiers: Identifiers,
    command: nvme_entry::Command,
    input: &[u8],
    files: &mut F,
) -> Result<(), Failure<'a>>
    requires { program_length command ≤ MOST_TRANSFER }
    ensures added { OnOk result (AddsLine path.entry.now identifiers.queue identifiers.cid command input.now
        (F.made files.old) (F.made files.new) (F.contents files.old) (F.contents files.new)) }
    ensures kept { OnErr result (F.made files.new ≡ F.made files.old) }
    ensures contents { OnErr result (F.contents files.new ≡ F.contents files.old) }
{
    let before = bytes_before(alloc, path, files)?;
    let bytes = with_line(
        alloc,
        command_line,
        path,
        before,
        identifiers,
        command,
        input,
    )?;
    write(path, bytes.as_slice(), files)
}

/// The bytes of a file, or none where there is no such file.
fn bytes_before<'a, F: Files>(
    alloc: Global,
    path: &'a str,
    files: &mut F,
) -> Result<Vec<u8>, Failure<'a>>
    ensures made { F.made files.new ≡ F.made files.old }
    ensures contents { F.contents files.new ≡ F.contents files.old }
    ensures bytes { IfOk result (λ bytes. AreOf (F.contents files.old) path.entry.now bytes.items) }
{
    match files.read(path, MOST_OF_EVENTS) {
        Ok(bytes) => Ok(bytes),
        Err(FileFault::Failed(FileCause::NotFound)) => Ok(Vec::new(alloc)),
        Err(fault) => Err(cannot_read(path, fault)),
    }
}

/// The bytes of a command file, and the line of a command behind them.
fn with_line<'a>(
    alloc: Global,
    command_line: &mut Command<'a>,
    path: &'a str,
    before: Vec<u8>,
    identifiers: Identifiers,
    command: nvme_entry::Command,
    input: &[u8],
) -> Result<Vec<u8>, Failure<'a>>
    requires { program_length command ≤ MOST_TRANSFER }
    ensures { IfOk result (λ bytes. AddsCommand before.items bytes.items identifiers.queue identifiers.cid command input.now) }
{
    let events = events_of(alloc, path, before.as_slice())?;
    let cid = chosen(command_line, identifiers, events.as_slice())?;
    let line = line_of(alloc, identifiers.queue, cid, command, input)?;
    Ok(joined(before, line.as_slice())?)
}

/// The events of the command file with this name.
fn events_of<'a>(alloc: Global, path: &'a str, file: &[u8]) -> Result<Vec<Event>, Failure<'a>>
    ensures { IfOk result (λ events. events_in file.now ≡ Ok (map told_of events.items)) }
{
    match parse(alloc, file) {
        Ok(CommandFile { events, .. }) => Ok(events),
        Err(fault) => Err(Failure::of_commands(path, fault)),
    }
}

/// The command identifier that is asked for, or where none is, one that no submission to the queue has.
fn chosen<'a>(
    command_line: &mut Command<'a>,
    identifiers: Identifiers,
    events: &[Event],
) -> Result<u16, Failure<'a>>
    ensures { IfOk result (IsChosen identifiers.cid identifiers.queue events.now) }
{
    match identifiers.cid {
        Some(cid) => Ok(cid),
        None => match next_identifier(identifiers.queue, events) {
            Some(cid) => Ok(cid),
            None => Err(wrong_words(command_line, ErrorKind::MissingRequiredArgument, NONE_LEFT)),
        },
    }
}

/// The bytes of a file, with the end of its last line, and a line behind them.
fn joined(mut file: Vec<u8>, line: &[u8]) -> Result<Vec<u8>, AllocError>
    ensures { IfOk result (λ joined. joined.items ≡ ended file.items ++ line.now) }
{
    match file.last() {
        None | Some(b'\n') => {}
        Some(_) => file.push(b'\n')?,
    }
    file.extend_from_slice(line)?;
    Ok(file)
}
