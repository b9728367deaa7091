//! The line of an entry.

ghost use Rattle.std.specs.Prelude.{◌≡◌, ◌≢◌, ◌≤◌, IfErr, IfOk, OnOk};
ghost use Rattle.std.specs.Io.KnownBytes.{Appends};
ghost use Rattle.nvme_entry.specs.Encoding.{program_length};
ghost use Rattle.command_entry.specs.Printed.{IsCommandLine, PrintsCommand};

use command_files::{Failure, printed};
use event_text::submission_line;
use nvme_entry::{Command, Entry, MOST_TRANSFER};
use std::alloc::{AllocError, Global};
use std::io::Write;

/// Prints the line of a command file that submits the entry of a command, with data beside it: it is read back as a
/// submission to this queue, with this data, of an entry that is decoded to this command and has this identifier.
pub(crate) fn print<'a, O: Write>(
    alloc: Global,
    queue: u16,
    cid: u16,
    command: Command,
    input: &[u8],
    out: &mut O,
) -> Result<(), Failure<'a>>
    requires { program_length command ≤ MOST_TRANSFER }
    ensures printed { OnOk result (PrintsCommand (O.contents out.old) (O.contents out.new) queue cid command input.now) }
    ensures silent { IfErr result (λ failure. failure ≢ Failure.CannotPrint → O.contents out.new ≡ O.contents out.old) }
{
    let line = line_of(alloc, queue, cid, command, input)?;
    print_line(line.as_slice(), out)
}

/// The line of a command file that submits the entry of a command, with data beside it.
pub(crate) fn line_of(
    alloc: Global,
    queue: u16,
    cid: u16,
    command: Command,
    input: &[u8],
) -> Result<Vec<u8>, AllocError>
    requires { program_length command ≤ MOST_TRANSFER }
    ensures { IfOk result (λ line. IsCommandLine line.items queue cid command input.now) }
{
    let entry = Entry::encode(command, cid);
    submission_line(alloc, queue, &entry, input)
}

/// Prints a line.
fn print_line<'a, O: Write>(line: &[u8], out: &mut O) -> Result<(), Failure<'a>>
    ensures printed { OnOk result (Appends (O.contents out.old) (O.contents out.new) line.now) }
    ensures failed { IfErr result (λ failure. failure ≡ Failure.CannotPrint) }
{
    printed(out.write_all(line))
}
