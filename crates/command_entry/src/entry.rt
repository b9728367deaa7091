//! The command `entry`: a line of a command file, made of words.

ghost use Rattle.std.specs.Prelude.{◌≡◌, ◌≢◌, IfErr, OnOk, OnErr};
ghost use Rattle.clap.specs.Matches.{first_value, found_of};
ghost use Rattle.command_files.specs.Made.{MakesAtMostOne};
ghost use Rattle.command_entry.specs.Done.{IsDone, IsDoneSomewhere};

use crate::adding::add;
use crate::asked::Asked;
use crate::data_file::read_data;
use crate::kinds::INTO;
pub use crate::kinds::KINDS;
use crate::linked::{linked_of, note};
use crate::printing::print;
use crate::words::EntryWords;
use crate::wrong_line::wrong_words;
use clap::error::ErrorKind;
use clap::{ArgMatches, Command};
use command_files::arguments::no_command;
use command_files::{Failure, Files, STANDARD_INPUT};
use command_words::Words;
use std::alloc::Global;
use std::io::Write;

/// Why a command line with `--into -` is wrong.
const INTO_INPUT: &str = "--into adds to a file, and '-' is standard input";

/// The command's name.
pub const NAME: &str = "entry";

const LONG_ABOUT: &str = "\
Prints the line of a command file that submits an entry, made of words. Many such lines are a command file, \
which `exec` runs. With `--into` nothing is printed: the line is added to the end of a command file, which is \
begun where there is none.

An entry goes to queue 1 and has command identifier 1, where `--queue` and `--cid` say nothing else. With `--into` \
identifiers are counted up: without `--cid` an entry has one more than the highest that a submission to its queue \
has in the file, or behind 65535 the lowest that none has. \
Numbers are in decimal, or behind `0x` in hexadecimal, as `explain` prints the addresses of a report. A file with data is whole \
blocks, of 512 bytes where `--block` says nothing else, and has at most 131072 bytes. So has a program's file here; \
a program that a Load accepts has at most 32768. Where `link` wrote FILE.linked beside a program for another limit than --emit, or for \
profile 3, standard error says for which.";

const EXAMPLE: &str = "\
Example: a command file that appends a block to the zone of block 8, and reads it back.

  zscli entry append --lba 8 --data block.bin --into work.cmd
  zscli entry read --lba 8 --blocks 1 --into work.cmd
  zscli exec zoned.img work.cmd";

/// How the command stands on the command line, above [`KINDS`].
pub static WORDS: Words = Words {
    name: NAME,
    about: "Prints a line of a command file, made of words, or adds it to one",
    long_about: LONG_ABOUT,
    example: EXAMPLE,
    arguments: &[],
    one_of: &[],
};

/// Prints one line, which is read back as the submission of an entry that is decoded to a command, and makes no file;
/// or prints nothing, and makes one file, a command file with such a line behind what it had. Every other file has the
/// bytes that it had, and where this fails, each has. Where the program of a Load was linked for other numbers, `err` gets a line that
/// says so.
///
/// # Errors
///
/// The words ask for no entry, a file can't be read or isn't what a command can move, the command file can't be read, has a line that
/// is refused, has no command identifier left or can't be written, standard output fails, or memory is wanting.
pub fn entry<'a, F: Files, O: Write, E: Write>(
    alloc: Global,
    command_line: &mut Command<'a>,
    matches: &ArgMatches<'a>,
    files: &mut F,
    out: &mut O,
    err: &mut E,
) -> Result<(), Failure<'a>>
    ensures done { OnOk result (IsDoneSomewhere (O.contents out.old) (O.contents out.new)
        (F.made files.old) (F.made files.new) (F.contents files.old) (F.contents files.new)) }
    ensures one { MakesAtMostOne (F.made files.old) (F.made files.new) }
    ensures kept { OnErr result (F.made files.new ≡ F.made files.old) }
    ensures contents { OnErr result (F.contents files.new ≡ F.contents files.old) }
    ensures silent { IfErr result (λ failure. failure ≢ Failure.CannotPrint → O.contents out.new ≡ O.contents out.old) }
    ensures unnoted { OnErr result (E.contents err.new ≡ E.contents err.old) }
{
    match matches.subcommand() {
        Some((name, matches)) => {
            let linked = submit(alloc, command_line, name, matches, files, out)?;
            note(linked.as_str(), err);
            Ok(())
        }
        None => Err(no_command(command_line)),
    }
}

/// Prints the line of the kind of entry that has this name, or adds it to the command file that the words name. What it gives is to be
/// noted of the program of a Load.
fn submit<'a, F: Files, O: Write>(
    alloc: Global,
    command_line: &mut Command<'a>,
    name: &str,
    matches: &ArgMatches<'a>,
    files: &mut F,
    out: &mut O,
) -> Result<String, Failure<'a>>
    ensures done { OnOk result (IsDone (first_value (found_of matches.now) INTO.now) (O.contents out.old) (O.contents out.new)
        (F.made files.old) (F.made files.new) (F.contents files.old) (F.contents files.new)) }
    ensures kept { OnErr result (F.made files.new ≡ F.made files.old) }
    ensures contents { OnErr result (F.contents files.new ≡ F.contents files.old) }
    ensures silent { IfErr result (λ failure. failure ≢ Failure.CannotPrint → O.contents out.new ≡ O.contents out.old) }
{
    let words = EntryWords::of(command_line, name, matches, None)?;
    let data = read_data(alloc, &words, files)?;
    let linked = linked_of(alloc, &words, data.as_slice(), files)?;
    give(alloc, command_line, matches, &words, data, files, out)?;
    Ok(linked)
}

/// Prints the line of the entry that words ask for, with these bytes of a file beside it, or adds it to the command file that they name.
fn give<'a, F: Files, O: Write>(
    alloc: Global,
    command_line: &mut Command<'a>,
    matches: &ArgMatches<'a>,
    words: &EntryWords<'a>,
    data: Vec<u8>,
    files: &mut F,
    out: &mut O,
) -> Result<(), Failure<'a>>
    ensures done { OnOk result (IsDone (first_value (found_of matches.now) INTO.now) (O.contents out.old) (O.contents out.new)
        (F.made files.old) (F.made files.new) (F.contents files.old) (F.contents files.new)) }
    ensures kept { OnErr result (F.made files.new ≡ F.made files.old) }
    ensures contents { OnErr result (F.contents files.new ≡ F.contents files.old) }
    ensures silent { IfErr result (λ failure. failure ≢ Failure.CannotPrint → O.contents out.new ≡ O.contents out.old) }
{
    let Asked { command, input } = Asked::of(command_line, words, data)?;
    let identifiers = words.numbers.identifiers;
    match matches.get_str(INTO) {
        Some(STANDARD_INPUT) => Err(wrong_words(
            command_line,
            ErrorKind::ValueValidation,
            INTO_INPUT,
        )),
        Some(path) => add(
            alloc,
            command_line,
            path,
            identifiers,
            command,
            input.as_slice(),
            files,
        ),
        None => print(
            alloc,
            identifiers.queue,
            identifiers.cid.unwrap_or(1),
            command,
            input.as_slice(),
            out,
        ),
    }
}
