//! The command `entries`: lines of words to a command file.

ghost use Rattle.std.specs.Prelude.{◌≡◌, ◌≢◌, IfErr};

use crate::command_text::CommandText;
use crate::data_file::read_data;
use crate::entry;
use crate::event_line::add_event;
use crate::kinds::{BLOCK_ARGUMENT, INTO};
use crate::pieces::add_entry;
use crate::worded_lines::{WordedLine, worded_lines};
use crate::words::EntryWords;
use crate::wrong_line::{wrong_line, wrong_words};
use clap::error::ErrorKind;
use clap::{ArgMatches, Command};
use command_files::arguments::{no_command, required};
use command_files::{Failure, Files, MOST_OF_TEXT, printed, read};
use command_words::{Argument, Takes, Words, command_over};
use image_store::Geometry;
use program_interface::BlockSize;
use std::alloc::Global;
use std::io::Write;

/// The command's name.
pub const NAME: &str = "entries";

const FILE: &str = "FILE";

/// The option that names the image whose blocks the lines speak of.
pub const IMAGE: &str = "image";

const LONG_ABOUT: &str = "\
Prints a command file, made of lines of words, which `exec` runs. Each line of FILE has the words that stand behind \
`zscli entry`, separated by spaces or tabs, but for --into; or an event other than a submission, `turn RUN`, `fault ZONE \
readonly` or `fault ZONE offline`, which is printed as it stands. `;` begins a comment, and a line without words is skipped.

An entry goes to queue 1, where --queue says nothing else. Identifiers are counted up for each queue: without --cid an \
entry has one more than the highest that an entry before it in FILE has in its queue, and the first has 1; behind 65535 the \
lowest that none before it has.

A block has the bytes that a line's own --block says, or else those of the image that --image names, or those of --block. \
With --image a line whose blocks are in no zone, or not within the capacity of one, is wrong. \
A file of blocks of any length can be appended or written. Where these, or the blocks of a read, are more than one \
command moves, 131072 bytes, they become several lines of whole blocks. Those of an append name the same zone, those of \
a write and a read go on where the one before them ended. --cid is then the identifier of the first.

Of a FILE with a wrong line nothing is printed. The lowest is told, with what is wrong with its words, and behind it \
`line LINE refused`; the status is the one that `zscli entry` ends with for these words.";

const EXAMPLE: &str = "\
Example: a file words.txt of three lines, and the command file that they make.

  append --lba 0 --data orders.bin
  read --lba 0 --blocks 4
  reset --lba 0 --queue 2

  zscli entries words.txt --image zoned.img > work.cmd
  zscli exec zoned.img work.cmd";

/// How the command stands on the command line.
pub static WORDS: Words = Words {
    name: NAME,
    about: "Prints a command file, made of lines of words",
    long_about: LONG_ABOUT,
    example: EXAMPLE,
    arguments: &[
        Argument {
            id: FILE,
            long: "",
            short: None,
            takes: Takes::Place,
            help: "The lines of words",
        },
        Argument {
            id: IMAGE,
            long: IMAGE,
            short: None,
            takes: Takes::Optional("IMAGE"),
            help: "The image whose blocks the lines speak of, in place of --block",
        },
        BLOCK_ARGUMENT,
    ],
    one_of: &[],
};

/// Prints the command file that the lines of a file ask for, with blocks of this size where a line says nothing of it, and makes no
/// file: each has the bytes that it had. Where a geometry is given, a line whose blocks are in no zone or cross the capacity of one is wrong.
/// Where another thing than standard output fails, nothing is printed.
///
/// # Errors
///
/// The file can't be read, a line asks for no entry and is no event, a file that a line names can't be read or isn't blocks, standard
/// output fails, or memory is wanting.
pub fn entries<'a, F: Files, O: Write>(
    alloc: Global,
    matches: &ArgMatches<'a>,
    block: BlockSize,
    geometry: Option<Geometry>,
    files: &mut F,
    out: &mut O,
) -> Result<(), Failure<'a>>
    ensures made { F.made files.new ≡ F.made files.old }
    ensures contents { F.contents files.new ≡ F.contents files.old }
    ensures silent { IfErr result (λ failure. failure ≢ Failure.CannotPrint → O.contents out.new ≡ O.contents out.old) }
{
    let path = required(matches, FILE);
    let file = read(path, MOST_OF_TEXT, files)?;
    let text = text_of_file(alloc, path, file.as_slice(), block, geometry, files)?;
    printed(out.write_all(text.as_slice()))
}

/// The command file that the lines of a file with this name ask for.
fn text_of_file<'a, F: Files>(
    alloc: Global,
    path: &'a str,
    file: &[u8],
    block: BlockSize,
    geometry: Option<Geometry>,
    files: &mut F,
) -> Result<Vec<u8>, Failure<'a>>
    ensures made { F.made files.new ≡ F.made files.old }
    ensures contents { F.contents files.new ≡ F.contents files.old }
{
    let lines = worded_lines(alloc, file)?;
    text_of_lines(alloc, path, lines.as_slice(), block, geometry, files)
}

/// The command file that lines of words ask for.
fn text_of_lines<'a, 'w, F: Files>(
    alloc: Global,
    path: &'a str,
    lines: &'w [WordedLine<'_>],
    block: BlockSize,
    geometry: Option<Geometry>,
    files: &mut F,
) -> Result<Vec<u8>, Failure<'a>>
    ensures made { F.made files.new ≡ F.made files.old }
    ensures contents { F.contents files.new ≡ F.contents files.old }
{
    let mut command_line = command_over(alloc, &entry::WORDS, &entry::KINDS)?;
    let mut text = CommandText::new(alloc, geometry);
    let added = add_lines(
        alloc,
        &mut command_line,
        path,
        lines,
        block,
        files,
        &mut text,
    );
    drop(command_line);
    match added {
        Ok(()) => Ok(text.into_bytes()),
        Err(failure) => Err(failure),
    }
}

/// Adds what lines of words ask for.
fn add_lines<'a, 'w, F: Files>(
    alloc: Global,
    command_line: &mut Command<'w>,
    path: &'a str,
    lines: &'w [WordedLine<'_>],
    block: BlockSize,
    files: &mut F,
    text: &mut CommandText,
) -> Result<(), Failure<'a>>
    ensures made { F.made files.new ≡ F.made files.old }
    ensures contents { F.contents files.new ≡ F.contents files.old }
{
    for line in lines {
        match add_line(alloc, command_line, line, block, files, text) {
            Ok(()) => {}
            Err(failure) => return Err(wrong_line(alloc, path, line.number, failure)),
        }
    }
    Ok(())
}

/// Adds what a line of words asks for.
fn add_line<'w, F: Files>(
    alloc: Global,
    command_line: &mut Command<'w>,
    line: &'w WordedLine<'w>,
    block: BlockSize,
    files: &mut F,
    text: &mut CommandText,
) -> Result<(), Failure<'w>>
    ensures made { F.made files.new ≡ F.made files.old }
    ensures contents { F.contents files.new ≡ F.contents files.old }
{
    if line.is_event() {
        return add_event(alloc, command_line, line.text, text);
    }
    let words = words_of(command_line, line, block)?;
    let data = read_data(alloc, &words, files)?;
    add_entry(alloc, command_line, &words, data, text)
}

/// What the words of a line say, with blocks of this size where they say nothing of it.
fn words_of<'w>(
    command_line: &mut Command<'w>,
    line: &'w WordedLine<'w>,
    block: BlockSize,
) -> Result<EntryWords<'w>, Failure<'w>> {
    let matches = command_line.try_get_matches_from_mut(line.words.as_slice())?;
    let words = words_in(command_line, &matches, block);
    drop(matches);
    words
}

/// What the words say that were read so.
fn words_in<'w>(
    command_line: &mut Command<'w>,
    matches: &ArgMatches<'w>,
    block: BlockSize,
) -> Result<EntryWords<'w>, Failure<'w>> {
    let Some((name, matches)) = matches.subcommand() else {
        return Err(no_command(command_line));
    };
    if matches.get_str(INTO).is_some() {
        let text = "a line of words has no --into";
        return Err(wrong_words(command_line, ErrorKind::UnknownArgument, text));
    }
    EntryWords::of(command_line, name, matches, Some(block))
}
