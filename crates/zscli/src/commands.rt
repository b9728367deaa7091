//! The words of a command line, and what they ask for.

ghost use Rattle.std.specs.Prelude.{◌≡◌, ◌≢◌, IfErr, OnErr};
ghost use Rattle.command_files.specs.Made.{MakesAtMostOne, MakesOneName};
ghost use Rattle.zscli.specs.Ended.{end_of};
ghost use Rattle.zscli.specs.Makes.{MakesFew, MakesNamed};

use crate::entries_block::asked_block;
use crate::streams::Streams;
use clap::error::ErrorKind;
use clap::{ArgMatches, Command};
use command_demo::demo;
use command_entry::{entries, entry};
use command_exec::{exec, fail};
use command_explain::explain;
use command_files::arguments::no_command;
use command_files::{Failure, Files, Shown};
use command_images::{format, report, upgrade, zones};
use command_link::link;
use command_programs::{asm, disasm, trace, unpack, verify};
use command_query::query;
use command_serve::{DurableFiles, fold, serve};
use command_words::{Words, command_over, laid_out};
use std::alloc::{AllocError, Global};
use std::io::{Read, Write};

/// The program's version, which `--version` prints.
const VERSION: &str = "0.1.0";

/// Reads the words of a command line, the program's name first, and does the command that they name. All files that are made have one
/// name, but for a program and what is noted beside it. Unless the input is taken, as by `serve` alone, at most one is made, or these two;
/// and where this fails for another reason than standard output, where `exec` saves an image, none is made, and each file has the bytes
/// that it had. What it gives is why a command line ends with another status all the same whose work is done: commands were refused,
/// where `exec` is to fail for these. What `entry` notes of a program, and `query` of its runs, goes to standard error; where this fails, nothing does.
///
/// # Errors
///
/// Why the words are no command's, or why the command ended before its work was done.
pub fn command<'a, F: DurableFiles, I: Read + Drop, O: Write, E: Write>(
    alloc: Global,
    words: &'a [String],
    files: &mut F,
    streams: &mut Streams<I, O, E>,
) -> Result<Option<Failure<'a>>, Failure<'a>>
    ensures name { MakesNamed (F.made files.old) (F.made files.new) }
    ensures one { streams.new.input ≡ streams.old.input → MakesFew (F.made files.old) (F.made files.new) }
    ensures kept { streams.new.input ≡ streams.old.input
        → IfErr result (λ failure. failure ≢ Failure.CannotPrint → F.made files.new ≡ F.made files.old) }
    ensures contents { streams.new.input ≡ streams.old.input
        → IfErr result (λ failure. failure ≢ Failure.CannotPrint → F.contents files.new ≡ F.contents files.old) }
    ensures unnoted { OnErr result (E.contents streams.new.err ≡ E.contents streams.old.err) }
{
    let mut line = command_line(alloc)?;
    let done = command_in(alloc, &mut line, words, files, streams);
    drop(line);
    done
}

/// Reads the words by this parser, and does the command that they name.
fn command_in<'a, F: DurableFiles, I: Read + Drop, O: Write, E: Write>(
    alloc: Global,
    line: &mut Command<'a>,
    words: &'a [String],
    files: &mut F,
    streams: &mut Streams<I, O, E>,
) -> Result<Option<Failure<'a>>, Failure<'a>>
    ensures name { MakesNamed (F.made files.old) (F.made files.new) }
    ensures one { streams.new.input ≡ streams.old.input → MakesFew (F.made files.old) (F.made files.new) }
    ensures kept { streams.new.input ≡ streams.old.input
        → IfErr result (λ failure. failure ≢ Failure.CannotPrint → F.made files.new ≡ F.made files.old) }
    ensures contents { streams.new.input ≡ streams.old.input
        → IfErr result (λ failure. failure ≢ Failure.CannotPrint → F.contents files.new ≡ F.contents files.old) }
    ensures unnoted { OnErr result (E.contents streams.new.err ≡ E.contents streams.old.err) }
{
    match line.try_get_matches_from_mut(words) {
        Ok(matches) => {
            let done = perform(alloc, line, &matches, files, streams);
            drop(matches);
            done
        }
        Err(error) => perform_none(alloc, words, error, &mut streams.out),
    }
}

/// How a command line ends: also what was done in full fails where it gives a failure.
pub fn ended<'a>(done: Result<Option<Failure<'a>>, Failure<'a>>) -> Result<(), Failure<'a>>
    ensures { result ≡ end_of done.entry }
{
    match done {
        Ok(None) => Ok(()),
        Ok(Some(failure)) | Err(failure) => Err(failure),
    }
}

/// Prints the help or the version where that was asked for; of wrong words it gives the failure.
fn perform_none<'a, O: Write>(
    alloc: Global,
    words: &[String],
    error: clap::Error,
    out: &mut O,
) -> Result<Option<Failure<'a>>, Failure<'a>> {
    if error.kind() == ErrorKind::DisplayHelp || error.kind() == ErrorKind::DisplayVersion {
        let done = print_help(alloc, &error, out);
        drop(error);
        return done;
    }
    match read_shown(alloc, words) {
        Ok(()) => Err(Failure::from(error)),
        Err(failure) => {
            drop(error);
            Err(failure)
        }
    }
}

/// Prints the help or the version that was asked for.
fn print_help<'a, O: Write>(
    alloc: Global,
    asked: &clap::Error,
    out: &mut O,
) -> Result<Option<Failure<'a>>, Failure<'a>> {
    let text = help_text(alloc, asked)?;
    match out.write_all(text.as_bytes()) {
        Ok(()) => Ok(None),
        Err(_) => Err(Failure::CannotPrint),
    }
}

/// The help or the version that was asked for, laid out for a terminal.
fn help_text(alloc: Global, asked: &clap::Error) -> Result<String, AllocError> {
    let text = format!(in alloc; "{asked}")?;
    laid_out(alloc, text.as_str())
}

/// Reads words as a terminal shows them. Those that are wrong are wrong in the same way then, since no name of a command or
/// of an option has a character that is shown otherwise; and what is told of them shows no character that a terminal obeys.
///
/// # Errors
///
/// Why they are no command's.
fn read_shown<'a>(alloc: Global, words: &[String]) -> Result<(), Failure<'a>> {
    let shown = shown_words(alloc, words)?;
    read_words(alloc, shown.as_slice())
}

/// Reads words, and does nothing that they name.
///
/// # Errors
///
/// Why they are no command's.
fn read_words<'a>(alloc: Global, words: &[String]) -> Result<(), Failure<'a>> {
    let mut line = command_line(alloc)?;
    let read = match line.try_get_matches_from_mut(words) {
        Ok(matches) => {
            drop(matches);
            Ok(())
        }
        Err(error) => Err(Failure::from(error)),
    };
    drop(line);
    read
}

/// Words as a terminal shows them.
fn shown_words(alloc: Global, words: &[String]) -> Result<Vec<String>, AllocError> {
    let mut shown = Vec::new(alloc);
    for word in words {
        shown.push(format!(in alloc; "{}", Shown(word.as_str()))?)?;
    }
    Ok(shown)
}

/// Does the command that a command line has.
fn perform<'a, F: DurableFiles, I: Read + Drop, O: Write, E: Write>(
    alloc: Global,
    line: &mut Command<'a>,
    matches: &ArgMatches<'a>,
    files: &mut F,
    streams: &mut Streams<I, O, E>,
) -> Result<Option<Failure<'a>>, Failure<'a>>
    ensures name { MakesNamed (F.made files.old) (F.made files.new) }
    ensures one { streams.new.input ≡ streams.old.input → MakesFew (F.made files.old) (F.made files.new) }
    ensures kept { streams.new.input ≡ streams.old.input
        → IfErr result (λ failure. failure ≢ Failure.CannotPrint → F.made files.new ≡ F.made files.old) }
    ensures contents { streams.new.input ≡ streams.old.input
        → IfErr result (λ failure. failure ≢ Failure.CannotPrint → F.contents files.new ≡ F.contents files.old) }
    ensures unnoted { OnErr result (E.contents streams.new.err ≡ E.contents streams.old.err) }
{
    match matches.subcommand() {
        Some((serve::NAME, matches)) => perform_serve(
            alloc,
            matches,
            files,
            &mut streams.input,
            &mut streams.out,
        ),
        _ => perform_at_once(alloc, line, matches, files, streams),
    }
}

/// Does `serve`.
fn perform_serve<'a, F: DurableFiles, I: Read + Drop, O: Write>(
    alloc: Global,
    matches: &ArgMatches<'a>,
    files: &mut F,
    input: &mut Option<I>,
    out: &mut O,
) -> Result<Option<Failure<'a>>, Failure<'a>>
    ensures name { MakesOneName (F.made files.old) (F.made files.new) }
    ensures made { input.new ≡ input.old → F.made files.new ≡ F.made files.old }
    ensures contents { input.new ≡ input.old → F.contents files.new ≡ F.contents files.old }
{
    match serve::serve(alloc, matches, files, input, out) {
        Ok(()) => Ok(None),
        Err(failure) => Err(failure),
    }
}

/// Does the command that a command line has, where it is another than `serve`.
fn perform_at_once<'a, F: DurableFiles, I, O: Write, E: Write>(
    alloc: Global,
    line: &mut Command<'a>,
    matches: &ArgMatches<'a>,
    files: &mut F,
    streams: &mut Streams<I, O, E>,
) -> Result<Option<Failure<'a>>, Failure<'a>>
    ensures one { MakesFew (F.made files.old) (F.made files.new) }
    ensures kept { IfErr result (λ failure. failure ≢ Failure.CannotPrint → F.made files.new ≡ F.made files.old) }
    ensures contents { IfErr result (λ failure. failure ≢ Failure.CannotPrint → F.contents files.new ≡ F.contents files.old) }
    ensures unnoted { OnErr result (E.contents streams.new.err ≡ E.contents streams.old.err) }
{
    match matches.subcommand() {
        Some((exec::NAME, matches)) => perform_exec(alloc, matches, files, &mut streams.out),
        Some((link::NAME, matches)) => {
            match perform_link(alloc, matches, files, &mut streams.out) {
                Ok(()) => Ok(None),
                Err(failure) => Err(failure),
            }
        }
        Some((name, matches)) => match perform_other(alloc, line, name, matches, files, streams) {
            Ok(()) => Ok(None),
            Err(failure) => Err(failure),
        },
        None => Err(no_command(line)),
    }
}

/// Does `exec`.
fn perform_exec<'a, F: Files, O: Write>(
    alloc: Global,
    matches: &ArgMatches<'a>,
    files: &mut F,
    out: &mut O,
) -> Result<Option<Failure<'a>>, Failure<'a>>
    ensures one { MakesAtMostOne (F.made files.old) (F.made files.new) }
    ensures kept { IfErr result (λ failure. failure ≢ Failure.CannotPrint → F.made files.new ≡ F.made files.old) }
    ensures contents { IfErr result (λ failure. failure ≢ Failure.CannotPrint → F.contents files.new ≡ F.contents files.old) }
{
    match exec::exec(alloc, matches, files, out) {
        Ok(refused) => Ok(fail::failure_of(matches, refused)),
        Err(failure) => Err(failure),
    }
}

/// Does `link`.
fn perform_link<'a, F: Files, O: Write>(
    alloc: Global,
    matches: &ArgMatches<'a>,
    files: &mut F,
    out: &mut O,
) -> Result<(), Failure<'a>>
    ensures one { MakesFew (F.made files.old) (F.made files.new) }
    ensures kept { OnErr result (F.made files.new ≡ F.made files.old) }
    ensures contents { OnErr result (F.contents files.new ≡ F.contents files.old) }
{
    link::link(alloc, matches, files, out)
}

/// Does the command with this name, of those but `exec` and `link`.
fn perform_other<'a, F: DurableFiles, I, O: Write, E: Write>(
    alloc: Global,
    line: &mut Command<'a>,
    name: &str,
    matches: &ArgMatches<'a>,
    files: &mut F,
    streams: &mut Streams<I, O, E>,
) -> Result<(), Failure<'a>>
    ensures one { MakesAtMostOne (F.made files.old) (F.made files.new) }
    ensures kept { OnErr result (F.made files.new ≡ F.made files.old) }
    ensures contents { OnErr result (F.contents files.new ≡ F.contents files.old) }
    ensures unnoted { OnErr result (E.contents streams.new.err ≡ E.contents streams.old.err) }
{
    match name {
        format::NAME => format::format(alloc, matches, files),
        zones::NAME => zones::zones(alloc, matches, files, &mut streams.out),
        report::NAME => report::report(alloc, matches, streams.colored, files, &mut streams.out),
        upgrade::NAME => upgrade::upgrade(alloc, matches, files),
        fold::NAME => fold::fold(alloc, matches, files, &mut streams.out),
        query::NAME => query::query(alloc, matches, files, &mut streams.out, &mut streams.err),
        _ => perform_without_image(alloc, line, name, matches, files, streams),
    }
}

/// Does the command with this name, of those that take no image.
fn perform_without_image<'a, F: Files, I, O: Write, E: Write>(
    alloc: Global,
    line: &mut Command<'a>,
    name: &str,
    matches: &ArgMatches<'a>,
    files: &mut F,
    streams: &mut Streams<I, O, E>,
) -> Result<(), Failure<'a>>
    ensures one { MakesAtMostOne (F.made files.old) (F.made files.new) }
    ensures kept { OnErr result (F.made files.new ≡ F.made files.old) }
    ensures contents { OnErr result (F.contents files.new ≡ F.contents files.old) }
    ensures unnoted { OnErr result (E.contents streams.new.err ≡ E.contents streams.old.err) }
{
    let out = &mut streams.out;
    match name {
        asm::NAME => asm::asm(alloc, matches, files),
        disasm::NAME => disasm::disasm(alloc, matches, files, out),
        trace::NAME => trace::trace(alloc, matches, files, out),
        verify::NAME => verify::verify(alloc, matches, files, out),
        unpack::NAME => unpack::unpack(alloc, matches, files, out),
        entry::NAME => entry::entry(alloc, line, matches, files, out, &mut streams.err),
        entries::NAME => perform_entries(alloc, matches, files, out),
        explain::NAME => explain::explain(alloc, matches, files, out),
        demo::NAME => demo::demo(alloc, matches, out),
        _ => Err(no_command(line)),
    }
}

/// Does `entries`, with the blocks that are asked for.
fn perform_entries<'a, F: Files, O: Write>(
    alloc: Global,
    matches: &ArgMatches<'a>,
    files: &mut F,
    out: &mut O,
) -> Result<(), Failure<'a>>
    ensures made { F.made files.new ≡ F.made files.old }
    ensures contents { F.contents files.new ≡ F.contents files.old }
{
    let (block, geometry) = asked_block(alloc, matches, files)?;
    entries::entries(alloc, matches, block, geometry, files, out)
}

/// The words in front of all commands.
static LINE: Words = Words {
    name: "zscli",
    about: "Works on zoned namespaces, and on the programs that run beside their data",
    long_about: "",
    example: "",
    arguments: &[],
    one_of: &[],
};

/// How a command line is written.
fn command_line<'a>(alloc: Global) -> Result<Command<'a>, AllocError> {
    let parsers = parsers(alloc)?;
    command_over(alloc, &LINE, &[])?
        .version(VERSION)
        .subcommands(parsers)
}

/// The parsers of all commands.
fn parsers<'a>(alloc: Global) -> Result<Vec<Command<'a>>, AllocError> {
    let commands = commands();
    let mut parsers = Vec::with_capacity(alloc, commands.len())?;
    for words in &commands {
        parsers.push_reserved(parser(alloc, words)?);
    }
    Ok(parsers)
}

/// The words of each command.
fn commands() -> [&'static Words; 18] {
    [
        &format::WORDS,
        &zones::WORDS,
        &report::WORDS,
        &upgrade::WORDS,
        &exec::WORDS,
        &query::WORDS,
        &serve::WORDS,
        &fold::WORDS,
        &asm::WORDS,
        &disasm::WORDS,
        &link::WORDS,
        &trace::WORDS,
        &verify::WORDS,
        &unpack::WORDS,
        &entry::WORDS,
        &entries::WORDS,
        &explain::WORDS,
        &demo::WORDS,
    ]
}

/// The parser of a command. There are commands below `entry` alone.
fn parser<'a>(alloc: Global, words: &'static Words) -> Result<Command<'a>, AllocError> {
    if words.name == entry::NAME {
        command_over(alloc, words, &entry::KINDS)
    } else {
        command_words::command(alloc, words)
    }
}
