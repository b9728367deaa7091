//! What is known of a question before it is asked: how it is understood, and its programs.

ghost use Rattle.std.specs.Prelude.{◌≡◌, [], OnErr};
ghost use Rattle.command_files.specs.Made.{MakesAtMost};
ghost use Rattle.command_query.specs.Files.{program_file};

use crate::compiled::{CompiledQuestion, Request, compile_question};
use crate::explained::explained;
use crate::parts::Part;
use crate::refused::refused;
use clap::ArgMatches;
use command_files::arguments::{BLOCK_OPTION, block_size, number, required};
use command_files::{Failure, Files, Shown, printed, write};
use std::alloc::Global;
use std::io::Write;

/// The option that asks how the question is understood.
pub(crate) const EXPLAIN: &str = "explain";

/// The option that names the file of a program.
pub(crate) const PROGRAM: &str = "program";

/// The option that says which of several programs is written.
pub(crate) const PART: &str = "part";

/// Do the words ask how the question is understood?
pub(crate) fn is_explained(matches: &ArgMatches<'_>) -> bool {
    required(matches, EXPLAIN) == "true"
}

/// Do the words ask for what is known of the question, and not for its answer?
pub(crate) fn is_only_told(matches: &ArgMatches<'_>) -> bool {
    is_explained(matches) || !required(matches, PROGRAM).is_empty()
}

/// Prints how the question about blocks of a size is understood, or writes one of its programs. No image is read.
///
/// # Errors
///
/// The question can't be asked, or neither is wanted; the program can't be written, standard output fails, or memory is wanting.
pub(crate) fn tell_of_blocks<'a, F: Files, O: Write>(
    alloc: Global,
    matches: &ArgMatches<'a>,
    request: Request,
    files: &mut F,
    out: &mut O,
) -> Result<(), Failure<'a>>
    ensures one { MakesAtMost (program_file matches.now) (F.made files.old) (F.made files.new) }
    ensures unmade { program_file matches.now ≡ [] → F.made files.new ≡ F.made files.old }
    ensures unchanged { program_file matches.now ≡ [] → F.contents files.new ≡ F.contents files.old }
    ensures kept { OnErr result (F.made files.new ≡ F.made files.old) }
    ensures contents { OnErr result (F.contents files.new ≡ F.contents files.old) }
{
    let block = block_size(number(matches, BLOCK_OPTION)?)?;
    let compiled = compile_question(alloc, matches, request, block)?;
    if is_explained(matches) {
        let text = explained(alloc, &compiled)?;
        return printed(out.write_all(text.as_bytes()));
    }
    if required(matches, PROGRAM).is_empty() {
        return Err(refused(format!(in alloc;
            "without an image no records are asked about; name one and its --zone, or ask for --explain or --program"
        )));
    }
    write_program(alloc, matches, &compiled, files, out)
}

/// Writes the program of a question that the words name, and prints the words that load it.
///
/// # Errors
///
/// The question has groups, or several programs and none is named, or lacks the one that is; the program can't be written, standard output fails, or
/// memory is wanting.
pub(crate) fn write_program<'a, F: Files, O: Write>(
    alloc: Global,
    matches: &ArgMatches<'a>,
    compiled: &CompiledQuestion,
    files: &mut F,
    out: &mut O,
) -> Result<(), Failure<'a>>
    ensures one { MakesAtMost (program_file matches.now) (F.made files.old) (F.made files.new) }
    ensures kept { OnErr result (F.made files.new ≡ F.made files.old) }
    ensures contents { OnErr result (F.contents files.new ≡ F.contents files.old) }
{
    if compiled.groups.is_some() {
        return Err(refused(format!(in alloc;
            "--program: a question with --by takes programs beside each other, of which one counts what has no group; ask an image, or for the tallies without --by"
        )));
    }
    let path = required(matches, PROGRAM);
    let (index, part) = part_asked(alloc, matches, compiled.parts.as_slice())?;
    let limit = part.sizes.limit();
    let shown = Shown(path);
    let line = format!(in alloc; "entry load --slot {index} --program {shown} --emit {limit}\n")?;
    printed(out.write_all(line.as_bytes()))?;
    write(path, part.program.as_slice(), files)
}

/// The program that the words name, by its number from 0 on. One that is alone needs no name.
fn part_asked<'a, 'p>(
    alloc: Global,
    matches: &ArgMatches<'a>,
    parts: &'p [Part],
) -> Result<(u32, &'p Part), Failure<'a>> {
    let programs = parts.len();
    let last = programs.saturating_sub(1);
    let is_named = !required(matches, PART).is_empty();
    if !is_named && last > 0 {
        let told = format!(in alloc;
            "--program: the question takes {programs} programs; name one by --part, from 0 to {last}, or select fewer bytes, or give the layout a `count` of fewer records"
        );
        return Err(refused(told));
    }
    let index = if is_named { number(matches, PART)? } else { 0 };
    match parts.get(index as usize) {
        Some(part) => Ok((index, part)),
        None => Err(refused(format!(in alloc;
            "--part {index}: the question has programs 0 to {last}"
        ))),
    }
}
