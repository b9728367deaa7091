//! The command `link`: an object to a program.

ghost use Rattle.std.specs.Prelude.{◌≡◌, IfOk, OnErr, OnOk, string_bytes};
ghost use Rattle.command_files.specs.Arguments.{value_of};
ghost use Rattle.command_files.specs.Made.{MakesAtMost};
ghost use Rattle.command_link.specs.Made.{MakesProgram, notes_name};
ghost use Rattle.command_files.specs.declared.arguments.TheConstants.{PROGRAM};

use crate::making::{Asked, LinkedProgram, made};
use crate::refusal::Refusal;
use clap::ArgMatches;
use command_files::arguments::{
    BLOCK_ARGUMENT, BLOCK_OPTION, EMIT_OPTION, PROGRAM, block_size, not_in_range, number, required,
};
use command_files::{
    Failure, Files, MOST_OF_TEXT, PROFILE, Profile, Shown, printed, profile_asked, read, write,
};
use command_words::{Argument, Takes, Words};
use ebpf_link::{Linked, LoopRule, MARK_BYTES, MarkRule, Target};
use program_interface::{BlockSize, SCRATCH_BYTES};
use std::alloc::{AllocError, Global};
use std::io::Write;

/// The command's name.
pub const NAME: &str = "link";

const OBJECT: &str = "OBJECT";

const FUNCTION: &str = "function";

const VERBOSE: &str = "verbose";

const CUT_LOOPS: &str = "cut-loops";

const STRICT: &str = "strict";

const GUARD_AT: &str = "guard-at";

const SILENT_GUARDS: &str = "silent-guards";

const LONG_ABOUT: &str = "\
Makes a program of an object, a file of C as `clang -target bpf -c` makes it, for blocks of one size.

The program starts with the object's only global function, or the one that --function names. Functions that it calls are put \
where they are called, constant data onto the stack, and memcpy, memset and memcmp of a constant length are written out. Loops \
are unrolled as often as they can go round, as far as is known of registers. In front of an access or an emit that isn't known \
to lie within an area stands a guard: a compare that ends the run with this block where it does not. `guard` and a sentence tell \
of each where it is, what it ends the run for, and what to write so that none is needed. Where a guard always ends the run, and \
where a loop has more rounds than there are slots for, no program is made. With --cut-loops a loop has as many rounds as there \
is room for, and a block that needs more ends the run. With --strict a program with any guard or such a loop is refused.

A guard that ends a run writes 16 bytes of scratch: its number (u32), its slot (u32) and the block's index (u64). They are the last \
into which the program stores nothing; --guard-at names others. PROGRAM.linked, a file of text, has a line for each guard, and for \
which blocks, limit and profile the program was linked, and a sum of its bytes, by which it is known that the notes are its own. Where \
it can't be written, a line tells so, and the program is made.

Of an object of which no program is made, or one that `verify` refuses, `link refused` and a sentence tell \
the function, the line, where `clang -g` wrote it, and what to write instead, and no file is written.";

const EXAMPLE: &str = "\
Example:

  clang -target bpf -O2 -c filter.c -o filter.o
  zscli link filter.o --block 4096 -o filter.bin
  zscli verify filter.bin --block 4096 --emit 4096";

/// How the command stands on the command line.
pub static WORDS: Words = Words {
    name: NAME,
    about: "Makes a program of an object that clang made of C",
    long_about: LONG_ABOUT,
    example: EXAMPLE,
    arguments: &[
        Argument {
            id: OBJECT,
            long: "",
            short: None,
            takes: Takes::Place,
            help: "The object, as clang makes it",
        },
        BLOCK_ARGUMENT,
        Argument {
            id: EMIT_OPTION,
            long: EMIT_OPTION,
            short: None,
            takes: Takes::Optional("E"),
            help: "The most bytes that are emitted for a block, two for each record counted [default: a block's]",
        },
        Argument {
            id: PROFILE,
            long: PROFILE,
            short: None,
            takes: Takes::Default("P", "2"),
            help: "The profile that accepts the program: 2 or 3",
        },
        Argument {
            id: PROGRAM,
            long: "output",
            short: Some('o'),
            takes: Takes::Required(PROGRAM),
            help: "The program that is written",
        },
        Argument {
            id: FUNCTION,
            long: FUNCTION,
            short: None,
            takes: Takes::Optional("NAME"),
            help: "The function to start with",
        },
        Argument {
            id: CUT_LOOPS,
            long: CUT_LOOPS,
            short: None,
            takes: Takes::Nothing,
            help: "Give loops as many rounds as there are slots for, and list those that have more",
        },
        Argument {
            id: STRICT,
            long: STRICT,
            short: None,
            takes: Takes::Nothing,
            help: "Refuse a program with a guard that may end a run, or a loop that is cut",
        },
        Argument {
            id: GUARD_AT,
            long: GUARD_AT,
            short: None,
            takes: Takes::Optional("OFFSET"),
            help: "The byte of scratch from which on guards write, a multiple of 8 up to 1008",
        },
        Argument {
            id: SILENT_GUARDS,
            long: SILENT_GUARDS,
            short: None,
            takes: Takes::Nothing,
            help: "Let guards write nothing to scratch",
        },
        Argument {
            id: VERBOSE,
            long: VERBOSE,
            short: None,
            takes: Takes::Nothing,
            help: "Print how many slots the program has, and how many compares were put in",
        },
    ],
    one_of: &[],
};

/// Makes one file, in the program file's place: the program of the object file's bytes. Beside it a file of text is made, of its name
/// and `.linked`, or none is, and standard output tells so. Where it fails, no file is made, but for what [`Files::write`] says. Nothing
/// is promised of which program it is: `verify` and Load judge it like any other.
///
/// # Errors
///
/// [`Failure::NotAccepted`] where no program is made of the object, which standard output tells. Else a word is no block size or no
/// number that it can be, a file can't be read or written, standard output fails, or memory is wanting.
pub fn link<'a, F: Files, O: Write>(
    alloc: Global,
    matches: &ArgMatches<'a>,
    files: &mut F,
    out: &mut O,
) -> Result<(), Failure<'a>>
    ensures made { OnOk result (MakesProgram (value_of matches.now PROGRAM.now) (F.made files.old) (F.made files.new)) }
    ensures kept { OnErr result (F.made files.new ≡ F.made files.old) }
    ensures contents { OnErr result (F.contents files.new ≡ F.contents files.old) }
{
    let asked = asked_for(matches)?;
    let path = required(matches, OBJECT);
    let object = read(path, MOST_OF_TEXT, files)?;
    let name = required(matches, FUNCTION);
    let made = program(alloc, path, object.as_slice(), name, &asked, out)?;
    let done = put(alloc, matches, &made, files, out);
    drop(made);
    done
}

/// Prints what is told of a program, and makes its file and the one beside it.
fn put<'a, F: Files, O: Write>(
    alloc: Global,
    matches: &ArgMatches<'a>,
    made: &LinkedProgram,
    files: &mut F,
    out: &mut O,
) -> Result<(), Failure<'a>>
    ensures made { OnOk result (MakesProgram (value_of matches.now PROGRAM.now) (F.made files.old) (F.made files.new)) }
    ensures kept { OnErr result (F.made files.new ≡ F.made files.old) }
    ensures contents { OnErr result (F.contents files.new ≡ F.contents files.old) }
{
    let lines = lines(alloc, made, required(matches, VERBOSE) == "true")?;
    printed(out.write_all(lines.as_bytes()))?;
    let path = required(matches, PROGRAM);
    let beside = notes_name(alloc, path)?;
    write(path, made.bytes.as_slice(), files)?;
    write_notes(beside.as_str(), made.notes.as_bytes(), files, out);
    Ok(())
}

/// The name of the file beside a program in which it is noted what that was made for.
fn notes_name(alloc: Global, path: &str) -> Result<String, AllocError>
    ensures { IfOk result (λ name. string_bytes name ≡ notes_name path.now) }
{
    let mut name = String::from_str(alloc, path)?;
    name.push_str(".linked")?;
    Ok(name)
}

/// Makes the file with this name, or tells that it can't be written. Where that can't be told either, nobody can be.
fn write_notes<F: Files, O: Write>(path: &str, bytes: &[u8], files: &mut F, out: &mut O)
    ensures { MakesAtMost path.now (F.made files.old) (F.made files.new) }
{
    match write(path, bytes, files) {
        Ok(()) => {}
        Err(_) => {
            let _told = writeln!(out, "note: {} can't be written", Shown(path));
        }
    }
}

/// What the words ask for.
fn asked_for<'a>(matches: &ArgMatches<'a>) -> Result<Asked, Failure<'a>> {
    let block = block_size(number(matches, BLOCK_OPTION)?)?;
    let emit = emit_asked(matches, block)?;
    let profile = match profile_asked(matches)? {
        Profile::Two => 2,
        Profile::Three => 3,
    };
    let target = Target {
        block,
        limit: emit.unwrap_or(block.bytes()) as usize,
        rule: if is_given(matches, CUT_LOOPS) {
            LoopRule::Cut
        } else {
            LoopRule::Whole
        },
        marks: marks_asked(matches)?,
        widens: profile == 3,
    };
    Ok(Asked {
        target,
        emit,
        profile,
        is_strict: is_given(matches, STRICT),
    })
}

/// Is an option there that takes no word?
fn is_given(matches: &ArgMatches<'_>, option: &str) -> bool {
    required(matches, option) == "true"
}

/// The most bytes that are emitted for a block, if they are told.
fn emit_asked<'a>(matches: &ArgMatches<'a>, block: BlockSize) -> Result<Option<u32>, Failure<'a>> {
    if required(matches, EMIT_OPTION).is_empty() {
        return Ok(None);
    }
    let emit = number(matches, EMIT_OPTION)?;
    let block = block.bytes();
    if emit > block {
        return Err(Failure::EmitExceedsBlock { emit, block });
    }
    Ok(Some(emit))
}

/// Where guards write.
fn marks_asked<'a>(matches: &ArgMatches<'a>) -> Result<MarkRule, Failure<'a>> {
    if is_given(matches, SILENT_GUARDS) {
        return Ok(MarkRule::Silent);
    }
    if required(matches, GUARD_AT).is_empty() {
        return Ok(MarkRule::Found);
    }
    let most = (SCRATCH_BYTES - MARK_BYTES) as u64;
    let at = number(matches, GUARD_AT)?;
    if u64::from(at) > most {
        return Err(not_in_range(matches, GUARD_AT, 0, most));
    }
    Ok(MarkRule::At(at as usize))
}

/// The program of the object of these bytes; where there is none, standard output tells why.
fn program<'a, O: Write>(
    alloc: Global,
    path: &str,
    bytes: &[u8],
    name: &str,
    asked: &Asked,
    out: &mut O,
) -> Result<LinkedProgram, Failure<'a>> {
    match made(alloc, path, bytes, name, asked) {
        Ok(found) => Ok(found),
        Err(Refusal::Memory) => Err(Failure::NoMemory),
        Err(Refusal::Told(text)) => {
            printed(writeln!(out, "link refused: {text}"))?;
            Err(Failure::NotAccepted)
        }
    }
}

/// What is told of a program: its guards and the loops that are cut, and with numbers its own.
fn lines(alloc: Global, made: &LinkedProgram, has_numbers: bool) -> Result<String, AllocError> {
    let mut lines = String::from_str(alloc, made.told.as_str())?;
    if has_numbers {
        push_numbers(&made.linked, &mut lines)?;
    }
    Ok(lines)
}

/// Adds how many slots a program has, and how many compares of each kind.
fn push_numbers(linked: &Linked, lines: &mut String) -> Result<(), AllocError> {
    let slots = linked.slots.len();
    let [memory, emit, size, _] = linked.compares;
    writeln!(
        lines,
        "{slots} slots; compares put in: {memory} of accesses, {emit} of emits, {size} of the block's size"
    )
}
