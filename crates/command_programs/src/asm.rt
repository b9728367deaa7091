//! The command `asm`: text to a program.

ghost use Rattle.std.specs.Prelude.{◌≡◌, IfErr, OnOk, OnErr};
ghost use Rattle.ebpf_asm.specs.Assembly.{assembled};
ghost use Rattle.command_files.specs.Made.{KeepsOthers, MakesOne};
ghost use Rattle.command_programs.specs.MakesProgram.{Assembles, MakesProgram, program_file_of, text_file_of};
ghost use Rattle.command_programs.specs.UserTold.{AsmFails};
ghost use Rattle.command_programs.specs.steps.Told.{IsToldOfAssembly, MakesNone};

use clap::ArgMatches;
use command_files::arguments::{PROGRAM, required};
use command_files::{Failure, Files, MOST_OF_TEXT, read, write};
use command_words::{Argument, Takes, Words};
use ebpf_asm::{AssembleFault, AssemblyRefusal, assemble};
use std::alloc::Global;

/// The command's name.
pub const NAME: &str = "asm";

const TEXT: &str = "TEXT";

const LONG_ABOUT: &str = "\
Assembles text to a program, a file of eBPF instructions (RFC 9669, 3).

A line has an optional label, as `next:`, and an optional instruction: a mnemonic, and operands \
between commas. `;` begins a comment. Of text that is not so, `assembly refused LINE REASON` tells the \
first fault, and no file is written.";

const EXAMPLE: &str = "\
Example: a program that emits the first 8 bytes of each block whose first byte is 7.

  ldxb r6, [r2]
  jne r6, 7, done
  mov r1, r2
  mov r2, 8
  call 1
  done: mov r0, 0
  exit";

/// How the command stands on the command line.
pub static WORDS: Words = Words {
    name: NAME,
    about: "Assembles text to a program",
    long_about: LONG_ABOUT,
    example: EXAMPLE,
    arguments: &[
        Argument {
            id: TEXT,
            long: "",
            short: None,
            takes: Takes::Place,
            help: "The assembly text",
        },
        Argument {
            id: PROGRAM,
            long: "",
            short: None,
            takes: Takes::Place,
            help: "The program that is written",
        },
    ],
    one_of: &[],
};

/// Makes one file, in the program file's place: the bytes that the text file's assemble to. Where it fails, no file is
/// made, but for what [`Files::write`] says, and what is told is the fault of the text, or by its name which file can't
/// be read or written. Every other file has the bytes that it had.
///
/// # Errors
///
/// The text can't be read or is refused, the program can't be written, or memory is wanting.
pub fn asm<'a, F: Files>(
    alloc: Global,
    matches: &ArgMatches<'a>,
    files: &mut F,
) -> Result<(), Failure<'a>>
    ensures program { OnOk result (Assembles matches.now (F.contents files.old) (F.made files.old) (F.made files.new)) }
    ensures failed { IfErr result (AsmFails (F.contents files.old) (text_file_of matches.now) (program_file_of matches.now)) }
    ensures made { OnOk result (MakesOne (program_file_of matches.now) (F.made files.old) (F.made files.new)) }
    ensures others { OnOk result (KeepsOthers (program_file_of matches.now) (F.contents files.old) (F.contents files.new)) }
    ensures kept { OnErr result (F.made files.new ≡ F.made files.old) }
    ensures contents { OnErr result (F.contents files.new ≡ F.contents files.old) }
{
    let text_file = required(matches, TEXT);
    let text = read(text_file, MOST_OF_TEXT, files)?;
    make(
        alloc,
        text_file,
        text.as_slice(),
        required(matches, PROGRAM),
        files,
    )
}

/// Makes a file of the program that a text assembles to.
fn make<'a, F: Files>(
    alloc: Global,
    text_file: &'a str,
    text: &[u8],
    program_file: &'a str,
    files: &mut F,
) -> Result<(), Failure<'a>>
    ensures program { OnOk result (MakesProgram (F.made files.old) (F.made files.new) program_file.now (assembled text.now)) }
    ensures failed { IfErr result (MakesNone text_file.entry program_file.entry text.now) }
    ensures made { OnOk result (MakesOne program_file.now (F.made files.old) (F.made files.new)) }
    ensures others { OnOk result (KeepsOthers program_file.now (F.contents files.old) (F.contents files.new)) }
    ensures kept { OnErr result (F.made files.new ≡ F.made files.old) }
    ensures contents { OnErr result (F.contents files.new ≡ F.contents files.old) }
{
    match assemble(alloc, text) {
        Ok(program) => write(program_file, program.as_slice(), files),
        Err(fault) => Err(refused(text_file, text, fault)),
    }
}

/// What the user is told of a file of this text that can't be assembled.
fn refused<'a>(path: &'a str, text: &[u8], fault: AssembleFault) -> Failure<'a>
    ensures { IsToldOfAssembly path.entry fault result }
{
    match fault {
        AssembleFault::Fault(fault) => Failure::AssemblyRefused {
            path,
            refusal: AssemblyRefusal::of(fault, text),
        },
        AssembleFault::Memory => Failure::NoMemory,
    }
}
