//! The command `disasm`: a program as text.

ghost use Rattle.std.specs.Prelude.{◌≡◌, ◌≢◌, IfErr, IfOk, OnOk};
ghost use Rattle.std.specs.String.{string_bytes};
ghost use Rattle.command_programs.specs.MakesProgram.{program_file_of};
ghost use Rattle.command_programs.specs.Printed.{PrintsListing, listed};
ghost use Rattle.command_programs.specs.UserTold.{DisasmFails};

use crate::flags::is_set;
use crate::printing::print;
use crate::program::program_in_file;
use clap::ArgMatches;
use command_files::arguments::{PROGRAM, PROGRAM_ARGUMENT, required};
use command_files::{Failure, Files};
use command_words::{Argument, Takes, Words};
use ebpf_asm::{disassemble, disassemble_with_slots};
use instruction_set::Program;
use std::alloc::{AllocError, Global};
use std::io::Write;

/// The command's name.
pub const NAME: &str = "disasm";

const SLOTS: &str = "slots";

const LONG_ABOUT: &str = "\
Prints a program as assembly text, an instruction on each line, which `asm` assembles to the same \
bytes. With --slots each line begins with the instruction's slot, as refusals and `trace` name it.

A program is a file of eBPF instructions (RFC 9669, 3), 8 bytes a slot, from 1 to 4096 slots. Of one \
that is not so, `program refused SLOT REASON` tells the first fault.";

const EXAMPLE: &str = "\
Example: the program of the bytes b700000000000000 9500000000000000.

  zscli disasm zero.bin

  mov r0, 0
  exit

  zscli disasm zero.bin --slots

     0  mov r0, 0
     1  exit";

/// How the command stands on the command line.
pub static WORDS: Words = Words {
    name: NAME,
    about: "Prints a program as assembly text",
    long_about: LONG_ABOUT,
    example: EXAMPLE,
    arguments: &[
        PROGRAM_ARGUMENT,
        Argument {
            id: SLOTS,
            long: SLOTS,
            short: None,
            takes: Takes::Nothing,
            help: "Print each instruction's slot before it: a wide one takes two",
        },
    ],
    one_of: &[],
};

/// Prints the listing of the program that the file's bytes spell, and nothing else; with `--slots` each instruction's slot
/// stands before it. It makes no file: each has the bytes that it had. Where another thing than standard output fails, nothing is
/// printed.
///
/// # Errors
///
/// The program can't be read or is refused, standard output fails, or memory is wanting.
pub fn disasm<'a, F: Files, O: Write>(
    alloc: Global,
    matches: &ArgMatches<'a>,
    files: &mut F,
    out: &mut O,
) -> Result<(), Failure<'a>>
    ensures printed { let bytes = F.contents files.old (program_file_of matches.now) in
        OnOk result (PrintsListing matches.now bytes (O.contents out.old) (O.contents out.new)) }
    ensures failed { let path = program_file_of matches.now in IfErr result (DisasmFails (F.contents files.old path) path) }
    ensures quiet { IfErr result (λ failure. failure ≢ Failure.CannotPrint → O.contents out.new ≡ O.contents out.old) }
    ensures made { F.made files.new ≡ F.made files.old }
    ensures contents { F.contents files.new ≡ F.contents files.old }
{
    let program = program_in_file(alloc, required(matches, PROGRAM), files)?;
    let text = listing(alloc, &program, is_set(matches, SLOTS))?;
    print(text.as_bytes(), out)
}

/// The listing of a program, with slots or without.
fn listing(alloc: Global, program: &Program, with_slots: bool) -> Result<String, AllocError>
    ensures { IfOk result (λ text. string_bytes text ≡ listed with_slots program.now) }
{
    if with_slots {
        disassemble_with_slots(alloc, program)
    } else {
        disassemble(alloc, program)
    }
}
