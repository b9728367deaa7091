//! The command `verify`: says whether a program is accepted.

ghost use Rattle.std.specs.Prelude.{◌≡◌, ◌≢◌, codes, Err, Some, IfErr, IfOk, OnOk};
ghost use Rattle.clap.specs.Matches.{found_of, first_value};
ghost use Rattle.program_interface.specs.RunSizes.{sizes_with};
ghost use Rattle.command_files.specs.Arguments.{number_of};
ghost use Rattle.command_files.specs.Profile.{operations_of, profile_number};
ghost use Rattle.command_programs.specs.Asked.{IsLimit};
ghost use Rattle.command_programs.specs.MakesProgram.{program_file_of};
ghost use Rattle.command_programs.specs.Printed.{PrintsAccepted, PrintsRefused, SaysAccepted, SaysRefused, form_of};

use crate::flags::{JSON, JSON_ARGUMENT, is_set};
use crate::printing::print;
use crate::program::program_file;
use crate::sizes::{limit, run_sizes};
use crate::verdict::{Verdict, acceptance_text, judged, refusal_text};
use clap::ArgMatches;
use command_files::arguments::{
    BLOCK_ARGUMENT, BLOCK_OPTION, EMIT_ARGUMENT, PROGRAM, PROGRAM_ARGUMENT, block_size, number,
    required,
};
use command_files::{Failure, Files, GivenNumbers, PROFILE, Profile, linked_line, profile_asked};
use command_words::{Argument, Takes, Words};
use instruction_set::Program;
use program_interface::RunSizes;
use std::alloc::Global;
use std::io::Write;

/// The command's name.
pub const NAME: &str = "verify";

const EXPLAIN: &str = "explain";

const FACTS: &str = "facts";

/// How a verdict is printed.
#[derive(Clone, Copy)]
pub enum Form {
    /// On a line.
    Line,
    /// On a line, with lines for people behind it.
    Worded {
        /// Those that say why, or how much a block takes.
        explained: bool,
        /// Those that say what is known at each slot.
        facts: bool,
    },
    /// As one JSON object.
    Json,
}

const LONG_ABOUT: &str = "\
Says whether a program is accepted for a block size and a limit of what it may emit for a block:

  accepted N           it is, and has N instructions: for no block does it trap, take more than N \
steps, or emit more than E bytes
  refused SLOT REASON  it is not: the first slot that fails, and the number of the first reason

   1 a jump backward
   2 a jump to no instruction
   3 a program that falls off
   4 a write to R10
   5 a load outside
   6 a store outside, or into the context or the block
   7 a helper other than 1
   8 an emit from an unknown address
   9 an emit of an unknown length
  10 an emit over the limit

With --explain lines behind the first say more: of an accepted program how many steps and bytes a block takes at \
most, the steps as many as it has instructions; of a refused one the instruction, the reason with its numbers, and what is known of each \
register that the instruction reads. Where `link` wrote PROGRAM.linked for another block, limit or profile, a line says for which.

With --facts lines behind these say what is known at each slot, up to the first that is refused, behind which a > stands: the \
instruction, and what is known of each register that it reads. Below it, further in, stands which address is forgotten there, in \
which register, and why: the instruction makes something else of it, or ways meet, on one of which the register has another area's \
address or none, and it is still read. A load of a word of the stack of which nothing is known is told so, too.

With --json one JSON object is printed, on a line. `accepted` is true or false, and `instruction_count` how many instructions \
the program has. Of an accepted program `most_emitted` is how many bytes a block emits at most. Of a refused one there are \
`slot`, `reason` and the reason's `words`, the `instruction` as `disasm` lists it, and `registers`, a list of what is known of each register that the \
instruction reads: its number, `register`, and the least and the greatest number that it can have, `low` and `high`, or of an address \
its `area` and the distances from there. The reason's numbers stand in fields of their own: `target` and `slot_count` of 1 and 2; of 5, 6 and 8 \
`base`, the register of the address, `bytes`, and `allowed`, where the register may point, or null; `helper` of 7; `longest` of 9, the most bytes that \
can be emitted from R1 on, or null; of 10 `emitted`, by the group before, `record` and `limit`.

Load judges by profile 2. With --profile 3 more is known: addresses are numbers too, so that two can be compared and subtracted, and an \
emit whose address and length have a sum that was compared ends where that does. What is accepted never traps, by either, but Load takes \
only what is accepted by profile 2, except by `exec --profile 3`.";

const EXAMPLE: &str = "\
Example: the program of `asm --help`, with a limit that is too low.

  zscli verify program.bin --block 512 --emit 9 --explain

  refused 4 10
     4  call 1
  an emit over the limit: behind 0 bytes, 2 for its length and 8 bytes come to 10, and 9 may be emitted
  r1 is block + 0
  r2 is 8

Example: a program whose emit ends where the sum of its address and its length does.

  ldxh r6, [r2]
  ldxb r7, [r2+2]
  add r7, 1
  mov r3, r6
  add r3, r7
  jgt r3, 512, done
  add r2, r6
  mov r1, r2
  mov r2, r7
  call 1
  done: mov r0, 0
  exit

  zscli verify record.bin --block 512 --emit 258 --profile 3

  accepted 12";

/// How the command stands on the command line.
pub static WORDS: Words = Words {
    name: NAME,
    about: "Says whether a program is accepted",
    long_about: LONG_ABOUT,
    example: EXAMPLE,
    arguments: &[
        PROGRAM_ARGUMENT,
        BLOCK_ARGUMENT,
        EMIT_ARGUMENT,
        Argument {
            id: PROFILE,
            long: PROFILE,
            short: None,
            takes: Takes::Default("P", "2"),
            help: "The profile to judge by: 2, as Load does, or 3, which knows more of addresses and sums",
        },
        Argument {
            id: EXPLAIN,
            long: EXPLAIN,
            short: None,
            takes: Takes::Nothing,
            help: "Say in words what is known",
        },
        Argument {
            id: FACTS,
            long: FACTS,
            short: None,
            takes: Takes::Nothing,
            help: "List what is known at each slot",
        },
        JSON_ARGUMENT,
    ],
    one_of: &[],
};

/// Prints whether the program that the file's bytes spell is accepted for the sizes that the options give, or the first
/// refusal, on a line; with `--explain` and with `--facts` lines behind it, which aren't said; with `--json` in place of all these
/// one JSON object, of a refused program with further fields, which aren't said either. It makes no file: each has the bytes that it had.
/// Where the program isn't judged, nothing is printed.
///
/// # Errors
///
/// [`Failure::NotAccepted`] where the program isn't accepted. Else a word is no number or no block size, the file can't be
/// read or is refused, the limit exceeds the block, standard output fails, or memory is wanting.
pub fn verify<'a, F: Files, O: Write>(
    alloc: Global,
    matches: &ArgMatches<'a>,
    files: &mut F,
    out: &mut O,
) -> Result<(), Failure<'a>>
    ensures accepted { let bytes = F.contents files.old (program_file_of matches.now) in
        OnOk result (PrintsAccepted matches.now bytes (O.contents out.old) (O.contents out.new)) }
    ensures refused { let bytes = F.contents files.old (program_file_of matches.now) in
        result ≡ Err Failure.NotAccepted → PrintsRefused matches.now bytes (O.contents out.old) (O.contents out.new) }
    ensures quiet { IfErr result (λ failure. failure ≢ Failure.CannotPrint → failure ≢ Failure.NotAccepted
        → O.contents out.new ≡ O.contents out.old) }
    ensures made { F.made files.new ≡ F.made files.old }
    ensures contents { F.contents files.new ≡ F.contents files.old }
{
    let asked = asked_for(matches)?;
    let path = required(matches, PROGRAM);
    let file = program_file(alloc, path, files)?;
    let sizes = sizes_with(asked.block, asked.limit)?;
    let linked = linked_asked(alloc, path, file.bytes.as_slice(), &asked, files)?;
    say(alloc, &file.program, sizes, asked, linked.as_str(), out)
}

/// What a user asks for.
#[derive(Clone, Copy)]
struct VerifyOptions {
    /// The bytes of a block.
    block: u32,
    /// The most that may be emitted for one.
    limit: u32,
    profile: Profile,
    form: Form,
}

fn asked_for<'a>(matches: &ArgMatches<'a>) -> Result<VerifyOptions, Failure<'a>>
    ensures block { IfOk result (λ asked. number_of matches.now (codes "block") ≡ Some asked.block) }
    ensures limit { IfOk result (λ asked. IsLimit matches.now (first_value (found_of matches.now) (codes "emit")) asked.limit) }
    ensures profile { IfOk result (λ asked. number_of matches.now (codes "profile") ≡ Some (profile_number asked.profile)) }
    ensures form { IfOk result (λ asked. asked.form ≡ form_of matches.now) }
    ensures not_judged { result ≢ Err Failure.NotAccepted }
{
    Ok(VerifyOptions {
        block: number(matches, BLOCK_OPTION)?,
        limit: limit(matches)?,
        profile: profile_asked(matches)?,
        form: form_asked(matches),
    })
}

/// How the verdict is to be printed.
fn form_asked(matches: &ArgMatches<'_>) -> Form
    ensures { result ≡ form_of matches.now }
{
    let (explained, facts) = (is_set(matches, EXPLAIN), is_set(matches, FACTS));
    if is_set(matches, JSON) {
        Form::Json
    } else if explained || facts {
        Form::Worded { explained, facts }
    } else {
        Form::Line
    }
}

/// The sizes of a run with these numbers.
fn sizes_with<'a>(block: u32, limit: u32) -> Result<RunSizes, Failure<'a>>
    ensures sizes { IfOk result (λ sizes. sizes_with block limit ≡ Some sizes) }
    ensures not_judged { result ≢ Err Failure.NotAccepted }
{
    run_sizes(block_size(block)?, limit)
}

/// The line that the notes beside the file with a program of these bytes give, if words are asked for.
fn linked_asked<'a, F: Files>(
    alloc: Global,
    path: &str,
    bytes: &[u8],
    asked: &VerifyOptions,
    files: &mut F,
) -> Result<String, Failure<'a>>
    ensures made { F.made files.new ≡ F.made files.old }
    ensures contents { F.contents files.new ≡ F.contents files.old }
    ensures not_judged { result ≢ Err Failure.NotAccepted }
{
    let given = GivenNumbers {
        block: Some(asked.block),
        emit: asked.limit,
        profile: Some(match asked.profile {
            Profile::Two => 2,
            Profile::Three => 3,
        }),
    };
    match asked.form {
        Form::Worded {
            explained: true,
            ..
        } => Ok(linked_line(alloc, path, bytes, given, files)?),
        _ => Ok(String::new(alloc)),
    }
}

/// Judges a program by the profile that is asked for, and prints whether it is accepted, with this line where words are asked for.
fn say<'a, O: Write>(
    alloc: Global,
    program: &Program,
    sizes: RunSizes,
    asked: VerifyOptions,
    linked: &str,
    out: &mut O,
) -> Result<(), Failure<'a>>
    ensures accepted { OnOk result
        (SaysAccepted (operations_of asked.profile) program.now sizes asked.form (O.contents out.old) (O.contents out.new)) }
    ensures refused { result ≡ Err Failure.NotAccepted
        → SaysRefused (operations_of asked.profile) program.now sizes asked.form (O.contents out.old) (O.contents out.new) }
    ensures quiet { IfErr result (λ failure. failure ≢ Failure.CannotPrint → failure ≢ Failure.NotAccepted
        → O.contents out.new ≡ O.contents out.old) }
{
    let VerifyOptions { profile, form, .. } = asked;
    let instructions = program.instruction_count();
    match judged(alloc, program, sizes, profile, form, linked)? {
        Verdict::Accepted {
            most_emitted,
            words,
        } => {
            let text = acceptance_text(alloc, instructions, most_emitted, words.as_str(), form)?;
            print(text.as_bytes(), out)
        }
        Verdict::Refused { refusal, words } => {
            let text = refusal_text(alloc, instructions, refusal, words.as_str(), form)?;
            print(text.as_bytes(), out)?;
            Err(Failure::NotAccepted)
        }
    }
}
