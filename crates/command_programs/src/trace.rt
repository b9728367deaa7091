//! The command `trace`: one block run, step by step.

ghost use Rattle.std.specs.Prelude.{◌≡◌, ◌≤◌, false, codes, length, replicate, IfOk, OnOk, Some};
ghost use Rattle.std.specs.Io.KnownBytes.{Appends};
ghost use Rattle.std.specs.String.{string_bytes};
ghost use Rattle.clap.specs.Matches.{found_of, first_value};
ghost use Rattle.program_meaning.specs.Step.{IsAt};
ghost use Rattle.interp.specs.Machine.{machine_slot, machine_state, steps_of, group_length};
ghost use Rattle.program_interface.specs.Context.{context_bytes};
ghost use Rattle.program_interface.specs.declared.area.TheConstants.{SCRATCH_BYTES};
ghost use Rattle.program_meaning.specs.State.{at_start};
ghost use Rattle.command_files.specs.Arguments.{number_of};
ghost use Rattle.command_programs.specs.Asked.{IsLimit, is_set};
ghost use Rattle.command_programs.specs.Traced.{PrintsTrace, exit_line, first_and_only, group_text, slot_line, trace_lines, trap_line};

use crate::flags::is_set;
use crate::printing::print;
use crate::program::program_in_file;
use crate::sizes::{limit, run_sizes};
use crate::step_lines::{Emitting, step_line};
use clap::ArgMatches;
use command_files::arguments::{
    ARGUMENT_OPTION, EMIT_ARGUMENT, PROGRAM, PROGRAM_ARGUMENT, RUN_ARGUMENT, number, required,
};
use command_files::{Failure, Files, MOST_OF_BLOCK, printed, read, size_as_block};
use command_words::{Argument, Takes, Words};
use ebpf_asm::instruction_text;
use instruction_set::Program;
use interp::{Machine, Step};
use program_interface::{
    BlockSize, CONTEXT_BYTES, Context, LARGEST_BLOCK, RunSizes, SCRATCH_BYTES, STACK_BYTES,
};
use program_meaning::Cause;
use std::alloc::{AllocError, Global};
use std::io::Write;

/// The command's name.
pub const NAME: &str = "trace";

const BLOCK: &str = "BLOCK";

const FUEL: &str = "fuel";

const REGISTERS: &str = "registers";

const LONG_ABOUT: &str = "\
Runs a program on one block, with every check, and prints the slot of each instruction that it \
executes, and then how the block run ended:

  exit R0 STEPS HEX   by EXIT: R0, the number of steps and what was emitted (- for nothing)
  trap SLOT CAUSE     at an instruction that cannot be done
  fuel                after as many steps as it was given

  1 the next slot is outside the program
  2 the next slot is a wide instruction's second
  3 a write to R10
  4 a load outside
  5 a store outside, or into the context or the block
  6 a helper other than 1
  7 an emit from outside
  8 an emit of no bytes, or over the limit

With --registers each slot has its instruction behind it, and what that changed: the register that it \
writes, with its word, or for emit how many bytes were emitted, and from where; or why it cannot be done.

The block is at LBA 0, the first and only one of its run. Its size is the file's length: a power of 2 \
from 512 to 16384 bytes. Where --emit says nothing, no byte may be emitted: an emit is a trap then.";

const EXAMPLE: &str = "\
Example: the program of `asm --help`, on a block that begins with a 7.

  zscli trace program.bin block.bin --emit 10 --registers

     0  ldxb r6, [r2+0]  r6 = 0x7
     1  jne r6, 7, +3
     2  mov r1, r2  r1 = 0x200000000
     3  mov r2, 8  r2 = 0x8
     4  call 1  emit 8 bytes at block + 0  r0 = 0x0
     5  mov r0, 0  r0 = 0x0
     6  exit
  exit 0 7 08000700000000000000";

/// How the command stands on the command line.
pub static WORDS: Words = Words {
    name: NAME,
    about: "Runs a program on one block, step by step",
    long_about: LONG_ABOUT,
    example: EXAMPLE,
    arguments: &[
        PROGRAM_ARGUMENT,
        Argument {
            id: BLOCK,
            long: "",
            short: None,
            takes: Takes::Place,
            help: "The block",
        },
        Argument {
            takes: Takes::Optional("E"),
            ..EMIT_ARGUMENT
        },
        RUN_ARGUMENT,
        Argument {
            id: FUEL,
            long: FUEL,
            short: None,
            takes: Takes::Default("F", "65536"),
            help: "The most steps",
        },
        Argument {
            id: REGISTERS,
            long: REGISTERS,
            short: None,
            takes: Takes::Nothing,
            help: "Print each instruction, and the register that it changed",
        },
    ],
    one_of: &[],
};

/// Runs the program that a file's bytes spell on the block that another's are, and prints a line for each instruction that is
/// executed, and then how the block run ended; without `--registers` the slot of each, and nothing else. A trap is no failure.
/// It makes no file: each has the bytes that it had.
///
/// # Errors
///
/// A word is no number, a file can't be read, is no program or no block, the limit exceeds the block, standard output
/// fails, or memory is wanting.
pub fn trace<'a, F: Files, O: Write>(
    alloc: Global,
    matches: &ArgMatches<'a>,
    files: &mut F,
    out: &mut O,
) -> Result<(), Failure<'a>>
    ensures printed { OnOk result (PrintsTrace matches.now (F.contents files.old) (O.contents out.old) (O.contents out.new)) }
    ensures made { F.made files.new ≡ F.made files.old }
    ensures contents { F.contents files.new ≡ F.contents files.old }
{
    let asked = asked_for(matches)?;
    let program = program_in_file(alloc, required(matches, PROGRAM), files)?;
    let path = required(matches, BLOCK);
    let block = read(path, MOST_OF_BLOCK, files)?;
    let sizes = run_sizes(size_as_block(path, block.len())?, asked.limit)?;
    run_asked(alloc, &program, block.as_slice(), sizes, asked, out)
}

/// What a user asks for.
#[derive(Clone, Copy)]
struct TraceOptions {
    /// The most bytes that may be emitted.
    limit: u32,
    argument: u32,
    fuel: u32,
    /// Each instruction, and the register that it changed.
    registers: bool,
}

fn asked_for<'a>(matches: &ArgMatches<'a>) -> Result<TraceOptions, Failure<'a>>
    ensures limit { IfOk result (λ asked. IsLimit matches.now (first_value (found_of matches.now) (codes "emit")) asked.limit) }
    ensures argument { IfOk result (λ asked. number_of matches.now (codes "argument") ≡ Some asked.argument) }
    ensures fuel { IfOk result (λ asked. number_of matches.now (codes "fuel") ≡ Some asked.fuel) }
    ensures registers { IfOk result (λ asked. asked.registers ≡ is_set matches.now (codes "registers")) }
{
    Ok(TraceOptions {
        limit: limit(matches)?,
        argument: number(matches, ARGUMENT_OPTION)?,
        fuel: number(matches, FUEL)?,
        registers: is_set(matches, REGISTERS),
    })
}

/// Runs the program on the block as is asked for.
fn run_asked<'a, O: Write>(
    alloc: Global,
    program: &Program,
    block: &[u8],
    sizes: RunSizes,
    asked: TraceOptions,
    out: &mut O,
) -> Result<(), Failure<'a>>
    requires block { length block.now ≤ LARGEST_BLOCK }
    ensures { let lines = trace_lines program.now sizes.limit asked.fuel (first_and_only block.now sizes.block asked.argument) in
        OnOk result (asked.registers ≡ false → Appends (O.contents out.old) (O.contents out.new) lines) }
{
    let mut group = vec![in alloc; 0; sizes.limit() as usize]?;
    let context = context_of(sizes.block(), asked.argument);
    let tracer = Tracer {
        alloc,
        program,
        registers: asked.registers,
    };
    tracer.run(block, &context, asked.fuel, group.as_mut_slice(), out)
}

/// The context of the first and only block of a run, at LBA 0.
fn context_of(block: BlockSize, argument: u32) -> [u8; CONTEXT_BYTES]
    ensures { result ≡ context_bytes (record { lba = 0; index = 0; count = 1; block = block; argument = argument }) }
{
    let context = Context {
        lba: 0,
        index: 0,
        count: 1,
        block,
        argument,
    };
    context.encode()
}

/// What prints the steps of a program.
#[derive(Clone, Copy)]
struct Tracer<'p> {
    alloc: Global,
    program: &'p Program,
    registers: bool,
}

impl Tracer<'_> {
    /// Runs the program, and prints its steps and its end.
    fn run<'a, O: Write>(
        &self,
        block: &[u8],
        context: &[u8; CONTEXT_BYTES],
        fuel: u32,
        group: &mut [u8],
        out: &mut O,
    ) -> Result<(), Failure<'a>>
        requires block { length block.now ≤ LARGEST_BLOCK }
        requires group { length group.old ≤ LARGEST_BLOCK }
        ensures { let start = at_start block.now context.now (replicate SCRATCH_BYTES 0) in
            let lines = trace_lines self.now.program.now (length group.old) fuel start in
            OnOk result (self.now.registers ≡ false → Appends (O.contents out.old) (O.contents out.new) lines) }
    {
        let mut scratch = [0; SCRATCH_BYTES];
        let mut stack = [0; STACK_BYTES];
        let mut machine = Machine::new(block, context, &mut scratch, &mut stack);
        // Brings in what holds of each program.
        let _ = self.program.slots();
        self.follow(&mut machine, fuel, group, out)
    }

    /// Takes the steps of a machine.
    fn follow<'a, O: Write>(
        &self,
        machine: &mut Machine<'_>,
        fuel: u32,
        group: &mut [u8],
        out: &mut O,
    ) -> Result<(), Failure<'a>>
        requires at { IsAt self.now.program.now (machine_slot machine.old) }
        requires steps { steps_of machine.old ≡ 0 }
        requires group { length group.old ≤ LARGEST_BLOCK }
        requires used { group_length machine.old ≤ length group.old }
        ensures { let lines = trace_lines self.now.program.now (length group.old) fuel (machine_state machine.old group.old) in
            OnOk result (self.now.registers ≡ false → Appends (O.contents out.old) (O.contents out.new) lines) }
    {
        let limit = group.len();
        for _step in 0..fuel {
            let slot = machine.slot();
            let emitting = Emitting::by(machine);
            match machine.step(self.program, limit, group) {
                Step::Next => self.print_step(slot, machine, emitting, out)?,
                Step::Exit { r0 } => {
                    self.print_step(slot, machine, emitting, out)?;
                    let emitted = &group[..machine.group_length()];
                    return print_exit(self.alloc, r0, machine.steps(), emitted, out);
                }
                Step::Trap { slot, cause } => return self.print_trap(slot, cause, out),
            }
        }
        print(b"fuel\n", out)
    }

    /// Prints a step that was taken: the slot of its instruction and, if that is asked for, what it changed.
    fn print_step<'a, O: Write>(
        &self,
        slot: usize,
        machine: &Machine<'_>,
        emitting: Emitting,
        out: &mut O,
    ) -> Result<(), Failure<'a>>
        ensures { OnOk result (self.now.registers ≡ false → Appends (O.contents out.old) (O.contents out.new) (slot_line slot)) }
    {
        match self.program.at(slot) {
            Some(instruction) if self.registers => {
                let line = step_line(self.alloc, slot, instruction, machine, emitting)?;
                print(line.as_bytes(), out)
            }
            _ => printed(writeln!(out, "{slot}")),
        }
    }

    /// Prints the end of a block run by a trap: the slot of the instruction and the cause; on a line before that, if it is asked for,
    /// the instruction and the cause in words.
    fn print_trap<'a, O: Write>(
        &self,
        slot: usize,
        cause: Cause,
        out: &mut O,
    ) -> Result<(), Failure<'a>>
        ensures { OnOk result (self.now.registers ≡ false → Appends (O.contents out.old) (O.contents out.new) (trap_line slot cause)) }
    {
        let text = self.trap_text(slot, cause)?;
        print(text.as_bytes(), out)
    }

    fn trap_text(&self, slot: usize, cause: Cause) -> Result<String, AllocError>
        ensures { IfOk result (λ text. self.now.registers ≡ false → string_bytes text ≡ trap_line slot cause) }
    {
        let number = cause.number();
        match self.program.at(slot) {
            Some(instruction) if self.registers => {
                let text = instruction_text(self.alloc, instruction)?;
                format!(in self.alloc; "{slot:4}  {text}: {cause}\ntrap {slot} {number}\n")
            }
            _ => {
                let mut text = String::new(self.alloc);
                writeln!(text, "trap {slot} {number}")?;
                Ok(text)
            }
        }
    }
}

/// Prints the end of a block run by EXIT, with what it emitted in hexadecimal.
fn print_exit<'a, O: Write>(
    alloc: Global,
    r0: u64,
    steps: u64,
    group: &[u8],
    out: &mut O,
) -> Result<(), Failure<'a>>
    ensures { OnOk result (Appends (O.contents out.old) (O.contents out.new) (exit_line r0 steps group.now)) }
{
    let text = exit_text(alloc, r0, steps, group)?;
    print(text.as_bytes(), out)
}

fn exit_text(alloc: Global, r0: u64, steps: u64, group: &[u8]) -> Result<String, AllocError>
    ensures { IfOk result (λ text. string_bytes text ≡ exit_line r0 steps group.now) }
{
    let group = group_text(alloc, group)?;
    let mut text = String::new(alloc);
    write!(text, "exit {r0} {steps} ")?;
    text.push_str(group.as_str())?;
    text.push_str("\n")?;
    Ok(text)
}

/// What was emitted, in hexadecimal; `-` for nothing.
fn group_text(alloc: Global, group: &[u8]) -> Result<String, AllocError>
    ensures { IfOk result (λ text. string_bytes text ≡ group_text group.now) }
{
    if group.is_empty() {
        String::from_str(alloc, "-")
    } else {
        hex::encode(alloc, group)
    }
}
