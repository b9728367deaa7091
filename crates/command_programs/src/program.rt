//! Programs in files.

ghost use Rattle.std.specs.Prelude.{◌≡◌, ◌≢◌, Err, IfErr, IfOk};
ghost use Rattle.command_programs.specs.Asked.{Spell};
ghost use Rattle.command_programs.specs.UserTold.{IsNoProgram};
ghost use Rattle.command_programs.specs.steps.Told.{told_of_program};

use command_files::{Failure, Files, MOST_OF_PROGRAM, read};
use ebpf_decode::{DecodeFault, ProgramRefusal, decode};
use instruction_set::Program;
use std::alloc::Global;

/// A program, and the bytes of its file.
#[derive(Drop)]
pub(crate) struct ProgramFile {
    pub(crate) program: Program,
    pub(crate) bytes: Vec<u8>,
}

/// The program that the bytes of a file spell. Each file has the bytes that it had.
pub(crate) fn program_in_file<'a, F: Files>(
    alloc: Global,
    path: &'a str,
    files: &mut F,
) -> Result<Program, Failure<'a>>
    ensures made { F.made files.new ≡ F.made files.old }
    ensures contents { F.contents files.new ≡ F.contents files.old }
    ensures spelled { IfOk result (λ program. Spell (F.contents files.old path.now) program) }
    ensures failed { IfErr result (IsNoProgram (F.contents files.old path.now) path.now) }
    ensures not_judged { result ≢ Err Failure.NotAccepted }
{
    match program_file(alloc, path, files) {
        Ok(ProgramFile { program, .. }) => Ok(program),
        Err(failure) => Err(failure),
    }
}

/// The same with the bytes.
pub(crate) fn program_file<'a, F: Files>(
    alloc: Global,
    path: &'a str,
    files: &mut F,
) -> Result<ProgramFile, Failure<'a>>
    ensures made { F.made files.new ≡ F.made files.old }
    ensures contents { F.contents files.new ≡ F.contents files.old }
    ensures spelled { IfOk result (λ file. Spell (F.contents files.old path.now) file.program) }
    ensures failed { IfErr result (IsNoProgram (F.contents files.old path.now) path.now) }
    ensures not_judged { result ≢ Err Failure.NotAccepted }
{
    let bytes = read(path, MOST_OF_PROGRAM, files)?;
    match decode(alloc, bytes.as_slice()) {
        Ok(program) => Ok(ProgramFile { program, bytes }),
        Err(fault) => Err(refused(path, bytes.as_slice(), fault)),
    }
}

/// What the user is told of a file of these bytes that is no program: its name, and the fault with its slot.
fn refused<'a>(path: &'a str, bytes: &[u8], fault: DecodeFault) -> Failure<'a>
    ensures told { result ≡ told_of_program path.entry bytes.now fault }
    ensures not_judged { result ≢ Failure.NotAccepted }
{
    match fault {
        DecodeFault::Fault(fault) => Failure::ProgramRefused {
            path,
            refusal: ProgramRefusal::of(fault, bytes),
        },
        DecodeFault::Memory => Failure::NoMemory,
    }
}
