//! The notes that `link` writes beside a program: what it was linked for, and its guards.

ghost use Rattle.std.specs.Prelude.{◌≡◌, ◌++◌, IfOk, IfSome, IsSome, OnOk, option_copied, string_bytes};
ghost use Rattle.link_notes.specs.Notes.{told_notes};
ghost use Rattle.link_notes.specs.Reading.{fault_told};
ghost use Rattle.command_files.specs.Linked.{Tells, TellsOrIsNone, emit_words, fits, is_of, is_others, notes_name, numbers_line, others_line, told_line};
ghost use Rattle.command_files.specs.Made.{AreAsTold};
ghost use Rattle.command_files.specs.Shown.{shown};

use crate::files::{FileFault, Files};
use crate::limits::MOST_OF_TEXT;
use crate::shown::Shown;
use link_notes::{LinkNotes, NotesFault, parse, program_sum};
use std::alloc::{AllocError, Global};

/// The numbers that a program is to be run with.
#[derive(Clone, Copy)]
pub struct GivenNumbers {
    /// The bytes of a block, where they are known.
    pub block: Option<u32>,
    /// The most bytes that it may emit for a block.
    pub emit: u32,
    /// The profile by which it is judged, where this is known.
    pub profile: Option<u32>,
}

impl GivenNumbers {
    /// Was the program linked for these numbers, as far as they are known?
    fn fits(self, notes: &LinkNotes<'_>) -> bool
        ensures { result ≡ fits self (told_notes notes.now) }
    {
        self.block.unwrap_or(notes.block) == notes.block
            && notes.emit.unwrap_or(self.emit) == self.emit
            && self.profile.unwrap_or(notes.profile) == notes.profile
    }
}

/// The name of the file with the notes of the program in a file with this name.
///
/// # Errors
///
/// Want of memory.
pub fn notes_path(alloc: Global, program: &str) -> Result<String, AllocError>
    ensures { IfOk result (λ path. string_bytes path ≡ notes_name program.now) }
{
    format!(in alloc; "{program}.linked")
}

/// Are notes of the program with these bytes, as far as they tell that?
fn is_of(notes: &LinkNotes<'_>, program: &[u8]) -> bool
    ensures { result ≡ is_of program.now (told_notes notes.now) }
{
    let sum = program_sum(program);
    notes.sum.unwrap_or(sum) == sum
}

/// Are notes known to be another program's than that with these bytes, if they are there?
pub fn is_others(notes: &LinkNotes<'_>, program: Option<&[u8]>) -> bool
    ensures { result ≡ is_others (told_notes notes.now) (option_copied program.entry) }
{
    match program {
        Some(program) => !is_of(notes, program),
        None => false,
    }
}

/// The bytes of a file, of which it has at most so many times 2^20; `None` where it can't be read. No file changes.
///
/// # Errors
///
/// Want of memory.
pub fn read_or_none<F: Files>(
    path: &str,
    mebibytes: u32,
    files: &mut F,
) -> Result<Option<Vec<u8>>, AllocError>
    ensures made { F.made files.new ≡ F.made files.old }
    ensures contents { F.contents files.new ≡ F.contents files.old }
    ensures bytes { IfOk result (λ found. IfSome found (λ file. AreAsTold (F.contents files.old path.now) file.items)) }
{
    match files.read(path, mebibytes) {
        Ok(bytes) => Ok(Some(bytes)),
        Err(FileFault::Failed(_)) => Ok(None),
        Err(FileFault::Memory) => Err(AllocError),
    }
}

/// A line that says that the notes beside a file aren't those of the program that it has, of these bytes, or for which numbers that was
/// linked, where other ones are given, or what is wrong with the notes; no line where there are none. No file changes.
///
/// # Errors
///
/// Want of memory.
pub fn linked_line<F: Files>(
    alloc: Global,
    program: &str,
    bytes: &[u8],
    given: GivenNumbers,
    files: &mut F,
) -> Result<String, AllocError>
    ensures made { F.made files.new ≡ F.made files.old }
    ensures contents { F.contents files.new ≡ F.contents files.old }
    ensures line { IfOk result (λ line. let path = notes_name program.now in
        IfSome (F.contents files.old path) (λ text. TellsOrIsNone (shown path) (shown program.now) bytes.now given text (string_bytes line))) }
{
    let path = notes_path(alloc, program)?;
    match read_or_none(path.as_str(), MOST_OF_TEXT, files)? {
        Some(text) => line_of(alloc, path.as_str(), program, bytes, given, text.as_slice()),
        None => Ok(String::new(alloc)),
    }
}

/// The line that the notes of a text, in a file with this name, give of a program.
fn line_of(
    alloc: Global,
    path: &str,
    program: &str,
    bytes: &[u8],
    given: GivenNumbers,
    text: &[u8],
) -> Result<String, AllocError>
    ensures { IfOk result (λ line. Tells (shown path.now) (shown program.now) bytes.now given text.now (string_bytes line)) }
{
    match parse(alloc, text) {
        Ok(notes) => line_told(alloc, path, program, bytes, given, &notes),
        Err(fault) => line_of_damage(alloc, path, fault),
    }
}

/// The line that says what is wrong with the notes in a file with this name.
fn line_of_damage(alloc: Global, path: &str, fault: NotesFault) -> Result<String, AllocError>
    ensures { OnOk result (IsSome (fault_told fault)) }
{
    let mut line = String::new(alloc);
    push_damage(path, fault, &mut line)?;
    Ok(line)
}

/// The line that whole notes give.
fn line_told(
    alloc: Global,
    path: &str,
    program: &str,
    bytes: &[u8],
    given: GivenNumbers,
    notes: &LinkNotes<'_>,
) -> Result<String, AllocError>
    ensures { IfOk result (λ line. string_bytes line ≡ told_line (shown path.now) (shown program.now) bytes.now given (told_notes notes.now)) }
{
    let mut line = String::new(alloc);
    push_told(path, program, bytes, given, notes, &mut line)?;
    Ok(line)
}

/// Adds the line that whole notes give.
fn push_told(
    path: &str,
    program: &str,
    bytes: &[u8],
    given: GivenNumbers,
    notes: &LinkNotes<'_>,
    line: &mut String,
) -> Result<(), AllocError>
    ensures { OnOk result (string_bytes line.new
        ≡ string_bytes line.old ++ told_line (shown path.now) (shown program.now) bytes.now given (told_notes notes.now)) }
{
    if !is_of(notes, bytes) {
        push_others(path, line)
    } else if !given.fits(notes) {
        push_numbers(program, notes, line)
    } else {
        Ok(())
    }
}

/// Adds a line that says that the notes in a file with this name are another program's.
///
/// # Errors
///
/// Want of memory.
pub fn push_others(path: &str, line: &mut String) -> Result<(), AllocError>
    ensures { OnOk result (string_bytes line.new ≡ string_bytes line.old ++ others_line (shown path.now)) }
{
    writeln!(line, "{} has the notes of another program", Shown(path))
}

/// Adds a line that says for which numbers a program was linked.
fn push_numbers(program: &str, notes: &LinkNotes<'_>, line: &mut String) -> Result<(), AllocError>
    ensures { OnOk result (string_bytes line.new
        ≡ string_bytes line.old ++ numbers_line (shown program.now) (told_notes notes.now)) }
{
    let program = Shown(program);
    let block = notes.block;
    let profile = notes.profile;
    write!(line, "{program} was linked for --block {block}")?;
    push_emit(notes.emit, line)?;
    writeln!(line, " and --profile {profile}")
}

/// Adds the limit that a program was linked for, if it was for one.
fn push_emit(emit: Option<u32>, line: &mut String) -> Result<(), AllocError>
    ensures { OnOk result (string_bytes line.new ≡ string_bytes line.old ++ emit_words emit) }
{
    match emit {
        Some(emit) => write!(line, ", --emit {emit}"),
        None => Ok(()),
    }
}

/// Adds a line that says what is wrong with the notes in a file with this name.
///
/// # Errors
///
/// Want of memory.
pub fn push_damage(path: &str, fault: NotesFault, line: &mut String) -> Result<(), AllocError>
    ensures { OnOk result (IsSome (fault_told fault)) }
{
    match fault {
        NotesFault::Memory => Err(AllocError),
        NotesFault::Line { .. } => {
            let path = Shown(path);
            writeln!(line, "{path}, {fault}")
        }
    }
}
