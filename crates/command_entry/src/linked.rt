//! What the notes beside a program say of a Load.

ghost use Rattle.std.specs.Prelude.{◌≡◌};

use crate::kinds::Kind;
use crate::words::EntryWords;
use command_files::{Files, GivenNumbers, linked_line};
use std::alloc::{AllocError, Global};
use std::io::Write;

/// The profile by which a Load judges.
const LOAD_PROFILE: u32 = 2;

/// The line that says that the notes beside the program of a Load, of these bytes, are another one's, or for which numbers it was linked,
/// where other ones are given. No file changes.
pub(crate) fn linked_of<F: Files>(
    alloc: Global,
    words: &EntryWords<'_>,
    program: &[u8],
    files: &mut F,
) -> Result<String, AllocError>
    ensures made { F.made files.new ≡ F.made files.old }
    ensures contents { F.contents files.new ≡ F.contents files.old }
{
    let given = GivenNumbers {
        block: None,
        emit: words.numbers.limit,
        profile: Some(LOAD_PROFILE),
    };
    match words.kind {
        Kind::Load => linked_line(alloc, words.path, program, given, files),
        _ => Ok(String::new(alloc)),
    }
}

/// Prints a line, if there is one. Where it can't be printed, nobody can be told.
pub(crate) fn note<E: Write>(line: &str, err: &mut E) {
    if !line.is_empty() {
        let _ = err.write_all(line.as_bytes());
    }
}
