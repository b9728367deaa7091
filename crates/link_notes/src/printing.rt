//! Notes as text.

ghost use Rattle.std.specs.Prelude.{◌≡◌, [], ◌∷◌, ◌++◌, IfOk, OnOk, string_bytes};
ghost use Rattle.link_notes.specs.Notes.{told_guard, told_notes};
ghost use Rattle.link_notes.specs.Text.{guard_line, notes_text, number_line, optional_lines, unlines};

use crate::notes::{GuardNote, LinkNotes};
use std::alloc::{AllocError, Global};

/// The text of notes. Where each place and each text is printable ASCII, and no place has a space, [`crate::parse`] reads
/// the same notes from it.
///
/// # Errors
///
/// No memory for the text.
pub fn print(alloc: Global, notes: &LinkNotes<'_>) -> Result<String, AllocError>
    ensures { IfOk result (λ text. string_bytes text ≡ notes_text (told_notes notes.now)) }
{
    let mut text = String::from_str(alloc, "linked 1\n")?;
    push_optional("sum ", notes.sum, &mut text)?;
    push_number("block ", notes.block, &mut text)?;
    push_optional("emit ", notes.emit, &mut text)?;
    push_number("profile ", notes.profile, &mut text)?;
    push_optional("guard-at ", notes.guard_at, &mut text)?;
    for guard in &notes.guards {
        push_guard(guard, &mut text)?;
    }
    Ok(text)
}

/// Adds the line of a key and a number.
fn push_number(key: &str, number: u32, text: &mut String) -> Result<(), AllocError>
    ensures { OnOk result (string_bytes text.new ≡ string_bytes text.old ++ unlines (number_line key.now number ∷ [])) }
{
    writeln!(text, "{key}{number}")
}

/// Adds this line, where there is a number.
fn push_optional(key: &str, number: Option<u32>, text: &mut String) -> Result<(), AllocError>
    ensures { OnOk result (string_bytes text.new ≡ string_bytes text.old ++ unlines (optional_lines key.now number)) }
{
    match number {
        Some(number) => push_number(key, number, text),
        None => Ok(()),
    }
}

/// Adds the line of a guard.
fn push_guard(guard: &GuardNote<'_>, text: &mut String) -> Result<(), AllocError>
    ensures { OnOk result (string_bytes text.new ≡ string_bytes text.old ++ unlines (guard_line (told_guard guard.now) ∷ [])) }
{
    let number = guard.number;
    let slot = guard.slot;
    let place = guard.place;
    let meaning = guard.text;
    writeln!(text, "guard {number} slot {slot} {place} {meaning}")
}
