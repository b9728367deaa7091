//! Notes read from their text.

ghost use Rattle.std.specs.Prelude.{◌≡◌, map, option_copied, option_map, OnOk};
ghost use Rattle.common_definitions.specs.Gives.{Gives};
ghost use Rattle.link_notes.specs.Notes.{told_guard, told_notes};
ghost use Rattle.link_notes.specs.Reading.{fault_told, guard_of, guards_left, heading_of, is_heading, needed, notes_in};
ghost use Rattle.link_notes.specs.Unread.{left_of, past};
ghost use Rattle.link_notes.specs.declared.reading.NotesFault.TheVariants.{Memory};

use crate::notes::{GuardNote, LinkNotes};
use crate::unread::Unread;
use crate::words::{ascii, number_before};
use std::alloc::{AllocFailed, Global};
use std::fmt;
use text_lines::cut;
use thiserror::Error;

/// Why a text is no notes.
#[derive(Clone, Copy, Debug, PartialEq, Eq, Error)]
pub enum NotesFault {
    /// A line isn't the one that is wanted there, or is missing.
    #[error("line {number}: {wanted} is expected")]
    Line {
        /// Its number, the first being 1.
        number: usize,
        /// The line that is wanted.
        wanted: Wanted,
    },
    /// No memory for the guards.
    #[error("no memory")]
    Memory,
}

/// A line of notes.
#[derive(Clone, Copy, Debug, PartialEq, Eq)]
pub enum Wanted {
    /// The first.
    Heading,
    /// The bytes of a block.
    Block,
    /// The profile.
    Profile,
    /// A guard.
    Guard,
}

impl fmt::Display for Wanted {
    fn fmt<W: fmt::Write>(&self, f: &mut fmt::Formatter<W>) -> fmt::Result {
        f.write_str(match self {
            Wanted::Heading => "`linked 1`",
            Wanted::Block => "`block NUMBER`",
            Wanted::Profile => "`profile NUMBER`",
            Wanted::Guard => "`guard NUMBER slot SLOT PLACE TEXT`",
        })
    }
}

/// The notes of a text.
///
/// # Errors
///
/// The lowest line that is wrong, or want of memory before one was found.
pub fn parse<'a>(alloc: Global, text: &'a [u8]) -> Result<LinkNotes<'a>, NotesFault>
    ensures { Gives fault_told told_notes result (notes_in text.now) }
{
    let mut unread = Unread::new(text);
    heading(&mut unread)?;
    let sum = unread.number(b"sum ");
    let block = required(&mut unread, b"block ", Wanted::Block)?;
    let emit = unread.number(b"emit ");
    let profile = required(&mut unread, b"profile ", Wanted::Profile)?;
    let guard_at = unread.number(b"guard-at ");
    let guards = guards(alloc, unread)?;
    Ok(LinkNotes {
        sum,
        block,
        emit,
        profile,
        guard_at,
        guards,
    })
}

/// Reads the heading.
fn heading(unread: &mut Unread<'_>) -> Result<(), NotesFault>
    ensures { Gives fault_told (λ _. left_of unread.new) result (heading_of (left_of unread.old)) }
{
    let number = unread.number;
    if is_heading(unread.line()) {
        Ok(())
    } else {
        Err(NotesFault::Line {
            number,
            wanted: Wanted::Heading,
        })
    }
}

/// Is there a line, and is it the heading?
fn is_heading(line: Option<&[u8]>) -> bool
    ensures { result ≡ is_heading (option_copied line.entry) }
{
    match line {
        Some(line) => line == b"linked 1".as_slice(),
        None => false,
    }
}

/// The number behind a key, in the first line.
fn required(unread: &mut Unread<'_>, key: &[u8], wanted: Wanted) -> Result<u32, NotesFault>
    ensures number { Gives fault_told (λ number. number) result (needed key.now wanted (left_of unread.old)) }
    ensures rest { OnOk result (left_of unread.new ≡ past (left_of unread.old)) }
{
    let number = unread.number;
    unread
        .number(key)
        .ok_or(NotesFault::Line { number, wanted })
}

/// The guards of all lines.
#[tactic(auto, using(crate::proofs::GuardLemmas::guard_read, crate::proofs::GuardLemmas::guard_refused, crate::proofs::GuardLemmas::guards_read, crate::proofs::GuardLemmas::guards_begin))]
fn guards<'a>(alloc: Global, unread: Unread<'a>) -> Result<Vec<GuardNote<'a>>, NotesFault>
    ensures { Gives fault_told (λ guards. map told_guard guards.items) result (guards_left (left_of unread.entry)) }
{
    let mut guards = Vec::new(alloc);
    let mut rest = unread;
    loop {
        let number = rest.number;
        let Some(line) = rest.line() else {
            return Ok(guards);
        };
        let Some(guard) = guard_of(line) else {
            return Err(NotesFault::Line {
                number,
                wanted: Wanted::Guard,
            });
        };
        guards.push(guard)?;
    }
}

/// The guard of a line.
fn guard_of(line: &[u8]) -> Option<GuardNote<'_>>
    ensures { option_map told_guard result ≡ guard_of line.now }
{
    let (number, behind) = number_before(b"guard ", line)?;
    let (slot, behind) = number_before(b"slot ", behind)?;
    let (place, text) = cut(behind, b' ')?;
    Some(GuardNote {
        number,
        slot,
        place: ascii(place)?,
        text: ascii(text)?,
    })
}

impl<T: Drop> From<AllocFailed<T>> for NotesFault {
    ghost from_gives = { λ _ error. error ≡ Memory };

    fn from(_error: AllocFailed<T>) -> NotesFault {
        NotesFault::Memory
    }
}
