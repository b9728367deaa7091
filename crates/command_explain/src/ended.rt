//! Where the runs of a program ended at a guard.

ghost use Rattle.std.specs.Prelude.{◌≡◌, find};
ghost use Rattle.command_explain.specs.steps.Ended.{ended_guard, is_guard_of, may_be_result};

use crate::completion_words::Answered;
use link_notes::{Ended, GuardNote, LinkNotes, UNKNOWN_PLACE, ended_at};
use nvme_entry::Command;
use std::alloc::AllocError;

/// The bytes of a result: all of a run's scratch.
const RESULT_BYTES: usize = 1024;

/// The guard that ended a block's run, and what is known of it.
#[derive(Clone, Copy)]
pub(crate) struct EndedAt<'a> {
    ended: Ended,
    guard: GuardNote<'a>,
}

/// The guard of a program with these notes that has ended a run, as the data of a completion says; `None` where it says so of none, or
/// where it isn't the answer of a result.
pub(crate) fn ended_guard<'a>(
    notes: &LinkNotes<'a>,
    answered: &Answered<'_>,
    scratch: &[u8],
) -> Option<EndedAt<'a>>
    ensures { result ≡ ended_guard (may_be_result answered.now) notes.now scratch.now }
{
    if scratch.len() != RESULT_BYTES || !may_be_result(answered) {
        return None;
    }
    let ended = ended_at(scratch, notes.guard_at?)?;
    let guard = guard_of(notes, ended)?;
    Some(EndedAt { ended, guard })
}

/// Can a completion be that of a result, as far as its command is known?
fn may_be_result(answered: &Answered<'_>) -> bool
    ensures { result ≡ may_be_result answered.now }
{
    match answered {
        Answered::Taken(taken) => matches!(taken.command, Some(Command::Result(_))),
        Answered::Unnamed | Answered::NotThere(_) => true,
    }
}

/// The guard with the number and the slot that a run left in its scratch.
fn guard_of<'a>(notes: &LinkNotes<'a>, ended: Ended) -> Option<GuardNote<'a>>
    ensures { result ≡ find (is_guard_of ended) notes.now.guards.items }
{
    notes
        .guards
        .iter()
        .find(|guard| guard.number == ended.number && guard.slot == ended.slot)
        .copied()
}

/// Adds a line that says at which guard a block's run ended, where one has ended it.
pub(crate) fn push_ended(at: &Option<EndedAt<'_>>, out: &mut String) -> Result<(), AllocError> {
    let Some(at) = at else {
        return Ok(());
    };
    let block = at.ended.block;
    let slot = at.ended.slot;
    let place = at.guard.place;
    let text = at.guard.text;
    if place == UNKNOWN_PLACE {
        writeln!(
            out,
            "  block {block} ended at the guard of slot {slot}: {text}"
        )
    } else {
        writeln!(out, "  block {block} ended at the guard of {place} {text}")
    }
}

/// Adds the same as fields of a JSON object.
pub(crate) fn push_ended_fields(
    at: &Option<EndedAt<'_>>,
    out: &mut String,
) -> Result<(), AllocError> {
    let Some(at) = at else {
        return Ok(());
    };
    let block = at.ended.block;
    let number = at.guard.number;
    let slot = at.guard.slot;
    write!(
        out,
        ",\"ended_block\":{block},\"guard\":{number},\"guard_slot\":{slot},\"place\":\""
    )?;
    push_escaped(at.guard.place, out)?;
    out.push_str("\",\"text\":\"")?;
    push_escaped(at.guard.text, out)?;
    out.push_str("\"")
}

/// Adds a text of ASCII as it stands within the quotation marks of a JSON string.
fn push_escaped(text: &str, out: &mut String) -> Result<(), AllocError> {
    for byte in text.bytes() {
        match byte {
            b'"' => out.push_str("\\\"")?,
            b'\\' => out.push_str("\\\\")?,
            b' '..=b'~' => out.push(char::from(byte))?,
            _ => write!(out, "\\u{byte:04x}")?,
        }
    }
    Ok(())
}
