//! What is noted of a program beside it, for people and tools: what it was made for, and its guards.

use crate::guard_lines::unmet;
use crate::making::Asked;
use crate::source::{Source, origin_of_slot, symbol_name};
use ebpf_gather::Origin;
use ebpf_link::{Linked, LinkedGuard};
use link_notes::{GuardNote, LinkNotes, UNKNOWN_PLACE, print, program_sum};
use std::alloc::{AllocError, Global};

/// What is noted of a guard.
#[derive(Drop)]
struct Noted {
    place: String,
    text: String,
}

/// A word of printable characters, without a blank, in place of a name.
fn push_word(into: &mut String, name: &str) -> Result<(), AllocError> {
    for character in name.chars() {
        into.push(if character > ' ' && character <= '~' {
            character
        } else {
            '_'
        })?;
    }
    Ok(())
}

/// The file and the line of a slot.
fn place_of(
    alloc: Global,
    source: &Source<'_, '_>,
    origin: Option<Origin>,
) -> Result<String, AllocError> {
    let Some((file, line)) = source.line_of(origin) else {
        return String::from_str(alloc, UNKNOWN_PLACE);
    };
    let mut place = String::new(alloc);
    push_word(&mut place, file)?;
    write!(place, ":{line}")?;
    Ok(place)
}

/// In which function a guard is, and what doesn't hold where it ends a run.
fn text_of(
    alloc: Global,
    source: &Source<'_, '_>,
    origin: Option<Origin>,
    guard: &LinkedGuard,
) -> Result<String, AllocError> {
    let mut text = String::new(alloc);
    if let Some(origin) = origin {
        text.push_str("in ")?;
        push_word(&mut text, symbol_name(source.object, origin.symbol))?;
        if source.line_of(Some(origin)).is_none() {
            let slot = origin.slot;
            write!(text, ", slot {slot}")?;
        }
        text.push_str(": ")?;
    }
    text.push_str(unmet(alloc, guard.place.need)?.as_str())?;
    Ok(text)
}

/// What is noted of each guard.
fn all_noted(
    alloc: Global,
    source: &Source<'_, '_>,
    linked: &Linked,
    origins: &[Option<Origin>],
) -> Result<Vec<Noted>, AllocError> {
    let mut noted = Vec::new(alloc);
    for guard in &linked.guards {
        let origin = origin_of_slot(origins, guard.place.slot);
        noted.push(Noted {
            place: place_of(alloc, source, origin)?,
            text: text_of(alloc, source, origin, guard)?,
        })?;
    }
    Ok(noted)
}

/// A number that is small.
fn small(number: usize) -> u32 {
    number.min(0xffff) as u32
}

/// What is noted of a program of these bytes.
pub(crate) fn notes_of(
    alloc: Global,
    source: &Source<'_, '_>,
    linked: &Linked,
    program: &[u8],
    origins: &[Option<Origin>],
    asked: &Asked,
) -> Result<String, AllocError> {
    let noted = all_noted(alloc, source, linked, origins)?;
    let mut guards = Vec::new(alloc);
    for (at, guard) in linked.guards.iter().enumerate() {
        if let Some(found) = noted.get(at) {
            guards.push(GuardNote {
                number: small(at.saturating_add(1)),
                slot: small(guard.slot),
                place: found.place.as_str(),
                text: found.text.as_str(),
            })?;
        }
    }
    let notes = LinkNotes {
        sum: Some(program_sum(program)),
        block: asked.target.block.bytes(),
        emit: asked.emit,
        profile: asked.profile,
        guard_at: match linked.mark {
            Some(at) => Some(small(at)),
            None => None,
        },
        guards,
    };
    print(alloc, &notes)
}
