//! How many bytes a base has, by the first bytes of a file.

ghost use Rattle.durable_machine.specs.Bases.{NeedsBytes};
ghost use Rattle.image_base.specs.Base.{IsBaseOf};
ghost use Rattle.image_base.specs.Needed.{NeedsEvent, NeedsEvents};

use crate::front::{FRONT, LABEL, MAGIC, number_in};
use crate::sections::SECTIONS;

/// How many bytes stand before a text or a section: a 1, and its length.
const HEAD: usize = 9;

/// How many bytes a base at the front of a file has at least, by the file's first bytes; more than these, where it isn't all among them.
/// Once all lengths in it are among them, it is the base's length.
pub fn base_length(front: &[u8]) -> usize
    ensures { NeedsBytes IsBaseOf result front.now }
{
    if front.len() < FRONT {
        return FRONT;
    }
    let at = if front[MAGIC.len()] == LABEL {
        FRONT
    } else {
        MAGIC.len()
    };
    at.saturating_add(events_length(&front[at..], SECTIONS + 1))
}

/// The same of so many events at the front of bytes, as which a text and sections are spelled.
fn events_length(bytes: &[u8], count: usize) -> usize
    ensures { NeedsEvents count result bytes.now }
{
    let mut at = 0;
    for done in 0..count {
        let needed = event_length(&bytes[at..]);
        if needed > bytes.len() - at {
            return at.saturating_add(needed);
        }
        at += needed;
    }
    at
}

/// The same of one event.
fn event_length(bytes: &[u8]) -> usize
    ensures { NeedsEvent result bytes.now }
{
    let Some((_, behind)) = bytes.split_first() else {
        return HEAD;
    };
    match number_in(behind) {
        Some((length, _)) => HEAD.saturating_add(length as usize),
        None => HEAD,
    }
}
