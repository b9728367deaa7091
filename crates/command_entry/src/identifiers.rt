//! The queue and the command identifier of an entry.

ghost use Rattle.std.specs.Prelude.{◌≡◌, ◌<◌, ◌^◌, ℕ, true, false, max, IfSome};
ghost use Rattle.std.specs.List.{filter_map, reduce};
ghost use Rattle.command_entry.specs.Identifiers.{IsNextIdentifier, identifier_in, identifiers, is_used};

use device_events::Event;
use nvme_entry::Entry;

/// What a completion repeats of its submission.
#[derive(Clone, Copy)]
pub(crate) struct Identifiers {
    /// The submission queue.
    pub(crate) queue: u16,
    /// The command identifier, where the words name one.
    pub(crate) cid: Option<u16>,
}

impl Identifiers {
    /// Those of another entry for the same words: the same queue, and no identifier that the words name.
    pub(crate) fn behind(self) -> Identifiers {
        Identifiers {
            queue: self.queue,
            cid: None,
        }
    }
}

/// The command identifier that counts on from those that submissions to a queue have: one more than the highest, or behind 65535 the
/// lowest that none has; `None` where there is none such. Where there are no submissions it is 1.
#[tactic(auto, using(crate::proofs::Highest::free_behind, crate::proofs::Highest::free_begin))]
pub(crate) fn next_identifier(queue: u16, events: &[Event]) -> Option<u16>
    ensures next { IsNextIdentifier (identifiers queue events.now) result }
    ensures free { IfSome result (λ cid. is_used cid (identifiers queue events.now) ≡ false) }
{
    match highest_identifier(queue, events) {
        None => Some(1),
        Some(u16::MAX) => lowest_free(queue, events),
        Some(highest) => Some(highest + 1),
    }
}

/// The highest command identifier that a submission to a queue has.
fn highest_identifier(queue: u16, events: &[Event]) -> Option<u16>
    ensures { result ≡ reduce max (identifiers queue events.now) }
{
    events
        .iter()
        .filter_map(|event| identifier_in(queue, event))
        .max()
}

/// The lowest command identifier that no submission to a queue has.
fn lowest_free(queue: u16, events: &[Event]) -> Option<u16>
    ensures free { IfSome result (λ cid. is_used cid (identifiers queue events.now) ≡ false) }
    ensures lowest { IfSome result (λ cid. (lower : ℕ) → lower < cid → is_used lower (identifiers queue events.now) ≡ true) }
    ensures none { result ≡ None → (number : ℕ) → number < 2 ^ 16 → is_used number (identifiers queue events.now) ≡ true }
{
    for number in 0..0x1_0000u32 {
        let cid = number as u16;
        if !is_used(cid, queue, events) {
            return Some(cid);
        }
    }
    None
}

/// Has a submission to a queue this command identifier?
fn is_used(cid: u16, queue: u16, events: &[Event]) -> bool
    ensures { result ≡ is_used cid (identifiers queue events.now) }
{
    events
        .iter()
        .filter_map(|event| identifier_in(queue, event))
        .any(|used| used == cid)
}

/// The command identifier of an event that is a submission to this queue.
fn identifier_in(queue: u16, event: &Event) -> Option<u16>
    ensures { result ≡ identifier_in queue event.now }
{
    match event {
        Event::Submit {
            queue: own,
            entry,
            ..
        } if *own == queue => Some(Entry::cid(entry)),
        _ => None,
    }
}
