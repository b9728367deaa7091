//! The events and batches that bytes stand for.

ghost use Rattle.std.specs.Prelude.{◌≡◌, ◌⊎◌, ◌<◌, ◌≤◌, ◌^◌, ℕ, List, length, MatchOption, MatchBool};
ghost use Rattle.durable_machine.specs.Events.{BeginsNoEvent, BeginsEvent, AreEvents};
ghost use Rattle.durable_machine.specs.Seals.{HasSealLength, IsSealOf};
ghost use Rattle.durable_machine.specs.Journal.{BeginsClosed, BeginsNoBatch, GivesBatch, IsEnd, payload_length};

use crate::gates::closed_sector;
use crate::seal::{SEAL, SEALED, seal_bytes};
use crc32c::Sums;
use stored_file::SECTOR;

/// Before an event.
const EVENT: u8 = 1;

/// After the events of a batch.
const CLOSED: u8 = 0;

/// The event that stands whole at the front of the bytes, and what stands after it.
pub fn first_event(bytes: &[u8]) -> Option<(&[u8], &[u8])>
    ensures { MatchOption result (BeginsNoEvent bytes.now) (λ parts. BeginsEvent parts.0.now parts.1.now bytes.now) }
{
    let (gate, behind) = bytes.split_first()?;
    if *gate != EVENT {
        return None;
    }
    let Some((number, behind)) = behind.split_first_chunk::<8>() else {
        return None;
    };
    let length = usize::try_from(u64::from_le_bytes(*number)).ok()?;
    if behind.len() < length {
        return None;
    }
    Some(behind.split_at(length))
}

/// The batch that stands whole and sealed, after a gate that isn't closed, at the front of bytes that begin at this offset of a file:
/// where its events begin in them, these, and what stands after it.
pub fn first_batch<'a>(
    sums: &Sums,
    at: usize,
    bytes: &'a [u8],
) -> Option<(usize, &'a [u8], &'a [u8])>
    ensures { MatchOption result (BeginsNoBatch at bytes.now) (λ parts. GivesBatch at parts.0 parts.1.now parts.2.now bytes.now) }
{
    if bytes.len() < SECTOR || begins_closed(bytes) {
        return None;
    }
    let payload = &bytes[SECTOR..];
    let room = seal_length(payload);
    if payload.len() < room {
        return None;
    }
    let (seal, body) = payload.split_at(room);
    let length = events_length(body);
    let (events, tail) = body.split_at(length);
    if !is_seal(sums, at, events, seal) {
        return None;
    }
    let whole = whole_payload(room + length);
    if payload.len() < whole || tail[0] != CLOSED {
        return None;
    }
    Some((SECTOR + room, events, &payload[whole..]))
}

/// Whether a crash may have left these bytes after the last batch. Where no batch stands whole at their front, they are
/// damage otherwise: bytes that have changed on the disk, or are missing there, since they were written.
pub fn is_end(bytes: &[u8]) -> bool
    ensures { MatchBool result (IsEnd bytes.now) ((BeginsClosed bytes.now → ⊥) × (SECTOR < length bytes.now)) }
{
    bytes.len() <= SECTOR || begins_closed(bytes)
}

/// Whether a closed gate stands at the front of the bytes.
pub(crate) fn begins_closed(bytes: &[u8]) -> bool
    ensures { MatchBool result (BeginsClosed bytes.now) (BeginsClosed bytes.now → ⊥) }
{
    match bytes.split_first_chunk::<4096>() {
        Some((sector, _)) => *sector == closed_sector(),
        None => false,
    }
}

/// How many bytes the seal takes at the front of a payload: none in an earlier version of the format, where an event stands there.
fn seal_length(payload: &[u8]) -> usize
    ensures { HasSealLength result payload.now }
{
    let Some((tag, _)) = payload.split_first() else {
        return 0;
    };
    if *tag == SEALED { SEAL } else { 0 }
}

/// Whether these bytes seal events whose gate is at this offset. In an earlier version of the format no bytes do, if there is an event.
fn is_seal(sums: &Sums, at: usize, events: &[u8], seal: &[u8]) -> bool
    requires { (length seal.now ≡ 0) ⊎ (length seal.now ≡ 21) }
    ensures { MatchBool result (IsSealOf at events.now seal.now) (IsSealOf at events.now seal.now → ⊥) }
{
    match seal.split_first_chunk::<21>() {
        Some((whole, _)) => *whole == seal_bytes(sums, at, events),
        None => !events.is_empty(),
    }
}

/// How many bytes at the front are events.
fn events_length(bytes: &[u8]) -> usize
    ensures { (events : List (List ℕ)) × AreEvents events result bytes.now }
{
    let mut rest = bytes;
    while let Some((_, behind)) = first_event(rest) {
        rest = behind;
    }
    bytes.len() - rest.len()
}

/// The bytes of the sectors that a batch of so many bytes takes after its gate's.
pub(crate) fn whole_payload(length: usize) -> usize
    requires { length < 2 ^ 63 }
    ensures { result ≡ payload_length length }
{
    (length / SECTOR + 1) * SECTOR
}
