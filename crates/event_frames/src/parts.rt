//! What has come of a frame, in its parts.

ghost use Rattle.std.specs.Prelude.{◌≡◌, ◌≤◌, ◌<◌, ◌+◌, ◌-◌, ◌++◌, [], min, length, take, IfOk, IfErr, IsTrue, ◌↔◌};
ghost use Rattle.event_frames.specs.Requests.{told_of};
ghost use Rattle.event_frames.specs.Streams.{IsFirstWrong};
ghost use Rattle.event_frames.specs.steps.Held.{Grows, HasFlaw, IsHeld, come, entry_bytes, input_bytes, is_submission, pending_of, request_in, state_numbered, wanted};
ghost use Rattle.event_frames.specs.declared.parts.Flaw.TheVariants.{Memory};

use crate::frame_header::{HEADER_BYTES, first_wrong};
use crate::request::Request;
use byteorder::{ByteOrder, LittleEndian};
use device_events::Event;
use std::alloc::{AllocError, Global};
use std::mem;
use zone_state::FaultState;

/// Bytes of an entry (NVMe Base 2.0, 3.3.3.1).
pub(crate) const ENTRY_BYTES: usize = 64;

/// Why a frame doesn't grow.
#[derive(Clone, Copy, Debug, PartialEq, Eq)]
pub(crate) enum Flaw {
    /// The first wrong byte of its header, by its place there.
    Byte(usize),
    /// Memory is wanting.
    Memory,
}

impl From<AllocError> for Flaw {
    ghost from_gives = { λ _ flaw. flaw ≡ Memory };

    fn from(_error: AllocError) -> Flaw {
        Flaw::Memory
    }
}

/// The parts of a frame, as far as they have come.
#[derive(Drop)]
pub(crate) struct Parts {
    pub(crate) header: Vec<u8>,
    pub(crate) entry: Vec<u8>,
    pub(crate) input: Vec<u8>,
}

/// Adds bytes of a piece until so many have come, and gives how many it added.
fn fill(bytes: &mut Vec<u8>, wanted: usize, piece: &[u8]) -> Result<usize, AllocError>
    requires { length bytes.old.items ≤ wanted }
    ensures count { IfOk result (λ count. count ≡ min (wanted - length bytes.old.items) (length piece.now)) }
    ensures added { IfOk result (λ count. bytes.new.items ≡ bytes.old.items ++ take count piece.now) }
{
    let count = (wanted - bytes.len()).min(piece.len());
    bytes.extend_from_slice(&piece[..count])?;
    Ok(count)
}

/// Adds the bytes of a piece that the frame still wants, and gives how many they are.
///
/// # Errors
///
/// The first wrong byte of the header, or want of memory.
pub(crate) fn grow(parts: &mut Parts, piece: &[u8]) -> Result<usize, Flaw>
    requires { IsHeld parts.old }
    ensures grown { IfOk result (λ count. Grows parts.old parts.new piece.now count) }
    ensures flaw { IfErr result (HasFlaw (pending_of parts.old ++ piece.now)) }
{
    let first = fill(&mut parts.header, HEADER_BYTES, piece)?;
    if let Some(place) = first_wrong(parts.header.as_slice()) {
        return Err(Flaw::Byte(place));
    }
    let (entry, input) = wanted_behind(parts.header.as_slice());
    let second = fill(&mut parts.entry, entry, &piece[first..])?;
    let third = fill(&mut parts.input, input, &piece[first + second..])?;
    Ok(first + second + third)
}

/// How many bytes of an entry, and of data, go with a header.
fn wanted_behind(header: &[u8]) -> (usize, usize)
    ensures entry { result.0 ≡ entry_bytes header.now }
    ensures input { result.1 ≡ input_bytes header.now }
{
    if header.len() == HEADER_BYTES && header[0] == 1 {
        let size = LittleEndian::read_u32(&header[8..]);
        (ENTRY_BYTES, size as usize)
    } else {
        (0, 0)
    }
}

/// Has the frame come whole?
pub(crate) fn is_whole(parts: &Parts) -> bool
    requires { IsHeld parts.now }
    ensures { IsTrue result ↔ (come parts.now ≡ wanted parts.now.header.items) }
{
    let (entry, input) = wanted_behind(parts.header.as_slice());
    parts.header.len() == HEADER_BYTES && parts.entry.len() == entry && parts.input.len() == input
}

/// The request of a frame that has come whole, with the data that came.
pub(crate) fn request_in(alloc: Global, parts: &mut Parts) -> Request
    requires held { IsHeld parts.old }
    requires whole { come parts.old ≡ wanted parts.old.header.items }
    ensures { told_of result ≡ request_in parts.old.header.items parts.old.entry.items parts.old.input.items }
{
    let header = parts.header.as_slice();
    let number = LittleEndian::read_u32(&header[4..]);
    match header[0] {
        1 => {
            let queue = LittleEndian::read_u16(&header[2..]);
            let mut entry = [0; ENTRY_BYTES];
            entry.copy_from_slice(parts.entry.as_slice());
            let input = mem::replace(&mut parts.input, Vec::new(alloc));
            Request::Event(Event::Submit {
                queue,
                entry,
                input,
            })
        }
        2 => Request::Event(Event::Turn { run: header[1] }),
        3 => {
            let state = state_numbered(header[1]);
            Request::Event(Event::Fault {
                zone: number,
                state,
            })
        }
        4 => Request::Drain { turns: number },
        _ => Request::Save,
    }
}

/// The state that a number stands for.
fn state_numbered(number: u8) -> FaultState
    ensures { result ≡ state_numbered number }
{
    if number == 1 {
        FaultState::ReadOnly
    } else {
        FaultState::Offline
    }
}

/// Forgets what has come.
pub(crate) fn clear(parts: &mut Parts)
    ensures header { parts.new.header.items ≡ [] }
    ensures entry { parts.new.entry.items ≡ [] }
    ensures input { parts.new.input.items ≡ [] }
{
    parts.header.clear();
    parts.entry.clear();
    parts.input.clear();
}
