//! A stream of frames, in any pieces.

ghost use Rattle.std.specs.Prelude.{◌≡◌, ◌≤◌, ◌<◌, ◌+◌, ◌↔◌, [], length, IfErr, IfOk, IsTrue, MatchOption, None, OnErr, OnOk, Some};
ghost use Rattle.event_frames.specs.Requests.{told_of};
ghost use Rattle.event_frames.specs.Streams.{Breaks, IsPartial, Takes, behind};
ghost use Rattle.event_frames.specs.steps.Held.{Finishes, IsHeld, fault_at};

use crate::fault::StreamFault;
use crate::frame_header::{HEADER_BYTES, field_at};
use crate::parts::{ENTRY_BYTES, Flaw, Parts, clear, grow, is_whole, request_in};
use crate::request::Request;
use device_events::Event;
use nvme_entry::MOST_TRANSFER;
use std::alloc::{AllocError, Global};
use std::marker::Model;

/// What a session took of a piece.
#[derive(Drop)]
pub struct Taken {
    /// How many bytes.
    pub count: usize,
    /// The request whose frame ends with these, if one does.
    pub request: Option<Request>,
}

/// Reads a stream of frames that comes in any pieces. A clause sees the bytes of the next frame that have come, where in the
/// stream they begin, and why no more is read, where a byte was wrong.
#[derive(Drop)]
pub struct Session {
    alloc: Global,
    parts: Parts,
    place: u64,
    fault: Option<StreamFault>,
}

impl Model for Session {
    ghost use Rattle.event_frames.specs.Streams.{SessionState};
    ghost use Rattle.event_frames.specs.steps.Held.{IsSession, pending_of};

    ghost Value = { SessionState };

    ghost view = { λ s. record { pending = pending_of s.parts; place = s.place; fault = s.fault } };

    ghost invariant = { λ s. IsSession s.parts s.place };
}

impl Session {
    /// A session of which nothing has come, with room for the longest frame.
    ///
    /// # Errors
    ///
    /// No memory for that frame.
    pub fn new(alloc: Global) -> Result<Session, AllocError>
        ensures { IfOk result (λ session. session ≡ record { pending = []; place = 0; fault = None }) }
    {
        Ok(Session {
            alloc,
            parts: Parts {
                header: Vec::with_capacity(alloc, HEADER_BYTES)?,
                entry: Vec::with_capacity(alloc, ENTRY_BYTES)?,
                input: Vec::with_capacity(alloc, MOST_TRANSFER)?,
            },
            place: 0,
            fault: None,
        })
    }

    /// Takes the bytes of a piece of the stream up to the end of a frame, and gives its request; or all of them, where no frame
    /// is whole with them. So a piece is read by calls for the rest of it, until it is taken whole. What is given doesn't
    /// depend on how the stream is cut into pieces.
    ///
    /// # Errors
    ///
    /// The stream's first wrong byte, or want of memory. The session gives that same fault from then on.
    pub fn take(&mut self, piece: &[u8]) -> Result<Taken, StreamFault>
        ensures within { IfOk result (λ taken. taken.count ≤ length piece.now) }
        ensures taken { IfOk result (λ taken. Takes self.old self.new piece.now taken.count taken.request) }
        ensures healthy { OnOk result (self.old.fault ≡ None) }
        ensures still { OnOk result (self.new.fault ≡ None) }
        ensures partial { IsPartial self.new.pending }
        ensures broken { IfErr result (Breaks self.old self.new piece.now) }
    {
        if let Some(fault) = self.fault {
            return Err(fault);
        }
        match grow(&mut self.parts, piece) {
            Ok(count) => {
                let (request, frame) = finish(self.alloc, &mut self.parts);
                self.place = self.place.saturating_add(frame as u64);
                Ok(Taken { count, request })
            }
            Err(flaw) => {
                clear(&mut self.parts);
                let fault = fault_at(self.place, flaw);
                self.fault = Some(fault);
                Err(fault)
            }
        }
    }

    /// Says that the stream ends here.
    ///
    /// # Errors
    ///
    /// The fault that was given before, or that the stream ends within a frame.
    pub fn end(&self) -> Result<(), StreamFault>
        ensures whole { OnOk result (self.now.pending ≡ []) }
        ensures healthy { OnOk result (self.now.fault ≡ None) }
        ensures again { (fault : StreamFault) → self.now.fault ≡ Some fault → result ≡ Err fault }
        ensures some { self.now.fault ≡ None → OnErr result (0 < length self.now.pending) }
        ensures cut_off { self.now.fault ≡ None
            → IfErr result (λ fault. fault ≡ StreamFault.CutOff (behind self.now.place (length self.now.pending))) }
    {
        if let Some(fault) = self.fault {
            return Err(fault);
        }
        let come = self.parts.header.len() + self.parts.entry.len() + self.parts.input.len();
        if come == 0 {
            return Ok(());
        }
        Err(StreamFault::CutOff {
            place: self.place.saturating_add(come as u64),
        })
    }

    /// Gives back a request that is done, so that the memory of its data serves another one.
    pub fn reuse(&mut self, request: Request)
        ensures { self.new ≡ self.old }
    {
        if let Request::Event(Event::Submit { input, .. }) = request {
            put_back(&mut self.parts.input, input);
        }
    }
}

/// Puts the memory of data in the place of that of data of which nothing has come.
fn put_back(input: &mut Vec<u8>, mut done: Vec<u8>)
    ensures { input.new.items ≡ input.old.items }
{
    if input.is_empty() {
        done.clear();
        *input = done;
    }
}

/// The request of a frame, where it has come whole, and how many bytes it had.
fn finish(alloc: Global, parts: &mut Parts) -> (Option<Request>, usize)
    requires { IsHeld parts.old }
    ensures { Finishes parts.old parts.new result.0 result.1 }
{
    if !is_whole(parts) {
        return (None, 0);
    }
    let frame = parts.header.len() + parts.entry.len() + parts.input.len();
    let request = request_in(alloc, parts);
    clear(parts);
    (Some(request), frame)
}

/// The fault of a flaw in a frame that begins at a place.
fn fault_at(place: u64, flaw: Flaw) -> StreamFault
    ensures { result ≡ fault_at place flaw }
{
    match flaw {
        Flaw::Byte(offset) => StreamFault::Byte {
            place: place.saturating_add(offset as u64),
            field: field_at(offset),
        },
        Flaw::Memory => StreamFault::Memory,
    }
}
