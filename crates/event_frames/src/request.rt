//! What a stream asks of a device.

ghost use Rattle.std.specs.Prelude.{◌≡◌, ◌++◌, OnOk};
ghost use Rattle.event_frames.specs.Frames.{request_frame, request_header, state_number};
ghost use Rattle.event_frames.specs.Requests.{Fits, told_of};

use crate::frame_header::{HEADER_BYTES, header};
use device_events::Event;
use std::alloc::AllocError;
use zone_state::FaultState;

/// What is asked for, which is done whole before the next one is.
#[derive(Debug, PartialEq, Eq, Drop)]
pub enum Request {
    /// An event happens.
    Event(Event),
    /// The active runs are given turns, one after another.
    Drain {
        /// How many turns at most.
        turns: u32,
    },
    /// The image is saved.
    Save,
}

/// How the state of a fault is numbered.
pub fn state_number(state: FaultState) -> u8
    ensures { result ≡ state_number state }
{
    match state {
        FaultState::ReadOnly => 1,
        FaultState::Offline => 2,
    }
}

/// The header of a request.
fn request_header(request: &Request) -> [u8; HEADER_BYTES]
    requires { Fits (told_of request.now) }
    ensures { result ≡ request_header (told_of request.now) }
{
    match request {
        Request::Event(Event::Submit { queue, input, .. }) => {
            header(1, 0, *queue, 0, input.len() as u32)
        }
        Request::Event(Event::Turn { run }) => header(2, *run, 0, 0, 0),
        Request::Event(Event::Fault { zone, state }) => {
            header(3, state_number(*state), 0, *zone, 0)
        }
        Request::Drain { turns } => header(4, 0, 0, *turns, 0),
        Request::Save => header(5, 0, 0, 0, 0),
    }
}

/// Adds the frame of a request, whose data is no more than a command moves.
///
/// # Errors
///
/// Want of memory.
pub fn push_request(out: &mut Vec<u8>, request: &Request) -> Result<(), AllocError>
    requires { Fits (told_of request.now) }
    ensures { OnOk result (out.new.items ≡ out.old.items ++ request_frame (told_of request.now)) }
{
    out.extend_from_slice(&request_header(request))?;
    match request {
        Request::Event(Event::Submit { entry, input, .. }) => {
            out.extend_from_slice(entry)?;
            out.extend_from_slice(input.as_slice())?;
        }
        Request::Event(Event::Turn { .. } | Event::Fault { .. }) => {}
        Request::Drain { .. } | Request::Save => {}
    }
    Ok(())
}
