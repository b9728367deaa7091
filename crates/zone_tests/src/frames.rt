//! A stream of frames, worked out by hand.

ghost use Rattle.std.specs.Prelude.{◌<◌};

use device_events::Event;
use event_frames::{Request, Session};
use std::alloc::Global;
use std::test::*;

/// A turn of run 5, a fault that takes zone 2 to Offline, a drain of at most 258 turns, and a save.
const SHORT: [u8; 64] = [
    2, 5, 0, 0, 0, 0, 0, 0, 0, 0, 0, 0, 0, 0, 0, 0, 3, 2, 0, 0, 2, 0, 0, 0, 0, 0, 0, 0, 0, 0, 0, 0,
    4, 0, 0, 0, 2, 1, 0, 0, 0, 0, 0, 0, 0, 0, 0, 0, 5, 0, 0, 0, 0, 0, 0, 0, 0, 0, 0, 0, 0, 0, 0, 0,
];

/// The requests of a stream that is read in pieces of so many bytes.
fn read(alloc: Global, stream: &[u8], size: usize) -> Result<Vec<Request>, Fail>
    requires { 0 < size }
{
    let mut session = Session::new(alloc)?;
    let mut requests = Vec::new(alloc);
    for piece in stream.chunks(size) {
        take(&mut session, piece, &mut requests)?;
    }
    session.end()?;
    Ok(requests)
}

/// Takes a piece whole.
fn take(session: &mut Session, piece: &[u8], requests: &mut Vec<Request>) -> Result<(), Fail> {
    let mut rest = piece;
    for _ in 0..piece.len() {
        let taken = session.take(rest)?;
        rest = &rest[taken.count..];
        if let Some(request) = taken.request {
            requests.push(request)?;
        }
    }
    Ok(())
}

#[test]
fn requests_are_read(rt: HostRuntime) -> Result<(), Fail> {
    let state = zone_state::FaultState::Offline;
    let wanted = [
        Request::Event(Event::Turn { run: 5 }),
        Request::Event(Event::Fault { zone: 2, state }),
        Request::Drain { turns: 258 },
        Request::Save,
    ];
    for size in [1, 7, 64] {
        assert!(rt; read(rt.alloc(), &SHORT, size)?.as_slice() == wanted.as_slice());
    }
    Ok(())
}
