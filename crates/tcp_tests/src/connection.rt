//! What Linux 6.1 sent on a connection, and what answered it, byte by byte.

ghost use Rattle.std.specs.Prelude.{◌≡◌, ◌<◌, ◌≤◌, ◌+◌, length};

use crate::load::{LOAD, LOAD_DATA};
use std::alloc::Global;
use std::test::*;
use tcp_connection::{Connection, MOST_ENTRIES, Outcome, Queue};
use tcp_pdus::identifier;
use zone_state::Status;

/// The capsule of Connect to queue 1, but for its 1024 bytes of data: identifier 0, SQSIZE 127, all data in the capsule.
const CONNECT: [u8; 72] = [
    0x04, 0, 72, 72, 0x48, 4, 0, 0, 0x7F, 0x40, 0, 0, 0x01, 0, 0, 0, 0, 0, 0, 0, 0, 0, 0, 0, 0, 0,
    0, 0, 0, 0, 0, 0, 0, 0, 0, 0, 0, 0, 0, 0, 0, 4, 0, 0, 0, 0, 0, 0x01, 0, 0, 1, 0, 127, 0, 0, 0,
    0, 0, 0, 0, 0, 0, 0, 0, 0, 0, 0, 0, 0, 0, 0, 0,
];

/// The capsule of a Write with 8 bytes of data in it: identifier 006Ah.
const WRITE: [u8; 80] = [
    0x04, 0, 72, 72, 80, 0, 0, 0, 0x01, 0x40, 0x6A, 0, 1, 0, 0, 0, 0, 0, 0, 0, 0, 0, 0, 0, 0, 0, 0,
    0, 0, 0, 0, 0, 0, 0, 0, 0, 0, 0, 0, 0, 8, 0, 0, 0, 0, 0, 0, 0x01, 0, 0, 0, 0, 0, 0, 0, 0, 0, 0,
    0, 0, 0, 0, 0, 0, 0, 0, 0, 0, 0, 0, 0, 0, 1, 2, 3, 4, 5, 6, 7, 8,
];

/// The capsule of a Result that takes 8 bytes: identifier 006Bh, of slot 0.
const RESULT: [u8; 72] = [
    0x04, 0, 72, 0, 72, 0, 0, 0, 0xC2, 0x40, 0x6B, 0, 1, 0, 0, 0, 0, 0, 0, 0, 0, 0, 0, 0, 0, 0, 0,
    0, 0, 0, 0, 0, 0, 0, 0, 0, 0, 0, 0, 0, 8, 0, 0, 0, 0, 0, 0, 0x5A, 0, 0, 0, 0, 0, 0, 0, 0, 0, 0,
    0, 0, 0, 0, 0, 0, 0, 0, 0, 0, 0, 0, 0, 0,
];

/// What answers Connect: the ICResp (but for its zeros), and success with controller 1.
const CONNECTED: [u8; 24] = [
    5, 0, 24, 0, 24, 0, 0, 0, 1, 0, 0, 0, 0, 0, 0, 0, 1, 0, 1, 0, 0, 0, 0, 0,
];

/// What answers the Load: an R2T for 7 bytes, and Program Refused (7C2h) with Dword 1 14h and Do Not Retry.
const LOADED: [u8; 48] = [
    9, 0, 24, 0, 24, 0, 0, 0, 0x69, 0, 0, 0, 0, 0, 0, 0, 7, 0, 0, 0, 0, 0, 0, 0, 5, 0, 24, 0, 24,
    0, 0, 0, 0, 0, 0, 0, 0x14, 0, 0, 0, 2, 0, 1, 0, 0x69, 0, 0x84, 0x8F,
];

/// What answers the Write: success.
const WRITTEN: [u8; 24] = [
    5, 0, 24, 0, 24, 0, 0, 0, 0, 0, 0, 0, 0, 0, 0, 0, 3, 0, 1, 0, 0x6A, 0, 0, 0,
];

/// What answers the Result: 8 bytes in a C2HData, and success.
const GIVEN: [u8; 56] = [
    7, 4, 24, 24, 32, 0, 0, 0, 0x6B, 0, 0, 0, 0, 0, 0, 0, 8, 0, 0, 0, 0, 0, 0, 0, 9, 9, 9, 9, 9, 9,
    9, 9, 5, 0, 24, 0, 24, 0, 0, 0, 0, 0, 0, 0, 0, 0, 0, 0, 4, 0, 1, 0, 0x6B, 0, 0, 0,
];

/// The stream of the host: the Write comes before the data that the Load asks for.
fn stream(alloc: Global) -> Result<Vec<u8>, Fail> {
    let mut bytes = Vec::new(alloc);
    // An ICReq: PFV, HPDA, DGST and MAXR2T 0.
    let mut ic_req = [0; 128];
    ic_req[2] = 128;
    ic_req[4] = 128;
    bytes.extend_from_slice(&ic_req)?;
    bytes.extend_from_slice(&CONNECT)?;
    bytes.extend_from_slice(&[0x55; 1024])?;
    bytes.extend_from_slice(&LOAD)?;
    bytes.extend_from_slice(&WRITE)?;
    bytes.extend_from_slice(&LOAD_DATA)?;
    bytes.extend_from_slice(&RESULT)?;
    Ok(bytes)
}

/// A connection, all that it sent, and the data of its Writes.
#[derive(Drop)]
struct Served {
    connection: Connection,
    sent: Vec<u8>,
    written: Vec<u8>,
}

/// Takes a piece whole, and executes each command that is ready.
fn serve(alloc: Global, served: &mut Served, piece: &[u8]) -> Result<(), Fail> {
    let mut rest = piece;
    for _ in 0..=piece.len() {
        let mut out = Vec::with_capacity(alloc, 256)?;
        let count = served.connection.take(rest, &mut out);
        rest = &rest[count..];
        served.sent.extend_from_slice(out.as_slice())?;
        execute(alloc, served)?;
    }
    Ok(())
}

/// Executes the command that is ready, and those behind it.
fn execute(alloc: Global, served: &mut Served) -> Result<(), Fail> {
    for _ in 0..MOST_ENTRIES {
        let Some(entry) = served.connection.ready() else {
            return Ok(());
        };
        let mut out = Vec::with_capacity(alloc, 512)?;
        if entry[0] == 0x01 {
            served
                .written
                .extend_from_slice(served.connection.ready_data())?;
        }
        served.connection.go(&mut out);
        let command = identifier(&entry);
        if entry[0] == 0x7F {
            let queue = Queue {
                id: 1,
                entries: 128,
                has_flow_control: true,
            };
            served.connection.connect(queue, 8192);
        }
        served.sent.extend_from_slice(out.as_slice())?;
        complete(alloc, served, entry[0], command)?;
    }
    Ok(())
}

/// Completes a command, by its opcode.
fn complete(alloc: Global, served: &mut Served, opcode: u8, command: u16) -> Result<(), Fail> {
    let mut out = Vec::with_capacity(alloc, 512)?;
    let (status, dw0, dw1) = match opcode {
        0x7F => (Status::SUCCESS, 1, 0),
        0xC1 => (Status::PROGRAM_REFUSED, 0, 0x14),
        _ => (Status::SUCCESS, 0, 0),
    };
    let outcome = Outcome { status, dw0, dw1 };
    let data: &[u8] = if opcode == 0xC2 { &[9; 8] } else { &[] };
    served.connection.complete(command, outcome, data, &mut out);
    served.sent.extend_from_slice(out.as_slice())?;
    Ok(())
}

/// A connection that has taken the stream in pieces of so many bytes.
fn serve_stream(alloc: Global, stream: &[u8], size: usize) -> Result<Served, Fail>
    requires { 0 < size }
{
    let mut served = Served {
        connection: Connection::new(alloc)?,
        sent: Vec::new(alloc),
        written: Vec::new(alloc),
    };
    for piece in stream.chunks(size) {
        serve(alloc, &mut served, piece)?;
    }
    Ok(served)
}

#[test]
fn commands_are_answered(rt: HostRuntime) -> Result<(), Fail> {
    let alloc = rt.alloc();
    let stream = stream(alloc)?;
    for size in [1, 7, 72, 1000, 2000] {
        let served = serve_stream(alloc, stream.as_slice(), size)?;
        let sent = served.sent.as_slice();
        assert_eq!(rt; sent.len(), 128 + 24 + 48 + 24 + 56, "in pieces of {size}");
        assert!(rt; sent[128..].starts_with(&CONNECTED));
        assert!(rt; sent[152..].starts_with(&LOADED));
        assert!(rt; sent[200..].starts_with(&WRITTEN));
        assert!(rt; sent[224..].starts_with(&GIVEN));
        assert_eq!(rt; served.written.len(), 8);
        assert!(rt; WRITE[72..].starts_with(served.written.as_slice()));
        assert!(rt; !served.connection.is_ended());
    }
    Ok(())
}
