//! PDUs that Linux 6.1 sent to a target, in pieces of several sizes.

ghost use Rattle.std.specs.Prelude.{◌≡◌, ◌<◌};
ghost use Rattle.tcp_connection.specs.declared.expected.Progress.TheVariants.{Whole};

use crate::load::{LOAD, LOAD_DATA};
use std::alloc::Global;
use std::test::*;
use tcp_connection::{Progress, Receiver};
use tcp_pdus::{HostPdu, ReadyToTransfer};

/// The bytes of the stream: an ICReq, a Load of 7 bytes, which are to be sent for an R2T, and the H2CData with these.
const STREAM_BYTES: usize = 231;

/// Where the H2CData begins.
const DATA: usize = 200;

/// The R2T that the host answers.
const WANTED: ReadyToTransfer = ReadyToTransfer {
    command: 0x69,
    tag: 0,
    length: 7,
};

/// The stream.
fn stream(alloc: Global) -> Result<Vec<u8>, Fail> {
    let mut bytes = Vec::new(alloc);
    // PFV, HPDA, DGST and MAXR2T 0.
    let mut ic_req = [0; 128];
    ic_req[2] = 128;
    ic_req[4] = 128;
    bytes.extend_from_slice(&ic_req)?;
    bytes.extend_from_slice(&LOAD)?;
    bytes.extend_from_slice(&LOAD_DATA)?;
    Ok(bytes)
}

/// What came of a stream.
#[derive(Drop)]
struct Outcome {
    /// Its whole PDUs.
    pdus: Vec<HostPdu>,
    /// Their headers and data, one after another.
    bytes: Vec<u8>,
    /// The data of the R2T.
    transferred: Vec<u8>,
}

/// Reads a stream in pieces of so many bytes.
fn read(alloc: Global, stream: &[u8], size: usize) -> Result<Outcome, Fail>
    requires { 0 < size }
{
    let mut receiver = Receiver::new(alloc)?;
    let mut outcome = Outcome {
        pdus: Vec::new(alloc),
        bytes: Vec::new(alloc),
        transferred: Vec::new(alloc),
    };
    for piece in stream.chunks(size) {
        take(&mut receiver, piece, &mut outcome)?;
    }
    Ok(outcome)
}

/// Takes a piece whole.
fn take(receiver: &mut Receiver, piece: &[u8], outcome: &mut Outcome) -> Result<(), Fail> {
    let mut rest = piece;
    for _ in 0..=piece.len() {
        let count = receiver.take(rest);
        rest = &rest[count..];
        match receiver.progress() {
            Progress::Partial => return Ok(()),
            Progress::Whole(pdu) => deal(receiver, pdu, outcome)?,
            Progress::Failed(_) => return Err(Fail::from("a check fails")),
        }
    }
    Ok(())
}

/// Keeps a whole PDU, and has the next one come: commands behind an ICReq, and the data of the R2T behind the Load.
fn deal(receiver: &mut Receiver, pdu: HostPdu, outcome: &mut Outcome) -> Result<(), Fail>
    requires { receiver.old.progress ≡ Whole pdu }
{
    outcome.pdus.push(pdu)?;
    outcome.bytes.extend_from_slice(receiver.header())?;
    if pdu != HostPdu::H2cData {
        outcome.bytes.extend_from_slice(receiver.data())?;
    }
    receiver.next();
    match pdu {
        HostPdu::IcReq => receiver.await_commands(0),
        HostPdu::CapsuleCmd => receiver.expect_data(WANTED),
        HostPdu::H2cData => outcome
            .transferred
            .extend_from_slice(receiver.transfer(WANTED.command))?,
        HostPdu::H2cTermReq => {}
    }
    Ok(())
}

#[test]
fn whole_pdus_are_read(rt: HostRuntime) -> Result<(), Fail> {
    let stream = stream(rt.alloc())?;
    for size in [1, 7, 8, 24, 72, 100, STREAM_BYTES] {
        let read = read(rt.alloc(), stream.as_slice(), size)?;
        let pdus = [HostPdu::IcReq, HostPdu::CapsuleCmd, HostPdu::H2cData];
        assert!(rt; read.pdus.as_slice() == pdus.as_slice());
        assert!(rt; read.bytes.len() == DATA + 24);
        assert!(rt; stream.as_slice().starts_with(read.bytes.as_slice()));
        assert!(rt; read.transferred.as_slice() == &LOAD_DATA[24..]);
    }
    Ok(())
}
