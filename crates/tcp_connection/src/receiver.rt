//! A receiver of PDUs.

ghost use Rattle.std.specs.Prelude.{◌≡◌, ◌≤◌, ◌+◌, [], IfOk, drop, is_some, length, unwrap_or, vec_capacity};
ghost use Rattle.tcp_pdus.specs.declared.received.HostPdu.{HostPdu};
ghost use Rattle.tcp_pdus.specs.declared.received.HostPdu.TheVariants.{CapsuleCmd};
ghost use Rattle.tcp_pdus.specs.Received.{header_bytes};
ghost use Rattle.tcp_pdus.specs.Transfer.{data_header_in};
ghost use Rattle.tcp_connection.specs.declared.expected.Progress.TheVariants.{Partial, Whole};
ghost use Rattle.tcp_connection.specs.Receiving.{IsBetween, IsDataOf, IsHeaderOf, awaiting, expecting, forgetting, fresh, next, taken};
ghost use Rattle.tcp_connection.specs.Transfers.{data_of_command, free_tag, has_transfer, with_data};
ghost use Rattle.tcp_connection.specs.steps.Parts.{EndsData, FitsData, HasRoom, transfers_after};

use crate::expected::{Expected, Progress};
use crate::parts::{Parts, grow};
use crate::transfers::Transfers;
use std::alloc::{AllocError, Global};
use std::marker::Model;
use std::mem::replace;
use tcp_pdus::{Awaits, DataHeader, HostPdu, MAX_H2C_DATA, MOST_HEADER_BYTES, ReadyToTransfer};

/// The most bytes of data in a capsule, whatever is awaited.
pub const MOST_IN_CAPSULE: u16 = 8192;

/// Receives the PDUs of one connection, whose bytes come in any pieces: one PDU at a time, each of which is dealt with before the next
/// is read. The data of up to four R2Ts comes, each for its tag. A clause sees what is expected, with these R2Ts and what came for them
/// in whole PDUs, the bytes of the PDU that have come, and what they amount to.
#[derive(Drop)]
pub struct Receiver {
    expected: Expected,
    parts: Parts,
    progress: Progress,
}

impl Model for Receiver {
    ghost use Rattle.tcp_connection.specs.Receiving.{ReceiverState};
    ghost use Rattle.tcp_connection.specs.steps.Parts.{IsReceiver, state_of};

    ghost Value = { ReceiverState };

    ghost view = { λ r. state_of r.expected r.parts r.progress };

    ghost invariant = { λ r. IsReceiver r.expected r.parts r.progress };
}

impl Receiver {
    /// A receiver to which nothing has come, with room for the longest header, for the data of a capsule and of an H2CData, and for
    /// that of four R2Ts: 650 KiB. It takes no other memory later.
    ///
    /// # Errors
    ///
    /// No memory for these.
    pub fn new(alloc: Global) -> Result<Receiver, AllocError>
        ensures { IfOk result (λ receiver. receiver ≡ fresh) }
    {
        Ok(Receiver {
            expected: Expected {
                awaits: Awaits::Initialization,
                transfers: Transfers::new(alloc)?,
            },
            parts: Parts {
                header: Vec::with_capacity(alloc, MOST_HEADER_BYTES)?,
                data: Vec::with_capacity(alloc, MOST_IN_CAPSULE as usize)?,
                transfer: Vec::with_capacity(alloc, MAX_H2C_DATA as usize)?,
            },
            progress: Progress::Partial,
        })
    }

    /// Begins anew: nothing has come.
    pub fn restart(&mut self)
        ensures { self.new ≡ fresh }
    {
        let parts = &mut self.parts;
        parts.header.clear();
        parts.data.clear();
        parts.transfer.clear();
        self.expected.awaits = Awaits::Initialization;
        self.expected.transfers.clear();
        self.progress = Progress::Partial;
    }

    /// Takes the bytes of a piece of the stream up to the end of a PDU, or to the check that fails first, and gives how many they
    /// are; all of them, where neither comes. Behind a whole PDU it takes none until [`Receiver::next`], and behind a check that
    /// failed none any more. What it comes to doesn't depend on how the stream is cut into pieces.
    pub fn take(&mut self, piece: &[u8]) -> usize
        ensures state { self.new ≡ (taken self.old piece.now).0 }
        ensures count { result ≡ (taken self.old piece.now).1 }
        ensures within { result ≤ length piece.now }
    {
        match self.progress {
            Progress::Partial => {
                let (count, progress) = grow(&mut self.parts, &self.expected, piece);
                self.progress = progress;
                count
            }
            Progress::Whole(_) | Progress::Failed(_) => 0,
        }
    }

    /// What the bytes of the PDU amount to.
    pub fn progress(&self) -> Progress
        ensures { result ≡ self.now.progress }
    {
        self.progress
    }

    /// The lowest tag that no R2T has which is under way.
    pub fn free_tag(&self) -> Option<u16>
        ensures { result ≡ free_tag self.now.expected.transfers }
    {
        self.expected.transfers.free_tag()
    }

    /// Is an R2T for this command under way?
    pub fn has_transfer(&self, command: u16) -> bool
        ensures { result ≡ has_transfer command self.now.expected.transfers }
    {
        self.expected.transfers.has(command)
    }

    /// Has all data of a command's R2T come?
    pub fn has_come(&self, command: u16) -> bool
        ensures { result ≡ is_some (data_of_command command self.now.expected.transfers) }
    {
        self.expected.transfers.is_whole(command)
    }

    /// All data of a command's R2T, once that has come.
    pub fn transfer(&self, command: u16) -> &[u8]
        ensures { result.now ≡ unwrap_or (data_of_command command self.now.expected.transfers) [] }
    {
        self.expected.transfers.data(command)
    }

    /// The header of a whole PDU; or what was read of one in which a check failed, which a C2HTermReq gives back.
    pub fn header(&self) -> &[u8]
        ensures bytes { IsHeaderOf self.now.progress self.now result.now }
        ensures most { length result.now ≤ MOST_HEADER_BYTES }
        ensures whole { (pdu : HostPdu) → self.now.progress ≡ Whole pdu → length result.now ≡ header_bytes pdu }
    {
        self.parts.header.as_slice()
    }

    /// The data of a whole PDU that is no H2CData.
    pub fn data(&self) -> &[u8]
        ensures { IsDataOf self.now.progress self.now result.now }
    {
        self.parts.data.as_slice()
    }

    /// Lets a whole PDU go, and begins the next one. The data of an H2CData joins what came for its R2T.
    pub fn next(&mut self)
        ensures state { self.new ≡ next self.old }
        ensures between { (pdu : HostPdu) → self.old.progress ≡ Whole pdu → IsBetween self.new }
    {
        match self.progress {
            Progress::Whole(pdu) => {
                end_pdu(pdu, &mut self.expected.transfers, &mut self.parts);
                self.progress = Progress::Partial;
            }
            Progress::Partial | Progress::Failed(_) => {}
        }
    }

    /// Lets a whole capsule go, gives its data in the room to which that came, and begins the next PDU. The data of that comes to
    /// another room, so that it isn't copied.
    pub fn next_with(&mut self, room: Vec<u8>) -> Vec<u8>
        requires whole { self.old.progress ≡ Whole CapsuleCmd }
        requires empty { room.items ≡ [] }
        requires room { MOST_IN_CAPSULE ≤ vec_capacity room }
        ensures state { self.new ≡ next self.old }
        ensures between { IsBetween self.new }
        ensures bytes { result.items ≡ drop 72 self.old.pending }
        ensures room { MOST_IN_CAPSULE ≤ vec_capacity result }
    {
        self.parts.header.clear();
        self.progress = Progress::Partial;
        replace(&mut self.parts.data, room)
    }

    /// Awaits commands from now on, with so much data in a capsule at most. It is called between PDUs.
    pub fn await_commands(&mut self, in_capsule: u16)
        requires few { in_capsule ≤ MOST_IN_CAPSULE }
        requires between { IsBetween self.old }
        ensures { self.new ≡ awaiting in_capsule self.old }
    {
        self.expected.awaits = Awaits::Commands { in_capsule };
    }

    /// Expects the data of an R2T, too. It is called between PDUs.
    pub fn expect_data(&mut self, wanted: ReadyToTransfer)
        requires few { wanted.length ≤ MAX_H2C_DATA }
        requires between { IsBetween self.old }
        ensures { self.new ≡ expecting wanted self.old }
    {
        self.expected.transfers.begin(wanted);
    }

    /// Lets the R2T of a command go, where it has one, with its data. It is called between PDUs.
    pub fn forget(&mut self, command: u16)
        requires { IsBetween self.old }
        ensures { self.new ≡ forgetting command self.old }
    {
        self.expected.transfers.forget(command);
    }
}

/// Lets a whole PDU go. The data of an H2CData joins what came for its R2T.
fn end_pdu(pdu: HostPdu, transfers: &mut Transfers, parts: &mut Parts)
    requires fits { FitsData pdu transfers.old parts.old }
    requires room { HasRoom parts.old }
    ensures transfers { transfers.new ≡ transfers_after pdu parts.old transfers.old }
    ensures header { parts.new.header.items ≡ [] }
    ensures inside { parts.new.data.items ≡ [] }
    ensures transfer { parts.new.transfer.items ≡ [] }
    ensures room { HasRoom parts.new }
{
    match pdu {
        HostPdu::H2cData => join_data(transfers, parts),
        HostPdu::IcReq | HostPdu::H2cTermReq | HostPdu::CapsuleCmd => parts.transfer.clear(),
    }
    parts.header.clear();
    parts.data.clear();
}

/// Adds the data of a whole H2CData to what came for its R2T.
fn join_data(transfers: &mut Transfers, parts: &mut Parts)
    requires fits { EndsData transfers.old parts.old }
    requires room { HasRoom parts.old }
    ensures transfers { transfers.new ≡ with_data (data_header_in parts.old.header.items).tag parts.old.transfer.items transfers.old }
    ensures header { parts.new.header ≡ parts.old.header }
    ensures inside { parts.new.data ≡ parts.old.data }
    ensures transfer { parts.new.transfer.items ≡ [] }
    ensures room { HasRoom parts.new }
{
    let tag = DataHeader::read(parts.header.as_slice()).tag;
    transfers.join(tag, &mut parts.transfer);
}
