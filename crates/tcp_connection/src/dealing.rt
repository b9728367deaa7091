//! What a connection makes of what has come.

ghost use Rattle.std.specs.Prelude.{◌≡◌, ◌≤◌, ◌<◌, ◌+◌, [], Ok, length, drop, take, vec_capacity, vec_len};
ghost use Rattle.tcp_pdus.specs.declared.received.HostPdu.TheVariants.{CapsuleCmd, IcReq};
ghost use Rattle.tcp_connection.specs.declared.expected.Progress.TheVariants.{Whole};
ghost use Rattle.tcp_connection.specs.Receiving.{IsBetween};
ghost use Rattle.tcp_connection.specs.Commands.{count_of};
ghost use Rattle.tcp_connection.specs.Dealing.{asked, asked_for, checked, commanded, commanded_by, dealt, initialized, inside, judged, looked, may_come, queued, refusal, unasked, with_next};
ghost use Rattle.tcp_connection.specs.Sending.{Sends, answered};

use crate::commands::MOST_ENTRIES;
use crate::expected::Progress;
use crate::queue::{Outcome, Phase};
use crate::receiver::MOST_IN_CAPSULE;
use crate::state::ConnectionState;
use crate::waiting::WaitingEntry;
use tcp_pdus::{
    COMMON_HEADER_BYTES, ENTRY_BYTES, FatalError, HostPdu, InitializeRequest, MOST_HEADER_BYTES,
    ReadyToTransfer, TransferLength, identifier, push_c2h_term_req, push_ic_resp, push_r2t,
    wanted_data,
};
use zone_state::Status;

/// The most bytes that are sent for one PDU: a C2HTermReq with the longest header.
pub const MOST_SENT: usize = 152;

impl ConnectionState {
    /// Deals with what has come.
    pub(crate) fn deal(&mut self, out: &mut Vec<u8>)
        requires some { 0 < self.old.queue.entries }
        requires most { self.old.queue.entries ≤ MOST_ENTRIES }
        requires room { vec_len out.old + MOST_SENT ≤ vec_capacity out.old }
        ensures state { self.new ≡ (dealt self.old).0 }
        ensures sent { Sends out.old out.new (dealt self.old).1 }
    {
        match self.receiver.progress() {
            Progress::Partial => {}
            Progress::Failed(error) => {
                push_c2h_term_req(out, error, self.receiver.header());
                self.end();
            }
            Progress::Whole(HostPdu::IcReq) => self.initialize(out),
            Progress::Whole(HostPdu::H2cTermReq) => self.end(),
            Progress::Whole(HostPdu::CapsuleCmd) => self.command(out),
            Progress::Whole(HostPdu::H2cData) => self.receiver.next(),
        }
    }

    /// Answers an ICReq.
    fn initialize(&mut self, out: &mut Vec<u8>)
        requires whole { self.old.receiver.progress ≡ Whole IcReq }
        requires room { vec_len out.old + MOST_SENT ≤ vec_capacity out.old }
        ensures state { self.new ≡ (initialized self.old).0 }
        ensures sent { Sends out.old out.new (initialized self.old).1 }
    {
        match InitializeRequest::read(self.receiver.header()).check() {
            Ok(alignment) => {
                push_ic_resp(out);
                self.receiver.next();
                self.receiver.await_commands(MOST_IN_CAPSULE);
                self.phase = Phase::Open { alignment };
            }
            Err(error) => {
                push_c2h_term_req(out, error, self.receiver.header());
                self.end();
            }
        }
    }

    /// Deals with a capsule.
    fn command(&mut self, out: &mut Vec<u8>)
        requires whole { self.old.receiver.progress ≡ Whole CapsuleCmd }
        requires some { 0 < self.old.queue.entries }
        requires most { self.old.queue.entries ≤ MOST_ENTRIES }
        requires room { vec_len out.old + MOST_SENT ≤ vec_capacity out.old }
        ensures state { self.new ≡ (commanded self.old).0 }
        ensures sent { Sends out.old out.new (commanded self.old).1 }
    {
        let entry = entry_in(self.receiver.header());
        self.take_command(entry, out);
    }

    /// Deals with a capsule that has this entry.
    fn take_command(&mut self, entry: [u8; ENTRY_BYTES], out: &mut Vec<u8>)
        requires whole { self.old.receiver.progress ≡ Whole CapsuleCmd }
        requires some { 0 < self.old.queue.entries }
        requires most { self.old.queue.entries ≤ MOST_ENTRIES }
        requires room { vec_len out.old + MOST_SENT ≤ vec_capacity out.old }
        ensures state { self.new ≡ (commanded_by entry self.old).0 }
        ensures sent { Sends out.old out.new (commanded_by entry self.old).1 }
    {
        if self.may_come(identifier(&entry)) {
            self.judge(entry, out);
        } else {
            push_c2h_term_req(out, FatalError::PduSequence, self.receiver.header());
            self.end();
        }
    }

    /// Completes a command at once, or has it wait.
    fn judge(&mut self, entry: [u8; ENTRY_BYTES], out: &mut Vec<u8>)
        requires whole { self.old.receiver.progress ≡ Whole CapsuleCmd }
        requires some { 0 < self.old.queue.entries }
        requires few { count_of self.old.commands < MOST_ENTRIES }
        requires room { vec_len out.old + MOST_SENT ≤ vec_capacity out.old }
        ensures state { self.new ≡ (judged (checked entry self.old) entry self.old).0 }
        ensures sent { Sends out.old out.new (judged (checked entry self.old) entry self.old).1 }
    {
        match self.check(entry) {
            Ok(wanted) => self.join(entry, wanted, out),
            Err(status) => self.refuse(identifier(&entry), status, out),
        }
    }

    /// How many bytes of data the host is to send for an R2T, of a capsule with this entry.
    fn check(&self, entry: [u8; ENTRY_BYTES]) -> Result<Option<TransferLength>, Status>
        requires { self.now.receiver.progress ≡ Whole CapsuleCmd }
        ensures { result ≡ checked entry self.now }
    {
        wanted_data(&entry, self.receiver.data().len())
    }

    /// May a command with this identifier come?
    fn may_come(&self, command: u16) -> bool
        ensures { result ≡ may_come command self.now }
    {
        self.commands.len() < self.queue.entries as usize && !self.commands.has(command)
    }

    /// Completes a command at once.
    fn refuse(&mut self, command: u16, status: Status, out: &mut Vec<u8>)
        requires some { 0 < self.old.queue.entries }
        requires room { vec_len out.old + MOST_SENT ≤ vec_capacity out.old }
        ensures state { self.new ≡ (answered command (refusal status) (with_next self.old)).0 }
        ensures sent { Sends out.old out.new (answered command (refusal status) (with_next self.old)).1 }
    {
        self.receiver.next();
        let outcome = Outcome {
            status,
            dw0: 0,
            dw1: 0,
        };
        self.answer(command, outcome, out);
    }

    /// Has a command wait for its turn, with the data in its capsule, and asks for data that is wanted.
    fn join(&mut self, entry: [u8; ENTRY_BYTES], wanted: Option<TransferLength>, out: &mut Vec<u8>)
        requires whole { self.old.receiver.progress ≡ Whole CapsuleCmd }
        requires few { count_of self.old.commands < MOST_ENTRIES }
        requires room { vec_len out.old + MOST_SENT ≤ vec_capacity out.old }
        ensures state { self.new ≡ (judged (Ok wanted) entry self.old).0 }
        ensures sent { Sends out.old out.new (judged (Ok wanted) entry self.old).1 }
    {
        self.enqueue(entry, wanted);
        self.look(out);
    }

    /// Has a command wait for its turn, with the data in its capsule.
    fn enqueue(&mut self, entry: [u8; ENTRY_BYTES], wanted: Option<TransferLength>)
        requires whole { self.old.receiver.progress ≡ Whole CapsuleCmd }
        requires few { count_of self.old.commands < MOST_ENTRIES }
        ensures state { self.new ≡ queued (record { entry = entry; «data» = inside self.old; wanted = wanted }) self.old }
        ensures between { IsBetween self.new.receiver }
    {
        self.commands
            .wait(WaitingEntry { entry, wanted }, &mut self.receiver);
    }

    /// Asks for the data of a command that waits, where a tag is free.
    pub(crate) fn look(&mut self, out: &mut Vec<u8>)
        requires between { IsBetween self.old.receiver }
        requires room { vec_len out.old + 24 ≤ vec_capacity out.old }
        ensures state { self.new ≡ (looked self.old).0 }
        ensures sent { Sends out.old out.new (looked self.old).1 }
    {
        match self.receiver.free_tag() {
            Some(tag) => self.ask_for(tag, out),
            None => {}
        }
    }

    /// Asks under this tag for the data of the first command that waits for it, where there is one.
    fn ask_for(&mut self, tag: u16, out: &mut Vec<u8>)
        requires between { IsBetween self.old.receiver }
        requires room { vec_len out.old + 24 ≤ vec_capacity out.old }
        ensures state { self.new ≡ (asked_for tag (unasked self.old) self.old).0 }
        ensures sent { Sends out.old out.new (asked_for tag (unasked self.old) self.old).1 }
    {
        match self.commands.unasked(&self.receiver) {
            Some(command) => self.ask(tag, identifier(&command.entry), command.wanted, out),
            None => {}
        }
    }

    /// Asks under this tag for the data that a command wants.
    fn ask(&mut self, tag: u16, command: u16, wanted: Option<TransferLength>, out: &mut Vec<u8>)
        requires between { IsBetween self.old.receiver }
        requires room { vec_len out.old + 24 ≤ vec_capacity out.old }
        ensures state { self.new ≡ (asked tag command wanted self.old).0 }
        ensures sent { Sends out.old out.new (asked tag command wanted self.old).1 }
    {
        if let Some(length) = wanted {
            let transfer = ReadyToTransfer {
                command,
                tag,
                length: length.get(),
            };
            push_r2t(out, transfer);
            self.receiver.expect_data(transfer);
        }
    }
}

/// The entry in the header of a capsule.
pub(crate) fn entry_in(header: &[u8]) -> [u8; ENTRY_BYTES]
    requires { length header.now ≡ 72 }
    ensures { result ≡ drop 8 header.now }
{
    let mut entry = [0; ENTRY_BYTES];
    entry.copy_from_slice(&header[COMMON_HEADER_BYTES..]);
    entry
}
