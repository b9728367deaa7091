//! The command that is to be executed next, and what completes one.

ghost use Rattle.std.specs.Prelude.{◌≡◌, ◌≤◌, ◌<◌, ◌+◌, Some, length, vec_capacity, vec_len};
ghost use Rattle.std.specs.Option.{option_map};
ghost use Rattle.tcp_connection.specs.Receiving.{IsBetween};
ghost use Rattle.tcp_connection.specs.Commands.{first_of};
ghost use Rattle.tcp_connection.specs.Executing.{completed, completed_open, data_of, data_sent, gone, ready, waiting_ready, with_started};
ghost use Rattle.tcp_connection.specs.steps.Commands.{entry_of, entry_once_come, has_come};
ghost use Rattle.tcp_connection.specs.Sending.{Sends};

use crate::queue::{Outcome, Phase};
use crate::state::ConnectionState;
use crate::waiting::WaitingEntry;
use tcp_pdus::{DataAlignment, ENTRY_BYTES, MOST_DATA, TransferLength, identifier, push_c2h_data};

/// The most bytes that are sent before a completion's data, and with it: a C2HData's header, what aligns its data, and a CapsuleResp.
pub const MOST_BESIDE_DATA: usize = 152;

impl ConnectionState {
    /// The entry of the command that is to be executed next.
    pub(crate) fn ready(&self) -> Option<[u8; ENTRY_BYTES]>
        ensures { result ≡ option_map (λ execution. execution.entry) (ready self.now) }
    {
        if self.phase.is_ended() {
            None
        } else {
            self.waiting_ready()
        }
    }

    /// The entry of the first command that waits, once all of its data has come.
    fn waiting_ready(&self) -> Option<[u8; ENTRY_BYTES]>
        ensures { result ≡ option_map (λ execution. execution.entry) (waiting_ready self.now) }
    {
        match self.commands.first() {
            Some(first) => self.entry_once_come(first),
            None => None,
        }
    }

    /// The entry of a command, once all of its data has come.
    fn entry_once_come(&self, command: WaitingEntry) -> Option<[u8; ENTRY_BYTES]>
        ensures { result ≡ entry_once_come command self.now.receiver.expected.transfers }
    {
        let entry = command.entry;
        if self.has_come(identifier(&entry), command.wanted) {
            Some(entry)
        } else {
            None
        }
    }

    /// Has all data come that a command wants by an R2T?
    fn has_come(&self, command: u16, wanted: Option<TransferLength>) -> bool
        ensures { result ≡ has_come command self.now.receiver.expected.transfers wanted }
    {
        match wanted {
            Some(_) => self.receiver.has_come(command),
            None => true,
        }
    }

    /// All of its data.
    pub(crate) fn ready_data(&self) -> &[u8]
        ensures { result.now ≡ data_of (ready self.now) }
    {
        if self.phase.is_ended() {
            &[]
        } else {
            self.waiting_data()
        }
    }

    /// The data of the first command that waits, once all of it has come.
    fn waiting_data(&self) -> &[u8]
        ensures { result.now ≡ data_of (waiting_ready self.now) }
    {
        match self.commands.first() {
            Some(first) => self.first_data(first),
            None => &[],
        }
    }

    /// The data of the first command that waits, which is this: that of its R2T, where it wants one, or that in its capsule.
    fn first_data(&self, first: WaitingEntry) -> &[u8]
        requires { option_map entry_of (first_of self.now.commands) ≡ Some first }
        ensures { result.now ≡ data_of (waiting_ready self.now) }
    {
        match first.wanted {
            Some(_) => self.receiver.transfer(identifier(&first.entry)),
            None => self.commands.first_data(),
        }
    }

    /// Lets it go with its R2T, and asks for data that is wanted.
    pub(crate) fn go(&mut self, out: &mut Vec<u8>)
        requires between { IsBetween self.old.receiver }
        requires room { vec_len out.old + 24 ≤ vec_capacity out.old }
        ensures state { self.new ≡ (gone self.old).0 }
        ensures sent { Sends out.old out.new (gone self.old).1 }
    {
        self.start();
        self.look(out);
    }

    /// Lets the first command that waits go, with its R2T.
    fn start(&mut self)
        requires { IsBetween self.old.receiver }
        ensures state { self.new ≡ with_started self.old }
        ensures between { IsBetween self.new.receiver }
    {
        match self.commands.first() {
            Some(first) => self.receiver.forget(identifier(&first.entry)),
            None => {}
        }
        self.commands.start();
    }

    /// Completes a command.
    pub(crate) fn complete(
        &mut self,
        command: u16,
        outcome: Outcome,
        bytes: &[u8],
        out: &mut Vec<u8>,
    )
        requires entries { 0 < self.old.queue.entries }
        requires most { length bytes.now ≤ MOST_DATA }
        requires room { vec_len out.old + MOST_BESIDE_DATA + length bytes.now ≤ vec_capacity out.old }
        ensures state { self.new ≡ (completed command outcome bytes.now self.old).0 }
        ensures sent { Sends out.old out.new (completed command outcome bytes.now self.old).1 }
    {
        let phase = self.phase;
        match phase {
            Phase::Open { alignment } => self.complete_open(
                alignment, command, outcome, bytes, out,
            ),
            Phase::Initializing | Phase::Ended => {}
        }
    }

    /// Completes a command of a connection that is open.
    fn complete_open(
        &mut self,
        alignment: DataAlignment,
        command: u16,
        outcome: Outcome,
        bytes: &[u8],
        out: &mut Vec<u8>,
    )
        requires entries { 0 < self.old.queue.entries }
        requires most { length bytes.now ≤ MOST_DATA }
        requires room { vec_len out.old + MOST_BESIDE_DATA + length bytes.now ≤ vec_capacity out.old }
        ensures state { self.new ≡ (completed_open alignment command outcome bytes.now self.old).0 }
        ensures sent { Sends out.old out.new (completed_open alignment command outcome bytes.now self.old).1 }
    {
        if self.commands.complete(command) {
            send_data(alignment, command, bytes, out);
            self.answer(command, outcome, out);
        }
    }
}

/// Sends a command's data, where there is some.
fn send_data(alignment: DataAlignment, command: u16, bytes: &[u8], out: &mut Vec<u8>)
    requires most { length bytes.now ≤ MOST_DATA }
    requires room { vec_len out.old + MOST_BESIDE_DATA + length bytes.now ≤ vec_capacity out.old }
    ensures sent { Sends out.old out.new (data_sent alignment command bytes.now) }
    ensures few { vec_len out.new + 24 ≤ vec_capacity out.new }
{
    if !bytes.is_empty() {
        push_c2h_data(out, alignment, command, bytes);
    }
}
