//! What a connection takes of a piece of the stream.

ghost use Rattle.std.specs.Prelude.{◌≡◌, ◌≤◌, ◌<◌, ◌+◌, length, vec_capacity, vec_len};
ghost use Rattle.tcp_connection.specs.Connection.{taken, takes, took};
ghost use Rattle.tcp_connection.specs.Sending.{Sends};

use crate::commands::MOST_ENTRIES;
use crate::dealing::MOST_SENT;
use crate::state::ConnectionState;

impl ConnectionState {
    /// Takes bytes of a piece, unless it has ended or a command is ready.
    pub(crate) fn take(&mut self, piece: &[u8], out: &mut Vec<u8>) -> usize
        requires some { 0 < self.old.queue.entries }
        requires most { self.old.queue.entries ≤ MOST_ENTRIES }
        requires room { vec_len out.old + MOST_SENT ≤ vec_capacity out.old }
        ensures state { self.new ≡ (taken self.old piece.now).state }
        ensures sent { Sends out.old out.new (taken self.old piece.now).sent }
        ensures count { result ≡ (taken self.old piece.now).count }
        ensures within { result ≤ length piece.now }
    {
        if self.takes() {
            self.take_pdu(piece, out)
        } else {
            0
        }
    }

    /// Are bytes taken?
    fn takes(&self) -> bool
        ensures { result ≡ takes self.now }
    {
        !self.phase.is_ended() && self.ready().is_none()
    }

    /// Takes bytes up to the end of a PDU, and deals with it.
    fn take_pdu(&mut self, piece: &[u8], out: &mut Vec<u8>) -> usize
        requires some { 0 < self.old.queue.entries }
        requires most { self.old.queue.entries ≤ MOST_ENTRIES }
        requires room { vec_len out.old + MOST_SENT ≤ vec_capacity out.old }
        ensures state { self.new ≡ (took self.old piece.now).state }
        ensures sent { Sends out.old out.new (took self.old piece.now).sent }
        ensures count { result ≡ (took self.old piece.now).count }
        ensures within { result ≤ length piece.now }
    {
        let count = self.receiver.take(piece);
        self.deal(out);
        count
    }
}
