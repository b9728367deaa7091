//! What a connection has, and what its end and a completion make of it.

ghost use Rattle.std.specs.Prelude.{◌≡◌, ◌≤◌, ◌<◌, ◌+◌, vec_capacity, vec_len};
ghost use Rattle.tcp_connection.specs.Sending.{Sends, answered, ended, next_head, told_head};

use crate::commands::Commands;
use crate::queue::{Outcome, Phase, Queue};
use crate::receiver::Receiver;
use tcp_pdus::{Answer, push_capsule_resp};

/// What a connection has.
#[derive(Drop)]
pub struct ConnectionState {
    pub(crate) receiver: Receiver,
    pub(crate) commands: Commands,
    pub(crate) phase: Phase,
    pub(crate) queue: Queue,
    /// The submission queue head pointer.
    pub(crate) head: u16,
}

impl ConnectionState {
    /// Ends the connection: the commands that wait are forgotten, and what the others come to is dropped.
    pub(crate) fn end(&mut self)
        ensures { self.new ≡ ended self.old }
    {
        self.commands.clear();
        self.phase = Phase::Ended;
    }

    /// Sends the completion of a command, which counts.
    pub(crate) fn answer(&mut self, command: u16, outcome: Outcome, out: &mut Vec<u8>)
        requires entries { 0 < self.old.queue.entries }
        requires room { vec_len out.old + 24 ≤ vec_capacity out.old }
        ensures state { self.new ≡ (answered command outcome self.old).0 }
        ensures sent { Sends out.old out.new (answered command outcome self.old).1 }
    {
        self.head = next_head(self.head, self.queue.entries);
        let answer = Answer {
            dw0: outcome.dw0,
            dw1: outcome.dw1,
            head: told_head(self.queue, self.head),
            queue: self.queue.id,
            command,
            status: outcome.status,
        };
        push_capsule_resp(out, &answer.encode());
    }
}

/// The submission queue head pointer behind one more command.
fn next_head(head: u16, entries: u16) -> u16
    requires { 0 < entries }
    ensures { result ≡ next_head head entries }
{
    ((u32::from(head) + 1) % u32::from(entries)) as u16
}

/// SQHD.
fn told_head(queue: Queue, head: u16) -> u16
    ensures { result ≡ told_head queue head }
{
    if queue.has_flow_control { head } else { 0xFFFF }
}
