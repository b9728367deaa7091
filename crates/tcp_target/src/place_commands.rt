//! The commands of the connection at a place.

ghost use Rattle.std.specs.Prelude.{◌≡◌, ◌≤◌, ◌<◌, ◌+◌, [], IsTrue, is_some, length};
ghost use Rattle.tcp_connection.specs.Receiving.{IsBetween};
ghost use Rattle.tcp_connection.specs.Executing.{ready};
ghost use Rattle.tcp_target.specs.Places.{has_room, ready_at};
ghost use Rattle.tcp_target.specs.PlaceEvents.{answered_at, completed_at, connected_at, executed, handed_over, joined, kept, returned};

use crate::outgoing;
use crate::place::{MOST_KEPT, MOST_UNSENT, Place};
use tcp_connection::{MOST_BESIDE_DATA, MOST_ENTRIES, MOST_IN_CAPSULE, MOST_SENT, Outcome, Queue};
use tcp_pdus::MOST_DATA;

impl Place {
    /// Lets the command that is ready go.
    fn go(&mut self)
        requires ready { IsTrue (is_some (ready self.old.connection)) }
        requires few { length self.old.unsent ≤ MOST_UNSENT }
        ensures state { self.new ≡ kept self.old }
        ensures between { IsBetween self.new.connection.receiver }
        ensures few { length self.new.unsent ≤ MOST_UNSENT + 24 }
    {
        outgoing::make_room(&mut self.outgoing, &mut self.sent, MOST_SENT);
        self.connection.go(&mut self.outgoing);
    }

    /// Completes a command that went.
    fn complete(&mut self, command: u16, outcome: Outcome, bytes: &[u8])
        requires most { length bytes.now ≤ MOST_DATA }
        requires few { length self.old.unsent + MOST_BESIDE_DATA + length bytes.now ≤ MOST_KEPT }
        ensures { self.new ≡ completed_at command outcome bytes.now self.old }
    {
        outgoing::make_room(
            &mut self.outgoing,
            &mut self.sent,
            MOST_BESIDE_DATA + bytes.len(),
        );
        self.connection
            .complete(command, outcome, bytes, &mut self.outgoing);
    }

    /// Lets the command that is ready go, and keeps it: it has no completion yet.
    pub fn keep(&mut self)
        requires { IsTrue (is_some (ready_at self.old)) }
        ensures { self.new ≡ kept self.old }
    {
        self.go();
    }

    /// Lets the command that is ready go to the device.
    pub fn hand_over(&mut self)
        requires { IsTrue (is_some (ready_at self.old)) }
        ensures { self.new ≡ handed_over self.old }
    {
        self.go();
        self.executing += 1;
    }

    /// Lets the command that is ready go, and completes it, with its data, where there is some.
    pub fn answer(&mut self, command: u16, outcome: Outcome, bytes: &[u8])
        requires ready { IsTrue (is_some (ready_at self.old)) }
        requires most { length bytes.now ≤ MOST_DATA }
        ensures { self.new ≡ answered_at command outcome bytes.now self.old }
    {
        self.go();
        self.complete(command, outcome, bytes);
    }

    /// Lets a Connect go that succeeds, sets up the queue, with so much data in a capsule at most, and completes it.
    pub fn connect(&mut self, queue: Queue, in_capsule: u16, command: u16, outcome: Outcome)
        requires ready { IsTrue (is_some (ready_at self.old)) }
        requires some { 0 < queue.entries }
        requires most { queue.entries ≤ MOST_ENTRIES }
        requires few { in_capsule ≤ MOST_IN_CAPSULE }
        ensures { self.new ≡ connected_at queue in_capsule command outcome self.old }
    {
        self.go();
        self.connection.connect(queue, in_capsule);
        self.complete(command, outcome, &[]);
    }

    /// Takes what the device made of a command: that completes it, unless its connection was closed.
    pub fn execute(&mut self, command: u16, outcome: Outcome, bytes: &[u8])
        requires most { length bytes.now ≤ MOST_DATA }
        requires room { IsTrue (has_room (length bytes.now) self.old) }
        ensures { self.new ≡ executed command outcome bytes.now self.old }
    {
        self.executing = self.executing.saturating_sub(1);
        if self.is_open {
            self.complete(command, outcome, bytes);
        }
    }
}
