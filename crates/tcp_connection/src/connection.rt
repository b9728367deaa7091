//! A connection.

ghost use Rattle.std.specs.Prelude.{◌≡◌, ◌≤◌, ◌<◌, ◌+◌, IfOk, IsTrue, is_some, length, vec_capacity, vec_len};
ghost use Rattle.std.specs.Option.{option_map};
ghost use Rattle.tcp_connection.specs.Receiving.{IsBetween};
ghost use Rattle.tcp_connection.specs.Connection.{begun, taken};
ghost use Rattle.tcp_connection.specs.Executing.{completed, connected, data_of, gone, ready};
ghost use Rattle.tcp_connection.specs.Queue.{is_ended};
ghost use Rattle.tcp_connection.specs.Sending.{Sends};

use crate::commands::{Commands, MOST_ENTRIES};
use crate::dealing::MOST_SENT;
use crate::executing::MOST_BESIDE_DATA;
use crate::queue::{Outcome, Phase, Queue, UNCONNECTED};
use crate::receiver::{MOST_IN_CAPSULE, Receiver};
use crate::state::ConnectionState;
use std::alloc::{AllocError, Global};
use std::marker::Model;
use tcp_pdus::{ENTRY_BYTES, MOST_DATA};

/// One connection of a host, whose bytes come in any pieces. What it sends is a function of what has come, and of what its commands
/// came to. It takes no memory but that of [`Connection::new`], and what it sends is added where there is room.
#[derive(Drop)]
pub struct Connection {
    state: ConnectionState,
}

impl Model for Connection {
    ghost use Rattle.tcp_connection.specs.declared.state.ConnectionState.{ConnectionState};
    ghost use Rattle.tcp_connection.specs.steps.Connection.{IsConnection};

    ghost Value = { ConnectionState };

    ghost view = { λ c. c.state };

    ghost invariant = { λ c. IsConnection c.state };
}

impl Connection {
    /// A connection to which nothing has come.
    ///
    /// # Errors
    ///
    /// No memory for what it keeps.
    pub fn new(alloc: Global) -> Result<Connection, AllocError>
        ensures { IfOk result (λ connection. connection ≡ begun) }
    {
        Ok(Connection {
            state: ConnectionState {
                receiver: Receiver::new(alloc)?,
                commands: Commands::new(alloc)?,
                phase: Phase::Initializing,
                queue: UNCONNECTED,
                head: 0,
            },
        })
    }

    /// Begins anew: a connection to which nothing has come.
    pub fn restart(&mut self)
        ensures { self.new ≡ begun }
    {
        self.state.receiver.restart();
        self.state.commands.clear();
        self.state.phase = Phase::Initializing;
        self.state.queue = UNCONNECTED;
        self.state.head = 0;
    }

    /// Takes the bytes of a piece of the stream up to the end of a PDU, or to the check that fails first, deals with it, adds what is
    /// sent then, and gives how many bytes they are. Once a command is ready it takes none until that goes, and behind the end none.
    pub fn take(&mut self, piece: &[u8], out: &mut Vec<u8>) -> usize
        requires { vec_len out.old + MOST_SENT ≤ vec_capacity out.old }
        ensures state { self.new ≡ (taken self.old piece.now).state }
        ensures sent { Sends out.old out.new (taken self.old piece.now).sent }
        ensures count { result ≡ (taken self.old piece.now).count }
        ensures within { result ≤ length piece.now }
    {
        self.state.take(piece, out)
    }

    /// The entry of the command that is to be executed next: they are ready in the order of their capsules, each once its data has
    /// come, in its capsule or for an R2T.
    pub fn ready(&self) -> Option<[u8; ENTRY_BYTES]>
        ensures { result ≡ option_map (λ execution. execution.entry) (ready self.now) }
    {
        self.state.ready()
    }

    /// All of its data; none, where no command is ready.
    pub fn ready_data(&self) -> &[u8]
        ensures { result.now ≡ data_of (ready self.now) }
    {
        self.state.ready_data()
    }

    /// Lets it go to whoever executes it, and looks at the next one, for whose data it may send an R2T.
    pub fn go(&mut self, out: &mut Vec<u8>)
        requires ready { IsTrue (is_some (ready self.old)) }
        requires room { vec_len out.old + MOST_SENT ≤ vec_capacity out.old }
        ensures state { self.new ≡ (gone self.old).0 }
        ensures sent { Sends out.old out.new (gone self.old).1 }
        ensures between { IsBetween self.new.receiver }
    {
        self.state.go(out);
    }

    /// Sets up the queue, with so much data in a capsule at most, once Connect has succeeded and before its completion.
    pub fn connect(&mut self, queue: Queue, in_capsule: u16)
        requires some { 0 < queue.entries }
        requires most { queue.entries ≤ MOST_ENTRIES }
        requires few { in_capsule ≤ MOST_IN_CAPSULE }
        requires between { IsBetween self.old.receiver }
        ensures { self.new ≡ connected queue in_capsule self.old }
    {
        self.state.queue = queue;
        self.state.receiver.await_commands(in_capsule);
    }

    /// Completes a command that went, with its data, where there is some: a C2HData, and a CapsuleResp behind it. Of another command,
    /// and behind the end, nothing is sent.
    pub fn complete(&mut self, command: u16, outcome: Outcome, bytes: &[u8], out: &mut Vec<u8>)
        requires most { length bytes.now ≤ MOST_DATA }
        requires room { vec_len out.old + MOST_BESIDE_DATA + length bytes.now ≤ vec_capacity out.old }
        ensures state { self.new ≡ (completed command outcome bytes.now self.old).0 }
        ensures sent { Sends out.old out.new (completed command outcome bytes.now self.old).1 }
    {
        self.state.complete(command, outcome, bytes, out);
    }

    /// Has it ended? Then it is to be closed once all is sent.
    pub fn is_ended(&self) -> bool
        ensures { result ≡ is_ended self.now.phase }
    {
        self.state.phase.is_ended()
    }
}
