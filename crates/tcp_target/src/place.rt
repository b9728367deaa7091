//! A place for a connection.

ghost use Rattle.std.specs.Prelude.{◌≡◌, ◌≤◌, ◌<◌, ◌+◌, IfOk, IsTrue, IsSome, OnSome, is_some, length};
ghost use Rattle.std.specs.Option.{option_map};
ghost use Rattle.tcp_connection.specs.Executing.{data_of, ready};
ghost use Rattle.tcp_connection.specs.Queue.{is_ended};
ghost use Rattle.tcp_target.specs.Places.{goes_on, has_room, is_free, ready_at, vacant};
ghost use Rattle.tcp_target.specs.PlaceEvents.{closed, opened, received, sent};

use crate::outgoing::{self, MOST_HELD};
use std::alloc::{AllocError, Global};
use std::marker::Model;
use tcp_connection::{Connection, MOST_BESIDE_DATA, MOST_ENTRIES, MOST_SENT};
use tcp_pdus::ENTRY_BYTES;

/// While more bytes are to be sent on a connection, nothing is taken of what comes (profile: 256 KiB).
pub const MOST_UNSENT: usize = 262_144;

/// The most bytes that are to be sent: behind those, what one command sends and its completion with the most data that there is,
/// and the completions of runs, which have none.
pub const MOST_KEPT: usize = 397_312;

/// A place for a connection, which has one after another. It takes no memory but that of [`Place::new`].
#[derive(Drop)]
pub struct Place {
    pub(crate) connection: Connection,
    pub(crate) is_open: bool,
    pub(crate) executing: u16,
    /// What was sent, and behind it what is to be sent.
    pub(crate) outgoing: Vec<u8>,
    /// How many bytes of it were sent.
    pub(crate) sent: usize,
}

impl Model for Place {
    ghost use Rattle.std.specs.Prelude.{drop};
    ghost use Rattle.tcp_target.specs.Places.{PlaceState};
    ghost use Rattle.tcp_target.specs.steps.Room.{HasRoom};

    ghost Value = { PlaceState };

    ghost view = { λ p. record { connection = p.connection; is_open = p.is_open; executing = p.executing; unsent = drop p.sent p.outgoing.items } };

    ghost invariant = { λ p. HasRoom p.outgoing p.sent };
}

impl Place {
    /// A place at which no connection was yet.
    ///
    /// # Errors
    ///
    /// No memory for what it keeps.
    pub fn new(alloc: Global) -> Result<Place, AllocError>
        ensures { IfOk result (λ place. place ≡ vacant) }
    {
        Ok(Place {
            connection: Connection::new(alloc)?,
            is_open: false,
            executing: 0,
            outgoing: Vec::with_capacity(alloc, MOST_HELD)?,
            sent: 0,
        })
    }

    /// May a connection begin here: does no host have one, and has the device no command of the one before?
    pub fn is_free(&self) -> bool
        ensures { result ≡ is_free self.now }
    {
        !self.is_open && self.executing == 0
    }

    /// Is a host's connection here?
    pub fn is_open(&self) -> bool
        ensures { result ≡ self.now.is_open }
    {
        self.is_open
    }

    /// Has it ended? Then it is to be closed once all is sent.
    pub fn is_ended(&self) -> bool
        ensures { result ≡ is_ended self.now.connection.phase }
    {
        self.connection.is_ended()
    }

    /// Begins a connection.
    pub fn open(&mut self)
        ensures { self.new ≡ opened self.old }
    {
        self.connection.restart();
        self.is_open = true;
        outgoing::clear(&mut self.outgoing, &mut self.sent);
    }

    /// Is something taken of what comes, and may a command go?
    fn goes_on(&self) -> bool
        ensures value { result ≡ goes_on self.now }
        ensures few { IsTrue result → length self.now.unsent ≤ MOST_UNSENT }
    {
        self.is_open
            && self.unsent().len() <= MOST_UNSENT
            && usize::from(self.executing) < MOST_ENTRIES
    }

    /// Takes the bytes of a piece of the stream up to the end of a PDU, unless too much is to be sent, and gives how many they are.
    pub fn receive(&mut self, piece: &[u8]) -> usize
        ensures state { self.new ≡ (received piece.now self.old).0 }
        ensures count { result ≡ (received piece.now self.old).1 }
        ensures within { result ≤ length piece.now }
    {
        if self.goes_on() {
            outgoing::make_room(&mut self.outgoing, &mut self.sent, MOST_SENT);
            self.connection.take(piece, &mut self.outgoing)
        } else {
            0
        }
    }

    /// The entry of the command that is to be executed next, while it may go.
    pub fn ready(&self) -> Option<[u8; ENTRY_BYTES]>
        ensures entry { result ≡ option_map (λ execution. execution.entry) (ready_at self.now) }
    {
        if self.goes_on() {
            self.connection.ready()
        } else {
            None
        }
    }

    /// All of its data.
    pub fn ready_data(&self) -> &[u8]
        ensures { result.now ≡ data_of (ready self.now.connection) }
    {
        self.connection.ready_data()
    }

    /// Is there room for a completion with so many bytes of data?
    pub fn has_room(&self, size: usize) -> bool
        requires { size ≤ MOST_KEPT }
        ensures { result ≡ has_room size self.now }
    {
        let unsent = self.unsent().len();
        unsent <= MOST_KEPT && unsent + MOST_BESIDE_DATA + size <= MOST_KEPT
    }

    /// What is to be sent.
    pub fn unsent(&self) -> &[u8]
        ensures { result.now ≡ self.now.unsent }
    {
        &self.outgoing[self.sent..]
    }

    /// Forgets the first bytes of it, which were sent.
    pub fn sent(&mut self, count: usize)
        requires { count ≤ length self.old.unsent }
        ensures { self.new ≡ sent count self.old }
    {
        outgoing::forget(&mut self.outgoing, &mut self.sent, count);
    }

    /// Closes the connection. What was to be sent is forgotten, and what the device still executes is dropped once it is done.
    pub fn close(&mut self)
        ensures { self.new ≡ closed self.old }
    {
        self.is_open = false;
        outgoing::clear(&mut self.outgoing, &mut self.sent);
    }
}
