//! The commands of a connection that have no completion yet.

ghost use Rattle.std.specs.Prelude.{◌≡◌, ◌==◌, ◌<◌, ◌≤◌, ◌++◌, ◌∷◌, [], IfOk, drop, find, is_some, vec_capacity, vec_len};
ghost use Rattle.std.specs.Option.{option_map};
ghost use Rattle.tcp_pdus.specs.declared.received.HostPdu.TheVariants.{CapsuleCmd};
ghost use Rattle.tcp_connection.specs.declared.expected.Progress.TheVariants.{Whole};
ghost use Rattle.tcp_connection.specs.Receiving.{IsBetween, next};
ghost use Rattle.tcp_connection.specs.Commands.{count_of, first_of, has_command, is_running, none, place_of, removed, started, waiting_with, without};
ghost use Rattle.tcp_connection.specs.Dealing.{is_unasked};
ghost use Rattle.tcp_connection.specs.steps.Commands.{data_in, entry_of};

use crate::receiver::Receiver;
use crate::waiting::{Waiting, WaitingEntry};
use std::alloc::{AllocError, Global};
use std::marker::Model;

/// The most entries of a queue, and so the most commands without a completion (MQES, NVMe Base 2.0, 3.1.3.1; its value is profile).
pub const MOST_ENTRIES: usize = 128;

/// Adds an identifier, for which there is room.
fn append(running: &mut Vec<u16>, command: u16)
    requires { vec_len running.old < vec_capacity running.old }
    ensures added { running.new.items ≡ running.old.items ++ command ∷ [] }
    ensures room { vec_capacity running.old ≤ vec_capacity running.new }
{
    match running.extend_from_slice(&[command]) {
        Ok(()) => {}
        Err(_) => unreachable!(),
    }
}

/// Where the command with this identifier is, of those that are executed.
fn place_of(running: &[u16], command: u16) -> Option<usize>
    ensures { result ≡ place_of command running.now }
{
    running.iter().position(|it| *it == command)
}

/// Lets the command with this identifier go, and tells whether there was one.
fn remove(running: &mut Vec<u16>, command: u16) -> bool
    ensures was { result ≡ is_some (place_of command running.old.items) }
    ensures removed { running.new.items ≡ removed (place_of command running.old.items) running.old.items }
    ensures fewer { vec_len running.new ≤ vec_len running.old }
    ensures room { vec_capacity running.old ≤ vec_capacity running.new }
{
    match place_of(running.as_slice(), command) {
        Some(place) => {
            running.remove(place);
            true
        }
        None => false,
    }
}

/// The commands without a completion: those that are being executed, and those that wait, in the order of their capsules.
#[derive(Drop)]
pub(crate) struct Commands {
    running: Vec<u16>,
    waiting: Waiting,
}

impl Model for Commands {
    ghost use Rattle.std.specs.Prelude.{◌≤◌, ◌+◌, length};
    ghost use Rattle.tcp_connection.specs.Commands.{CommandsState};
    ghost use Rattle.tcp_connection.specs.steps.Commands.{HasRoom};

    ghost Value = { CommandsState };

    ghost view = { λ c. record { running = c.running.items; waiting = c.waiting } };

    ghost invariant = { λ c. HasRoom c.running c.waiting };
}

impl Commands {
    /// None, with room for the most that there can be.
    pub(crate) fn new(alloc: Global) -> Result<Commands, AllocError>
        ensures { IfOk result (λ commands. commands ≡ none) }
    {
        Ok(Commands {
            running: Vec::with_capacity(alloc, MOST_ENTRIES)?,
            waiting: Waiting::new(alloc)?,
        })
    }

    /// How many there are.
    pub(crate) fn len(&self) -> usize
        ensures count { result ≡ count_of self.now }
        ensures most { result ≤ MOST_ENTRIES }
    {
        self.running.len() + self.waiting.len()
    }

    /// Does one of them have this identifier?
    pub(crate) fn has(&self, command: u16) -> bool
        ensures { result ≡ has_command command self.now }
    {
        place_of(self.running.as_slice(), command).is_some() || self.waiting.has(command)
    }

    /// One more waits, whose capsule has come whole: its data goes with it, and the next PDU comes.
    pub(crate) fn wait(&mut self, command: WaitingEntry, receiver: &mut Receiver)
        requires few { count_of self.old < MOST_ENTRIES }
        requires whole { receiver.old.progress ≡ Whole CapsuleCmd }
        ensures added { self.new
            ≡ waiting_with (record { entry = command.entry; «data» = drop 72 receiver.old.pending; wanted = command.wanted }) self.old }
        ensures receiver { receiver.new ≡ next receiver.old }
        ensures between { IsBetween receiver.new }
    {
        self.waiting.push(command, receiver);
    }

    /// The first of those that wait.
    pub(crate) fn first(&self) -> Option<WaitingEntry>
        ensures { result ≡ option_map entry_of (first_of self.now) }
    {
        self.waiting.first()
    }

    /// The data in its capsule.
    pub(crate) fn first_data(&self) -> &[u8]
        ensures { result.now ≡ data_in (first_of self.now) }
    {
        self.waiting.first_data()
    }

    /// The first of those that wait which wants data by an R2T, where none is under way for it.
    pub(crate) fn unasked(&self, receiver: &Receiver) -> Option<WaitingEntry>
        ensures { result ≡ option_map entry_of (find (λ command. is_unasked receiver.now.expected.transfers command) self.now.waiting) }
    {
        self.waiting.unasked(receiver)
    }

    /// The first of those that wait is executed from now on.
    pub(crate) fn start(&mut self)
        ensures { self.new ≡ started self.old }
    {
        match self.waiting.pop_front() {
            Some(command) => append(&mut self.running, command),
            None => {}
        }
    }

    /// Lets one that is executed go, and tells whether it was.
    pub(crate) fn complete(&mut self, command: u16) -> bool
        ensures was { result ≡ is_running command self.old }
        ensures state { self.new ≡ without command self.old }
    {
        remove(&mut self.running, command)
    }

    /// Forgets all.
    pub(crate) fn clear(&mut self)
        ensures { self.new ≡ none }
    {
        self.running.clear();
        self.waiting.clear();
    }
}
