//! The commands that wait for their turn, and the data in their capsules.

ghost use Rattle.std.specs.Prelude.{◌≡◌, ◌==◌, ◌<◌, ◌≤◌, ◌+◌, ◌++◌, ◌∷◌, [], IfOk, drop, find, length, vec_capacity, vec_len};
ghost use Rattle.std.specs.List.{All, list_any};
ghost use Rattle.std.specs.Option.{option_copied, option_map};
ghost use Rattle.tcp_pdus.specs.Direction.{identifier_of};
ghost use Rattle.tcp_pdus.specs.declared.received.HostPdu.TheVariants.{CapsuleCmd};
ghost use Rattle.tcp_connection.specs.declared.expected.Progress.TheVariants.{Whole};
ghost use Rattle.tcp_connection.specs.Receiving.{IsBetween, next};
ghost use Rattle.tcp_connection.specs.Commands.{first_in};
ghost use Rattle.tcp_connection.specs.Dealing.{is_unasked};
ghost use Rattle.tcp_connection.specs.steps.Commands.{HasRooms, IsRoom, MakesRooms, data_in, entry_of, is_unasked_entry, waiting_of};

use crate::commands::MOST_ENTRIES;
use crate::receiver::{MOST_IN_CAPSULE, Receiver};
use std::alloc::{AllocError, Global};
use std::marker::Model;
use tcp_pdus::{ENTRY_BYTES, TransferLength, identifier};

/// A command that waits for its turn, but for the data in its capsule.
#[derive(Clone, Copy)]
pub(crate) struct WaitingEntry {
    /// Its submission queue entry.
    pub(crate) entry: [u8; ENTRY_BYTES],
    /// How many bytes of data the host is to send for an R2T.
    pub(crate) wanted: Option<TransferLength>,
}

/// A command that waits for its turn.
#[derive(Drop)]
pub(crate) struct KeptCommand {
    command: WaitingEntry,
    /// The data in its capsule, in the room to which it came.
    data: Vec<u8>,
}

/// Does one of these commands have this identifier?
fn is_kept(kept: &[KeptCommand], command: u16) -> bool
    ensures { result ≡ list_any (λ it. identifier_of it.command.entry == command) kept.now }
{
    kept.iter()
        .any(|it| identifier(&it.command.entry) == command)
}

/// The first of them.
fn first_entry(kept: &[KeptCommand]) -> Option<WaitingEntry>
    ensures { result ≡ option_map entry_of (first_in (waiting_of kept.now)) }
{
    match kept.first() {
        Some(first) => Some(first.command),
        None => None,
    }
}

/// The data in its capsule.
fn first_data(kept: &[KeptCommand]) -> &[u8]
    ensures { result.now ≡ data_in (first_in (waiting_of kept.now)) }
{
    match kept.first() {
        Some(first) => first.data.as_slice(),
        None => &[],
    }
}

/// The first of them that wants data by an R2T, where none is under way for it.
fn kept_unasked<'a>(kept: &'a [KeptCommand], receiver: &Receiver) -> Option<&'a KeptCommand>
    ensures { option_copied result ≡ find (λ it. is_unasked_entry receiver.now.expected.transfers it.command) kept.now }
{
    kept.iter().find(|it| is_unasked(&it.command, receiver))
}

/// What there is of it beside its data.
fn first_unasked(kept: &[KeptCommand], receiver: &Receiver) -> Option<WaitingEntry>
    ensures { result
        ≡ option_map entry_of (find (λ command. is_unasked receiver.now.expected.transfers command) (waiting_of kept.now)) }
{
    match kept_unasked(kept, receiver) {
        Some(first) => Some(first.command),
        None => None,
    }
}

/// Does a command want data by an R2T, and is none under way for it?
fn is_unasked(command: &WaitingEntry, receiver: &Receiver) -> bool
    ensures { result ≡ is_unasked_entry receiver.now.expected.transfers command.now }
{
    command.wanted.is_some() && !receiver.has_transfer(identifier(&command.entry))
}

/// A room for each command that may wait.
fn make_rooms(alloc: Global) -> Result<Vec<Vec<u8>>, AllocError>
    ensures { IfOk result MakesRooms }
{
    let mut rooms = Vec::with_capacity(alloc, MOST_ENTRIES)?;
    while rooms.len() < MOST_ENTRIES {
        rooms.push_reserved(Vec::with_capacity(alloc, MOST_IN_CAPSULE as usize)?);
    }
    Ok(rooms)
}

/// Takes a room, of which there is one.
fn take_room(rooms: &mut Vec<Vec<u8>>) -> Vec<u8>
    requires some { 0 < vec_len rooms.old }
    requires rooms { All IsRoom rooms.old.items }
    ensures room { IsRoom result }
    ensures rooms { All IsRoom rooms.new.items }
    ensures count { length rooms.new.items + 1 ≡ length rooms.old.items }
    ensures capacity { vec_capacity rooms.new ≡ vec_capacity rooms.old }
{
    rooms.take_last()
}

/// Gives a room back, without its data.
fn give_room(rooms: &mut Vec<Vec<u8>>, mut room: Vec<u8>)
    requires place { vec_len rooms.old < vec_capacity rooms.old }
    requires room { MOST_IN_CAPSULE ≤ vec_capacity room }
    requires rooms { All IsRoom rooms.old.items }
    ensures rooms { All IsRoom rooms.new.items }
    ensures count { length rooms.new.items ≡ length rooms.old.items + 1 }
    ensures capacity { vec_capacity rooms.new ≡ vec_capacity rooms.old }
{
    room.clear();
    rooms.push_reserved(room);
}

/// Has the command of a whole capsule wait, with the data in it.
fn keep(
    kept: &mut Vec<KeptCommand>,
    rooms: &mut Vec<Vec<u8>>,
    command: WaitingEntry,
    receiver: &mut Receiver,
)
    requires few { vec_len kept.old < MOST_ENTRIES }
    requires whole { receiver.old.progress ≡ Whole CapsuleCmd }
    requires rooms { HasRooms kept.old rooms.old }
    ensures added { waiting_of kept.new.items
        ≡ waiting_of kept.old.items
        ++ (record { entry = command.entry; «data» = drop 72 receiver.old.pending; wanted = command.wanted }) ∷ [] }
    ensures rooms { HasRooms kept.new rooms.new }
    ensures receiver { receiver.new ≡ next receiver.old }
    ensures between { IsBetween receiver.new }
{
    let room = take_room(rooms);
    let data = receiver.next_with(room);
    kept.push_reserved(KeptCommand { command, data });
}

/// Lets the first command go, where there is one, and gives its identifier.
fn let_first_go(kept: &mut Vec<KeptCommand>, rooms: &mut Vec<Vec<u8>>) -> Option<u16>
    requires rooms { HasRooms kept.old rooms.old }
    ensures first { result ≡ option_map (λ it. identifier_of it.entry) (first_in (waiting_of kept.old.items)) }
    ensures rest { waiting_of kept.new.items ≡ drop 1 (waiting_of kept.old.items) }
    ensures rooms { HasRooms kept.new rooms.new }
{
    if kept.is_empty() {
        return None;
    }
    let KeptCommand { command, data } = kept.remove(0);
    give_room(rooms, data);
    Some(identifier(&command.entry))
}

/// Lets all of them go.
fn let_all_go(kept: &mut Vec<KeptCommand>, rooms: &mut Vec<Vec<u8>>)
    requires { HasRooms kept.old rooms.old }
    ensures none { kept.new.items ≡ [] }
    ensures rooms { HasRooms kept.new rooms.new }
{
    while !kept.is_empty() {
        let KeptCommand { command: _, data } = kept.take_last();
        give_room(rooms, data);
    }
}

/// The commands that wait, in the order of their capsules.
#[derive(Drop)]
pub(crate) struct Waiting {
    kept: Vec<KeptCommand>,
    /// Room for the data in the capsules of as many more as may wait.
    rooms: Vec<Vec<u8>>,
}

impl Model for Waiting {
    ghost use Rattle.std.specs.Prelude.{List};
    ghost use Rattle.tcp_connection.specs.Commands.{WaitingCommand};
    ghost use Rattle.tcp_connection.specs.steps.Commands.{HasRooms, waiting_of};

    ghost Value = { List WaitingCommand };

    ghost view = { λ w. waiting_of w.kept.items };

    ghost invariant = { λ w. HasRooms w.kept w.rooms };
}

impl Waiting {
    /// None, with room for the most that there can be.
    pub(crate) fn new(alloc: Global) -> Result<Waiting, AllocError>
        ensures { IfOk result (λ waiting. waiting ≡ []) }
    {
        Ok(Waiting {
            kept: Vec::with_capacity(alloc, MOST_ENTRIES)?,
            rooms: make_rooms(alloc)?,
        })
    }

    /// How many there are.
    pub(crate) fn len(&self) -> usize
        ensures { result ≡ length self.now }
    {
        self.kept.len()
    }

    /// Does one of them have this identifier?
    pub(crate) fn has(&self, command: u16) -> bool
        ensures { result ≡ list_any (λ it. identifier_of it.entry == command) self.now }
    {
        is_kept(self.kept.as_slice(), command)
    }

    /// The first of them.
    pub(crate) fn first(&self) -> Option<WaitingEntry>
        ensures { result ≡ option_map entry_of (first_in self.now) }
    {
        first_entry(self.kept.as_slice())
    }

    /// The data in its capsule.
    pub(crate) fn first_data(&self) -> &[u8]
        ensures { result.now ≡ data_in (first_in self.now) }
    {
        first_data(self.kept.as_slice())
    }

    /// The first of them that wants data by an R2T, where none is under way for it.
    pub(crate) fn unasked(&self, receiver: &Receiver) -> Option<WaitingEntry>
        ensures { result ≡ option_map entry_of (find (λ command. is_unasked receiver.now.expected.transfers command) self.now) }
    {
        first_unasked(self.kept.as_slice(), receiver)
    }

    /// One more waits, whose capsule has come whole: its data goes with it, and the next PDU comes.
    pub(crate) fn push(&mut self, command: WaitingEntry, receiver: &mut Receiver)
        requires few { length self.old < MOST_ENTRIES }
        requires whole { receiver.old.progress ≡ Whole CapsuleCmd }
        ensures added { self.new
            ≡ self.old ++ (record { entry = command.entry; «data» = drop 72 receiver.old.pending; wanted = command.wanted }) ∷ [] }
        ensures receiver { receiver.new ≡ next receiver.old }
        ensures between { IsBetween receiver.new }
    {
        keep(&mut self.kept, &mut self.rooms, command, receiver);
    }

    /// Lets the first go, where there is one, and gives its identifier.
    pub(crate) fn pop_front(&mut self) -> Option<u16>
        ensures first { result ≡ option_map (λ it. identifier_of it.entry) (first_in self.old) }
        ensures rest { self.new ≡ drop 1 self.old }
    {
        let_first_go(&mut self.kept, &mut self.rooms)
    }

    /// Forgets all.
    pub(crate) fn clear(&mut self)
        ensures { self.new ≡ [] }
    {
        let_all_go(&mut self.kept, &mut self.rooms);
    }
}
