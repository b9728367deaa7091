//! The queues of a target.

ghost use Rattle.std.specs.Prelude.{◌≡◌, ◌≤◌, ◌<◌, IfOk, IfSome, length, position, replicate};
ghost use Rattle.tcp_target.specs.Associations.{role_at};
ghost use Rattle.tcp_target.specs.PlaceEvents.{received};
ghost use Rattle.tcp_target.specs.Places.{is_free, vacant};
ghost use Rattle.tcp_target.specs.Queues.{free_number, no_queues, opened_at, place_at, received_at, sent_at};

use crate::associations::Associations;
use crate::place::Place;
use crate::role::{MOST_CONNECTIONS, Role};
use std::alloc::{AllocError, Global};
use std::marker::Model;

/// The queues of a target: a place for each connection, by its number, and what the connections are for. It takes no memory but that
/// of [`Queues::new`].
#[derive(Drop)]
pub struct Queues {
    pub(crate) places: Vec<Place>,
    pub(crate) associations: Associations,
}

impl Model for Queues {
    ghost use Rattle.tcp_target.specs.Queues.{QueuesState};
    ghost use Rattle.tcp_target.specs.steps.Places.{HasPlaces};

    ghost Value = { QueuesState };

    ghost view = { λ q. record { places = q.places.items; associations = q.associations } };

    ghost invariant = { λ q. HasPlaces (record { places = q.places.items; associations = q.associations }) };
}

impl Queues {
    /// No connections.
    ///
    /// # Errors
    ///
    /// No memory for the places.
    pub fn new(alloc: Global) -> Result<Queues, AllocError>
        ensures { IfOk result (λ queues. queues ≡ no_queues) }
    {
        Ok(Queues {
            places: vacant_places(alloc)?,
            associations: Associations::new(),
        })
    }

    /// The number that the next connection gets: the lowest that no connection has, and under which the device has no command of the
    /// one before. `None` where there is none.
    pub fn free_number(&self) -> Option<usize>
        ensures number { result ≡ free_number self.now }
        ensures within { IfSome result (λ number. number < MOST_CONNECTIONS) }
    {
        free_number(self.places.as_slice())
    }

    /// Begins a connection, and gives its number: the lowest that no connection has, and under which the device has no command of
    /// the one before. `None` where there is none.
    pub fn open(&mut self) -> Option<usize>
        ensures number { result ≡ free_number self.old }
        ensures state { self.new ≡ opened_at result self.old }
        ensures within { IfSome result (λ number. number < MOST_CONNECTIONS) }
    {
        let number = free_number(self.places.as_slice())?;
        self.places[number].open();
        Some(number)
    }

    /// Takes bytes that came on a connection, up to the end of a PDU, and gives how many they are: none while too much is to be sent,
    /// or a command is ready.
    pub fn receive(&mut self, number: usize, piece: &[u8]) -> usize
        requires { number < MOST_CONNECTIONS }
        ensures state { self.new ≡ received_at number piece.now self.old }
        ensures count { result ≡ (received piece.now (place_at number self.old)).1 }
        ensures within { result ≤ length piece.now }
    {
        self.places[number].receive(piece)
    }

    /// Forgets the first bytes of what is to be sent on a connection, which were sent.
    pub fn sent(&mut self, number: usize, count: usize)
        requires number { number < MOST_CONNECTIONS }
        requires count { count ≤ length (place_at number self.old).unsent }
        ensures { self.new ≡ sent_at number count self.old }
    {
        self.places[number].sent(count);
    }

    /// The place of a connection.
    pub fn place(&self, number: usize) -> &Place
        requires { number < MOST_CONNECTIONS }
        ensures { result.now ≡ place_at number self.now }
    {
        &self.places[number]
    }

    /// What a connection is for.
    pub fn role(&self, number: usize) -> Role
        ensures { result ≡ role_at number self.now.associations }
    {
        self.associations.role(number)
    }
}

/// As many places as there may be connections, all vacant.
fn vacant_places(alloc: Global) -> Result<Vec<Place>, AllocError>
    ensures { IfOk result (λ places. places.items ≡ replicate 40 vacant) }
{
    let mut places = Vec::with_capacity(alloc, MOST_CONNECTIONS)?;
    for _ in 0..MOST_CONNECTIONS {
        places.push(Place::new(alloc)?)?;
    }
    Ok(places)
}

/// The lowest number that is free.
fn free_number(places: &[Place]) -> Option<usize>
    ensures number { result ≡ position is_free places.now }
    ensures within { IfSome result (λ number. number < length places.now) }
{
    places.iter().position(|place| place.is_free())
}
