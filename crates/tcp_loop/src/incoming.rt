//! What came on a connection, and isn't taken yet.

ghost use Rattle.std.specs.Prelude.{◌≡◌, ◌≤◌, ◌<◌, ◌↔◌, [], IfOk, IsTrue, drop, length, slice_index_or, slice_set};

use std::alloc::{AllocError, Global};
use std::marker::Model;

/// How many bytes are read at once.
pub const INCOMING: usize = 65_536;

/// The bytes that came on a connection and weren't taken. They take no memory but that of [`Incoming::new`].
#[derive(Drop)]
pub struct Incoming {
    bytes: Vec<u8>,
    first: usize,
}

impl Model for Incoming {
    ghost use Rattle.std.specs.Prelude.{ℕ, ◌≤◌, List, drop, length, vec_capacity};

    ghost Value = { List ℕ };

    ghost view = { λ i. drop i.first i.bytes.items };

    ghost invariant = { λ i. (i.first ≤ length i.bytes.items) × (65536 ≤ vec_capacity i.bytes) };
}

impl Incoming {
    /// None.
    ///
    /// # Errors
    ///
    /// No memory.
    pub fn new(alloc: Global) -> Result<Incoming, AllocError>
        ensures { IfOk result (λ incoming. incoming ≡ []) }
    {
        Ok(Incoming {
            bytes: Vec::with_capacity(alloc, INCOMING)?,
            first: 0,
        })
    }

    /// Them.
    pub fn rest(&self) -> &[u8]
        ensures { result.now ≡ self.now }
    {
        &self.bytes[self.first..]
    }

    /// Are there none?
    pub fn is_empty(&self) -> bool
        ensures { IsTrue result ↔ (self.now ≡ []) }
    {
        self.rest().is_empty()
    }

    /// The first of them are taken.
    pub fn take(&mut self, count: usize)
        requires { count ≤ length self.old }
        ensures { self.new ≡ drop count self.old }
    {
        self.first += count;
    }

    /// Keeps these in place of those.
    pub fn put(&mut self, piece: &[u8])
        requires { length piece.now ≤ INCOMING }
        ensures { self.new ≡ piece.now }
    {
        self.bytes.clear();
        self.first = 0;
        if self.bytes.extend_from_slice(piece).is_err() {
            unreachable!();
        }
    }
}

/// The bytes that wait at a place.
#[tactic(auto, using(std::proofs::lemmas::List::get_or_default))]
pub(crate) fn rest_at(incoming: &Vec<Incoming>, place: usize) -> &[u8]
    requires { place < length incoming.now.items }
    ensures { result.now ≡ slice_index_or incoming.now.items place [] }
{
    incoming[place].rest()
}

/// The first of them are taken.
#[tactic(auto, using(std::proofs::lemmas::List::get_or_default))]
pub(crate) fn take_at(incoming: &mut Vec<Incoming>, place: usize, count: usize)
    requires within { place < length incoming.old.items }
    requires count { count ≤ length (slice_index_or incoming.old.items place []) }
    ensures { incoming.new.items ≡ slice_set incoming.old.items place (drop count (slice_index_or incoming.old.items place [])) }
{
    incoming[place].take(count);
}

/// These bytes wait at a place, and no others.
pub(crate) fn put_at(incoming: &mut Vec<Incoming>, place: usize, piece: &[u8])
    requires within { place < length incoming.old.items }
    requires few { length piece.now ≤ INCOMING }
    ensures { incoming.new.items ≡ slice_set incoming.old.items place piece.now }
{
    incoming[place].put(piece);
}
