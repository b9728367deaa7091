//! A batch of events that isn't written yet.

ghost use Rattle.std.specs.Prelude.{◌≡◌, ◌↔◌, ◌<◌, ◌≤◌, ◌^◌, ◌++◌, [], ◌∷◌, List, ℕ, length, take, IsTrue, OnErr, OnOk};
ghost use Rattle.stored_file.specs.File.{IsWhole};
ghost use Rattle.durable_machine.specs.Events.{spelled};
ghost use Rattle.durable_machine.specs.Seals.{events_of};
ghost use Rattle.durable_machine.specs.Staging.{IsPayload};

use crate::journal::add_parts;
use crate::journal_reading::whole_payload;
use crate::seal::{SEAL, put, seal_bytes};
use crc32c::Sums;
use std::alloc::{AllocError, Global};
use stored_file::SECTOR;

/// Events as the journal spells them, after room for their seal. So a batch is sealed and written where its events were noted, and the
/// next one takes the same memory.
#[derive(Drop)]
pub struct Batch {
    /// No bytes, or the seal's and then those of the events.
    pub(crate) bytes: Vec<u8>,
}

impl Batch {
    /// One of no events.
    pub fn new(alloc: Global) -> Batch
        ensures { events_of result ≡ [] }
    {
        Batch {
            bytes: Vec::new(alloc),
        }
    }

    /// Has it no events?
    pub fn is_empty(&self) -> bool
        ensures { IsTrue result ↔ events_of self.now ≡ [] }
    {
        self.bytes.len() <= SEAL
    }

    /// How many bytes spell its events.
    pub(crate) fn len(&self) -> usize
        ensures { result ≡ length (events_of self.now) }
    {
        self.bytes.len().saturating_sub(SEAL)
    }

    /// Puts an event, of which the bytes stand in three parts, after those of it, whole or not at all.
    ///
    /// # Errors
    ///
    /// No memory. Then it has the same events.
    pub(crate) fn add(
        &mut self,
        first: &[u8],
        second: &[u8],
        third: &[u8],
    ) -> Result<(), AllocError>
        ensures added { OnOk result
            (events_of self.new ≡ events_of self.old ++ spelled ((first.now ++ second.now ++ third.now) ∷ [])) }
        ensures refused { OnErr result (events_of self.new ≡ events_of self.old) }
        ensures sized { OnOk result (length (first.now ++ second.now ++ third.now) < 2 ^ 64) }
    {
        self.make_room()?;
        add_parts(&mut self.bytes, first, second, third)
    }

    /// Leaves so many bytes of its events.
    pub(crate) fn truncate(&mut self, length: usize)
        ensures { events_of self.new ≡ take length (events_of self.old) }
    {
        if length < self.bytes.len() {
            self.bytes.truncate(SEAL + length);
        }
    }

    /// Leaves no events.
    pub(crate) fn clear(&mut self)
        ensures { events_of self.new ≡ [] }
    {
        self.bytes.clear();
    }

    /// Makes of it what is written after the closed gate at this offset: the seal of its events, them and zeros up to the end of a sector,
    /// and a further closed gate.
    ///
    /// # Errors
    ///
    /// No memory.
    pub(crate) fn seal(&mut self, sums: &Sums, at: usize) -> Result<(), AllocError>
        ensures is { OnOk result ((added : List (List ℕ))
            → events_of self.old ≡ spelled added → IsPayload at added self.new.bytes.items) }
        ensures whole { OnOk result (IsWhole (length self.new.bytes.items)) }
    {
        self.make_room()?;
        let seal = seal_bytes(sums, at, &self.bytes[SEAL..]);
        put(&mut self.bytes, 0, &seal);
        let whole = whole_payload(self.bytes.len());
        self.bytes.resize(whole + SECTOR, 0)?;
        Ok(())
    }

    /// Makes room for the seal.
    ///
    /// # Errors
    ///
    /// No memory.
    fn make_room(&mut self) -> Result<(), AllocError>
        ensures room { OnOk result (21 ≤ length self.new.bytes.items) }
        ensures same { events_of self.new ≡ events_of self.old }
    {
        if self.bytes.len() < SEAL {
            self.bytes.resize(SEAL, 0)?;
        }
        Ok(())
    }
}
