//! One zone: its state, how many of its blocks are written, and its capacity.

ghost use Rattle.std.specs.Prelude.{◌≡◌, ◌≤◌, ◌↔◌, IsSome, IfSome, OnOk, OnErr, IfOk};
ghost use Rattle.zone_state.specs.Transition.{transition};
ghost use Rattle.zone_state.specs.Zone.{IsZone, write_check, after_write, in_state, kept, fault_refusal, state_of_fault};

use crate::action::Action;
use crate::state::{FaultState, ZoneState};
use crate::status::Status;
use std::marker::Model;

/// A zone: its state, its capacity in blocks, and the number of its written blocks.
///
/// The written blocks are the zone's first, so its write pointer is its lowest LBA and that number
/// (ZNS 1.1, 2.1.1.3).
#[derive(Clone, Copy, Debug, PartialEq, Eq)]
pub struct Zone {
    state: ZoneState,
    written: u32,
    capacity: u32,
}

/// A fault is refused. By itself a zone refuses one alone: to Read Only where it is Offline (profile).
#[derive(Clone, Copy, Debug, PartialEq, Eq)]
pub struct FaultRefused;

impl Model for Zone {
    ghost use Rattle.zone_state.specs.Zone.{CountedZone, IsZone};

    ghost Value = { CountedZone };

    ghost view = { λ z. record { state = z.state; written = z.written; capacity = z.capacity } };

    ghost invariant = { λ z. IsZone z.state z.written z.capacity };

    ghost inverse = { λ z. record { state = z.state; written = z.written; capacity = z.capacity } };
}

impl Zone {
    /// The zone of this state with `written` of its `capacity` blocks written; None where a zone
    /// of that state has another number of them (ZNS 1.1, 2.1.1.3), or
    /// where the capacity is 0 blocks.
    pub fn new(state: ZoneState, written: u32, capacity: u32) -> Option<Zone>
        ensures found { IsSome result ↔ IsZone state written capacity }
        ensures value { IfSome result (λ z. z ≡ record { state = state; written = written; capacity = capacity }) }
    {
        let fits = match state {
            ZoneState::Empty | ZoneState::Offline => written == 0,
            ZoneState::ImplicitlyOpened => written >= 1 && written < capacity,
            ZoneState::ExplicitlyOpened | ZoneState::Closed => written < capacity,
            ZoneState::ReadOnly | ZoneState::Full => written <= capacity,
        };
        if capacity >= 1 && fits {
            Some(Zone {
                state,
                written,
                capacity,
            })
        } else {
            None
        }
    }

    /// The zone's state.
    pub fn state(&self) -> ZoneState
        ensures { result ≡ self.now.state }
    {
        self.state
    }

    /// How many blocks are written.
    pub fn written(&self) -> u32
        ensures { result ≡ self.now.written }
    {
        self.written
    }

    /// How many blocks can be written before the zone has to be reset: at least 1.
    pub fn capacity(&self) -> u32
        ensures value { result ≡ self.now.capacity }
        ensures some { 1 ≤ result }
    {
        self.capacity
    }

    /// Whether `n` blocks, at least one, may be written from block `at` of the zone on (ZNS 1.1, 2.1.1.3 and 3.4.1):
    /// the zone is not Full, Read Only or Offline, `at` is the number of its written blocks, and so many are left. The
    /// first of these checks that fails decides.
    ///
    /// # Errors
    ///
    /// - [`Status::ZONE_IS_FULL`], [`Status::ZONE_IS_READ_ONLY`] and [`Status::ZONE_IS_OFFLINE`],
    ///   where the zone is so;
    /// - [`Status::ZONE_INVALID_WRITE`] where `at` is not the number of written blocks;
    /// - [`Status::ZONE_BOUNDARY_ERROR`] where fewer than `n` blocks are left.
    pub fn check_write(&self, at: u32, n: u32) -> Result<(), Status>
        requires { 1 ≤ n }
        ensures { result ≡ write_check self.now at n }
    {
        match self.state {
            ZoneState::Full => return Err(Status::ZONE_IS_FULL),
            ZoneState::ReadOnly => return Err(Status::ZONE_IS_READ_ONLY),
            ZoneState::Offline => return Err(Status::ZONE_IS_OFFLINE),
            _ => {}
        }
        if at != self.written {
            return Err(Status::ZONE_INVALID_WRITE);
        }
        if n > self.capacity - self.written {
            return Err(Status::ZONE_BOUNDARY_ERROR);
        }
        Ok(())
    }

    /// Notes that `n` blocks were written at the write pointer. The zone becomes Full where they
    /// reach its capacity; else it is open, and implicitly so unless the host had opened it (ZNS 1.1,
    /// 2.1.1.3).
    pub fn note_written(&mut self, n: u32)
        requires some { 1 ≤ n }
        requires fits { write_check self.old self.old.written n ≡ Ok tt }
        ensures { self.new ≡ after_write self.old n }
    {
        self.written += n;
        if self.written == self.capacity {
            self.state = ZoneState::Full;
        } else if self.state != ZoneState::ExplicitlyOpened {
            self.state = ZoneState::ImplicitlyOpened;
        }
    }

    /// Takes a Zone Send Action: the zone comes into the state to which the table of the zone state machine leads from
    /// its own (ZNS 1.1, 2.1.1.3 and 3.4.3), which is told. Reset and Offline forget the written blocks; Finish writes
    /// none. What the table refuses leaves the zone as it was.
    ///
    /// # Errors
    ///
    /// [`Status::INVALID_ZONE_STATE_TRANSITION`] where the zone's state does not allow the action;
    /// the zone is then as before.
    pub fn manage(&mut self, action: Action) -> Result<ZoneState, Status>
        ensures state { result ≡ transition action self.old.state }
        ensures ok { IfOk result (λ to. self.new ≡ in_state to self.old) }
        ensures fits { IfOk result (λ to. IsZone to (kept to self.old.written) self.old.capacity) }
        ensures err { OnErr result (self.new ≡ self.old) }
    {
        let to = action.transition(self.state)?;
        self.written = to.kept(self.written);
        self.state = to;
        Ok(to)
    }

    /// Takes a fault (profile), which leads to Read Only or Offline. Read Only keeps the written blocks, Offline
    /// forgets them; a zone that has the state already stays as it is. Read Only of an Offline zone alone is refused,
    /// and leaves it as it was.
    ///
    /// # Errors
    ///
    /// [`FaultRefused`] for Read Only where the zone is Offline; the zone is then as before.
    pub fn fault(&mut self, to: FaultState) -> Result<(), FaultRefused>
        ensures refusal { result ≡ fault_refusal to self.old.state }
        ensures ok { OnOk result (self.new ≡ in_state (state_of_fault to) self.old) }
        ensures fits { OnOk result (IsZone (state_of_fault to) (kept (state_of_fault to) self.old.written) self.old.capacity) }
        ensures err { OnErr result (self.new ≡ self.old) }
    {
        if to == FaultState::ReadOnly && self.state == ZoneState::Offline {
            return Err(FaultRefused);
        }
        self.state = to.state();
        self.written = self.state.kept(self.written);
        Ok(())
    }
}
