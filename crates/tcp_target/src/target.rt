//! A target.

ghost use Rattle.std.specs.Prelude.{◌≡◌, ◌≤◌, IfOk, length};
ghost use Rattle.tcp_target.specs.Target.{begun};

use crate::clocks::{ConnectionClock, ControllerClock};
use crate::queues::Queues;
use crate::role::MOST_CONNECTIONS;
use std::alloc::{AllocError, Global};
use std::marker::Model;
use tcp_admin::{Controller, MOST_ADMIN_DATA, NamespaceFormat, Subsystem};

/// The places for controllers: one for each identifier, and for 0, which none has.
pub(crate) const PLACES: usize = 5;

/// An NVMe/TCP target: it answers what connects to it, and hands I/O commands out to the device. It takes no memory but that of
/// [`Target::new`].
#[derive(Drop)]
pub struct Target {
    pub(crate) queues: Queues,
    /// The controllers, by their identifiers.
    pub(crate) controllers: [Controller; PLACES],
    /// The clocks of the connections, by their numbers.
    pub(crate) connection_clocks: [ConnectionClock; MOST_CONNECTIONS],
    /// Those of the controllers, by their identifiers.
    pub(crate) controller_clocks: [ControllerClock; PLACES],
    pub(crate) subsystem: Subsystem,
    pub(crate) format: NamespaceFormat,
    /// Room for the data of an admin command.
    pub(crate) page: Vec<u8>,
}

impl Model for Target {
    ghost use Rattle.std.specs.Prelude.{◌≤◌, vec_capacity};
    ghost use Rattle.tcp_target.specs.Target.{TargetState};

    ghost Value = { TargetState };

    ghost view = { λ t. record { queues = t.queues; controllers = t.controllers; connection_clocks = t.connection_clocks; controller_clocks = t.controller_clocks; subsystem = t.subsystem; format = t.format } };

    ghost invariant = { λ t. 4096 ≤ vec_capacity t.page };
}

impl Target {
    /// A target without connections.
    ///
    /// # Errors
    ///
    /// No memory for what it keeps.
    pub fn new(
        alloc: Global,
        subsystem: Subsystem,
        format: NamespaceFormat,
    ) -> Result<Target, AllocError>
        ensures { IfOk result (λ target. target ≡ begun subsystem format) }
    {
        Ok(Target {
            queues: Queues::new(alloc)?,
            controllers: [Controller::new(0, 0); PLACES],
            connection_clocks: [ConnectionClock::new(); MOST_CONNECTIONS],
            controller_clocks: [ControllerClock::new(); PLACES],
            subsystem,
            format,
            page: Vec::with_capacity(alloc, MOST_ADMIN_DATA)?,
        })
    }

    /// Has the target be another subsystem from now on, as before its first connection.
    pub fn set_subsystem(&mut self, subsystem: Subsystem)
        ensures { self.new ≡ record self.old { subsystem = subsystem } }
    {
        self.subsystem = subsystem;
    }

    /// SUBNQN, the name of the subsystem.
    pub fn nqn(&self) -> &[u8]
        ensures { result.now ≡ self.now.subsystem.nqn }
    {
        self.subsystem.nqn.as_bytes()
    }
}
