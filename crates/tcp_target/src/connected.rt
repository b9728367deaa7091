//! What there is when a Connect comes, and what it comes to.

ghost use Rattle.std.specs.Prelude.{◌≡◌, ◌<◌, ◌≤◌};
ghost use Rattle.tcp_target.specs.Connected.{success};

use crate::connect_data::Host;
use tcp_connection::{Outcome, Queue};
use zone_state::Status;

/// The controller that a Connect names by CNTLID.
#[derive(Clone, Copy)]
pub struct NamedController {
    /// Who made it.
    pub host: Host,
    /// Is it ready for I/O (CSTS.RDY)?
    pub is_ready: bool,
    /// Has its queue of the identifier that is asked for a connection already?
    pub has_connection: bool,
}

/// The controllers that there are.
#[derive(Clone, Copy)]
pub struct Controllers {
    /// The one that the Connect names, if there is one.
    pub named: Option<NamedController>,
    /// The identifier that one more would have, if there may be one more.
    pub free: Option<u16>,
}

/// What a Connect that succeeds sets up.
#[derive(Clone, Copy, Debug, PartialEq, Eq)]
pub struct Connected {
    /// The identifier of the controller, which of QID 0 is made.
    pub controller: u16,
    /// The queue.
    pub queue: Queue,
    /// The most bytes of data in a capsule.
    pub in_capsule: u16,
}

impl Connected {
    /// How the Connect is completed: Dword 0 tells the controller's identifier, and that no authentication is wanted.
    pub fn outcome(self) -> Outcome
        ensures { result ≡ success self.controller }
    {
        Outcome {
            status: Status::SUCCESS,
            dw0: u32::from(self.controller),
            dw1: 0,
        }
    }
}
