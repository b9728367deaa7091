//! What a connection is of, and how far it is.

ghost use Rattle.std.specs.Prelude.{◌≡◌};
ghost use Rattle.tcp_connection.specs.Queue.{is_ended};

use tcp_pdus::DataAlignment;
use zone_state::Status;

/// The pair of queues of a connection (NVMe over Fabrics has one connection each), as Connect set them up (NVMe Base 2.0, 6.3).
#[derive(Clone, Copy, Debug, PartialEq, Eq)]
pub struct Queue {
    /// QID; 0 is the admin queue's.
    pub id: u16,
    /// How many entries it has: SQSIZE, which is zero-based, and one; of a queue that isn't connected 1.
    pub entries: u16,
    /// Does SQHD tell how many commands are done? Not if CATTR disabled flow control.
    pub has_flow_control: bool,
}

/// The queue of a connection before Connect.
pub const UNCONNECTED: Queue = Queue {
    id: 0,
    entries: 1,
    has_flow_control: true,
};

/// How far a connection is.
#[derive(Clone, Copy, Debug, PartialEq, Eq)]
pub enum Phase {
    /// It waits for the ICReq.
    Initializing,
    /// PDUs come and go, with data aligned as the host wants it.
    Open {
        /// HPDA of the ICReq.
        alignment: DataAlignment,
    },
    /// It has ended: nothing is taken, and nothing more is sent.
    Ended,
}

impl Phase {
    /// Has it ended?
    pub(crate) fn is_ended(self) -> bool
        ensures { result ≡ is_ended self }
    {
        matches!(self, Phase::Ended)
    }
}

/// How a command ended.
#[derive(Clone, Copy, Debug, PartialEq, Eq)]
pub struct Outcome {
    /// Its status.
    pub status: Status,
    /// Dword 0 of its completion.
    pub dw0: u32,
    /// Dword 1.
    pub dw1: u32,
}
