//! What a device replies.

ghost use Rattle.std.specs.Prelude.{◌≡◌};
ghost use Rattle.device_events.specs.Replies.{data_length};

use crate::completion_entry::CompletionEntry;

/// The reply to an event.
#[derive(Clone, Copy, Debug, PartialEq, Eq)]
pub enum Reply {
    /// The completion of a submitted entry, with `length` bytes of data.
    Complete {
        /// The queue that the command came from.
        queue: u16,
        /// The completion (NVMe Base 2.0, 3.3.3.2).
        entry: CompletionEntry,
        /// How many bytes of data go with it.
        length: usize,
    },
    /// A run was admitted, or has turns left.
    Pending {
        /// The run's number.
        run: u8,
    },
    /// No run has this number.
    Idle,
    /// A fault was taken.
    FaultTaken,
    /// A fault was refused.
    FaultRefused,
}

impl Reply {
    /// How many bytes of data go with the reply.
    pub fn data_length(&self) -> usize
        ensures { result ≡ data_length self.now }
    {
        match self {
            Reply::Complete { length, .. } => *length,
            Reply::Pending { .. } | Reply::Idle | Reply::FaultTaken | Reply::FaultRefused => 0,
        }
    }
}
