//! Why a program isn't accepted.

use accepted_programs::Refusal;
use thiserror::Error;

/// Why a program isn't accepted.
#[derive(Clone, Copy, Debug, PartialEq, Eq, Error)]
pub enum VerifyFault {
    /// There was no memory for the facts, or for where it accesses memory; it says nothing of the program.
    #[error("no memory")]
    Memory,
    /// The lowest slot that fails, and its least reason.
    #[error("slot {}: {}", .0.slot, .0.reason)]
    Refused(Refusal),
}
