//! How a block run ends.

use crate::cause::Cause;

/// How a block run ended.
#[derive(Clone, Copy, Debug, PartialEq, Eq)]
pub enum End {
    /// By EXIT, with this in R0.
    Exit { r0: u64 },
    /// At this slot, by an instruction that can't be done.
    Trap { slot: usize, cause: Cause },
    /// With no fuel left.
    OutOfFuel,
}
