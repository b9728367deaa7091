//! The numbers that cross to C, beside those of an image's faults, which are 10 to 18, and those of `kind.rt`. `c/pifnjarl_device.h`
//! or `c/pifnjarl_handle.h` has each under a name.

/// The kind of event that submits an entry to a queue.
pub const SUBMIT: usize = 1;

/// The kind that gives a run a turn.
pub const TURN: usize = 2;

/// The kind of a fault after which a zone can only be read.
pub const FAULT_READ_ONLY: usize = 3;

/// The kind of a fault after which a zone is lost.
pub const FAULT_OFFLINE: usize = 4;

/// What was asked for is done.
pub const DONE: u32 = 0;

/// There is nothing behind a handle: the file has what no crash leaves of a journal.
pub const DAMAGED: u32 = 40;

/// There is nothing behind a handle: no door has such a number.
pub const NO_DOOR: u32 = 41;

/// There is nothing behind a handle: another version of the device made the journal, or one with another profile.
pub const OTHER_VERSION: u32 = 42;

/// A reply: a completion.
pub const COMPLETION: usize = 1;

/// A reply: a run was admitted, or has turns left.
pub const PENDING: usize = 2;

/// A reply: no run has this number.
pub const IDLE: usize = 3;

/// A reply: a fault was taken.
pub const FAULT_TAKEN: usize = 4;

/// A reply: a fault was refused.
pub const FAULT_REFUSED: usize = 5;

/// Nothing was done: there is no device.
pub const NO_DEVICE: usize = 32;

/// Nothing was done: the entry hasn't 64 bytes, or the output hasn't room for the largest transfer.
pub const WRONG_SIZE: usize = 33;

/// Nothing was done: no event is of this kind.
pub const UNKNOWN_KIND: usize = 34;

/// Nothing was done: no queue or run has such a number.
pub const NUMBER_TOO_LARGE: usize = 35;

/// In place of a run's number where none is active.
pub const NO_RUN: usize = 256;
