//! Where a loop is in its round.

ghost use Rattle.std.specs.Prelude.{◌≡◌};
ghost use Rattle.tcp_loop.specs.Stages.{is_quiet, operation_of, operation_of_call, operation_of_part};

use crate::operation::{Operation, PLACES, Watched, Which};
use crate::target::Call;

/// How far a call for the file has come that puts a new file in place.
#[derive(Clone, Copy, Debug, PartialEq, Eq)]
pub enum Part {
    /// The file beside is made, which is to be put in place at once, or is only wanted.
    Made { wants: bool },
    /// Its bytes are written.
    Filled { wants: bool },
    /// They are brought to the disk.
    Flushed { wants: bool },
    /// It is given the name.
    Named,
    /// The name is brought to the disk.
    Placed,
    /// It is removed, since there is no room for it.
    Discarded,
}

/// The operation that a loop waits for. A round goes through them in this order.
#[derive(Clone, Copy, Debug, PartialEq, Eq)]
pub enum Stage {
    /// It waits until something happens.
    Polling { watched: Watched, milliseconds: u32 },
    /// It takes a signal.
    Signalled,
    /// It reads what came on a connection.
    Reading { place: usize },
    /// It asks for the time at which hosts were read.
    Timing,
    /// It makes a call for the file, all of which is one operation.
    Calling { call: Call },
    /// It makes one of several operations that are a call.
    Placing { part: Part },
    /// It asks for the time at which the calls were made.
    Called,
    /// It writes on a connection.
    Writing { place: usize },
    /// It closes a connection.
    Closing { place: usize },
    /// It takes a connection that a host begins, and perhaps so many more.
    Accepting { place: usize, more: usize },
    /// It closes one for which there is no place.
    Refusing { more: usize },
    /// It prints a line, and then perhaps fails.
    Telling { cause: bool, fails: bool },
    /// It has ended.
    Ended { done: bool },
}

impl Stage {
    /// Does its operation move no bytes of connections, begin or close none that has a place, and tell no time?
    pub fn is_quiet(self) -> bool
        ensures { result ≡ is_quiet self }
    {
        !matches!(
            self,
            Stage::Reading { .. }
                | Stage::Timing
                | Stage::Called
                | Stage::Writing { .. }
                | Stage::Closing { .. }
                | Stage::Accepting { .. }
        )
    }

    /// The operation.
    pub fn operation(self) -> Operation
        ensures { result ≡ operation_of self }
    {
        match self {
            Stage::Polling {
                watched,
                milliseconds,
            } => Operation::Poll {
                watched,
                milliseconds,
            },
            Stage::Signalled => Operation::Signal,
            Stage::Reading { place } => Operation::Read { place },
            Stage::Timing | Stage::Called => Operation::Now,
            Stage::Calling { call } => operation_of_call(call),
            Stage::Placing { part } => operation_of_part(part),
            Stage::Writing { place } => Operation::Write { place },
            Stage::Closing { place } => Operation::Close { place },
            Stage::Accepting { place, .. } => Operation::Accept { place },
            Stage::Refusing { .. } => Operation::Close { place: PLACES },
            Stage::Telling { cause, .. } => Operation::Log { cause },
            Stage::Ended { done } => Operation::End { done },
        }
    }
}

/// The operation that a call is, or the first of those that it takes.
fn operation_of_call(call: Call) -> Operation
    ensures { result ≡ operation_of_call call }
{
    match call {
        Call::Write { at } | Call::Renew { at } => Operation::Pwrite {
            file: Which::Held,
            at,
        },
        Call::Shorten { len } => Operation::Ftruncate { len },
        Call::Sync => Operation::Fsync { file: Which::Held },
        Call::Replace | Call::Want => Operation::Create,
    }
}

/// The operation on the way of a new file to its place.
fn operation_of_part(part: Part) -> Operation
    ensures { result ≡ operation_of_part part }
{
    match part {
        Part::Made { .. } => Operation::Create,
        Part::Filled { .. } => Operation::Pwrite {
            file: Which::Beside,
            at: 0,
        },
        Part::Flushed { .. } => Operation::Fsync {
            file: Which::Beside,
        },
        Part::Named => Operation::Rename,
        Part::Placed => Operation::SyncFolder,
        Part::Discarded => Operation::Discard,
    }
}
