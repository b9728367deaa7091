//! The commands that active runs complete.

ghost use Rattle.std.specs.Prelude.{◌≡◌, ◌<◌, ◌≤◌, ◌+◌, IfSome, IsTrue, None, drop, length, position, slice_index_or, slice_set};
ghost use Rattle.tcp_device.specs.Served.{can_go, or_else, run_from};

use std::marker::Model;
use tcp_target::{MOST_CONNECTIONS, Target};
use zone_resources::RUNS;

/// The command that a run completes.
#[derive(Clone, Copy)]
pub(crate) struct PendingCommand {
    connection: usize,
    command: u16,
}

impl Model for PendingCommand {
    ghost use Rattle.std.specs.Prelude.{◌<◌};
    ghost use Rattle.tcp_device.specs.State.{CommandOfRun};

    ghost Value = { CommandOfRun };

    ghost view = { λ p. record { connection = p.connection; command = p.command } };

    ghost invariant = { λ p. p.connection < 40 };

    ghost inverse = { λ p. record { connection = p.connection; command = p.command } };
}

impl PendingCommand {
    /// The command of a connection with an identifier.
    pub(crate) fn new(connection: usize, command: u16) -> PendingCommand
        requires { connection < MOST_CONNECTIONS }
        ensures { result ≡ record { connection = connection; command = command } }
    {
        PendingCommand {
            connection,
            command,
        }
    }

    /// The number of its connection.
    pub(crate) fn connection(&self) -> usize
        ensures value { result ≡ self.now.connection }
        ensures within { result < MOST_CONNECTIONS }
    {
        self.connection
    }

    /// Its identifier.
    pub(crate) fn command(&self) -> u16
        ensures { result ≡ self.now.command }
    {
        self.command
    }
}

/// May the run of a command have a turn: has its connection room for a completion?
pub(crate) fn can_go(target: &Target, pending: &Option<PendingCommand>) -> bool
    ensures { result ≡ can_go target.now pending.now }
{
    match pending {
        Some(pending) => target.connection(pending.connection()).has_room(0),
        None => false,
    }
}

/// The lowest place of a run that may have a turn.
fn place_in(target: &Target, pending: &[Option<PendingCommand>]) -> Option<usize>
    ensures place { result ≡ position (can_go target.now) pending.now }
    ensures within { IfSome result (λ place. place < length pending.now) }
    ensures goes { IfSome result (λ place. IsTrue (can_go target.now (slice_index_or pending.now place None))) }
{
    pending.iter().position(|pending| can_go(target, pending))
}

/// The lowest number from this one on of a run that may have a turn.
fn run_from(target: &Target, pending: &[Option<PendingCommand>], first: usize) -> Option<usize>
    requires { first ≤ length pending.now }
    ensures run { result ≡ run_from target.now pending.now first }
    ensures within { IfSome result (λ run. run < length pending.now) }
    ensures goes { IfSome result (λ run. IsTrue (can_go target.now (slice_index_or pending.now run None))) }
{
    match place_in(target, &pending[first..]) {
        Some(place) => Some(first + place),
        None => None,
    }
}

/// The number of the run that may have the next turn, round the runs.
pub(crate) fn next_run(
    target: &Target,
    pending: &[Option<PendingCommand>; RUNS],
    next: usize,
) -> Option<usize>
    requires { next < RUNS }
    ensures run { result ≡ or_else (run_from target.now pending.now next) (run_from target.now pending.now 0) }
    ensures within { IfSome result (λ run. run < RUNS) }
    ensures goes { IfSome result (λ run. IsTrue (can_go target.now (slice_index_or pending.now run None))) }
{
    match run_from(target, pending, next) {
        Some(run) => Some(run),
        None => run_from(target, pending, 0),
    }
}

/// The commands where the one of a run is another.
#[tactic(auto, using(std::proofs::lemmas::List::set_past))]
pub(crate) fn put_pending(
    pending: &mut [Option<PendingCommand>],
    run: usize,
    command: Option<PendingCommand>,
)
    ensures { pending.new ≡ slice_set pending.old run command }
{
    if run < pending.len() {
        pending[run] = command;
    }
}
