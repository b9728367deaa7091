//! Turns of the device's active runs.

ghost use Rattle.std.specs.Prelude.{◌≡◌, ◌<◌, IfSome, IsTrue, None, Some, is_some, slice_index_or};
ghost use Rattle.tcp_device.specs.Deeds.{Does, DoesWith, Resumed, Turned};
ghost use Rattle.tcp_device.specs.Served.{can_go, ended_by, ended_with, freed_by, next_run};

use crate::outcome::outcome_in;
use crate::pending::{PendingCommand, can_go, next_run, put_pending};
use crate::served::ServedTarget;
use device_events::CompletionEntry;
use runner::{Event, Reply};
use tcp_target::Target;
use zone_resources::RUNS;

impl ServedTarget {
    /// Gives the next run a turn, round the runs, and says whether there is one. Where the turn ends the run, its command is
    /// completed, unless its connection was closed. A run whose connection has no room for a completion is passed over; by the law
    /// `runs_go_on` there is none.
    pub fn turn(&mut self) -> bool
        ensures given { result ≡ is_some (next_run self.old) }
        ensures done { Does Turned self.old self.new }
    {
        match self.next_run() {
            Some(run) => {
                self.give_turn(run);
                true
            }
            None => false,
        }
    }

    /// The number of the run that [`ServedTarget::turn`] gives a turn; `None` where there is no such run.
    pub fn next_run(&self) -> Option<usize>
        ensures run { result ≡ next_run self.now }
        ensures within { IfSome result (λ run. run < RUNS) }
        ensures goes { IfSome result (λ run. IsTrue (can_go self.now.target (slice_index_or self.now.pending run None))) }
    {
        next_run(&self.target, &self.pending, self.next)
    }

    /// Gives this run the next turn, which is to be the one that is told, and gives the device's reply: as [`ServedTarget::turn`].
    pub fn give_turn(&mut self, run: usize) -> Reply
        requires next { next_run self.old ≡ Some run }
        requires within { run < RUNS }
        requires goes { IsTrue (can_go self.old.target (slice_index_or self.old.pending run None)) }
        ensures { DoesWith Turned self.old self.new result }
    {
        let command = self.pending[run];
        let output = self.output.as_mut_slice();
        let reply = self.device.apply(&Event::Turn { run: run as u8 }, output);
        end(&mut self.target, command, &reply);
        free(&mut self.pending, run, &reply);
        self.next = (run + 1) % RUNS;
        reply
    }

    /// Gives a run a turn whose command came over no connection of this target, as that of a run that was kept with the device, and
    /// gives the device's reply. What it completes is told to no host. A run for which a connection waits is given none, and the reply
    /// is [`Reply::Idle`], as where there is no run.
    pub fn resume(&mut self, run: usize) -> Reply
        requires within { run < RUNS }
        ensures { DoesWith (Resumed run) self.old self.new result }
    {
        if self.pending[run].is_some() {
            return Reply::Idle;
        }
        let output = self.output.as_mut_slice();
        self.device.apply(&Event::Turn { run: run as u8 }, output)
    }
}

/// Completes the command of a run that the turn has ended.
fn end(target: &mut Target, command: Option<PendingCommand>, reply: &Reply)
    requires { IsTrue (can_go target.old command) }
    ensures { target.new ≡ ended_by reply.now command target.old }
{
    match reply {
        Reply::Complete { entry, .. } => end_with(target, command, entry),
        Reply::Pending { .. } | Reply::Idle | Reply::FaultTaken | Reply::FaultRefused => {}
    }
}

/// Completes the command of a run with what the device's completion tells.
fn end_with(target: &mut Target, command: Option<PendingCommand>, completion: &CompletionEntry)
    requires { IsTrue (can_go target.old command) }
    ensures { target.new ≡ ended_with command completion.now target.old }
{
    if let Some(command) = command {
        target.end_run(
            command.connection(),
            command.command(),
            outcome_in(completion),
        );
    }
}

/// Lets another run have the number of one that the turn has ended.
fn free(pending: &mut [Option<PendingCommand>], run: usize, reply: &Reply)
    ensures { pending.new ≡ freed_by reply.now run pending.old }
{
    match reply {
        Reply::Complete { .. } => put_pending(pending, run, None),
        Reply::Pending { .. } | Reply::Idle | Reply::FaultTaken | Reply::FaultRefused => {}
    }
}
