//! The beginning of a round: turns of runs, and what is still there of what came.

ghost use Rattle.std.specs.Prelude.{◌≡◌, ◌≤◌, ◌<◌, ◌+◌, false, ℕ, List};
ghost use Rattle.tcp_loop.specs.Fair.{Begins, Fairly, point_of};
ghost use Rattle.tcp_loop.specs.Holding.{Keeps};
ghost use Rattle.tcp_loop.specs.Kept.{Attending, Resting, phase_of};
ghost use Rattle.tcp_loop.specs.Orderly.{HasGrown, IsOrderly};
ghost use Rattle.tcp_loop.specs.Progress.{left_of, to_begin};
ghost use Rattle.tcp_loop.specs.Stages.{IsReady};
ghost use Rattle.tcp_loop.specs.declared.clock.Clock.{Clock};

use crate::counters::{add, note_commands};
use crate::deeds::{resume, turn};
use crate::incoming::{rest_at, take_at};
use crate::news::News;
use crate::operation::PLACES;
use crate::receiving::advance;
use crate::serving::Loop;
use crate::target::{KeptTarget, RUNS};
use std::alloc::AllocError;

/// What was done at the beginning of a round.
#[derive(Clone, Copy)]
pub(crate) struct Did {
    /// Whether something was done.
    pub(crate) something: bool,
    /// Whether memory was wanting, so that the file has to be opened again.
    pub(crate) failed: bool,
}

/// Nothing.
const NOTHING: Did = Did {
    something: false,
    failed: false,
};

impl<T: KeptTarget + Drop> Loop<T> {
    /// Begins a round.
    pub(crate) fn begin_round(&mut self)
        ensures ready { IsReady self.new.stage self.new.incoming.items (T.free (T.at self.new.target).state) }
        ensures keeps { Keeps T.means Resting (T.at self.old.target) self.old.incoming.items self.old.clock (phase_of self.new.stage)
            (T.at self.new.target) self.new.incoming.items self.new.clock }
        ensures fair { Fairly T.means T.free Begins self.old.hosts self.old.incoming.items (T.at self.old.target)
            (point_of self.new.stage) self.new.hosts self.new.incoming.items (T.at self.new.target) }
        ensures ends { left_of self.new.stage self.new.hosts.there self.new.lines self.new.finished ≤ to_begin }
    {
        let given = self.give_turns();
        if given.failed {
            return self.fail(News::NoMemory);
        }
        let advanced = self.advance_all();
        if advanced.failed {
            return self.fail(News::NoMemory);
        }
        let is_busy = given.something | advanced.something | self.may_send();
        self.poll(is_busy);
    }

    /// Gives runs turns, a few. Says whether there was one.
    fn give_turns(&mut self) -> Did
        ensures attends { result.failed ≡ false
            → Keeps T.means Resting (T.at self.old.target) self.old.incoming.items self.old.clock
            (Attending 0) (T.at self.new.target) self.new.incoming.items self.new.clock }
        ensures keeps { Keeps T.means Resting (T.at self.old.target) self.old.incoming.items self.old.clock
            Resting (T.at self.new.target) self.new.incoming.items self.new.clock }
        ensures fair { Fairly T.means T.free Begins self.old.hosts self.old.incoming.items (T.at self.old.target)
            Begins self.new.hosts self.new.incoming.items (T.at self.new.target) }
    {
        let mut last = self.turn_once();
        let something = last.goes_on;
        for _ in 1..self.turns {
            if !last.goes_on {
                break;
            }
            last = self.turn_once();
        }
        Did {
            something,
            failed: last.failed,
        }
    }

    /// Gives a turn, and counts it.
    fn turn_once(&mut self) -> Turn
        ensures attends { result.failed ≡ false
            → Keeps T.means Resting (T.at self.old.target) self.old.incoming.items self.old.clock
            (Attending 0) (T.at self.new.target) self.new.incoming.items self.new.clock }
        ensures keeps { Keeps T.means Resting (T.at self.old.target) self.old.incoming.items self.old.clock
            Resting (T.at self.new.target) self.new.incoming.items self.new.clock }
        ensures fair { Fairly T.means T.free Begins self.old.hosts self.old.incoming.items (T.at self.old.target)
            Begins self.new.hosts self.new.incoming.items (T.at self.new.target) }
    {
        let one = give_turn(&mut self.target, self.has_kept_runs);
        self.has_kept_runs &= one.resumed;
        add(&mut self.counters.turns, u64::from(one.goes_on));
        one
    }

    /// Hands on what is still there of what came on connections, and has commands done that were passed over. Says whether something
    /// happened.
    fn advance_all(&mut self) -> Did
        ensures attends { result.failed ≡ false
            → Keeps T.means (Attending 0) (T.at self.old.target) self.old.incoming.items self.old.clock
            (Attending 40) (T.at self.new.target) self.new.incoming.items self.new.clock }
        ensures keeps { Keeps T.means Resting (T.at self.old.target) self.old.incoming.items self.old.clock
            Resting (T.at self.new.target) self.new.incoming.items self.new.clock }
        ensures fair { Fairly T.means T.free Begins self.old.hosts self.old.incoming.items (T.at self.old.target)
            Begins self.new.hosts self.new.incoming.items (T.at self.new.target) }
    {
        let mut did = NOTHING;
        for place in 0..PLACES {
            let one = self.advance_at(place);
            did.something |= one.something;
            did.failed = one.failed;
            if one.failed {
                return did;
            }
        }
        did
    }

    /// Hands on what is still there of what came on a connection. A place without a connection has nothing.
    fn advance_at(&mut self, place: usize) -> Did
        requires { place < PLACES }
        ensures attends { result.failed ≡ false
            → Keeps T.means (Attending place) (T.at self.old.target) self.old.incoming.items self.old.clock
            (Attending (place + 1)) (T.at self.new.target) self.new.incoming.items self.new.clock }
        ensures keeps { Keeps T.means Resting (T.at self.old.target) self.old.incoming.items self.old.clock
            Resting (T.at self.new.target) self.new.incoming.items self.new.clock }
        ensures fair { Fairly T.means T.free Begins self.old.hosts self.old.incoming.items (T.at self.old.target)
            Begins self.new.hosts self.new.incoming.items (T.at self.new.target) }
    {
        let done = advance(&mut self.target, place, rest_at(&self.incoming, place));
        take_at(&mut self.incoming, place, done.taken);
        note_commands(&mut self.counters, &mut self.lines, place, done.commands);
        Did {
            something: done.is_something(),
            failed: done.failed,
        }
    }

    /// Is there something to be sent on a connection that takes bytes?
    fn may_send(&self) -> bool {
        self.next_write(0).is_some()
    }
}

/// A turn of a run, and of each that was kept.
#[derive(Clone, Copy)]
struct Turn {
    /// Whether one was given, so that more may be.
    goes_on: bool,
    /// Whether one was given to a run that was kept.
    resumed: bool,
    /// Whether memory was wanting.
    failed: bool,
}

/// No memory.
const FAILED: Turn = Turn {
    goes_on: false,
    resumed: false,
    failed: true,
};

/// Gives the next run a turn, and each that was kept, where there may be some.
fn give_turn<T: KeptTarget>(target: &mut T, has_kept_runs: bool) -> Turn
    ensures attends { (waiting : List (List ℕ)) (clock : Clock) → result.failed ≡ false
        → Keeps T.means Resting (T.at target.old) waiting clock (Attending 0) (T.at target.new) waiting clock }
    ensures keeps { (waiting : List (List ℕ)) (clock : Clock) → Keeps T.means Resting (T.at target.old) waiting clock
        Resting (T.at target.new) waiting clock }
    ensures grows { (o : IsOrderly T.means T.free) → HasGrown T.means T.free o (T.at target.old).state (T.at target.new).state }
{
    match resume_runs(target, has_kept_runs) {
        Ok(resumed) => match turn(target) {
            Ok(given) => Turn {
                goes_on: given | resumed,
                resumed,
                failed: false,
            },
            Err(_) => FAILED,
        },
        Err(_) => FAILED,
    }
}

/// Gives a turn to each run that was kept and goes on, where there may be some. Says whether there was one.
fn resume_runs<T: KeptTarget>(target: &mut T, has_kept_runs: bool) -> Result<bool, AllocError>
    ensures keeps { (waiting : List (List ℕ)) (clock : Clock) → Keeps T.means Resting (T.at target.old) waiting clock
        Resting (T.at target.new) waiting clock }
    ensures grows { (o : IsOrderly T.means T.free) → HasGrown T.means T.free o (T.at target.old).state (T.at target.new).state }
{
    if !has_kept_runs {
        return Ok(false);
    }
    let mut went = false;
    for run in 0..RUNS {
        match resume(target, run) {
            Ok(one) => went |= one,
            Err(error) => return Err(error),
        }
    }
    Ok(went)
}
