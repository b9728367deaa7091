//! The loop.

ghost use Rattle.std.specs.Prelude.{◌≡◌, ◌≤◌, ◌<◌, [], true, false, ℕ, List, IfOk, All, length};
ghost use Rattle.stored_file.specs.Calls as calls;
ghost use Rattle.tcp_loop.specs.Disk.{is_done};
ghost use Rattle.tcp_loop.specs.Fair.{Fairly, FairlyMakes, IsFair, IsFairTo, Writes, point_of};
ghost use Rattle.tcp_loop.specs.Holding.{Carries, Holds, Keeps, Makes};
ghost use Rattle.tcp_loop.specs.Keeping.{Covers};
ghost use Rattle.tcp_loop.specs.Kept.{Begun, phase_after, phase_of};
ghost use Rattle.tcp_loop.specs.Law.{IsExplained};
ghost use Rattle.tcp_loop.specs.Orderly.{IsOrderly};
ghost use Rattle.tcp_loop.specs.Progress.{Falls, left_of, most};
ghost use Rattle.tcp_loop.specs.Rounds.{flag};
ghost use Rattle.tcp_loop.specs.Stages.{IsReady, is_quiet, operation_of};
ghost use Rattle.tcp_loop.specs.Trace.{Trace};

use crate::clock::Clock;
use crate::counters::Counters;
use crate::hosts::Hosts;
use crate::incoming::{INCOMING, Incoming};
use crate::news::{Level, Lines};
use crate::operation::{Answer, Operation, PLACES};
use crate::stage::Stage;
use crate::target::KeptTarget;
use std::alloc::{AllocError, Global};

/// What a loop is told when it begins.
#[derive(Clone, Copy, Debug, PartialEq, Eq)]
pub struct Options {
    /// How many turns runs are given in a round, and one at least.
    pub turns: u32,
    /// Whether runs may have been kept with the device, of whose commands no connection waits.
    pub has_kept_runs: bool,
    /// How much is told.
    pub level: Level,
}

/// The loop that serves a target. It says which operation is to be made next, is told what came of it, and does nothing else but in its
/// memory, all of which [`Loop::new`] takes, beside what a target takes.
#[derive(Drop)]
pub struct Loop<T: KeptTarget + Drop> {
    pub(crate) target: T,
    pub(crate) stage: Stage,
    /// What came on each connection, and isn't taken yet.
    pub(crate) incoming: Vec<Incoming>,
    /// What is known of hosts.
    pub(crate) hosts: Hosts,
    /// Whether all is done that is to be done before the end.
    pub(crate) finished: bool,
    /// Whether the journal couldn't be folded the last time, and that was told.
    pub(crate) lacks_room: bool,
    /// Whether runs may have been kept with the device, of whose commands no connection waits.
    pub(crate) has_kept_runs: bool,
    pub(crate) turns: u32,
    pub(crate) clock: Clock,
    pub(crate) counters: Counters,
    pub(crate) lines: Lines,
    ghost places: { length incoming.items ≡ 40 },
}

impl<T: KeptTarget + Drop> Loop<T> {
    /// A loop that makes the calls that wait first, as of a file that was opened, and then asks for the time.
    ///
    /// # Errors
    ///
    /// No memory for what it keeps.
    pub fn new(alloc: Global, target: T, options: Options) -> Result<Loop<T>, AllocError>
        ensures ready { IfOk result (λ made. IsReady made.stage made.incoming.items (T.free (T.at made.target).state)) }
        ensures begins { IfOk result (λ made.
            Covers T.means (T.at target).file.waits (T.at target).file.made (T.at target).state (T.at target).state
            → Holds T.means (T.at target).file.made (T.at target).state [] (phase_of made.stage) (T.at made.target) made.incoming.items
            made.clock) }
        ensures fair { IfOk result (λ made. (o : IsOrderly T.means T.free)
            → ((place : ℕ) → place < 40 → o.is_there place (T.at target).state ≡ false)
            → IsFair T.means T.free o (point_of made.stage) [] made.hosts made.incoming.items (T.at made.target).state) }
        ensures ends { IfOk result (λ made. left_of made.stage made.hosts.there made.lines made.finished ≤ most) }
    {
        let mut made = Loop::idle(alloc, target, options)?;
        made.make_first_calls();
        Ok(made)
    }

    /// Makes the calls that wait at the beginning, or asks for the time.
    fn make_first_calls(&mut self)
        ensures ready { IsReady self.new.stage self.new.incoming.items (T.free (T.at self.new.target).state) }
        ensures keeps { Keeps T.means Begun (T.at self.old.target) self.old.incoming.items self.old.clock (phase_of self.new.stage)
            (T.at self.new.target) self.new.incoming.items self.new.clock }
        ensures fair { Fairly T.means T.free (Writes 0) self.old.hosts self.old.incoming.items (T.at self.old.target)
            (point_of self.new.stage) self.new.hosts self.new.incoming.items (T.at self.new.target) }
        ensures ends { left_of self.new.stage self.new.hosts.there self.new.lines self.new.finished ≤ most }
    {
        match self.target.next_call() {
            Some(call) => self.call(call),
            None => self.stage = Stage::Timing,
        }
    }

    /// One that asks for the time.
    ///
    /// # Errors
    ///
    /// No memory for what it keeps.
    fn idle(alloc: Global, target: T, options: Options) -> Result<Loop<T>, AllocError>
        ensures target { IfOk result (λ made. made.target ≡ target) }
        ensures stage { IfOk result (λ made. made.stage ≡ Stage.Timing) }
        ensures incoming { IfOk result (λ made. All (λ bytes. bytes ≡ []) made.incoming.items) }
        ensures clock { IfOk result (λ made. (made.clock.last ≡ 0) × (made.clock.untold ≡ 0)) }
        ensures hosts { IfOk result (λ made. (place : ℕ) → place < 40 → flag place made.hosts.there ≡ false) }
    {
        let incoming = no_bytes(alloc)?;
        let lines = Lines::new(alloc, options.level)?;
        Ok(Loop {
            target,
            stage: Stage::Timing,
            incoming,
            hosts: Hosts::new(),
            finished: false,
            lacks_room: false,
            has_kept_runs: options.has_kept_runs,
            turns: options.turns,
            clock: Clock::new(),
            counters: Counters::new(),
            lines,
        })
    }

    /// The operation that is to be made.
    pub fn operation(&self) -> Operation
        ensures { result ≡ operation_of self.now.stage }
    {
        self.stage.operation()
    }

    /// The bytes that it carries.
    pub fn bytes(&self) -> &[u8]
        requires ready { IsReady self.now.stage self.now.incoming.items (T.free (T.at self.now.target).state) }
        ensures carries { Carries T.means self.now.stage (T.at self.now.target) result.now }
    {
        match self.stage {
            Stage::Writing { place } => self.target.unsent(place),
            Stage::Calling { .. } | Stage::Placing { .. } => self.target.call_bytes(),
            Stage::Telling { .. } => self.lines.line(),
            _ => &[],
        }
    }

    /// What it serves.
    pub fn target(&self) -> &T
        ensures { result.now ≡ self.now.target }
    {
        &self.target
    }

    /// What it has counted.
    pub fn counters(&self) -> Counters {
        self.counters
    }

    /// Takes what came of the operation, and goes on to the next one.
    pub fn step(&mut self, answer: Answer, came: &[u8])
        requires ready { IsReady self.old.stage self.old.incoming.items (T.free (T.at self.old.target).state) }
        requires few { length came.now ≤ INCOMING }
        ensures ready { IsReady self.new.stage self.new.incoming.items (T.free (T.at self.new.target).state) }
        ensures made { (carried : List ℕ) → Carries T.means self.old.stage (T.at self.old.target) carried
            → Makes T.means (record { asked = operation_of self.old.stage; carried = carried; answer = answer; came = came.now })
            (phase_of self.old.stage) (T.at self.old.target) self.old.incoming.items self.old.clock
            (phase_of self.new.stage) (T.at self.new.target) self.new.incoming.items self.new.clock }
        ensures fair { (carried : List ℕ) → FairlyMakes T.means T.free
            (record { asked = operation_of self.old.stage; carried = carried; answer = answer; came = came.now })
            (point_of self.old.stage) self.old.hosts self.old.incoming.items (T.at self.old.target)
            (point_of self.new.stage) self.new.hosts self.new.incoming.items (T.at self.new.target) }
        ensures ends { Falls (operation_of self.old.stage)
            (left_of self.old.stage self.old.hosts.there self.old.lines self.old.finished)
            (left_of self.new.stage self.new.hosts.there self.new.lines self.new.finished) }
    {
        let stage = self.stage;
        if stage.is_quiet() {
            self.go_on(stage, answer);
        } else {
            self.take(stage, answer, came);
        }
    }

    /// Takes what came of an operation that moves no bytes of connections, begins or closes none that has a place, and tells no
    /// time.
    fn go_on(&mut self, stage: Stage, answer: Answer)
        requires ready { IsReady stage self.old.incoming.items (T.free (T.at self.old.target).state) }
        requires moves_none { is_quiet stage ≡ true }
        ensures ready { IsReady self.new.stage self.new.incoming.items (T.free (T.at self.new.target).state) }
        ensures keeps { Keeps T.means (phase_after stage (is_done answer)) (T.at self.old.target)
            self.old.incoming.items self.old.clock (phase_of self.new.stage)
            (T.at self.new.target) self.new.incoming.items self.new.clock }
        ensures fair { (carried came : List ℕ) → FairlyMakes T.means T.free
            (record { asked = operation_of stage; carried = carried; answer = answer; came = came })
            (point_of stage) self.old.hosts self.old.incoming.items (T.at self.old.target)
            (point_of self.new.stage) self.new.hosts self.new.incoming.items (T.at self.new.target) }
        ensures ends { Falls (operation_of stage) (left_of stage self.old.hosts.there self.old.lines self.old.finished)
            (left_of self.new.stage self.new.hosts.there self.new.lines self.new.finished) }
    {
        match stage {
            Stage::Polling { .. } => self.happened(answer),
            Stage::Signalled => self.take_signal(answer),
            Stage::Calling { call } => self.was_called(call, answer),
            Stage::Placing { part } => self.was_placed(part, answer),
            Stage::Refusing { more } => self.accept(more),
            Stage::Telling { fails, .. } => self.was_told(fails),
            Stage::Ended { done } => self.stage = Stage::Ended { done },
            Stage::Closing { .. } => unreachable!(),
            Stage::Timing => unreachable!(),
            Stage::Called => unreachable!(),
            Stage::Reading { .. } => unreachable!(),
            Stage::Writing { .. } => unreachable!(),
            Stage::Accepting { .. } => unreachable!(),
        }
    }

    /// Takes what came of one that does.
    fn take(&mut self, stage: Stage, answer: Answer, came: &[u8])
        requires ready { IsReady stage self.old.incoming.items (T.free (T.at self.old.target).state) }
        requires few { length came.now ≤ INCOMING }
        requires moves { is_quiet stage ≡ false }
        ensures ready { IsReady self.new.stage self.new.incoming.items (T.free (T.at self.new.target).state) }
        ensures made { (carried : List ℕ) → Carries T.means stage (T.at self.old.target) carried
            → Makes T.means (record { asked = operation_of stage; carried = carried; answer = answer; came = came.now })
            (phase_of stage) (T.at self.old.target) self.old.incoming.items self.old.clock
            (phase_of self.new.stage) (T.at self.new.target) self.new.incoming.items self.new.clock }
        ensures fair { (carried : List ℕ) → FairlyMakes T.means T.free
            (record { asked = operation_of stage; carried = carried; answer = answer; came = came.now })
            (point_of stage) self.old.hosts self.old.incoming.items (T.at self.old.target)
            (point_of self.new.stage) self.new.hosts self.new.incoming.items (T.at self.new.target) }
        ensures ends { Falls (operation_of stage) (left_of stage self.old.hosts.there self.old.lines self.old.finished)
            (left_of self.new.stage self.new.hosts.there self.new.lines self.new.finished) }
    {
        match stage {
            Stage::Reading { place } => self.was_read(place, answer, came),
            Stage::Writing { place } => self.was_written(place, answer),
            Stage::Accepting { place, more } => self.was_accepted(place, more, answer),
            Stage::Closing { place } => self.was_closed(place),
            Stage::Timing => self.was_timed(answer),
            Stage::Called => self.calls_were_timed(answer),
            Stage::Polling { .. }
            | Stage::Signalled
            | Stage::Calling { .. }
            | Stage::Placing { .. }
            | Stage::Refusing { .. }
            | Stage::Telling { .. }
            | Stage::Ended { .. } => unreachable!(),
        }
    }

    // ---- the law

    /// What holds after each step explains all that was asked for and answered by then.
    pub fn is_explained(&self)
        ensures { (opened : List calls.Call) (begun : T.State) (trace : Trace)
            → Holds T.means opened begun trace (phase_of self.now.stage) (T.at self.now.target) self.now.incoming.items self.now.clock
            → IsExplained T.means opened begun trace }
    {}

    /// What holds after each step says that its operation is fair to hosts.
    pub fn is_fair(&self)
        requires { IsReady self.now.stage self.now.incoming.items (T.free (T.at self.now.target).state) }
        ensures { (o : IsOrderly T.means T.free) (trace : Trace)
            → IsFair T.means T.free o (point_of self.now.stage) trace self.now.hosts self.now.incoming.items (T.at self.now.target).state
            → IsFairTo T.means T.free o (operation_of self.now.stage) trace self.now.incoming.items (T.at self.now.target).state }
    {}
}

/// No bytes for each place.
fn no_bytes(alloc: Global) -> Result<Vec<Incoming>, AllocError>
    ensures places { IfOk result (λ made. length made.items ≡ PLACES) }
    ensures empty { IfOk result (λ made. All (λ bytes. bytes ≡ []) made.items) }
{
    let mut incoming = Vec::with_capacity(alloc, PLACES)?;
    for _ in 0..PLACES {
        incoming.push(Incoming::new(alloc)?)?;
    }
    Ok(incoming)
}
