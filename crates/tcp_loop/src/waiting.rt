//! Waiting, and what happened then.

ghost use Rattle.std.specs.Prelude.{◌≡◌, ◌≤◌, ◌<◌, ℕ, List, [], IsTrue, false, slice_index_or, true};
ghost use Rattle.tcp_loop.specs.Fair.{Begins, Fairly, FairlyMakes, IsWatched, Reads, Waits, Writes, point_of};
ghost use Rattle.tcp_loop.specs.Holding.{Keeps, Makes};
ghost use Rattle.tcp_loop.specs.Kept.{Attending, Resting, phase_of};
ghost use Rattle.tcp_loop.specs.Progress.{left_of, most, to_begin, to_commit, to_read};
ghost use Rattle.tcp_loop.specs.Rounds.{flag};
ghost use Rattle.tcp_loop.specs.Stages.{IsReady};
ghost use Rattle.tcp_loop.specs.declared.operation.Operation.TheVariants as operation;
ghost use Rattle.tcp_loop.specs.declared.operation.Watched.{Watched};

use crate::counters::{Counters, add};
use crate::hosts::{either, is_set, none, ready_of, set, still_full};
use crate::incoming::rest_at;
use crate::news::{Level, Lines, News};
use crate::operation::{Answer, PLACES, Watched, is_to_end};
use crate::serving::Loop;
use crate::stage::Stage;
use crate::target::KeptTarget;

impl<T: KeptTarget + Drop> Loop<T> {
    /// Ends a round, and waits for the next.
    pub(crate) fn poll(&mut self, is_busy: bool)
        ensures ready { IsReady self.new.stage self.new.incoming.items (T.free (T.at self.new.target).state) }
        ensures keeps { Keeps T.means (Attending 40) (T.at self.old.target) self.old.incoming.items self.old.clock (phase_of self.new.stage)
            (T.at self.new.target) self.new.incoming.items self.new.clock }
        ensures fair { Fairly T.means T.free Begins self.old.hosts self.old.incoming.items (T.at self.old.target)
            (point_of self.new.stage) self.new.hosts self.new.incoming.items (T.at self.new.target) }
        ensures ends { left_of self.new.stage self.new.hosts.there self.new.lines self.new.finished ≤ to_begin }
    {
        add(&mut self.counters.rounds, 1);
        self.stage = Stage::Polling {
            watched: self.watched(),
            milliseconds: if is_busy { 0 } else { 1000 },
        };
    }

    /// Where something is waited for.
    fn watched(&self) -> Watched
        ensures { IsWatched T.means result self.now.hosts self.now.incoming.items (T.at self.now.target).state }
    {
        let mut watched = Watched {
            reads: none(),
            writes: none(),
            accepts: self.hosts.accepts,
        };
        for place in 0..PLACES {
            set(&mut watched.reads, place, self.may_read(place));
            set(&mut watched.writes, place, self.may_write(place));
        }
        watched
    }

    /// Is there a connection at a place, of which no bytes wait?
    fn may_read(&self, place: usize) -> bool
        requires { place < PLACES }
        ensures yes { IsTrue result
            → (flag place self.now.hosts.there ≡ true) × (slice_index_or self.now.incoming.items place [] ≡ []) }
        ensures no { result ≡ false
            → flag place self.now.hosts.there ≡ true → slice_index_or self.now.incoming.items place [] ≡ [] → ⊥ }
    {
        is_set(&self.hosts.there, place) && rest_at(&self.incoming, place).is_empty()
    }

    /// Is there one on which something is to be sent?
    fn may_write(&self, place: usize) -> bool
        requires { place < PLACES }
        ensures yes { IsTrue result → (flag place self.now.hosts.there ≡ true)
            × (T.means.to_send place (T.at self.now.target).state ≡ [] → ⊥) }
        ensures no { result ≡ false → flag place self.now.hosts.there ≡ true
            → (T.means.to_send place (T.at self.now.target).state ≡ [] → ⊥) → ⊥ }
    {
        is_set(&self.hosts.there, place) && !self.target.unsent(place).is_empty()
    }

    /// Takes what happened where it was waited for.
    pub(crate) fn happened(&mut self, answer: Answer)
        ensures ready { IsReady self.new.stage self.new.incoming.items (T.free (T.at self.new.target).state) }
        ensures keeps { Keeps T.means Resting (T.at self.old.target) self.old.incoming.items self.old.clock (phase_of self.new.stage)
            (T.at self.new.target) self.new.incoming.items self.new.clock }
        ensures fair { (watched : Watched) (milliseconds : ℕ) (carried came : List ℕ) → FairlyMakes T.means T.free
            (record { asked = operation.Poll watched milliseconds; carried = carried; answer = answer; came = came })
            (Waits watched) self.old.hosts self.old.incoming.items (T.at self.old.target)
            (point_of self.new.stage) self.new.hosts self.new.incoming.items (T.at self.new.target) }
        ensures ends { left_of self.new.stage self.new.hosts.there self.new.lines self.new.finished ≤ most }
    {
        self.hosts.ready = ready_of(answer);
        self.hosts.full = still_full(&self.hosts.full, &self.hosts.ready.writes);
        if self.hosts.ready.signals {
            self.stage = Stage::Signalled;
        } else {
            self.read(0);
        }
    }

    /// Takes a signal.
    pub(crate) fn take_signal(&mut self, answer: Answer)
        ensures ready { IsReady self.new.stage self.new.incoming.items (T.free (T.at self.new.target).state) }
        ensures keeps { Keeps T.means Resting (T.at self.old.target) self.old.incoming.items self.old.clock (phase_of self.new.stage)
            (T.at self.new.target) self.new.incoming.items self.new.clock }
        ensures fair { (carried came : List ℕ) → FairlyMakes T.means T.free
            (record { asked = operation.Signal; carried = carried; answer = answer; came = came })
            (Reads 0) self.old.hosts self.old.incoming.items (T.at self.old.target)
            (point_of self.new.stage) self.new.hosts self.new.incoming.items (T.at self.new.target) }
        ensures ends { left_of self.new.stage self.new.hosts.there self.new.lines self.new.finished ≤ to_read 0 }
    {
        let ends = is_to_end(answer);
        report_unless(ends, self.counters, &mut self.lines);
        self.hosts.ends = either(self.hosts.ends, ends);
        self.read(0);
    }

    /// Takes the time at which hosts were read, and commits what was done.
    pub(crate) fn was_timed(&mut self, answer: Answer)
        ensures ready { IsReady self.new.stage self.new.incoming.items (T.free (T.at self.new.target).state) }
        ensures made { (carried came : List ℕ) → Makes T.means
            (record { asked = operation.Now; carried = carried; answer = answer; came = came })
            Resting (T.at self.old.target) self.old.incoming.items self.old.clock
            (phase_of self.new.stage) (T.at self.new.target) self.new.incoming.items self.new.clock }
        ensures fair { Fairly T.means T.free (Writes 0) self.old.hosts self.old.incoming.items (T.at self.old.target)
            (point_of self.new.stage) self.new.hosts self.new.incoming.items (T.at self.new.target) }
        ensures ends { left_of self.new.stage self.new.hosts.there self.new.lines self.new.finished ≤ to_commit }
    {
        self.clock.count(answer);
        self.commit();
    }
}

/// Has the counters printed, unless the program is to end.
fn report_unless(ends: bool, counters: Counters, lines: &mut Lines) {
    if !ends {
        lines.tell(Level::Failures, News::Counted { counters });
    }
}
