//! Connections that hosts begin.

ghost use Rattle.std.specs.Prelude.{◌≡◌, ◌≤◌, ◌<◌, ◌+◌, false, ℕ, List, IsTrue, None, Some};
ghost use Rattle.tcp_loop.specs.Fair.{Accepts, Fairly, FairlyMakes, Takes, Tells, ToAccept, point_of};
ghost use Rattle.tcp_loop.specs.Holding.{Keeps, Makes};
ghost use Rattle.tcp_loop.specs.Kept.{Resting, phase_of};
ghost use Rattle.tcp_loop.specs.Progress.{left_of, to_take};
ghost use Rattle.tcp_loop.specs.Stages.{IsReady};
ghost use Rattle.tcp_loop.specs.declared.operation.Answer.TheVariants as answer;
ghost use Rattle.tcp_loop.specs.declared.operation.Operation.TheVariants as operation;

use crate::counters::add;
use crate::hosts::set;
use crate::incoming::put_at;
use crate::news::{Level, News};
use crate::operation::{Answer, PLACES};
use crate::serving::Loop;
use crate::stage::Stage;
use crate::target::KeptTarget;

impl<T: KeptTarget + Drop> Loop<T> {
    /// Takes the next connection that a host begins, where hosts wait and so many more may be taken in this round. One for which there is
    /// no place is closed at once. Where there is none, prints lines, and goes on with the next round.
    pub(crate) fn accept(&mut self, more: usize)
        ensures ready { IsReady self.new.stage self.new.incoming.items (T.free (T.at self.new.target).state) }
        ensures keeps { Keeps T.means Resting (T.at self.old.target) self.old.incoming.items self.old.clock (phase_of self.new.stage)
            (T.at self.new.target) self.new.incoming.items self.new.clock }
        ensures fair { Fairly T.means T.free (Accepts more) self.old.hosts self.old.incoming.items (T.at self.old.target)
            (point_of self.new.stage) self.new.hosts self.new.incoming.items (T.at self.new.target) }
        ensures ends { left_of self.new.stage self.new.hosts.there self.new.lines self.new.finished ≤ to_take more }
    {
        if self.may_accept(more) {
            self.stage = Stage::Accepting {
                place: self.free_place(),
                more: more - 1,
            };
        } else {
            self.tell();
        }
    }

    /// Is a host to be taken?
    fn may_accept(&self, more: usize) -> bool
        ensures yes { IsTrue result → 0 < more }
        ensures no { result ≡ false → 0 < more → ToAccept self.now.hosts → ⊥ }
    {
        more > 0 && self.hosts.ready.accepts && self.hosts.accepts && !self.hosts.ends
    }

    /// A place that is free; [`PLACES`] where there is none.
    fn free_place(&self) -> usize
        ensures free { result < PLACES → T.free (T.at self.now.target).state ≡ Some result }
        ensures none { PLACES ≤ result → T.free (T.at self.now.target).state ≡ None }
    {
        match self.target.free() {
            Some(place) => place,
            None => PLACES,
        }
    }

    /// Takes what came of it.
    pub(crate) fn was_accepted(&mut self, place: usize, more: usize, answer: Answer)
        requires { place < PLACES → T.free (T.at self.old.target).state ≡ Some place }
        ensures ready { IsReady self.new.stage self.new.incoming.items (T.free (T.at self.new.target).state) }
        ensures made { (carried came : List ℕ) → Makes T.means
            (record { asked = operation.Accept place; carried = carried; answer = answer; came = came })
            Resting (T.at self.old.target) self.old.incoming.items self.old.clock
            (phase_of self.new.stage) (T.at self.new.target) self.new.incoming.items self.new.clock }
        ensures fair { (carried came : List ℕ) → FairlyMakes T.means T.free
            (record { asked = operation.Accept place; carried = carried; answer = answer; came = came })
            Takes self.old.hosts self.old.incoming.items (T.at self.old.target)
            (point_of self.new.stage) self.new.hosts self.new.incoming.items (T.at self.new.target) }
        ensures ends { left_of self.new.stage self.new.hosts.there self.new.lines self.new.finished ≤ to_take more + 1 }
    {
        let begins = begins_at(place, answer);
        if begins {
            self.begin(place);
            self.accept(more);
        } else {
            self.was_not_begun(more, answer);
        }
    }

    /// Goes on where no connection has begun.
    fn was_not_begun(&mut self, more: usize, answer: Answer)
        ensures ready { IsReady self.new.stage self.new.incoming.items (T.free (T.at self.new.target).state) }
        ensures keeps { Keeps T.means Resting (T.at self.old.target) self.old.incoming.items self.old.clock (phase_of self.new.stage)
            (T.at self.new.target) self.new.incoming.items self.new.clock }
        ensures fair { Fairly T.means T.free Tells self.old.hosts self.old.incoming.items (T.at self.old.target)
            (point_of self.new.stage) self.new.hosts self.new.incoming.items (T.at self.new.target) }
        ensures ends { left_of self.new.stage self.new.hosts.there self.new.lines self.new.finished ≤ to_take more + 1 }
    {
        match answer {
            Answer::Done => {
                add(&mut self.counters.refused, 1);
                self.lines.tell(Level::Connections, News::Refused);
                self.stage = Stage::Refusing { more };
            }
            Answer::NoRoom => {
                self.hosts.accepts = false;
                self.tell();
            }
            _ => self.tell(),
        }
    }

    /// A connection begins.
    fn begin(&mut self, place: usize)
        requires within { place < PLACES }
        requires free { T.free (T.at self.old.target).state ≡ Some place }
        ensures made { (carried came : List ℕ) → Makes T.means
            (record { asked = operation.Accept place; carried = carried; answer = answer.Done; came = came })
            Resting (T.at self.old.target) self.old.incoming.items self.old.clock
            Resting (T.at self.new.target) self.new.incoming.items self.new.clock }
        ensures fair { (carried came : List ℕ) → FairlyMakes T.means T.free
            (record { asked = operation.Accept place; carried = carried; answer = answer.Done; came = came })
            Takes self.old.hosts self.old.incoming.items (T.at self.old.target)
            Tells self.new.hosts self.new.incoming.items (T.at self.new.target) }
    {
        add(&mut self.counters.taken, 1);
        self.lines.tell(Level::Connections, News::Begun { place });
        self.target.open(place);
        put_at(&mut self.incoming, place, &[]);
        set(&mut self.hosts.there, place, true);
        set(&mut self.hosts.full, place, false);
        set(&mut self.hosts.lost, place, false);
    }
}

/// Does a connection begin at a place, by what came of taking it?
fn begins_at(place: usize, answer: Answer) -> bool
    ensures yes { IsTrue result → (place < PLACES) × (answer ≡ Answer.Done) }
    ensures no { result ≡ false → answer ≡ Answer.Done → PLACES ≤ place }
{
    match answer {
        Answer::Done => place < PLACES,
        _ => false,
    }
}
