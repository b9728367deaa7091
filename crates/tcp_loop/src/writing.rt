//! Writing what is to be sent, closing connections, and time.

ghost use Rattle.std.specs.Prelude.{◌≡◌, ◌≤◌, ◌<◌, ◌+◌, ℕ, List, IfSome, IsNone, false, true};
ghost use Rattle.tcp_loop.specs.Fair.{Closes, Fairly, FairlyMakes, IsFirst, ToClose, ToWrite, Writes, point_of};
ghost use Rattle.tcp_loop.specs.Holding.{Keeps, Makes};
ghost use Rattle.tcp_loop.specs.Kept.{Resting, Settled, phase_of};
ghost use Rattle.tcp_loop.specs.Progress.{left_of, open_below, open_but, to_close, to_write};
ghost use Rattle.tcp_loop.specs.Rounds.{flag};
ghost use Rattle.tcp_loop.specs.Stages.{IsReady};
ghost use Rattle.tcp_loop.specs.declared.operation.Answer.{Answer};
ghost use Rattle.tcp_loop.specs.declared.operation.Operation.TheVariants as operation;

use crate::counters::add;
use crate::deeds::{close, tick};
use crate::hosts::{is_set, mark, set};
use crate::news::{Ending, Level, News};
use crate::operation::{Answer, PLACES, is_again, taken_of};
use crate::serving::Loop;
use crate::stage::Stage;
use crate::target::KeptTarget;

impl<T: KeptTarget + Drop> Loop<T> {
    /// Writes on the next connection, from this place on, that has something to be sent and takes bytes. Each has one write a round. Where
    /// there is none, lets time go on, and closes connections.
    pub(crate) fn write(&mut self, from: usize)
        ensures ready { IsReady self.new.stage self.new.incoming.items (T.free (T.at self.new.target).state) }
        ensures keeps { Keeps T.means Settled (T.at self.old.target) self.old.incoming.items self.old.clock (phase_of self.new.stage)
            (T.at self.new.target) self.new.incoming.items self.new.clock }
        ensures fair { Fairly T.means T.free (Writes from) self.old.hosts self.old.incoming.items (T.at self.old.target)
            (point_of self.new.stage) self.new.hosts self.new.incoming.items (T.at self.new.target) }
        ensures ends { left_of self.new.stage self.new.hosts.there self.new.lines self.new.finished ≤ to_write from }
    {
        match self.next_write(from) {
            Some(place) => self.stage = Stage::Writing { place },
            None => {
                self.tick();
                self.close();
            }
        }
    }

    /// That connection.
    pub(crate) fn next_write(&self, from: usize) -> Option<usize>
        ensures { IsFirst (λ place. ToWrite place self.now.hosts (T.means.to_send place (T.at self.now.target).state)) from result }
    {
        for place in from..PLACES {
            if self.is_to_write(place) {
                return Some(place);
            }
        }
        None
    }

    /// Is something to be written on a connection?
    fn is_to_write(&self, place: usize) -> bool
        requires { place < PLACES }
        ensures { result ≡ false → ToWrite place self.now.hosts (T.means.to_send place (T.at self.now.target).state) → ⊥ }
    {
        is_set(&self.hosts.there, place)
            && !is_set(&self.hosts.lost, place)
            && !is_set(&self.hosts.full, place)
            && !self.target.unsent(place).is_empty()
    }

    /// Takes how much was written.
    pub(crate) fn was_written(&mut self, place: usize, answer: Answer)
        requires { place < PLACES }
        ensures ready { IsReady self.new.stage self.new.incoming.items (T.free (T.at self.new.target).state) }
        ensures made { (came : List ℕ) → Makes T.means
            (record {
              asked = operation.Write place;
              carried = T.means.to_send place
                  (T.at self.old.target).state;
              answer = answer;
              came = came;
            })
            Settled (T.at self.old.target) self.old.incoming.items self.old.clock
            (phase_of self.new.stage) (T.at self.new.target) self.new.incoming.items self.new.clock }
        ensures fair { (carried came : List ℕ) → FairlyMakes T.means T.free
            (record { asked = operation.Write place; carried = carried; answer = answer; came = came })
            (Writes place) self.old.hosts self.old.incoming.items (T.at self.old.target)
            (point_of self.new.stage) self.new.hosts self.new.incoming.items (T.at self.new.target) }
        ensures ends { left_of self.new.stage self.new.hosts.there self.new.lines self.new.finished ≤ to_write (place + 1) }
    {
        self.take_written(place, answer);
        self.write(place + 1);
    }

    /// Forgets what was written.
    fn take_written(&mut self, place: usize, answer: Answer)
        requires { place < PLACES }
        ensures made { (came : List ℕ) → Makes T.means
            (record {
              asked = operation.Write place;
              carried = T.means.to_send place
                  (T.at self.old.target).state;
              answer = answer;
              came = came;
            })
            Settled (T.at self.old.target) self.old.incoming.items self.old.clock
            Settled (T.at self.new.target) self.new.incoming.items self.new.clock }
        ensures fair { (carried came : List ℕ) → FairlyMakes T.means T.free
            (record { asked = operation.Write place; carried = carried; answer = answer; came = came })
            (Writes place) self.old.hosts self.old.incoming.items (T.at self.old.target)
            (Writes (place + 1)) self.new.hosts self.new.incoming.items (T.at self.new.target) }
    {
        match taken_of(answer) {
            Some(count) => {
                let taken = count.min(self.target.unsent(place).len());
                self.target.sent(place, taken);
                add(&mut self.counters.sent, taken as u64);
                set(&mut self.hosts.full, place, taken == 0);
            }
            None => {
                set(&mut self.hosts.full, place, is_again(answer));
                mark(&mut self.hosts.lost, place, !is_again(answer));
            }
        }
    }

    /// Lets the target count each second. Hosts that waited for room are looked at again.
    fn tick(&mut self)
        ensures keeps { Keeps T.means Settled (T.at self.old.target) self.old.incoming.items self.old.clock
            Resting (T.at self.new.target) self.new.incoming.items self.new.clock }
        ensures fair { Fairly T.means T.free (Writes 40) self.old.hosts self.old.incoming.items (T.at self.old.target)
            Closes self.new.hosts self.new.incoming.items (T.at self.new.target) }
    {
        if self.clock.tell() {
            tick(&mut self.target, 1000);
            self.hosts.accepts = true;
        }
    }

    // ---- closing

    /// Closes the next connection that is to be closed: one can be to be closed because another was. Where there is none, takes
    /// connections that hosts begin.
    pub(crate) fn close(&mut self)
        ensures ready { IsReady self.new.stage self.new.incoming.items (T.free (T.at self.new.target).state) }
        ensures keeps { Keeps T.means Resting (T.at self.old.target) self.old.incoming.items self.old.clock (phase_of self.new.stage)
            (T.at self.new.target) self.new.incoming.items self.new.clock }
        ensures fair { Fairly T.means T.free Closes self.old.hosts self.old.incoming.items (T.at self.old.target)
            (point_of self.new.stage) self.new.hosts self.new.incoming.items (T.at self.new.target) }
        ensures ends { left_of self.new.stage self.new.hosts.there self.new.lines self.new.finished
            ≤ to_close (open_below 40 self.old.hosts.there) }
    {
        match self.next_close() {
            Some(place) => self.stage = Stage::Closing { place },
            None => self.accept(PLACES),
        }
    }

    /// That connection.
    fn next_close(&self) -> Option<usize>
        ensures first { IsFirst (λ place. ToClose place self.now.hosts) 0 result }
        ensures there { IfSome result (λ place. flag place self.now.hosts.there ≡ true) }
    {
        for place in 0..PLACES {
            if is_set(&self.hosts.there, place) && self.why_closed(place).is_some() {
                return Some(place);
            }
        }
        None
    }

    /// Why a connection is to be closed.
    fn why_closed(&self, place: usize) -> Option<Ending>
        requires { place < PLACES }
        ensures { IsNone result → flag place self.now.hosts.lost ≡ false }
    {
        if is_set(&self.hosts.lost, place) {
            Some(Ending::Lost)
        } else if self.target.is_given_up(place) {
            Some(Ending::GivenUp)
        } else if self.target.is_ended(place) && self.target.unsent(place).is_empty() {
            Some(Ending::Ended)
        } else {
            None
        }
    }

    /// It is closed.
    pub(crate) fn was_closed(&mut self, place: usize)
        requires { place < PLACES }
        ensures ready { IsReady self.new.stage self.new.incoming.items (T.free (T.at self.new.target).state) }
        ensures made { (carried came : List ℕ) (answer : Answer) → Makes T.means
            (record { asked = operation.Close place; carried = carried; answer = answer; came = came })
            Resting (T.at self.old.target) self.old.incoming.items self.old.clock
            (phase_of self.new.stage) (T.at self.new.target) self.new.incoming.items self.new.clock }
        ensures fair { (carried came : List ℕ) (answer : Answer) → FairlyMakes T.means T.free
            (record { asked = operation.Close place; carried = carried; answer = answer; came = came })
            Closes self.old.hosts self.old.incoming.items (T.at self.old.target)
            (point_of self.new.stage) self.new.hosts self.new.incoming.items (T.at self.new.target) }
        ensures ends { left_of self.new.stage self.new.hosts.there self.new.lines self.new.finished
            ≤ to_close (open_but place self.old.hosts.there) }
    {
        if let Some(why) = self.why_closed(place) {
            self.lines
                .tell(Level::Connections, News::Closed { place, why });
        }
        close(&mut self.target, place);
        set(&mut self.hosts.there, place, false);
        self.hosts.accepts = true;
        self.close();
    }
}
