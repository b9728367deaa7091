//! Lines, and the end.

ghost use Rattle.std.specs.Prelude.{◌≡◌, ◌≤◌, if◌then◌else◌, ℕ, List};
ghost use Rattle.tcp_loop.specs.Fair.{Fairly, Over, Point, Tells, point_of};
ghost use Rattle.tcp_loop.specs.Holding.{Keeps};
ghost use Rattle.tcp_loop.specs.Kept.{Phase, Resting, Stopped, phase_of};
ghost use Rattle.tcp_loop.specs.Progress.{left_of, to_fail, to_print, to_take};
ghost use Rattle.tcp_loop.specs.Stages.{IsReady};

use crate::news::{Level, News};
use crate::serving::Loop;
use crate::stage::Stage;
use crate::target::KeptTarget;

impl<T: KeptTarget + Drop> Loop<T> {
    /// Prints the lines that wait, and goes on with the next round, or ends.
    pub(crate) fn tell(&mut self)
        ensures ready { IsReady self.new.stage self.new.incoming.items (T.free (T.at self.new.target).state) }
        ensures keeps { Keeps T.means Resting (T.at self.old.target) self.old.incoming.items self.old.clock (phase_of self.new.stage)
            (T.at self.new.target) self.new.incoming.items self.new.clock }
        ensures fair { Fairly T.means T.free Tells self.old.hosts self.old.incoming.items (T.at self.old.target)
            (point_of self.new.stage) self.new.hosts self.new.incoming.items (T.at self.new.target) }
        ensures ends { left_of self.new.stage self.new.hosts.there self.new.lines self.new.finished ≤ to_print self.old.lines }
        ensures few { left_of self.new.stage self.new.hosts.there self.new.lines self.new.finished ≤ to_take 0 }
    {
        match self.lines.next() {
            Some(cause) => self.stage = Stage::Telling {
                cause,
                fails: false,
            },
            None if self.hosts.ends => self.finish(),
            None => self.begin_round(),
        }
    }

    /// A line is printed.
    pub(crate) fn was_told(&mut self, fails: bool)
        ensures ready { IsReady self.new.stage self.new.incoming.items (T.free (T.at self.new.target).state) }
        ensures keeps { Keeps T.means (if fails then Stopped else Resting) (T.at self.old.target)
            self.old.incoming.items self.old.clock (phase_of self.new.stage)
            (T.at self.new.target) self.new.incoming.items self.new.clock }
        ensures fair { Fairly T.means T.free (if fails then Over else Tells) self.old.hosts self.old.incoming.items (T.at self.old.target)
            (point_of self.new.stage) self.new.hosts self.new.incoming.items (T.at self.new.target) }
        ensures ends { left_of self.new.stage self.new.hosts.there self.new.lines self.new.finished
            ≤ (if fails then self.old.lines else to_print self.old.lines) }
    {
        if fails {
            self.tell_failure();
        } else {
            self.tell();
        }
    }

    /// Has the program fail, once its lines are printed.
    pub(crate) fn fail(&mut self, news: News)
        ensures ready { IsReady self.new.stage self.new.incoming.items (T.free (T.at self.new.target).state) }
        ensures keeps { (phase : Phase) → Keeps T.means phase (T.at self.old.target)
            self.old.incoming.items self.old.clock (phase_of self.new.stage)
            (T.at self.new.target) self.new.incoming.items self.new.clock }
        ensures fair { (p : Point) → Fairly T.means T.free p self.old.hosts self.old.incoming.items (T.at self.old.target)
            (point_of self.new.stage) self.new.hosts self.new.incoming.items (T.at self.new.target) }
        ensures ends { left_of self.new.stage self.new.hosts.there self.new.lines self.new.finished ≤ to_fail }
    {
        self.lines.tell(Level::Failures, news);
        self.tell_failure();
    }

    /// Prints the lines that wait, and fails.
    fn tell_failure(&mut self)
        ensures ready { IsReady self.new.stage self.new.incoming.items (T.free (T.at self.new.target).state) }
        ensures keeps { Keeps T.means Stopped (T.at self.old.target) self.old.incoming.items self.old.clock (phase_of self.new.stage)
            (T.at self.new.target) self.new.incoming.items self.new.clock }
        ensures fair { Fairly T.means T.free Over self.old.hosts self.old.incoming.items (T.at self.old.target)
            (point_of self.new.stage) self.new.hosts self.new.incoming.items (T.at self.new.target) }
        ensures ends { left_of self.new.stage self.new.hosts.there self.new.lines self.new.finished ≤ self.old.lines }
        ensures few { left_of self.new.stage self.new.hosts.there self.new.lines self.new.finished ≤ to_fail }
    {
        match self.lines.next() {
            Some(cause) => self.stage = Stage::Telling { cause, fails: true },
            None => self.stage = Stage::Ended { done: false },
        }
    }
}
