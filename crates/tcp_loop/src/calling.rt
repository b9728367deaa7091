//! Commits, and the calls for the file.

ghost use Rattle.std.specs.Prelude.{◌≡◌, ◌≤◌, ◌<◌, ℕ, List, None, false, true};
ghost use Rattle.tcp_loop.specs.Disk.{is_done};
ghost use Rattle.tcp_loop.specs.Fair.{Fairly, Tells, Writes, point_of};
ghost use Rattle.tcp_loop.specs.Holding.{Keeps, Makes};
ghost use Rattle.tcp_loop.specs.Keeping.{wanted_by};
ghost use Rattle.tcp_loop.specs.Kept.{Answered, Called, Committing, Due, Folding, Pending, Resting, Settled};
ghost use Rattle.tcp_loop.specs.Kept.{after_call, after_part, not_made, phase_of};
ghost use Rattle.tcp_loop.specs.Progress.{left_of, to_begin, to_call, to_commit, to_time};
ghost use Rattle.tcp_loop.specs.Stages.{IsReady};
ghost use Rattle.tcp_loop.specs.declared.stage.Part.TheVariants as part;
ghost use Rattle.tcp_loop.specs.declared.operation.Operation.TheVariants as operation;

use crate::counters::add;
use crate::deeds::{call_done, commit, finish, fold};
use crate::news::{Level, Lines, News};
use crate::operation::{Answer, is_done};
use crate::serving::Loop;
use crate::stage::{Part, Stage};
use crate::target::{Call, KeptTarget, wanted_by};

impl<T: KeptTarget + Drop> Loop<T> {
    /// Commits what was done, and makes the calls for it. Then what answers it may be sent.
    pub(crate) fn commit(&mut self)
        ensures ready { IsReady self.new.stage self.new.incoming.items (T.free (T.at self.new.target).state) }
        ensures keeps { Keeps T.means Due (T.at self.old.target) self.old.incoming.items self.old.clock (phase_of self.new.stage)
            (T.at self.new.target) self.new.incoming.items self.new.clock }
        ensures fair { Fairly T.means T.free (Writes 0) self.old.hosts self.old.incoming.items (T.at self.old.target)
            (point_of self.new.stage) self.new.hosts self.new.incoming.items (T.at self.new.target) }
        ensures ends { left_of self.new.stage self.new.hosts.there self.new.lines self.new.finished ≤ to_commit }
    {
        match commit(&mut self.target) {
            Ok(()) => self.make_calls(),
            Err(_) => self.fail(News::CannotWrite { cause: false }),
        }
    }

    /// Makes the calls by which it is committed.
    fn make_calls(&mut self)
        ensures ready { IsReady self.new.stage self.new.incoming.items (T.free (T.at self.new.target).state) }
        ensures keeps { Keeps T.means Pending (T.at self.old.target) self.old.incoming.items self.old.clock (phase_of self.new.stage)
            (T.at self.new.target) self.new.incoming.items self.new.clock }
        ensures fair { Fairly T.means T.free (Writes 0) self.old.hosts self.old.incoming.items (T.at self.old.target)
            (point_of self.new.stage) self.new.hosts self.new.incoming.items (T.at self.new.target) }
        ensures ends { left_of self.new.stage self.new.hosts.there self.new.lines self.new.finished ≤ to_commit }
    {
        match self.target.next_call() {
            Some(call) => {
                add(&mut self.counters.commits, 1);
                self.call(call);
            }
            None => self.write(0),
        }
    }

    /// Has done what is to be done before the end.
    pub(crate) fn finish(&mut self)
        ensures ready { IsReady self.new.stage self.new.incoming.items (T.free (T.at self.new.target).state) }
        ensures keeps { Keeps T.means Resting (T.at self.old.target) self.old.incoming.items self.old.clock (phase_of self.new.stage)
            (T.at self.new.target) self.new.incoming.items self.new.clock }
        ensures fair { Fairly T.means T.free Tells self.old.hosts self.old.incoming.items (T.at self.old.target)
            (point_of self.new.stage) self.new.hosts self.new.incoming.items (T.at self.new.target) }
        ensures ends { left_of self.new.stage self.new.hosts.there self.new.lines self.new.finished ≤ to_begin }
    {
        self.finished = true;
        match finish(&mut self.target) {
            Ok(()) => self.make_last_calls(),
            Err(_) => self.fail(News::NoMemory),
        }
    }

    /// Makes the calls for it, and ends.
    fn make_last_calls(&mut self)
        ensures ready { IsReady self.new.stage self.new.incoming.items (T.free (T.at self.new.target).state) }
        ensures keeps { Keeps T.means Pending (T.at self.old.target) self.old.incoming.items self.old.clock (phase_of self.new.stage)
            (T.at self.new.target) self.new.incoming.items self.new.clock }
        ensures fair { Fairly T.means T.free (Writes 0) self.old.hosts self.old.incoming.items (T.at self.old.target)
            (point_of self.new.stage) self.new.hosts self.new.incoming.items (T.at self.new.target) }
        ensures ends { left_of self.new.stage self.new.hosts.there self.new.lines self.new.finished ≤ to_call self.old.finished }
    {
        match self.target.next_call() {
            Some(call) => self.call(call),
            None => self.stage = Stage::Ended { done: true },
        }
    }

    /// Makes a call.
    pub(crate) fn call(&mut self, call: Call)
        ensures ready { IsReady self.new.stage self.new.incoming.items (T.free (T.at self.new.target).state) }
        ensures keeps { Keeps T.means (Committing call) (T.at self.old.target) self.old.incoming.items self.old.clock
            (phase_of self.new.stage)
            (T.at self.new.target) self.new.incoming.items self.new.clock }
        ensures fair { Fairly T.means T.free (Writes 0) self.old.hosts self.old.incoming.items (T.at self.old.target)
            (point_of self.new.stage) self.new.hosts self.new.incoming.items (T.at self.new.target) }
        ensures ends { left_of self.new.stage self.new.hosts.there self.new.lines self.new.finished ≤ to_call self.old.finished }
    {
        match wanted_by(call) {
            Some(wants) => self.stage = Stage::Placing {
                part: Part::Made { wants },
            },
            None => self.stage = Stage::Calling { call },
        }
    }

    /// Takes what came of a call that is one operation.
    pub(crate) fn was_called(&mut self, call: Call, answer: Answer)
        requires { wanted_by call ≡ None }
        ensures ready { IsReady self.new.stage self.new.incoming.items (T.free (T.at self.new.target).state) }
        ensures keeps { Keeps T.means (after_call (wanted_by call) (is_done answer))
            (T.at self.old.target) self.old.incoming.items self.old.clock
            (phase_of self.new.stage) (T.at self.new.target) self.new.incoming.items self.new.clock }
        ensures fair { Fairly T.means T.free (Writes 0) self.old.hosts self.old.incoming.items (T.at self.old.target)
            (point_of self.new.stage) self.new.hosts self.new.incoming.items (T.at self.new.target) }
        ensures ends { left_of self.new.stage self.new.hosts.there self.new.lines self.new.finished ≤ to_call self.old.finished }
    {
        let _call = call;
        if is_done(answer) {
            self.call_done();
        } else {
            self.fail(News::CannotWrite { cause: true });
        }
    }

    /// Goes on after a call that is done.
    fn call_done(&mut self)
        ensures ready { IsReady self.new.stage self.new.incoming.items (T.free (T.at self.new.target).state) }
        ensures keeps { Keeps T.means Answered (T.at self.old.target) self.old.incoming.items self.old.clock (phase_of self.new.stage)
            (T.at self.new.target) self.new.incoming.items self.new.clock }
        ensures fair { Fairly T.means T.free (Writes 0) self.old.hosts self.old.incoming.items (T.at self.old.target)
            (point_of self.new.stage) self.new.hosts self.new.incoming.items (T.at self.new.target) }
        ensures ends { left_of self.new.stage self.new.hosts.there self.new.lines self.new.finished ≤ to_call self.old.finished }
    {
        call_done(&mut self.target);
        match self.target.next_call() {
            Some(call) => self.call(call),
            None => self.stage = Stage::Called,
        }
    }

    /// Takes the time at which the calls were made: it is no host's silence.
    pub(crate) fn calls_were_timed(&mut self, answer: Answer)
        ensures ready { IsReady self.new.stage self.new.incoming.items (T.free (T.at self.new.target).state) }
        ensures made { (carried came : List ℕ) → Makes T.means
            (record { asked = operation.Now; carried = carried; answer = answer; came = came })
            Called (T.at self.old.target) self.old.incoming.items self.old.clock
            (phase_of self.new.stage) (T.at self.new.target) self.new.incoming.items self.new.clock }
        ensures fair { Fairly T.means T.free (Writes 0) self.old.hosts self.old.incoming.items (T.at self.old.target)
            (point_of self.new.stage) self.new.hosts self.new.incoming.items (T.at self.new.target) }
        ensures ends { left_of self.new.stage self.new.hosts.there self.new.lines self.new.finished < to_time self.old.finished }
    {
        self.clock.skip(answer);
        self.go_on_once_called();
    }

    /// Ends, or writes what may be sent now.
    fn go_on_once_called(&mut self)
        ensures ready { IsReady self.new.stage self.new.incoming.items (T.free (T.at self.new.target).state) }
        ensures keeps { Keeps T.means Settled (T.at self.old.target) self.old.incoming.items self.old.clock (phase_of self.new.stage)
            (T.at self.new.target) self.new.incoming.items self.new.clock }
        ensures fair { Fairly T.means T.free (Writes 0) self.old.hosts self.old.incoming.items (T.at self.old.target)
            (point_of self.new.stage) self.new.hosts self.new.incoming.items (T.at self.new.target) }
        ensures ends { left_of self.new.stage self.new.hosts.there self.new.lines self.new.finished < to_time self.old.finished }
    {
        let finished = self.finished;
        if finished {
            self.stage = Stage::Ended { done: true };
        } else {
            self.write(0);
        }
    }

    // ---- a new file

    /// Takes what came of an operation on the way of a new file to its place.
    pub(crate) fn was_placed(&mut self, part: Part, answer: Answer)
        ensures ready { IsReady self.new.stage self.new.incoming.items (T.free (T.at self.new.target).state) }
        ensures keeps { Keeps T.means (after_part part (is_done answer)) (T.at self.old.target) self.old.incoming.items self.old.clock
            (phase_of self.new.stage) (T.at self.new.target) self.new.incoming.items self.new.clock }
        ensures fair { Fairly T.means T.free (Writes 0) self.old.hosts self.old.incoming.items (T.at self.old.target)
            (point_of self.new.stage) self.new.hosts self.new.incoming.items (T.at self.new.target) }
        ensures ends { left_of self.new.stage self.new.hosts.there self.new.lines self.new.finished ≤ to_call self.old.finished }
    {
        if is_done(answer) {
            self.part_is_done(part);
        } else {
            self.part_is_not_done(part);
        }
    }

    /// Makes the next operation.
    fn part_is_done(&mut self, part: Part)
        ensures ready { IsReady self.new.stage self.new.incoming.items (T.free (T.at self.new.target).state) }
        ensures keeps { Keeps T.means (after_part part true) (T.at self.old.target) self.old.incoming.items self.old.clock
            (phase_of self.new.stage) (T.at self.new.target) self.new.incoming.items self.new.clock }
        ensures fair { Fairly T.means T.free (Writes 0) self.old.hosts self.old.incoming.items (T.at self.old.target)
            (point_of self.new.stage) self.new.hosts self.new.incoming.items (T.at self.new.target) }
        ensures ends { left_of self.new.stage self.new.hosts.there self.new.lines self.new.finished ≤ to_call self.old.finished }
    {
        match part {
            Part::Made { wants } => self.stage = Stage::Placing {
                part: Part::Filled { wants },
            },
            Part::Filled { wants } => self.stage = Stage::Placing {
                part: Part::Flushed { wants },
            },
            Part::Flushed { wants } => self.part_is_flushed(wants),
            Part::Named => {
                self.lacks_room = false;
                self.stage = Stage::Placing { part: Part::Placed };
            }
            Part::Placed => self.call_done(),
            Part::Discarded => self.call_done(),
        }
    }

    /// The new file is on the disk.
    fn part_is_flushed(&mut self, wants: bool)
        ensures ready { IsReady self.new.stage self.new.incoming.items (T.free (T.at self.new.target).state) }
        ensures keeps { Keeps T.means (after_part (part.Flushed wants) true) (T.at self.old.target) self.old.incoming.items self.old.clock
            (phase_of self.new.stage) (T.at self.new.target) self.new.incoming.items self.new.clock }
        ensures fair { Fairly T.means T.free (Writes 0) self.old.hosts self.old.incoming.items (T.at self.old.target)
            (point_of self.new.stage) self.new.hosts self.new.incoming.items (T.at self.new.target) }
        ensures ends { left_of self.new.stage self.new.hosts.there self.new.lines self.new.finished ≤ to_call self.old.finished }
    {
        if wants {
            self.fold();
        } else {
            self.stage = Stage::Placing { part: Part::Named };
        }
    }

    /// Uses the journal on, where the new file was only wanted.
    fn part_is_not_done(&mut self, part: Part)
        ensures ready { IsReady self.new.stage self.new.incoming.items (T.free (T.at self.new.target).state) }
        ensures keeps { Keeps T.means (after_part part false) (T.at self.old.target) self.old.incoming.items self.old.clock
            (phase_of self.new.stage) (T.at self.new.target) self.new.incoming.items self.new.clock }
        ensures fair { Fairly T.means T.free (Writes 0) self.old.hosts self.old.incoming.items (T.at self.old.target)
            (point_of self.new.stage) self.new.hosts self.new.incoming.items (T.at self.new.target) }
        ensures ends { left_of self.new.stage self.new.hosts.there self.new.lines self.new.finished ≤ to_call self.old.finished }
    {
        match part {
            Part::Made { wants } => self.was_not_made(wants),
            Part::Filled { wants } => self.was_not_made(wants),
            Part::Flushed { wants } => self.was_not_made(wants),
            Part::Named => self.fail(News::CannotWrite { cause: true }),
            Part::Placed => self.fail(News::CannotWrite { cause: true }),
            Part::Discarded => self.call_done(),
        }
    }

    /// Folds the journal into the new file, which is on the disk: it takes the place of the one that is held.
    fn fold(&mut self)
        ensures ready { IsReady self.new.stage self.new.incoming.items (T.free (T.at self.new.target).state) }
        ensures keeps { Keeps T.means Folding (T.at self.old.target) self.old.incoming.items self.old.clock (phase_of self.new.stage)
            (T.at self.new.target) self.new.incoming.items self.new.clock }
        ensures fair { Fairly T.means T.free (Writes 0) self.old.hosts self.old.incoming.items (T.at self.old.target)
            (point_of self.new.stage) self.new.hosts self.new.incoming.items (T.at self.new.target) }
        ensures ends { left_of self.new.stage self.new.hosts.there self.new.lines self.new.finished ≤ to_call self.old.finished }
    {
        match fold(&mut self.target) {
            Ok(put) => {
                if put {
                    self.stage = Stage::Placing { part: Part::Named };
                } else {
                    self.was_not_made(true);
                }
            }
            Err(_) => self.fail(News::CannotWrite { cause: false }),
        }
    }

    /// There is no new file. Where it was wanted for a fold, the journal is used on.
    fn was_not_made(&mut self, wants: bool)
        ensures ready { IsReady self.new.stage self.new.incoming.items (T.free (T.at self.new.target).state) }
        ensures keeps { Keeps T.means (not_made wants) (T.at self.old.target) self.old.incoming.items self.old.clock
            (phase_of self.new.stage)
            (T.at self.new.target) self.new.incoming.items self.new.clock }
        ensures fair { Fairly T.means T.free (Writes 0) self.old.hosts self.old.incoming.items (T.at self.old.target)
            (point_of self.new.stage) self.new.hosts self.new.incoming.items (T.at self.new.target) }
        ensures ends { left_of self.new.stage self.new.hosts.there self.new.lines self.new.finished ≤ to_call self.old.finished }
    {
        if wants {
            tell_no_room(&mut self.lines, &mut self.lacks_room);
            self.stage = Stage::Placing {
                part: Part::Discarded,
            };
        } else {
            self.fail(News::CannotWrite { cause: true });
        }
    }
}

/// Has a line printed that there is no room for a new file, once until there is.
fn tell_no_room(lines: &mut Lines, lacks_room: &mut bool) {
    if !*lacks_room {
        lines.tell(Level::Failures, News::NotFolded);
    }
    *lacks_room = true;
}
