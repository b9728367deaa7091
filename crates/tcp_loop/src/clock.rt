//! The time for which hosts might have been heard.

ghost use Rattle.std.specs.Prelude.{◌≡◌, ◌<◌, ◌+◌, false, IsTrue};
ghost use Rattle.tcp_loop.specs.Clock.{time_told};
ghost use Rattle.tcp_loop.specs.Times.{gone};
ghost use Rattle.tcp_loop.specs.Timed.{IsCounted, IsSkipped};

use crate::operation::{Answer, time_told};

/// A second, in microseconds.
const SECOND: u64 = 1_000_000;

/// Counts the time between readings of the system's clock, without that in which calls were made for the file, and no more than a wait
/// takes: what the program does itself is no host's silence. In microseconds.
#[derive(Clone, Copy)]
pub(crate) struct Clock {
    /// When it was read last; 0 where that doesn't count.
    pub(crate) last: u64,
    /// What was counted, and isn't told yet.
    pub(crate) untold: u64,
}

impl Clock {
    /// One that has counted nothing, of a time that isn't known.
    pub(crate) fn new() -> Clock
        ensures last { result.last ≡ 0 }
        ensures untold { result.untold ≡ 0 }
    {
        Clock { last: 0, untold: 0 }
    }

    /// Counts the time until hosts were read.
    pub(crate) fn count(&mut self, answer: Answer)
        ensures { IsCounted (time_told answer) self.old self.new }
    {
        match time_told(answer) {
            Some(now) => self.go_on(now),
            None => {}
        }
    }

    /// The time goes on to this one.
    fn go_on(&mut self, now: u64)
        ensures last { self.new.last ≡ now }
        ensures untold { self.old.untold < 1000000 → self.new.untold ≡ self.old.untold + gone false self.old.last now }
        ensures few { self.old.untold < 1000000 → self.new.untold < 2000000 }
    {
        if self.last != 0 {
            let gone = now.saturating_sub(self.last).min(SECOND);
            self.untold = self.untold.saturating_add(gone);
        }
        self.last = now;
    }

    /// Goes on to the time at which the file's calls ended, and counts nothing.
    pub(crate) fn skip(&mut self, answer: Answer)
        ensures { IsSkipped (time_told answer) self.old self.new }
    {
        match time_told(answer) {
            Some(now) => self.last = now,
            None => self.last = 0,
        }
    }

    /// Has a second gone by that isn't told? Then it is.
    pub(crate) fn tell(&mut self) -> bool
        ensures last { self.new.last ≡ self.old.last }
        ensures told { IsTrue result → self.old.untold ≡ 1000000 + self.new.untold }
        ensures none { result ≡ false → (self.new ≡ self.old) × (self.old.untold < 1000000) }
    {
        if self.untold < SECOND {
            return false;
        }
        self.untold -= SECOND;
        true
    }
}
