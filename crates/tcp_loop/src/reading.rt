//! Reading what came on connections.

ghost use Rattle.std.specs.Prelude.{◌≡◌, ◌≤◌, ◌<◌, ◌+◌, ℕ, List, [], IfSome, IsTrue, false, length, slice_index_or, slice_set};
ghost use Rattle.tcp_loop.specs.Fair.{Fairly, FairlyMakes, IsFirst, Reads, ToRead, point_of};
ghost use Rattle.tcp_loop.specs.Holding.{Keeps, piece_of};
ghost use Rattle.tcp_loop.specs.Kept.{Resting, phase_of};
ghost use Rattle.tcp_loop.specs.Sockets.{has_come};
ghost use Rattle.tcp_loop.specs.Progress.{left_of, to_read};
ghost use Rattle.tcp_loop.specs.Stages.{IsReady};
ghost use Rattle.tcp_loop.specs.declared.operation.Answer.TheVariants as answer;
ghost use Rattle.tcp_loop.specs.declared.operation.Operation.TheVariants as operation;

use crate::counters::{add, note_commands};
use crate::hosts::{is_set, mark};
use crate::incoming::{INCOMING, put_at, rest_at};
use crate::news::News;
use crate::operation::{Answer, PLACES, has_come, is_again};
use crate::receiving::advance;
use crate::serving::Loop;
use crate::stage::Stage;
use crate::target::KeptTarget;

impl<T: KeptTarget + Drop> Loop<T> {
    /// Reads on the next connection, from this place on, on which something came and all that came before is taken. Where there is none,
    /// asks for the time at which all was read.
    pub(crate) fn read(&mut self, from: usize)
        ensures ready { IsReady self.new.stage self.new.incoming.items (T.free (T.at self.new.target).state) }
        ensures keeps { Keeps T.means Resting (T.at self.old.target) self.old.incoming.items self.old.clock (phase_of self.new.stage)
            (T.at self.new.target) self.new.incoming.items self.new.clock }
        ensures fair { Fairly T.means T.free (Reads from) self.old.hosts self.old.incoming.items (T.at self.old.target)
            (point_of self.new.stage) self.new.hosts self.new.incoming.items (T.at self.new.target) }
        ensures ends { left_of self.new.stage self.new.hosts.there self.new.lines self.new.finished ≤ to_read from }
    {
        match self.next_read(from) {
            Some(place) => self.stage = Stage::Reading { place },
            None => self.stage = Stage::Timing,
        }
    }

    /// That connection.
    fn next_read(&self, from: usize) -> Option<usize>
        ensures empty { IfSome result (λ place. (place < PLACES) × (slice_index_or self.now.incoming.items place [] ≡ [])) }
        ensures first { IsFirst (λ place. ToRead place self.now.hosts self.now.incoming.items) from result }
    {
        for place in from..PLACES {
            if self.is_to_read(place) {
                return Some(place);
            }
        }
        None
    }

    /// Is a connection to be read?
    fn is_to_read(&self, place: usize) -> bool
        requires { place < PLACES }
        ensures yes { IsTrue result → slice_index_or self.now.incoming.items place [] ≡ [] }
        ensures no { result ≡ false → ToRead place self.now.hosts self.now.incoming.items → ⊥ }
    {
        is_set(&self.hosts.ready.reads, place)
            && is_set(&self.hosts.there, place)
            && !is_set(&self.hosts.lost, place)
            && rest_at(&self.incoming, place).is_empty()
    }

    /// Takes what came on a connection, and has commands done.
    pub(crate) fn was_read(&mut self, place: usize, answer: Answer, came: &[u8])
        requires within { place < PLACES }
        requires few { length came.now ≤ INCOMING }
        requires empty { slice_index_or self.old.incoming.items place [] ≡ [] }
        ensures ready { IsReady self.new.stage self.new.incoming.items (T.free (T.at self.new.target).state) }
        ensures keeps { Keeps T.means Resting
            (T.at self.old.target) (slice_set self.old.incoming.items place (piece_of answer came.now)) self.old.clock
            (phase_of self.new.stage) (T.at self.new.target) self.new.incoming.items self.new.clock }
        ensures fair { (carried : List ℕ) → FairlyMakes T.means T.free
            (record { asked = operation.Read place; carried = carried; answer = answer; came = came.now })
            (Reads place) self.old.hosts self.old.incoming.items (T.at self.old.target)
            (point_of self.new.stage) self.new.hosts self.new.incoming.items (T.at self.new.target) }
        ensures ends { left_of self.new.stage self.new.hosts.there self.new.lines self.new.finished ≤ to_read (place + 1) }
    {
        if has_come(answer) {
            self.take_piece(place, came);
        } else {
            self.read_none(place, answer);
        }
    }

    /// Nothing came on a connection; it is over, unless something may come later.
    fn read_none(&mut self, place: usize, answer: Answer)
        requires within { place < PLACES }
        requires none { has_come answer ≡ false }
        ensures ready { IsReady self.new.stage self.new.incoming.items (T.free (T.at self.new.target).state) }
        ensures keeps { Keeps T.means Resting (T.at self.old.target) self.old.incoming.items self.old.clock (phase_of self.new.stage)
            (T.at self.new.target) self.new.incoming.items self.new.clock }
        ensures fair { (carried came : List ℕ) → FairlyMakes T.means T.free
            (record { asked = operation.Read place; carried = carried; answer = answer; came = came })
            (Reads place) self.old.hosts self.old.incoming.items (T.at self.old.target)
            (point_of self.new.stage) self.new.hosts self.new.incoming.items (T.at self.new.target) }
        ensures ends { left_of self.new.stage self.new.hosts.there self.new.lines self.new.finished ≤ to_read (place + 1) }
    {
        mark(&mut self.hosts.lost, place, !is_again(answer));
        self.read(place + 1);
    }

    /// Hands a piece on, and keeps what isn't taken of it.
    fn take_piece(&mut self, place: usize, piece: &[u8])
        requires within { place < PLACES }
        requires few { length piece.now ≤ INCOMING }
        ensures ready { IsReady self.new.stage self.new.incoming.items (T.free (T.at self.new.target).state) }
        ensures keeps { Keeps T.means Resting (T.at self.old.target) (slice_set self.old.incoming.items place piece.now) self.old.clock
            (phase_of self.new.stage) (T.at self.new.target) self.new.incoming.items self.new.clock }
        ensures fair { (carried came : List ℕ) → FairlyMakes T.means T.free
            (record { asked = operation.Read place; carried = carried; answer = answer.Came; came = came })
            (Reads place) self.old.hosts self.old.incoming.items (T.at self.old.target)
            (point_of self.new.stage) self.new.hosts self.new.incoming.items (T.at self.new.target) }
        ensures ends { left_of self.new.stage self.new.hosts.there self.new.lines self.new.finished ≤ to_read (place + 1) }
    {
        add(&mut self.counters.came, piece.len() as u64);
        let done = advance(&mut self.target, place, piece);
        put_at(&mut self.incoming, place, &piece[done.taken..]);
        note_commands(&mut self.counters, &mut self.lines, place, done.commands);
        if done.failed {
            self.fail(News::NoMemory);
        } else {
            self.read(place + 1);
        }
    }
}
