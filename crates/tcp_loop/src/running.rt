//! A loop, and the world that makes its operations.

ghost use Rattle.std.specs.Prelude.{◌≡◌, ◌≤◌, ◌+◌, ◌∷◌, length};
ghost use Rattle.tcp_loop.specs.Fair.{point_of};
ghost use Rattle.tcp_loop.specs.Kept.{phase_of};
ghost use Rattle.tcp_loop.specs.Progress.{EndsRounds, left_of};
ghost use Rattle.tcp_loop.specs.Running.{FairOn, HoldsOn};
ghost use Rattle.tcp_loop.specs.Stages.{IsReady};
ghost use Rattle.tcp_loop.specs.Trace.{Trace};

use crate::incoming::INCOMING;
use crate::operation::{Answer, Operation};
use crate::serving::Loop;
use crate::target::KeptTarget;
use std::alloc::Global;

/// What makes the operations of a loop: hosts, a disk and a clock. Of what comes of them nothing is asked.
pub trait World {
    /// The operations that it has made, with what came of each, of which the last stands first.
    ghost trace: { Self → Trace };

    /// Makes an operation that carries these bytes, and gives what came of it. The bytes that came with that are left in `came`, in
    /// place of those that were there.
    fn make(&mut self, operation: Operation, carried: &[u8], came: &mut Vec<u8>) -> Answer
        ensures made { trace self.new ≡ record {
          asked = operation;
          carried = carried.now;
          answer = result;
          came = came.new.items;
        } ∷ trace self.old }
        ensures few { length came.new.items ≤ INCOMING };
}

impl<T: KeptTarget + Drop> Loop<T> {
    /// Has the world make the next so many operations, and takes what comes of each: this is what a program does that serves hosts.
    pub fn run<W: World>(&mut self, alloc: Global, world: &mut W, operations: u64)
        requires { IsReady self.old.stage self.old.incoming.items (T.free (T.at self.old.target).state) }
        ensures ready { IsReady self.new.stage self.new.incoming.items (T.free (T.at self.new.target).state) }
        ensures made { length (W.trace world.new) ≡ length (W.trace world.old) + operations }
        ensures holds { HoldsOn T.means
            (W.trace world.old) (phase_of self.old.stage) (T.at self.old.target) self.old.incoming.items self.old.clock
            (W.trace world.new) (phase_of self.new.stage) (T.at self.new.target) self.new.incoming.items self.new.clock }
        ensures fair { FairOn T.means T.free
            (W.trace world.old) (point_of self.old.stage) self.old.hosts self.old.incoming.items (T.at self.old.target)
            (W.trace world.new) (point_of self.new.stage) self.new.hosts self.new.incoming.items (T.at self.new.target) }
        ensures ends { EndsRounds (W.trace world.old) (left_of self.old.stage self.old.hosts.there self.old.lines self.old.finished)
            → EndsRounds (W.trace world.new) (left_of self.new.stage self.new.hosts.there self.new.lines self.new.finished) }
    {
        let mut came = Vec::new(alloc);
        for _made in 0..operations {
            self.is_fair();
            let answer = world.make(self.operation(), self.bytes(), &mut came);
            self.step(answer, came.as_slice());
        }
    }
}
