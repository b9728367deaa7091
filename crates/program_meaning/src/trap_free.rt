//! Programs that never trap, and where they access memory.

ghost use Rattle.std.specs.Prelude.{◌≡◌, ◌<◌, ◌^◌, ℕ, List, Option};
ghost use Rattle.instruction_set.specs.declared.instruction.Instruction.{Instruction};
ghost use Rattle.program_meaning.specs.Places.{AccessesLie};
ghost use Rattle.program_meaning.specs.TrapFree.{NeverTraps};
ghost use Rattle.program_meaning.specs.declared.place.Place.{Place};

use crate::place::Place;
use instruction_set::Program;

/// A program that never traps, beside the length of the blocks that it runs on and the most bytes
/// that it emits.
pub trait TrapFree {
    /// The program's slots.
    ghost code: { Self → List (Option Instruction) };
    /// The most bytes of a group.
    ghost limit: { Self → ℕ };
    /// The length of a block in bytes.
    ghost block: { Self → ℕ };
    /// Where the instruction at a slot accesses memory, if that is known.
    ghost place: { Self → ℕ → Option Place };

    /// The program.
    fn program(&self) -> &Program
        ensures { result.now ≡ code self.now };

    /// The most bytes that its group has after a block run.
    fn limit(&self) -> usize
        ensures value { result ≡ limit self.now }
        ensures small { result < 2 ^ 16 };

    /// The length of the blocks that it runs on, in bytes.
    fn block(&self) -> usize
        ensures { result ≡ block self.now };

    /// Where the instruction at a slot accesses memory, in each block run that comes there; `None` where that isn't known, as
    /// for a slot whose instruction accesses none.
    fn place_at(&self, slot: usize) -> Option<Place>
        ensures { result ≡ place self.now slot };

    /// Over every block of this length it ends by EXIT, after at most as many steps as it has
    /// instructions, with a group within the limit.
    ghost never_traps: { (v : Self) → NeverTraps (code v) (limit v) (block v) };

    /// Over every block of this length, what it loads, stores or emits at a slot lies at the place that is told for that slot.
    ghost accesses_lie: { (v : Self) → AccessesLie (code v) (limit v) (block v) (place v) };
}
