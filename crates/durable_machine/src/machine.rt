//! The machine.

ghost use Rattle.std.specs.Prelude.{◌≡◌, ℕ, Bool, List, ◌++◌, IfOk, OnErr, MatchOption};
ghost use Rattle.durable_machine.specs.Applied.{HasApplied};
ghost use Rattle.durable_machine.specs.Bases.{BeginsNoBase, BeginsBase, NeedsBytes};

use std::alloc::{AllocError, Global};

/// What an event came to.
#[derive(Clone, Copy)]
pub struct Applied {
    /// Whether the machine may have changed. Where memory was refused, it hasn't.
    pub changes: bool,
    /// Whether memory may have been refused. Where it wasn't, the event leads to the same wherever memory is given.
    pub starved: bool,
}

/// A machine to which events happen, each of them given by its bytes. What happens is determined, but for whether
/// memory is refused.
pub trait Machine {
    /// The machine that a base stands for.
    ghost loads: { List ℕ → Self → Type 0 };

    /// What an event leads to, where memory is refused or not.
    ghost next: { Self → Bool → List ℕ → Self };

    /// How many bytes a base at the front of a file has at least, by the file's first bytes; more than these, where it isn't all among
    /// them. A file is read so far before its base is loaded. Where nothing is told of a base, all of it is.
    fn base_length(front: &[u8]) -> usize
        ensures { NeedsBytes loads result front.now }
    {
        front.len() + 1
    }

    /// The machine for which the base stands at the front of a file, and the base's length; `None` where no base stands
    /// there.
    ///
    /// # Errors
    ///
    /// No memory.
    fn load(alloc: Global, file: &[u8]) -> Result<Option<(Self, usize)>, AllocError>
    where
        Self: Sized,
        ensures { IfOk result (λ found. MatchOption found (BeginsNoBase loads file.now)
            (λ base. BeginsBase loads base.0 base.1 file.now)) };

    /// Does one event, or leaves the machine as it was.
    ///
    /// # Errors
    ///
    /// No memory to begin it. Then the machine is as it was.
    fn apply(&mut self, alloc: Global, event: &[u8]) -> Result<Applied, AllocError>
        ensures refused { OnErr result (self.new ≡ self.old) }
        ensures done { IfOk result (λ done. HasApplied next event.now self.old done self.new) };

    /// A file begins with one base, which stands for one machine.
    ghost one_base: { (a b x y : List ℕ) (s t : Self) → loads a s → loads b t → a ++ x ≡ b ++ y → (a ≡ b) × (s ≡ t) };
}
