//! The streams that an image is read from and written to. Each counts its failures.

ghost use Rattle.std.specs.Prelude.{◌≡◌, ℕ, List, ◌++◌, ◌^◌, ◌<◌, ◌≤◌, ◌-◌, ◌+◌, length, take, IfOk, OnErr};
ghost use Rattle.common_definitions.specs.Failures.{CountsFailure};
ghost use Rattle.image_text.specs.Streams.{IsRead, IsSkipped};

use thiserror::Error;

/// A call of a stream failed.
#[derive(Clone, Copy, Debug, PartialEq, Eq, Error)]
#[error("the stream failed")]
pub struct StreamFault;

/// What bytes come from, in pieces of any size.
pub trait Source {
    /// Does the source tell which bytes come from it? Where it doesn't, as one over a file of the system, nothing is known of
    /// the bytes that come.
    ghost tells: { Type 0 };

    /// The bytes that are still to come.
    ghost rest: { Self → List ℕ };

    /// How many calls have failed.
    ghost failures: { Self → ℕ };

    /// Reads some bytes to the front of `to`, and says how many. A source that tells gives none only at the end, or where `to`
    /// is empty.
    ///
    /// # Errors
    ///
    /// [`StreamFault`] where the stream fails, which is counted. A source that tells has lost no byte then.
    fn read(&mut self, to: &mut [u8]) -> Result<usize, StreamFault>
        requires { failures self.old < 2 ^ 64 - 1 }
        ensures bound { IfOk result (λ n. n ≤ length to.new) }
        ensures read { tells → IfOk result (IsRead (rest self.old) (rest self.new) to.new) }
        ensures kept { tells → OnErr result (rest self.new ≡ rest self.old) }
        ensures count { CountsFailure (failures self.old) (failures self.new) result };

    /// Passes over some of the bytes that are to come, at most so many, and says how many. A source that tells passes over none only at
    /// the end, or where `most` is 0. It need not read them: a fault that only reading them would show isn't found.
    ///
    /// # Errors
    ///
    /// [`StreamFault`] where the stream fails, which is counted. A source that tells has lost no byte then.
    fn skip(&mut self, most: u64) -> Result<u64, StreamFault>
        requires { failures self.old < 2 ^ 64 - 1 }
        ensures bound { IfOk result (λ n. n ≤ most) }
        ensures skipped { tells → IfOk result (IsSkipped (rest self.old) (rest self.new) most) }
        ensures kept { tells → OnErr result (rest self.new ≡ rest self.old) }
        ensures count { CountsFailure (failures self.old) (failures self.new) result };

    /// How many calls have failed.
    fn failures(&self) -> u64
        ensures { result ≡ failures self.now };
}

/// What takes bytes, in pieces of any size.
pub trait Sink {
    /// Does the sink tell which bytes it has taken? Where it doesn't, as one over a file of the system, nothing is known of the
    /// bytes that it has.
    ghost tells: { Type 0 };

    /// The bytes taken so far.
    ghost taken: { Self → List ℕ };

    /// How many calls have failed.
    ghost failures: { Self → ℕ };

    /// Takes some bytes from the front of `from`, and says how many: at least one of a slice that
    /// isn't empty.
    ///
    /// # Errors
    ///
    /// [`StreamFault`] where the stream fails, which is counted. A sink that tells has taken no byte then.
    fn write(&mut self, from: &[u8]) -> Result<usize, StreamFault>
        requires { failures self.old < 2 ^ 64 - 1 }
        ensures bound { IfOk result (λ n. n ≤ length from.now) }
        ensures some { IfOk result (λ n. 1 ≤ length from.now → 1 ≤ n) }
        ensures taken { tells → IfOk result (λ n. taken self.new ≡ taken self.old ++ take n from.now) }
        ensures kept { tells → OnErr result (taken self.new ≡ taken self.old) }
        ensures count { CountsFailure (failures self.old) (failures self.new) result };

    /// How many calls have failed.
    fn failures(&self) -> u64
        ensures { result ≡ failures self.now };
}
