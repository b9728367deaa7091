//! What keeps the events of a machine.

ghost use Rattle.std.specs.Prelude.{◌≡◌, ◌↔◌, ℕ, List, ◌++◌, [], take, false, IfOk, IsTrue, OnErr, OnOk};
ghost use Rattle.stored_file.specs.File.{FileState, LeavesOnly, MayLeave};
ghost use Rattle.stored_file.specs.Cause.{HasCause};
ghost use Rattle.durable_machine.specs.Files.{IsState};
ghost use Rattle.durable_machine.specs.Waiting.{IsEither};

use crate::Machine;
use std::alloc::{AllocError, Global};
use stored_file::FileError;

/// What keeps the events of a machine: a journal in a file, or nothing. An event is noted before it is done, so that nothing can fail
/// between the deed and its note, and the note is taken back where the event changed nothing. What was done may go out once
/// [`Store::commit`] has answered `Ok`, and not before.
pub trait Store<M: Machine> {
    /// The part of it that is on a disk.
    type Disk;

    /// That part.
    ghost disk: { Self → Self.Disk };

    /// The file that it is, as far as that is known. Where there is none, a crash leaves nothing.
    ghost told: { Self.Disk → FileState };

    /// The notes that wait for a commit, as a journal spells them.
    ghost waits: { Self → List ℕ };

    /// What was committed and then the notes that wait lead to this machine.
    ghost keeps: { M → List ℕ → Self.Disk → Type 0 };

    /// All that led to this machine is committed, so it may go out.
    ghost settled: { M → Self.Disk → Type 0 };

    /// Notes an event that is done next, of which the bytes stand in three parts, and gives how many bytes of notes there were before.
    ///
    /// # Errors
    ///
    /// No memory. Then nothing is noted.
    fn note(&mut self, first: &[u8], second: &[u8], third: &[u8]) -> Result<usize, AllocError>
        ensures noted { (machine : M) (event : List ℕ) → event ≡ first.now ++ second.now ++ third.now
            → keeps machine (waits self.old) (disk self.old)
            → OnOk result (keeps (M.next machine false event) (waits self.new) (disk self.new)) }
        ensures marked { IfOk result (λ before. take before (waits self.new) ≡ waits self.old) }
        ensures refused { OnErr result (waits self.new ≡ waits self.old) }
        ensures same { disk self.new ≡ disk self.old };

    /// Takes back the notes after so many bytes of them.
    fn take_back(&mut self, before: usize)
        ensures back { waits self.new ≡ take before (waits self.old) }
        ensures same { disk self.new ≡ disk self.old };

    /// Commits what was done: from then on each crash leaves what stands for the machine as it is, where there is a disk. Where nothing
    /// waits, the disk isn't waited for. What is known holds of each machine that the notes lead to.
    ///
    /// # Errors
    ///
    /// No memory, or the disk's. Then the file has to be opened again, and nothing may go out.
    fn commit(&mut self, alloc: Global) -> Result<(), FileError>
        requires kept { (machine : M) × keeps machine (waits self.old) (disk self.old) }
        ensures none { OnOk result (waits self.new ≡ []) }
        ensures committed { (machine : M) → keeps machine (waits self.old) (disk self.old)
            → OnOk result (settled machine (disk self.new)) }

        // A crash at any moment of it leaves the machine that was committed before, or the one after all that was done since.
        ensures any_moment { (before machine : M) → settled before (disk self.old)
            → keeps machine (waits self.old) (disk self.old)
            → LeavesOnly (told (disk self.old)) (told (disk self.new)) (IsEither M.loads M.next before machine) }

        // It doesn't give up by itself.
        ensures cause { HasCause (told (disk self.old)) (told (disk self.new)) result };

    /// Is all committed that was done?
    fn is_committed(&self) -> bool
        ensures none { IsTrue result ↔ waits self.now ≡ [] };

    /// What is committed is kept with no note, and what is kept with no note is committed. A crash leaves what was committed. A proof
    /// about every store calls this, which has no code.
    fn rests()
        ensures at_rest { (machine : M) (d : Self.Disk) → settled machine d → keeps machine [] d }
        ensures all_settled { (machine : M) (d : Self.Disk) → keeps machine [] d → settled machine d }
        ensures stands { (machine : M) (d : Self.Disk) (c : List ℕ) → settled machine d → MayLeave (told d) c
            → IsState M.loads M.next c machine };
}
