//! Putting a new file in the place of another.

ghost use Rattle.std.specs.Prelude.{◌≡◌, is_ok, OnOk};
ghost use Rattle.placed_file.specs.Placing.{IsPlaced, IsWhole, after_rename, after_settling, after_sync, begun};
ghost use Rattle.placed_file.specs.declared.progress.Progress.{Progress};

/// The calls of the system for a new file that is written, each of which is noted with its answer.
pub trait Placing {
    /// Why a call failed.
    type Fault: Drop;

    /// What was done.
    ghost progress: { Self → Progress };

    /// Brings the new file to the disk.
    ///
    /// # Errors
    ///
    /// The system's.
    fn sync(&mut self) -> Result<(), Self::Fault>
        ensures { progress self.new ≡ after_sync (is_ok result) (progress self.old) };

    /// Gives the new file the name, in place of the file that has it.
    ///
    /// # Errors
    ///
    /// The system's.
    fn rename(&mut self) -> Result<(), Self::Fault>
        ensures { progress self.new ≡ after_rename (is_ok result) (progress self.old) };

    /// Brings the name to the disk, which is to say its folder.
    ///
    /// # Errors
    ///
    /// The system's.
    fn settle(&mut self) -> Result<(), Self::Fault>
        ensures { progress self.new ≡ after_settling (is_ok result) (progress self.old) };
}

/// Gives a new file that is written the name. Whatever this answers, and at each moment of it, a crash leaves all of the old file
/// under the name or all of the new.
///
/// # Errors
///
/// The first of a call. Where only the name couldn't be brought to the disk, the new file has it until a crash.
pub fn put_in_place<P: Placing>(new: &mut P) -> Result<(), P::Fault>
    requires { P.progress new.old ≡ begun }
    ensures any_moment { IsWhole (P.progress new.new) }
    ensures placed { OnOk result (IsPlaced (P.progress new.new)) }
{
    new.sync()?;
    new.rename()?;
    new.settle()
}
