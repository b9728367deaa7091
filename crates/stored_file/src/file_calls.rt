//! What is asked of the system for a file.

ghost use Rattle.std.specs.Prelude.{◌≡◌, false, is_ok, ℕ, List, ◌∷◌};
ghost use Rattle.stored_file.specs.Calls.{Call, Written, Renewed, Shortened, Synced, Refused, has_failed, replaced_by};

use crate::FileError;

/// The calls of the system for one file, each of which is noted with its answer. None is made after one that failed.
pub trait FileCalls {
    /// Each call so far, of which the last stands first.
    ghost notes: { Self → List Call };

    /// What an earlier program may have left on the disk, by the bytes that were read as the file was opened. That no other is there is
    /// a premise.
    ghost left: { List ℕ → List ℕ → Type 0 };

    /// Writes bytes at an offset, over what is there and past the end.
    ///
    /// # Errors
    ///
    /// The system's, or no memory.
    fn write_at(&mut self, at: usize, bytes: &[u8]) -> Result<(), FileError>
        requires usable { has_failed (notes self.old) ≡ false }
        ensures noted { notes self.new ≡ Written at bytes.now (is_ok result) ∷ notes self.old };

    /// Writes bytes again that are there.
    ///
    /// # Errors
    ///
    /// The system's, or no memory.
    fn renew(&mut self, at: usize, bytes: &[u8]) -> Result<(), FileError>
        requires usable { has_failed (notes self.old) ≡ false }
        ensures noted { notes self.new ≡ Renewed at bytes.now (is_ok result) ∷ notes self.old };

    /// Sets the length.
    ///
    /// # Errors
    ///
    /// The system's, or no memory.
    fn set_len(&mut self, len: usize) -> Result<(), FileError>
        requires usable { has_failed (notes self.old) ≡ false }
        ensures noted { notes self.new ≡ Shortened len (is_ok result) ∷ notes self.old };

    /// Waits until all that was written is on the disk.
    ///
    /// # Errors
    ///
    /// The system's, or no memory.
    fn sync(&mut self) -> Result<(), FileError>
        requires usable { has_failed (notes self.old) ≡ false }
        ensures noted { notes self.new ≡ Synced (is_ok result) ∷ notes self.old };

    /// Puts a new file of these bytes, which are on the disk before it has the name, in the place of this one, and waits until its
    /// name is on the disk. Where it tells that there is no room, the old file has its name still, and is as it was.
    ///
    /// # Errors
    ///
    /// No room, the system's, or no memory.
    fn replace(&mut self, bytes: &[u8]) -> Result<(), FileError>
        requires usable { has_failed (notes self.old) ≡ false }
        ensures noted { notes self.new ≡ replaced_by bytes.now result ∷ notes self.old };

    /// Notes a call that isn't made.
    fn refuse(&mut self)
        ensures noted { notes self.new ≡ Refused ∷ notes self.old };
}
