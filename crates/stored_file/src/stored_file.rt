//! What a file promises to who writes it.

ghost use Rattle.std.specs.Prelude.{◌≡◌, ◌⊎◌, ◌≤◌, ◌<◌, ◌^◌, ◌+◌, List, ℕ, length, take, drop, IfOk, IsErrOf, OnOk};
ghost use Rattle.stored_file.specs.declared.stored_file.FileError.TheVariants.{Memory, NoRoom};
ghost use Rattle.stored_file.specs.File.{
  FileState,
  MayLeave,
  IsOnDisk,
  IsAsBefore,
  Follows,
  FollowsOnly,
  SyncsTo,
  SyncsAsBefore,
  Elapses,
  IsWhole,
  is_written,
  Torn,
  Cut,
  IsCut,
  Mixed,
};
ghost use Rattle.stored_file.specs.Cause.{HasCause};

use std::alloc::{AllocError, AllocFailed, Global};

/// What is written at once, in bytes: a crash may leave anything in a sector that is being written, also where only
/// a part of it is new.
pub const SECTOR: usize = 4096;

/// Why a call for a file failed.
#[derive(Clone, Copy, Debug, PartialEq, Eq)]
pub enum FileError {
    /// Memory is wanting.
    Memory,
    /// The disk has no room.
    NoRoom,
    /// The disk failed in another way.
    Failed,
}

impl From<AllocError> for FileError {
    ghost from_gives = { λ _ error. error ≡ Memory };

    fn from(_: AllocError) -> Self {
        FileError::Memory
    }
}

impl<T: Drop> From<AllocFailed<T>> for FileError {
    ghost from_gives = { λ _ error. error ≡ Memory };

    fn from(_: AllocFailed<T>) -> Self {
        FileError::Memory
    }
}

/// A file that is written by whole sectors. Whatever a call answers, a crash leaves no more than it says.
pub trait StoredFile {
    /// What is known of the file at this moment.
    ghost told: { Self → FileState };

    /// All the bytes.
    ///
    /// # Errors
    ///
    /// No memory, or the disk's.
    fn read(&mut self, alloc: Global) -> Result<Vec<u8>, FileError>
        ensures bytes { IfOk result (λ bytes. bytes.items ≡ (told self.old).seen) }
        ensures seen { (told self.new).seen ≡ (told self.old).seen }
        ensures crash { FollowsOnly (told self.old) (told self.new) }
        ensures synced { SyncsAsBefore (told self.old) (told self.new) }
        ensures time { Elapses (told self.old) (told self.new) }
        ensures cause { HasCause (told self.old) (told self.new) result };

    /// Writes sectors, over what is there and past the end. Until a sync, a crash may leave any bytes in these.
    ///
    /// # Errors
    ///
    /// No memory, or the disk's.
    fn write_at(&mut self, at: usize, bytes: &[u8]) -> Result<(), FileError>
        requires within { at ≤ length (told self.old).seen }
        requires whole { IsWhole at × IsWhole (length bytes.now) }
        ensures written { OnOk result ((told self.new).seen ≡ is_written at bytes.now (told self.old).seen) }
        ensures crash { Follows (Torn at (length bytes.now)) (told self.old) (told self.new) }
        ensures synced { OnOk result (SyncsTo (λ d c. c ≡ is_written at bytes.now d) (told self.old) (told self.new)) }
        ensures time { Elapses (told self.old) (told self.new) }
        ensures cause { HasCause (told self.old) (told self.new) result };

    /// Writes sectors again with the bytes that are read there, so that a sync brings them to the disk where an earlier program
    /// failed to. Until a sync, a crash may leave of each byte the one that was on the disk or the one that is written.
    ///
    /// # Errors
    ///
    /// No memory, or the disk's.
    fn renew(&mut self, at: usize, bytes: &[u8]) -> Result<(), FileError>
        requires within { at + length bytes.now ≤ length (told self.old).seen }
        requires whole { IsWhole at × IsWhole (length bytes.now) }
        requires again { take (length bytes.now) (drop at (told self.old).seen) ≡ bytes.now }
        requires long { (c : List ℕ) → MayLeave (told self.old) c → at + length bytes.now ≤ length c }
        ensures seen { OnOk result ((told self.new).seen ≡ (told self.old).seen) }
        ensures crash { Follows (Mixed at bytes.now) (told self.old) (told self.new) }
        ensures synced { OnOk result (SyncsTo (λ d c. c ≡ is_written at bytes.now d) (told self.old) (told self.new)) }
        ensures time { Elapses (told self.old) (told self.new) }
        ensures cause { HasCause (told self.old) (told self.new) result };

    /// Sets the length, to no more than it is. Until a sync, a crash may leave any length between.
    ///
    /// # Errors
    ///
    /// No memory, or the disk's.
    fn set_len(&mut self, len: usize) -> Result<(), FileError>
        requires within { len ≤ length (told self.old).seen }
        requires whole { IsWhole len }
        ensures cut { OnOk result ((told self.new).seen ≡ take len (told self.old).seen) }
        ensures crash { Follows (Cut len) (told self.old) (told self.new) }
        ensures synced { OnOk result (SyncsTo (IsCut len) (told self.old) (told self.new)) }
        ensures time { Elapses (told self.old) (told self.new) }
        ensures cause { HasCause (told self.old) (told self.new) result };

    /// Puts a new file, whole and on the disk, in the place of this one. Until then, a crash leaves what it might
    /// have left before, or the new file. Where the disk has no room for it, nothing has changed, and the file can be used on.
    ///
    /// # Errors
    ///
    /// No memory, no room, or the disk's.
    fn replace(&mut self, bytes: &[u8]) -> Result<(), FileError>
        ensures replaced { OnOk result ((told self.new).seen ≡ bytes.now) }
        ensures durable { OnOk result (IsOnDisk (told self.new)) }
        ensures crash { (c : List ℕ) → MayLeave (told self.new) c → MayLeave (told self.old) c ⊎ (c ≡ bytes.now) }
        ensures no_room { IsErrOf result NoRoom → IsAsBefore (told self.old) (told self.new) }
        ensures time { Elapses (told self.old) (told self.new) }
        ensures cause { HasCause (told self.old) (told self.new) result };

    /// Waits until all that was changed through this handle is on the disk. What an earlier program changed and failed to bring
    /// there is not brought there by it.
    ///
    /// # Errors
    ///
    /// The disk's.
    fn sync(&mut self) -> Result<(), FileError>
        ensures durable { OnOk result ((c : List ℕ) → MayLeave (told self.new) c → (told self.old).once_synced c) }
        ensures seen { (told self.new).seen ≡ (told self.old).seen }
        ensures crash { (c : List ℕ) → MayLeave (told self.new) c → MayLeave (told self.old) c ⊎ (told self.old).once_synced c }
        ensures synced { SyncsAsBefore (told self.old) (told self.new) }
        ensures time { Elapses (told self.old) (told self.new) }
        ensures cause { HasCause (told self.old) (told self.new) result };

    /// This moment is one of those since an earlier one.
    ghost counts_now: { (file : Self) (t : ℕ) (c : List ℕ) → t ≤ (told file).moment → MayLeave (told file) c → (told file).left_since t c };

    /// A file's length is a signed number of 64 bits (POSIX, `off_t`).
    ghost has_length: { (file : Self) → length (told file).seen < 2 ^ 63 };
}
