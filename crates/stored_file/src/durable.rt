//! Reading a file, and writing it with the sync after it, as one step each.

ghost use Rattle.std.specs.Prelude.{◌≡◌, ◌≤◌, length, IfOk, OnOk};
ghost use Rattle.stored_file.specs.File.{MayLeave, IsAsBefore, IsOnDisk, LeavesOnly, IsWhole, is_written, Torn};
ghost use Rattle.stored_file.specs.Cause.{HasCause};

use crate::{FileError, StoredFile};
use std::alloc::Global;

/// All the bytes of a file. Nothing of it changes.
///
/// # Errors
///
/// No memory, or the disk's.
pub fn read_whole<F: StoredFile>(alloc: Global, file: &mut F) -> Result<Vec<u8>, FileError>
    ensures bytes { IfOk result (λ bytes. bytes.items ≡ (F.told file.old).seen) }
    ensures same { IsAsBefore (F.told file.old) (F.told file.new) }
    ensures any_moment { LeavesOnly (F.told file.old) (F.told file.new) (MayLeave (F.told file.old)) }
    ensures cause { HasCause (F.told file.old) (F.told file.new) result }
{
    file.read(alloc)
}

/// Writes sectors, and waits until they are on the disk. At `Err`, the file has to be opened again.
///
/// # Errors
///
/// No memory, or the disk's.
pub fn write_durably<F: StoredFile>(file: &mut F, at: usize, bytes: &[u8]) -> Result<(), FileError>
    requires within { at ≤ length (F.told file.old).seen }
    requires whole { IsWhole at × IsWhole (length bytes.now) }
    requires durable { IsOnDisk (F.told file.old) }
    ensures written { OnOk result ((F.told file.new).seen ≡ is_written at bytes.now (F.told file.old).seen) }
    ensures durable { OnOk result (IsOnDisk (F.told file.new)) }
    ensures any_moment { LeavesOnly (F.told file.old) (F.told file.new) (Torn at (length bytes.now) (F.told file.old).seen) }
    ensures cause { HasCause (F.told file.old) (F.told file.new) result }
{
    file.write_at(at, bytes)?;
    file.sync()
}
