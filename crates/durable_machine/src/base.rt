//! The base at the front of a file.

ghost use Rattle.std.specs.Prelude.{IfOk, IsErrOf};
ghost use Rattle.stored_file.specs.File.{IsAsBefore, LeavesOnly};
ghost use Rattle.stored_file.specs.declared.stored_file.FileError.TheVariants.{NoRoom};
ghost use Rattle.stored_file.specs.Cause.{HasCause};
ghost use Rattle.durable_machine.specs.Files.{IsDurable, IsInBase, IsOldOrStands};

use crate::Machine;
use crate::sectors::in_sectors;
use stored_file::{FileError, SECTOR, StoredFile};

/// Puts a file of a base and an empty journal in the place of another. Gives where its closed gate is. What is known of it holds of
/// each machine for which the base stands.
///
/// # Errors
///
/// No memory, no room, where nothing has changed, or the disk's.
pub fn put_base<M: Machine, F: StoredFile>(
    mut base: Vec<u8>,
    file: &mut F,
) -> Result<usize, FileError>
    ensures in_base { (machine : M) → M.loads base.items machine
        → IfOk result (λ gate. IsInBase M.loads M.next machine gate (F.told file.new)) }
    ensures durable { (machine : M) → M.loads base.items machine
        → IfOk result (λ gate. IsDurable M.loads M.next machine gate (F.told file.new)) }
    ensures no_room { IsErrOf result NoRoom → IsAsBefore (F.told file.old) (F.told file.new) }
    ensures any_moment { (machine : M) → M.loads base.items machine → LeavesOnly (F.told file.old) (F.told file.new)
        (IsOldOrStands M.loads M.next (F.told file.old) machine) }
    ensures cause { HasCause (F.told file.old) (F.told file.new) result }
{
    let front = in_sectors(base.len());
    base.resize(front + SECTOR, 0)?;
    file.replace(&base)?;
    Ok(front)
}
