//! The commit.

ghost use Rattle.std.specs.Prelude.{◌≡◌, [], OnOk};
ghost use Rattle.stored_file.specs.File.{LeavesOnly};
ghost use Rattle.stored_file.specs.Cause.{HasCause};
ghost use Rattle.durable_machine.specs.Events.{AreSpelled};
ghost use Rattle.durable_machine.specs.Seals.{events_of};
ghost use Rattle.durable_machine.specs.Journal.{IsSettled};
ghost use Rattle.durable_machine.specs.Files.{IsDurable};
ghost use Rattle.durable_machine.specs.Waiting.{IsCommittedBut, IsEither};

use crate::Machine;
use crate::batch::Batch;
use crate::journal::Journal;
use stored_file::{FileError, StoredFile};

/// Brings the events that wait to the disk, as one batch of a journal. What was done may go out once this has answered `Ok`, and not
/// before: from then on each crash leaves a file that stands for the machine as it is. Where nothing waits, the disk isn't waited for.
/// What is known holds of each machine that is committed but for these events.
///
/// # Errors
///
/// No memory, or the disk's. Then the file has to be opened again, and nothing may go out.
pub(crate) fn commit<M: Machine, F: StoredFile>(
    journal: &mut Journal<F>,
    waiting: &mut Batch,
) -> Result<(), FileError>
    requires settled { IsSettled journal.old.gate (F.told journal.old.file) }
    requires spelled { AreSpelled (events_of waiting.old) }

    ensures none { OnOk result (events_of waiting.new ≡ []) }

    ensures committed { (machine : M)
        → IsCommittedBut M.loads M.next (events_of waiting.old) machine journal.old.gate (F.told journal.old.file)
        → OnOk result (IsDurable M.loads M.next machine journal.new.gate (F.told journal.new.file)) }

    // A crash at any moment of it leaves the machine that was committed before, or the one after all that was done since.
    ensures any_moment { (before machine : M)
        → IsDurable M.loads M.next before journal.old.gate (F.told journal.old.file)
        → IsCommittedBut M.loads M.next (events_of waiting.old) machine journal.old.gate (F.told journal.old.file)
        → LeavesOnly (F.told journal.old.file) (F.told journal.new.file) (IsEither M.loads M.next before machine) }

    // It doesn't give up by itself.
    ensures cause { HasCause (F.told journal.old.file) (F.told journal.new.file) result }
{
    if waiting.is_empty() {
        return Ok(());
    }
    journal.append(waiting)
}
