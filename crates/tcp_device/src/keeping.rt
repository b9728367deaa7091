//! What keeps a device in a file for which another makes the calls.

ghost use Rattle.std.specs.Prelude.{◌≡◌, ◌∷◌, ◌++◌, List, true, false, reverse, IfOk, OnOk};
ghost use Rattle.stored_file.specs.Calls.{Call, NotReplaced, Replaced};
ghost use Rattle.handed_file.specs.Handed.{made_calls, noted, waiting, waits};
ghost use Rattle.handed_file.specs.Handing.{has_refused};
ghost use Rattle.tcp_device.specs.FileCalls.{next_bytes};
ghost use Rattle.tcp_device.specs.Kept.{Commits, Folds, WillBeKept, file_of};

use crate::keeper::Keeper;
use crate::served::ServedTarget;
use durable_machine::InFile;
use handed_file::HandedFile;
use handed_file::laws::waiting_calls_are_covered;
use std::alloc::Global;
use stored_file::FileError;

/// Commits what was done, and hands over a new file that is wanted, where the journal is to be folded.
///
/// # Errors
///
/// No memory, or the disk's. Then the file has to be opened again.
pub(crate) fn commit_and_fold(
    keeper: &mut Keeper<InFile<HandedFile>>,
    alloc: Global,
    served: &ServedTarget,
) -> Result<(), FileError>
    requires { WillBeKept keeper.old served.now.device }
    ensures kept { OnOk result (WillBeKept keeper.new served.now.device) }
    ensures commits { OnOk result (Commits keeper.old keeper.new served.now.device) }
{
    waiting_calls_are_covered();
    keeper.events.journal.file.leaves();
    check(&keeper.events.journal.file)?;
    keeper.commit(alloc, served)?;
    keeper.fold_when_due(alloc, served)?;
    check(&keeper.events.journal.file)
}

/// Commits what was done.
///
/// # Errors
///
/// No memory, or the disk's. Then the file has to be opened again.
pub(crate) fn commit(
    keeper: &mut Keeper<InFile<HandedFile>>,
    alloc: Global,
    served: &ServedTarget,
) -> Result<(), FileError>
    requires { WillBeKept keeper.old served.now.device }
    ensures kept { OnOk result (WillBeKept keeper.new served.now.device) }
    ensures commits { OnOk result (Commits keeper.old keeper.new served.now.device) }
{
    waiting_calls_are_covered();
    keeper.events.journal.file.leaves();
    check(&keeper.events.journal.file)?;
    keeper.commit(alloc, served)?;
    check(&keeper.events.journal.file)
}

/// Folds the journal into the new file that was wanted, and says whether just that file takes the place of the one that is held. Nothing
/// happens where another call waits, or something waits for a commit.
///
/// # Errors
///
/// No memory, or the disk's. Then the file has to be opened again.
pub(crate) fn fold(
    keeper: &mut Keeper<InFile<HandedFile>>,
    alloc: Global,
    served: &ServedTarget,
) -> Result<bool, FileError>
    requires { WillBeKept keeper.old served.now.device }
    ensures kept { OnOk result (WillBeKept keeper.new served.now.device) }
    ensures folds { OnOk result (Folds keeper.old keeper.new served.now.device) }
    ensures put { IfOk result (λ is_put. (rest : List Call)
        → waits (file_of keeper.old) ≡ NotReplaced ∷ rest → is_put ≡ true → (more : List Call)
        × (waits (file_of keeper.new) ≡ NotReplaced ∷ Replaced (next_bytes (waiting (file_of keeper.old))) true ∷ more)) }
    ensures not_put { IfOk result (λ is_put. (rest : List Call)
        → waits (file_of keeper.old) ≡ NotReplaced ∷ rest → is_put ≡ false
        → (more : List Call) × (waits (file_of keeper.new) ≡ NotReplaced ∷ more)) }
{
    waiting_calls_are_covered();
    check(&keeper.events.journal.file)?;
    if !keeper.is_committed(served) {
        return Ok(false);
    }
    let Some(wanted) = keeper.events.journal.file.take_wanted() else {
        return Ok(false);
    };
    keeper.events.journal.file.grant(wanted.len());
    keeper.fold(alloc, served)?;
    check(&keeper.events.journal.file)?;
    check_wanted(&keeper.events.journal.file)?;
    Ok(keeper.events.journal.file.is_replaced_by(&wanted))
}

/// Was no call refused?
///
/// # Errors
///
/// One was: no memory, or a call after that.
fn check(file: &HandedFile) -> Result<(), FileError>
    ensures none { OnOk result (has_refused (noted file.now) ≡ false) }
    ensures order { OnOk result (noted file.now ≡ reverse (waits file.now) ++ made_calls file.now) }
{
    if file.has_failed() {
        return Err(FileError::Memory);
    }
    Ok(())
}

/// Is the next call for a new file that is wanted?
///
/// # Errors
///
/// Another is.
fn check_wanted(file: &HandedFile) -> Result<(), FileError>
    ensures { OnOk result ((rest : List Call) × (waits file.now ≡ NotReplaced ∷ rest)) }
{
    if !file.is_wanted() {
        return Err(FileError::Failed);
    }
    Ok(())
}
