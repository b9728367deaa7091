//! What is opened after a crash, as laws: these functions do nothing.

ghost use Rattle.durable_machine.specs.Files.{IsDurable};
ghost use Rattle.durable_machine.specs.Laws.{
  OpeningChangesNothing,
  RestartsComeBack,
  ComesBack,
  NoStateIsDamaged,
};

use crate::{Durable, Machine};
use stored_file::StoredFile;

/// Of a file that a crash left while it was opened, the machine is opened that it stood for before.
pub fn opening_changes_nothing<M: Machine>()
    ensures { OpeningChangesNothing M.loads M.next }
{}

/// Of a file that an earlier program left, the machine is opened that what was read of it stands for, or the one from before the last
/// batch.
pub fn restarts_come_back<M: Machine>()
    ensures { RestartsComeBack M.loads M.next }
{}

/// Whatever a crash leaves of a store at rest, its machine is opened of it: so no event is lost that was acknowledged.
pub fn acknowledged_comes_back<M: Machine + Drop, F: StoredFile + Drop>(store: &Durable<M, F>)
    requires { IsDurable M.loads M.next store.now.machine store.now.events.journal.gate (F.told store.now.events.journal.file) }
    ensures { ComesBack M.loads M.next (F.told store.now.events.journal.file) store.now.machine }
{}

/// What a crash leaves is never refused as damaged: it stands for a machine, and what is damaged stands for none.
pub fn no_crash_is_damage<M: Machine>()
    ensures { NoStateIsDamaged M.loads M.next }
{}
