//! Events that are kept in a file.

ghost use Rattle.std.specs.Prelude.{◌≡◌, ◌↔◌, ℕ, List, ◌++◌, [], take, false, IfOk, IsTrue, IsErrOf, OnErr, OnOk};
ghost use Rattle.stored_file.specs.File.{FileState, LeavesOnly, MayLeave};

use crate::Machine;
use crate::batch::Batch;
use crate::committing::commit;
use crate::journal::Journal;
use crate::store::Store;
use std::alloc::{AllocError, Global};
use stored_file::{FileError, StoredFile};

/// The events of a machine, in a file.
#[derive(Drop)]
pub struct InFile<F: StoredFile + Drop> {
    /// The journal, which has what was committed: it is after the base from which the machine was led to its state.
    pub journal: Journal<F>,
    /// The events that may have changed the machine since the last commit.
    pub waiting: Batch,
}

impl<M: Machine, F: StoredFile + Drop> Store<M> for InFile<F> {
    ghost use Rattle.durable_machine.specs.Seals.{events_of};
    ghost use Rattle.durable_machine.specs.Files.{IsDurable};
    ghost use Rattle.durable_machine.specs.Waiting.{IsCommittedBut};

    type Disk = Journal<F>;

    ghost disk = { λ store. store.journal };

    ghost told = { λ journal. F.told journal.file };

    ghost waits = { λ store. events_of store.waiting };

    ghost keeps = { λ machine waiting journal. IsCommittedBut M.loads M.next waiting machine journal.gate (F.told journal.file) };

    ghost settled = { λ machine journal. IsDurable M.loads M.next machine journal.gate (F.told journal.file) };

    fn note(&mut self, first: &[u8], second: &[u8], third: &[u8]) -> Result<usize, AllocError> {
        let before = self.waiting.len();
        self.waiting.add(first, second, third)?;
        Ok(before)
    }

    fn take_back(&mut self, before: usize) {
        self.waiting.truncate(before);
    }

    fn commit(&mut self, _: Global) -> Result<(), FileError> {
        commit::<M, F>(&mut self.journal, &mut self.waiting)
    }

    fn is_committed(&self) -> bool {
        self.waiting.is_empty()
    }

    fn rests() {}
}
