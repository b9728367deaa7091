//! Events that are kept nowhere.

ghost use Rattle.std.specs.Prelude.{◌≡◌, ◌↔◌, ℕ, List, ◌++◌, [], take, false, IfOk, IsTrue, OnErr, OnOk};

use crate::Machine;
use crate::store::Store;
use std::alloc::{AllocError, Global};
use stored_file::FileError;

/// Nothing is kept of a machine but the machine itself, in memory: what was done may go out at once, and a crash leaves nothing of it.
#[derive(Drop)]
pub struct InMemory;

impl<M: Machine> Store<M> for InMemory {
    ghost use Rattle.durable_machine.specs.Unkept.{no_file};

    type Disk = ();

    ghost disk = { λ store. tt };

    ghost told = { λ d. no_file };

    ghost waits = { λ store. [] };

    ghost keeps = { λ machine waiting d. Unit {0} };

    ghost settled = { λ machine d. Unit {0} };

    fn note(&mut self, _: &[u8], _: &[u8], _: &[u8]) -> Result<usize, AllocError> {
        Ok(0)
    }

    fn take_back(&mut self, _: usize) {}

    fn commit(&mut self, _: Global) -> Result<(), FileError> {
        Ok(())
    }

    fn is_committed(&self) -> bool {
        true
    }

    fn rests() {}
}
