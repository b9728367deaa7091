//! A target over NVMe/TCP, before a device in memory, or in a file for which C makes the calls, until a loop serves it.

ghost use Rattle.std.specs.Prelude.{◌≡◌, None, IsTrue};

use crate::identity::subsystem_with;
use durable_machine::InFile;
use handed_file::HandedFile;
use std::alloc::Global;
use tcp_device::{Keeper, ServedTarget};

/// A target with its device, and what keeps that in a file for which C makes the calls, where it is kept.
#[derive(Drop)]
pub struct Target {
    /// The target.
    pub served: ServedTarget,
    /// What keeps its device; `None` where it is in memory alone.
    pub keeper: Option<Keeper<InFile<HandedFile>>>,
    /// Whether the file has to be opened again: then no loop serves it.
    pub failed: bool,
}

impl Target {
    ghost use Rattle.device_library.specs.Target.{IsInMemory, IsNamed, MayBegin, TakesDone, TakesFailed, WillBeKept, may_begin};

    /// A target whose device is in memory alone.
    pub fn in_memory(served: ServedTarget) -> Target
        ensures served { result.served ≡ served }
        ensures memory { IsInMemory result }
        ensures kept { WillBeKept result }
    {
        Target {
            served,
            keeper: None,
            failed: false,
        }
    }

    /// Has the target take the names that come of a UUID, as before its first connection, and says whether it has: it keeps those that
    /// it had where these are no 16 bytes, or memory is wanting.
    pub fn name(&mut self, alloc: Global, uuid: &[u8]) -> bool
        requires { WillBeKept self.old }
        ensures named { IsNamed uuid.now self.old self.new result }
        ensures kept { WillBeKept self.new }
    {
        match subsystem_with(alloc, uuid) {
            Some(subsystem) => {
                self.served.set_subsystem(subsystem);
                true
            }
            None => false,
        }
    }

    /// May a loop serve it? So where all is on the disk that was done, by what C told, which has failed at none; or it is in memory alone.
    pub fn may_begin(&self) -> bool
        requires { WillBeKept self.now }
        ensures settled { result ≡ may_begin self.now }
        ensures kept { IsTrue result → MayBegin self.now }
    {
        match &self.keeper {
            _ if self.failed => false,
            None => true,
            Some(keeper) => {
                keeper.events.journal.file.is_settled() && keeper.is_committed(&self.served)
            }
        }
    }

    /// Takes the next call for done.
    pub fn tell_done(&mut self)
        requires { WillBeKept self.old }
        ensures done { TakesDone self.old self.new }
        ensures kept { WillBeKept self.new }
    {
        if let Some(keeper) = &mut self.keeper {
            keeper.events.journal.file.tell_done();
        }
    }

    /// Takes it for failed: the file has to be opened again.
    pub fn tell_failed(&mut self)
        ensures { TakesFailed self.old self.new }
    {
        self.failed = true;
    }
}
