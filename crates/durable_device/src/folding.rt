//! What keeps the events of a device, and can be folded.

ghost use Rattle.std.specs.Prelude.{◌≡◌, ◌<◌, ℕ, IfOk, OnOk};
ghost use Rattle.stored_file.specs.File.{LeavesOnly};
ghost use Rattle.stored_file.specs.Cause.{HasCause};
ghost use Rattle.device_meaning.specs.State.{State};
ghost use Rattle.durable_device.specs.Kept.{IsKeptInBase, StandsFor};
ghost use Rattle.durable_device.specs.declared.durable_device.Folding.TheVariants.{Done, NoRoom};

use crate::{Folding, FrameDevice, base_of};
use durable_machine::{InFile, InMemory, Store, put_base};
use runner::Device;
use std::alloc::Global;
use stored_file::{FileError, StoredFile};

/// What keeps the events of a device, and can be folded.
pub trait Folds: Store<FrameDevice> {
    /// How many bytes its file has; 0 where there is none.
    ghost length: { Self.Disk → ℕ };

    /// The base of its file alone stands for this device.
    ghost in_base: { State → Self.Disk → Type 0 };

    /// How many bytes its file has.
    fn length(&self) -> usize
        ensures { result ≡ Self.length (Self.disk self.now) };

    /// Puts a base of the device in the place of the file, with no event after it. A crash at any moment leaves a file that stands for the
    /// same device. Without room or memory for the new file, the old one is used on.
    ///
    /// # Errors
    ///
    /// The disk's, or no memory to hand the file over: then the file has to be opened again.
    fn fold(&mut self, alloc: Global, device: &Device) -> Result<Folding, FileError>
        requires settled { Self.settled device.now (Self.disk self.old) }
        ensures same { Self.waits self.new ≡ Self.waits self.old }
        ensures settled { OnOk result (Self.settled device.now (Self.disk self.new)) }
        ensures in_base { IfOk result (λ folding. folding ≡ Done → Self.in_base device.now (Self.disk self.new)) }
        ensures any_moment { LeavesOnly (Self.told (Self.disk self.old)) (Self.told (Self.disk self.new)) (λ c. StandsFor c device.now) }

        // It doesn't give up by itself.
        ensures cause { HasCause (Self.told (Self.disk self.old)) (Self.told (Self.disk self.new)) result }
        ensures no_room { IfOk result (λ folding. folding ≡ NoRoom
            → (Self.told (Self.disk self.old)).faults < (Self.told (Self.disk self.new)).faults) };
}

impl Folds for InMemory {
    ghost length = { λ d. 0 };

    ghost in_base = { λ device d. Unit {0} };

    fn length(&self) -> usize {
        0
    }

    fn fold(&mut self, _alloc: Global, _device: &Device) -> Result<Folding, FileError> {
        Ok(Folding::Done)
    }
}

impl<F: StoredFile + Drop> Folds for InFile<F> {
    ghost length = { λ journal. journal.gate };

    ghost in_base = { λ device journal. IsKeptInBase device journal.gate (F.told journal.file) };

    fn length(&self) -> usize {
        self.journal.gate
    }

    fn fold(&mut self, alloc: Global, device: &Device) -> Result<Folding, FileError> {
        let Ok(base) = base_of(alloc, device) else {
            return Ok(Folding::NoMemory);
        };
        match put_base::<FrameDevice, F>(base, &mut self.journal.file) {
            Ok(gate) => {
                self.journal.gate = gate;
                Ok(Folding::Done)
            }
            Err(FileError::NoRoom) => Ok(Folding::NoRoom),
            Err(FileError::Memory) => Err(FileError::Memory),
            Err(FileError::Failed) => Err(FileError::Failed),
        }
    }
}
