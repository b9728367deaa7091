//! A device, and the journal of what happened to it, as they are opened and made.

ghost use Rattle.std.specs.Prelude.{◌≡◌, ◌<◌, IfOk, IfErr};
ghost use Rattle.stored_file.specs.File.{LeavesOnly};
ghost use Rattle.stored_file.specs.declared.stored_file.FileError.TheVariants.{NoRoom, Failed};
ghost use Rattle.device_meaning.specs.Judging.{interval_judge};
ghost use Rattle.device_meaning.specs.Reached.{IsReached};
ghost use Rattle.device_meaning.specs.State.{new_state};
ghost use Rattle.durable_device.specs.Kept.{IsFoundIn, IsKept, IsKeptInBase, IsOldOrStandsFor, IsRestarted, KeepsRestarted, RefusesFile, StandsForIt};
ghost use Rattle.durable_device.specs.Machine.{IsDeviceBase};

use crate::FrameDevice;
use durable_machine::{Durable, Fault, Found};
use image_store::Image;
use std::alloc::{AllocError, Global};
use stored_file::{FileError, StoredFile};

/// By how many bytes the file grows before its journal is folded (profile).
pub const MOST_JOURNAL: usize = 1 << 26;

/// A device, and the journal of what happened to it, in a file, as it is opened or made. `device_serve` and `tcp_device` serve it.
#[derive(Drop)]
pub struct DurableDevice<F: StoredFile + Drop> {
    /// The device and its journal.
    pub store: Durable<FrameDevice, F>,
    /// How many bytes of the file were taken when it was made, was opened, or was to be folded last.
    pub folded: usize,
    /// What came of the last fold; [`Folding::Done`] where there was none yet.
    pub last_fold: Folding,
}

/// What came of folding a journal.
#[derive(Clone, Copy, Debug, PartialEq, Eq)]
pub enum Folding {
    /// The base alone stands for the device.
    Done,
    /// There was no room for the new file. The old one is used on.
    NoRoom,
    /// Memory was wanting for the new base. The old file is used on.
    NoMemory,
}

impl<F: StoredFile + Drop> DurableDevice<F> {
    /// Opens the device of a file of which these bytes were read, and reads nothing of it. A crash may have left the file, or an earlier
    /// program that failed to bring its last batch to the disk. At `Ok` all that the file stands for is there. It may crash too, at any
    /// moment, and then the file stands for the same device; or for that from before the last batch, where that wasn't on the disk. An
    /// `Err` hands the file back.
    ///
    /// # Errors
    ///
    /// The file doesn't begin with a base in whole sectors, or has what no crash leaves: then it stands for no device, and stays as
    /// it is. No memory, or the disk's.
    pub fn open_read(alloc: Global, file: F, bytes: &[u8]) -> Result<DurableDevice<F>, (Fault, F)>
        // What is read is on the disk, but for what an earlier program did last.
        requires restarted { IsRestarted (F.told file) }
        requires read { bytes.now ≡ (F.told file).seen }

        ensures state { IfOk result (λ device. StandsForIt (F.told file).seen device.store.machine) }
        ensures reached { IfOk result (λ device. IsReached interval_judge device.store.machine) }
        ensures kept { IfOk result (λ device.
            IsKept device.store.machine device.store.events.journal.gate (F.told device.store.events.journal.file)) }
        ensures counted { IfOk result (λ device. device.folded ≡ device.store.events.journal.gate) }

        // A crash at any moment leaves what an earlier program may have left; where all was on the disk, the same device.
        ensures any_moment { IfOk result (λ device. KeepsRestarted (F.told file) (F.told device.store.events.journal.file)) }
        ensures any_moment_err { IfErr result (λ refusal. KeepsRestarted (F.told file) (F.told refusal.1)) }

        ensures refused { IfErr result (λ refusal. RefusesFile (F.told file) (F.told refusal.1) refusal.0) }
    {
        match Durable::<FrameDevice, F>::open_read(alloc, file, bytes) {
            Ok(store) => {
                // Brings in that the device is in a state that events leave.
                let _ = store.machine.image();
                let folded = store.events.journal.gate;
                Ok(DurableDevice {
                    store,
                    folded,
                    last_fold: Folding::Done,
                })
            }
            Err(refusal) => Err(refusal),
        }
    }

    /// Opens the device that was found in a file ([`find`](durable_machine::find)), as [`DurableDevice::open_read`] does. So a
    /// file is opened that isn't in memory.
    ///
    /// # Errors
    ///
    /// No memory, or the disk's.
    pub fn open_found(
        alloc: Global,
        file: F,
        found: Found<FrameDevice>,
    ) -> Result<DurableDevice<F>, (Fault, F)>
        requires restarted { IsRestarted (F.told file) }
        requires found { IsFoundIn found.end found.last found.gate.items (F.told file).seen found.machine }

        ensures state { IfOk result (λ device. StandsForIt (F.told file).seen device.store.machine) }
        ensures reached { IfOk result (λ device. IsReached interval_judge device.store.machine) }
        ensures kept { IfOk result (λ device.
            IsKept device.store.machine device.store.events.journal.gate (F.told device.store.events.journal.file)) }
        ensures counted { IfOk result (λ device. device.folded ≡ device.store.events.journal.gate) }
        ensures any_moment { IfOk result (λ device. KeepsRestarted (F.told file) (F.told device.store.events.journal.file)) }
        ensures any_moment_err { IfErr result (λ refusal. KeepsRestarted (F.told file) (F.told refusal.1)) }
        ensures refused { IfErr result (λ refusal. RefusesFile (F.told file) (F.told refusal.1) refusal.0) }
    {
        match Durable::<FrameDevice, F>::open_found(alloc, file, found) {
            Ok(store) => {
                // Brings in that the device is in a state that events leave.
                let _ = store.machine.image();
                let folded = store.events.journal.gate;
                Ok(DurableDevice {
                    store,
                    folded,
                    last_fold: Folding::Done,
                })
            }
            Err(refusal) => Err(refusal),
        }
    }

    /// Makes a file of an image, and an empty journal, in the place of what the file was: the device has neither a program nor a
    /// run. An `Err` hands the file back.
    ///
    /// # Errors
    ///
    /// No memory, or the disk's.
    pub fn create(alloc: Global, image: Image, file: F) -> Result<DurableDevice<F>, (FileError, F)>
        ensures new { IfOk result (λ device. device.store.machine ≡ new_state image) }
        ensures kept { IfOk result (λ device.
            IsKept device.store.machine device.store.events.journal.gate (F.told device.store.events.journal.file)) }
        ensures in_base { IfOk result (λ device.
            IsKeptInBase device.store.machine device.store.events.journal.gate (F.told device.store.events.journal.file)) }
        ensures counted { IfOk result (λ device. device.folded ≡ device.store.events.journal.gate) }

        // A crash at any moment leaves what it might have left before, or a file that stands for the device.
        ensures any_moment { IfOk result (λ device. LeavesOnly (F.told file) (F.told device.store.events.journal.file)
            (IsOldOrStandsFor (F.told file) (new_state image))) }
        ensures any_moment_err { IfErr result (λ failure. LeavesOnly (F.told file) (F.told failure.1)
            (IsOldOrStandsFor (F.told file) (new_state image))) }

        // It doesn't give up by itself.
        ensures cause { IfErr result (λ failure. failure.0 ≡ Failed → (F.told file).faults < (F.told failure.1).faults) }
        ensures no_room { IfErr result (λ failure. failure.0 ≡ NoRoom → (F.told file).faults < (F.told failure.1).faults) }
    {
        let (machine, base) = match first(alloc, image) {
            Ok(made) => made,
            Err(AllocError) => return Err((FileError::Memory, file)),
        };
        match Durable::<FrameDevice, F>::create(alloc, machine, base, file) {
            Ok(store) => {
                let folded = store.events.journal.gate;
                Ok(DurableDevice {
                    store,
                    folded,
                    last_fold: Folding::Done,
                })
            }
            Err(failure) => Err(failure),
        }
    }

    /// The namespace as an image. The device is in a state that events leave.
    pub fn image(&self) -> &Image
        ensures value { result.now ≡ self.now.store.machine.namespace }
        ensures reached { IsReached interval_judge self.now.store.machine }
    {
        self.store.machine.image()
    }
}

/// A device that has the namespace of an image and nothing else, and its base.
fn first(alloc: Global, image: Image) -> Result<(FrameDevice, Vec<u8>), AllocError>
    ensures new { IfOk result (λ made. made.0 ≡ new_state image) }
    ensures stands { IfOk result (λ made. IsDeviceBase made.1.items made.0) }
{
    let machine = FrameDevice::new(alloc, image)?;
    let base = machine.base(alloc)?;
    Ok((machine, base))
}
