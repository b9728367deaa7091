//! What is whole of a device's journal, damaged or not, and a new file of it.
#![tactic(auto)]

ghost use Rattle.std.specs.Prelude.{IfErr, IfOk};
ghost use Rattle.durable_device.specs.Kept.{RefusesBytes};
ghost use Rattle.device_salvage.specs.Salvage.{AreBaseAlone, IsSalvageOf};

use durable_device::{FrameDevice, base_of};
use durable_machine::{Fault, in_sectors};
use runner::Device;
use std::alloc::{AllocError, Global};
use stored_file::SECTOR;

/// What is saved of a journal.
#[derive(Drop)]
pub struct Saved {
    /// How many batches stand whole after its base.
    pub whole: usize,
    /// Where they end. A damaged journal is damaged at this byte.
    pub end: usize,
    /// How many stand whole after that, and are left out.
    pub readable: usize,
    /// A file of a base of the device after the first ones, and of an empty journal.
    pub file: Vec<u8>,
}

/// What is saved of the bytes of a journal, damaged or not.
///
/// # Errors
///
/// The bytes don't begin with a base of this device in whole sectors, an event of a whole batch isn't done again, or no memory.
pub fn salvage(alloc: Global, bytes: &[u8]) -> Result<Saved, Fault>
    ensures saved { IfOk result (λ saved. IsSalvageOf bytes.now saved.end saved.whole saved.readable saved.file.items) }
    ensures refused { IfErr result (λ fault. RefusesBytes bytes.now fault) }
{
    let found = durable_machine::salvage::<FrameDevice>(alloc, bytes)?;
    let file = new_journal(alloc, found.machine.device())?;
    Ok(Saved {
        whole: found.whole,
        end: found.end,
        readable: found.readable,
        file,
    })
}

/// A file of a base of the device and of an empty journal.
fn new_journal(alloc: Global, device: &Device) -> Result<Vec<u8>, AllocError>
    ensures { IfOk result (λ file. AreBaseAlone file.items device.now) }
{
    let mut file = base_of(alloc, device)?;
    let front = in_sectors(file.len());
    file.resize(front + SECTOR, 0)?;
    Ok(file)
}
