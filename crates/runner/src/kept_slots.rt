//! The slots of a device that are kept, and loaded again.

ghost use Rattle.std.specs.Prelude.{◌≡◌, ◌<◌, ℕ, Some, None, IfOk, IfSome, OnOk, MatchOption, get_or, length, map};
ghost use Rattle.nvme_entry.specs.declared.program_slot.TheConstants.{PROGRAM_SLOTS};
ghost use Rattle.device_meaning.specs.Judging.{judge_by};
ghost use Rattle.verifier.specs.Verified.{sizes_of};
ghost use Rattle.kept_device.specs.Kept.{slot_told};
ghost use Rattle.runner.specs.DeviceState.{loaded_slot};
ghost use Rattle.runner.specs.Keeping.{KeepsAgain, saved_slot, slot_again};
ghost use Rattle.runner.specs.Restored.{IsOfBytes};
ghost use Rattle.runner.specs.steps.LoadingAgain.{AreAgain, AreNotAgain};

use crate::keeping::{kept_program, program_again};
use crate::loaded_program::LoadedProgram;
use kept_device::KeptProgram;
use nvme_entry::PROGRAM_SLOTS;
use program_interface::BlockSize;
use std::alloc::{AllocError, Global};
use word_domain::Domain;

/// What is kept of slots.
///
/// # Errors
///
/// No memory.
pub fn kept_slots<D: Domain>(
    alloc: Global,
    slots: &[Option<LoadedProgram<D>>; PROGRAM_SLOTS],
) -> Result<Vec<Option<KeptProgram>>, AllocError>
    ensures told { IfOk result (λ kept. map slot_told kept.items ≡ map saved_slot slots.now) }
    ensures again { OnOk result ((k : ℕ) → k < PROGRAM_SLOTS → IfSome (get_or slots.now k None) KeepsAgain) }
    ensures number { length slots.now ≡ PROGRAM_SLOTS }
{
    let mut kept = Vec::new(alloc);
    for slot in slots {
        kept.push(kept_slot(alloc, slot)?)?;
    }
    Ok(kept)
}

/// What is kept of a slot.
///
/// # Errors
///
/// No memory.
fn kept_slot<D: Domain>(
    alloc: Global,
    slot: &Option<LoadedProgram<D>>,
) -> Result<Option<KeptProgram>, AllocError>
    ensures told { IfOk result (λ kept. slot_told kept ≡ saved_slot slot.now) }
    ensures again { IfSome slot.now KeepsAgain }
{
    match slot {
        Some(loaded) => Ok(Some(kept_program(alloc, loaded)?)),
        None => Ok(None),
    }
}

/// Slots that were kept, with their programs verified again for blocks of this size; `None` where one isn't accepted.
///
/// # Errors
///
/// No memory.
pub fn slots_again<D: Domain>(
    alloc: Global,
    kept: &[Option<KeptProgram>],
    block: BlockSize,
) -> Result<Option<[Option<LoadedProgram<D>>; PROGRAM_SLOTS]>, AllocError>
    requires { length kept.now ≡ PROGRAM_SLOTS }
    ensures { IfOk result (λ found. MatchOption found
        (AreNotAgain (judge_by D.operations) block kept.now) (λ slots. AreAgain block kept.now slots PROGRAM_SLOTS)) }
{
    let mut slots = [None, None, None, None, None, None, None, None];
    for k in 0..PROGRAM_SLOTS {
        match slot_again(alloc, &kept[k], block)? {
            Some(slot) => slots[k] = slot,
            None => return Ok(None),
        }
    }
    Ok(Some(slots))
}

/// A slot that was kept, with its program verified again; `None` where that isn't accepted.
///
/// # Errors
///
/// No memory.
fn slot_again<D: Domain>(
    alloc: Global,
    kept: &Option<KeptProgram>,
    block: BlockSize,
) -> Result<Option<Option<LoadedProgram<D>>>, AllocError>
    ensures again { IfOk result (λ found. MatchOption found
        (slot_again (judge_by D.operations) block (slot_told kept.now) ≡ None)
        (λ slot. slot_again (judge_by D.operations) block (slot_told kept.now) ≡ Some (loaded_slot slot))) }
    ensures sizes { IfOk result (λ found. IfSome found (λ slot. IfSome slot (λ p. (sizes_of p.prepared).block ≡ block))) }
    ensures bytes { IfSome (slot_told kept.now) IsOfBytes }
{
    let Some(kept) = kept else {
        return Ok(Some(None));
    };
    match program_again(alloc, kept, block)? {
        Some(loaded) => Ok(Some(Some(loaded))),
        None => Ok(None),
    }
}
