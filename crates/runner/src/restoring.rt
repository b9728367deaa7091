//! What is restored of what was kept.

ghost use Rattle.std.specs.Prelude.{◌≡◌, ◌<◌, ℕ, Some, None, IfOk, MatchOption, OnSome, get_or, length, map};
ghost use Rattle.nvme_entry.specs.declared.program_slot.TheConstants.{PROGRAM_SLOTS};
ghost use Rattle.zone_resources.specs.declared.holds.TheConstants.{RUNS};
ghost use Rattle.image_store.specs.Namespace.{IsNamespace};
ghost use Rattle.device_meaning.specs.Judging.{judge_by};
ghost use Rattle.device_meaning.specs.Reached.{IsReached};
ghost use Rattle.kept_device.specs.Kept.{SavedProgram, place_told, slot_told};
ghost use Rattle.runner.specs.Restored.{IsOfBytes, IsRestoredBy, TellNoneBy};

use crate::device_state::DeviceState;
use crate::kept_runs::kept_runs;
use crate::kept_slots::{kept_slots, slots_again};
use crate::runs_again::runs_again;
use device_meaning::laws::domains_judge_soundly;
use kept_device::{KeptProgram, KeptRun};
use std::alloc::{AllocError, Global};
use word_domain::Domain;
use zns_commands::{Image, Namespace};

/// What is kept of a device beside its namespace.
#[derive(Drop)]
pub struct KeptDevice {
    /// The programs in its slots.
    pub programs: Vec<Option<KeptProgram>>,
    /// The runs at its places.
    pub runs: Vec<Option<KeptRun>>,
}

/// What is kept beside the namespace of what a device has. It tells the same device.
///
/// # Errors
///
/// No memory.
pub fn kept_of<D: Domain>(alloc: Global, state: &DeviceState<D>) -> Result<KeptDevice, AllocError>
    requires reached { IsReached (judge_by D.operations) state.now }
    ensures { IfOk result (λ kept. IsRestoredBy (judge_by D.operations)
        state.now.namespace (map slot_told kept.programs.items) (map place_told kept.runs.items) state.now) }
{
    domains_judge_soundly::<D>();
    let programs = kept_slots(alloc, &state.slots)?;
    let runs = kept_runs(alloc, &state.runs)?;
    Ok(KeptDevice { programs, runs })
}

/// What a device has that is restored of a namespace and of what was kept beside it; `None` where that tells no device.
///
/// # Errors
///
/// No memory.
pub fn state_again<D: Domain>(
    alloc: Global,
    image: Image,
    programs: &[Option<KeptProgram>],
    runs: &[Option<KeptRun>],
) -> Result<Option<DeviceState<D>>, AllocError>
    requires programs { length programs.now ≡ PROGRAM_SLOTS }
    requires runs { length runs.now ≡ RUNS }
    ensures restored { IfOk result (λ found. MatchOption found
        (TellNoneBy (judge_by D.operations) image (map slot_told programs.now) (map place_told runs.now))
        (IsRestoredBy (judge_by D.operations) image (map slot_told programs.now) (map place_told runs.now))) }
    ensures bytes { IfOk result (λ found. OnSome found
        ((k : ℕ) (p : SavedProgram) → k < PROGRAM_SLOTS → get_or (map slot_told programs.now) k None ≡ Some p → IsOfBytes p)) }
    ensures sound { IsNamespace image }
{
    let namespace = Namespace::new(image);
    let block = namespace.geometry().block();
    let Some(slots) = slots_again(alloc, programs, block)? else {
        return Ok(None);
    };
    let Some(runs) = runs_again(&namespace, &slots, runs) else {
        return Ok(None);
    };
    Ok(Some(DeviceState {
        namespace,
        slots,
        runs,
    }))
}
