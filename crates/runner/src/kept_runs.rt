//! The runs of a device that are kept.

ghost use Rattle.std.specs.Prelude.{◌≡◌, ◌<◌, ℕ, None, IfOk, IfSome, OnOk, get_or, length, map};
ghost use Rattle.zone_resources.specs.declared.holds.TheConstants.{RUNS};
ghost use Rattle.kept_device.specs.Kept.{place_told};
ghost use Rattle.runner.specs.DeviceState.{running};
ghost use Rattle.runner.specs.steps.RunsKept.{IsOfRun};

use crate::active_run::ActiveRun;
use crate::kept_run::kept_run;
use kept_device::KeptRun;
use std::alloc::{AllocError, Global};
use zone_resources::RUNS;

/// What is kept of runs.
///
/// # Errors
///
/// No memory.
pub fn kept_runs(
    alloc: Global,
    runs: &[Option<ActiveRun>; RUNS],
) -> Result<Vec<Option<KeptRun>>, AllocError>
    ensures told { IfOk result (λ kept. map place_told kept.items ≡ map running runs.now) }
    ensures are { OnOk result ((k : ℕ) → k < RUNS → IfSome (get_or runs.now k None) IsOfRun) }
    ensures number { length runs.now ≡ RUNS }
{
    let mut kept = Vec::new(alloc);
    for place in runs {
        kept.push(kept_place(alloc, place)?)?;
    }
    Ok(kept)
}

/// What is kept of a place.
///
/// # Errors
///
/// No memory.
fn kept_place(alloc: Global, place: &Option<ActiveRun>) -> Result<Option<KeptRun>, AllocError>
    ensures told { IfOk result (λ kept. place_told kept ≡ running place.now) }
    ensures is { IfSome place.now IsOfRun }
{
    match place {
        Some(active) => Ok(Some(kept_run(alloc, active)?)),
        None => Ok(None),
    }
}
