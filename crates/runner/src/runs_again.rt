//! The runs of a device that were kept, and go on.

ghost use Rattle.std.specs.Prelude.{◌≡◌, ℕ, Some, None, MatchOption, MatchBool, false, get_or, length};
ghost use Rattle.zone_resources.specs.declared.holds.TheConstants.{RUNS};
ghost use Rattle.runner.specs.DeviceState.{active_of};
ghost use Rattle.runner.specs.steps.Ready.{AreForBlocks};
ghost use Rattle.runner.specs.steps.RunsAgain.{AreGoing, AreStuck, IsPlaceAgain, IsStuck};

use crate::active_run::ActiveRun;
use crate::loaded_program::LoadedProgram;
use crate::places;
use crate::run_again::run_again;
use kept_device::KeptRun;
use nvme_entry::PROGRAM_SLOTS;
use word_domain::Domain;
use zns_commands::Namespace;
use zone_resources::RUNS;

/// Runs that were kept, as active ones; `None` where one can't go on, or two append to one zone.
pub fn runs_again<D: Domain>(
    namespace: &Namespace,
    slots: &[Option<LoadedProgram<D>>; PROGRAM_SLOTS],
    kept: &[Option<KeptRun>],
) -> Option<[Option<ActiveRun>; RUNS]>
    requires number { length kept.now ≡ RUNS }
    requires programs { AreForBlocks namespace.now slots.now }
    ensures { MatchOption result
        (AreStuck namespace.now slots.now kept.now) (λ runs. AreGoing namespace.now slots.now kept.now runs RUNS) }
{
    let mut runs = [None, None, None, None, None, None, None, None];
    for k in 0..RUNS {
        match place_again(namespace, slots, &runs, &kept[k]) {
            Some(place) => runs[k] = place,
            None => return None,
        }
    }
    Some(runs)
}

/// A place whose run was kept, beside those of these; `None` where that can't go on, or appends to the zone of one of them.
fn place_again<D: Domain>(
    namespace: &Namespace,
    slots: &[Option<LoadedProgram<D>>; PROGRAM_SLOTS],
    runs: &[Option<ActiveRun>; RUNS],
    kept: &Option<KeptRun>,
) -> Option<Option<ActiveRun>>
    requires programs { AreForBlocks namespace.now slots.now }
    ensures { MatchOption result
        (IsStuck namespace.now slots.now runs.now kept.now) (IsPlaceAgain namespace.now slots.now runs.now kept.now) }
{
    let Some(kept) = kept else {
        return Some(None);
    };
    let Some(run) = run_again(namespace, slots, kept) else {
        return None;
    };
    if places::holds(runs).is_destination(run.destination) {
        return None;
    }
    Some(Some(run))
}
