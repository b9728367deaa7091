//! The places for active runs.

ghost use Rattle.std.specs.Prelude.{◌≡◌, ◌<◌, is_none, is_some, length, position, IfSome};
ghost use Rattle.std.specs.List.{list_any};
ghost use Rattle.runner.specs.steps.ActiveRuns.{destination_held, held_by, source_held};
ghost use Rattle.runner.specs.steps.Loading.{uses_slot};

use crate::active_run::ActiveRun;
use crate::loaded_program::LoadedProgram;
use nvme_entry::{PROGRAM_SLOTS, ProgramSlot};
use word_domain::Domain;
use zns_commands::Holds;
use zone_resources::RUNS;

/// How many places there are.
pub fn count(runs: &[Option<ActiveRun>; RUNS]) -> usize
    ensures value { result ≡ RUNS }
    ensures places { result ≡ length runs.now }
{
    runs.len()
}

/// Is a program in one of the slots?
pub fn any_loaded<D: Domain>(slots: &[Option<LoadedProgram<D>>; PROGRAM_SLOTS]) -> bool
    ensures value { result ≡ list_any is_some slots.now }
    ensures slots { length slots.now ≡ PROGRAM_SLOTS }
{
    slots.iter().any(|slot| slot.is_some())
}

/// Is a run active?
pub fn any_active(runs: &[Option<ActiveRun>; RUNS]) -> bool
    ensures value { result ≡ list_any is_some runs.now }
    ensures places { length runs.now ≡ RUNS }
{
    runs.iter().any(|run| run.is_some())
}

/// The lowest number that an active run has.
pub fn lowest_run(runs: &[Option<ActiveRun>; RUNS]) -> Option<u8>
    ensures lowest { result ≡ position is_some runs.now }
    ensures size { length runs.now ≡ RUNS }
{
    let run = runs.iter().position(|run| run.is_some())?;
    Some(run as u8)
}

/// The number of the lowest place that is free.
pub fn free_place(runs: &[Option<ActiveRun>; RUNS]) -> Option<u8>
    ensures lowest { result ≡ position is_none runs.now }
    ensures inside { IfSome result (λ run. run < RUNS) }
{
    let run = runs.iter().position(|run| run.is_none())?;
    Some(run as u8)
}

/// Does an active run use the program of a slot?
pub fn is_in_use(runs: &[Option<ActiveRun>; RUNS], slot: ProgramSlot) -> bool
    ensures { result ≡ list_any (uses_slot slot) runs.now }
{
    runs.iter().any(|run| uses(run, slot))
}

/// Does the run at a place use it?
fn uses(run: &Option<ActiveRun>, slot: ProgramSlot) -> bool
    ensures { result ≡ uses_slot slot run.now }
{
    match run {
        Some(active) => active.command.slot == slot,
        None => false,
    }
}

/// The zones that the active runs read from and append to.
pub fn holds(runs: &[Option<ActiveRun>; RUNS]) -> Holds
    ensures { result ≡ held_by runs.now }
{
    let mut sources = [None; RUNS];
    let mut destinations = [None; RUNS];
    for (number, run) in runs.iter().enumerate() {
        sources[number] = source(run);
        destinations[number] = destination(run);
    }
    Holds {
        sources,
        destinations,
    }
}

/// The number of the zone that a place's run reads from.
fn source(run: &Option<ActiveRun>) -> Option<u32>
    ensures { result ≡ source_held run.now }
{
    match run {
        Some(active) => Some(active.source.zone),
        None => None,
    }
}

/// The number of the zone that a place's run appends to.
fn destination(run: &Option<ActiveRun>) -> Option<u32>
    ensures { result ≡ destination_held run.now }
{
    match run {
        Some(active) => Some(active.destination),
        None => None,
    }
}
