//! What a device has.

ghost use Rattle.std.specs.Prelude.{◌≡◌, ◌≢◌, true, false, ◌<◌, ◌≤◌, ◌*◌, IfSome};
ghost use Rattle.nvme_entry.specs.declared.command.TheConstants.{MOST_BLOCKS};
ghost use Rattle.image_store.specs.Namespace.{IsNamespace};
ghost use Rattle.device_events.specs.Replies.{data_length};
ghost use Rattle.device_meaning.specs.Draining.{lowest_run, turns_left};
ghost use Rattle.device_meaning.specs.Happenings.{faulting};
ghost use Rattle.device_meaning.specs.State.{free_place, holds_at, in_use, new_state};
ghost use Rattle.runner.specs.steps.Admitting.{sizes_at};

use crate::active_run::ActiveRun;
use crate::loaded_program::LoadedProgram;
use crate::places;
use device_events::Reply;
use nvme_entry::{PROGRAM_SLOTS, ProgramSlot};
use program_interface::RunSizes;
use std::marker::Model;
use word_domain::Domain;
use zns_commands::{FaultRefused, FaultState, Holds, Namespace};
use zone_resources::RUNS;

/// A namespace, slots for programs, and places for active runs. The programs are for the namespace's blocks, and each
/// run can go on. A clause sees the state that they are.
#[derive(Drop)]
pub struct DeviceState<D: Domain> {
    /// The namespace.
    pub namespace: Namespace,
    /// The programs in their slots.
    pub slots: [Option<LoadedProgram<D>>; PROGRAM_SLOTS],
    /// The active runs at their places.
    pub runs: [Option<ActiveRun>; RUNS],
}

impl<D: Domain> Model for DeviceState<D> {
    ghost use Rattle.device_meaning.specs.State.{State};
    ghost use Rattle.runner.specs.DeviceState.{device_state};
    ghost use Rattle.runner.specs.steps.Ready.{IsReady};

    ghost Value = { State };

    ghost view = { λ d. device_state d.namespace d.slots d.runs };

    ghost invariant = { λ d. IsReady d.namespace d.slots d.runs };
}

impl<D: Domain> DeviceState<D> {
    /// A namespace, without a program or a run.
    pub fn new(namespace: Namespace) -> DeviceState<D>
        ensures value { result ≡ new_state namespace }
        ensures sound { IsNamespace namespace }
    {
        // Brings in what holds of each namespace.
        let _ = namespace.geometry();
        DeviceState {
            namespace,
            slots: [None, None, None, None, None, None, None, None],
            runs: [None, None, None, None, None, None, None, None],
        }
    }

    /// Has it neither a program nor a run?
    pub fn is_new(&self) -> bool
        ensures new { result ≡ true → self.now ≡ new_state self.now.namespace }
        ensures other { result ≡ false → self.now ≢ new_state self.now.namespace }
    {
        !places::any_loaded(&self.slots) && !places::any_active(&self.runs)
    }

    /// The namespace.
    pub fn namespace(&self) -> &Namespace
        ensures { result.now ≡ self.now.namespace }
    {
        &self.namespace
    }

    /// The sizes that the program of a slot was accepted for, where there is one.
    pub fn sizes(&self, slot: ProgramSlot) -> Option<RunSizes>
        ensures { result ≡ sizes_at self.now slot }
    {
        match &self.slots[slot.index()] {
            Some(loaded) => Some(loaded.prepared.verified().sizes()),
            None => None,
        }
    }

    /// Does an active run use the program of a slot?
    pub fn is_in_use(&self, slot: ProgramSlot) -> bool
        ensures { result ≡ in_use self.now slot }
    {
        places::is_in_use(&self.runs, slot)
    }

    /// The zones that the active runs read from and append to.
    pub fn holds(&self) -> Holds
        ensures { result ≡ holds_at self.now }
    {
        places::holds(&self.runs)
    }

    /// The number of the lowest place that is free.
    pub fn free_place(&self) -> Option<u8>
        ensures lowest { result ≡ free_place self.now }
        ensures inside { IfSome result (λ run. run < RUNS) }
    {
        places::free_place(&self.runs)
    }

    /// The lowest number that an active run has.
    pub fn lowest_run(&self) -> Option<u8>
        ensures lowest { result ≡ lowest_run self.now }
        ensures few { turns_left self.now.places ≤ MOST_BLOCKS * RUNS }
    {
        places::lowest_run(&self.runs)
    }

    /// Brings a zone into the state of a fault.
    pub fn fault(&mut self, zone: u32, state: FaultState) -> Reply
        ensures reply { result ≡ (faulting self.old zone state).reply.reply }
        ensures state { self.new ≡ (faulting self.old zone state).state }
        ensures no_data { data_length result ≡ 0 }
    {
        let holds = self.holds();
        match self.namespace.fault(zone, state, &holds) {
            Ok(()) => Reply::FaultTaken,
            Err(FaultRefused) => Reply::FaultRefused,
        }
    }
}
