//! Runs that were kept, and go on.

ghost use Rattle.std.specs.Prelude.{◌≡◌, ◌≢◌, ◌<◌, ◌≤◌, ◌+◌, ◌-◌, ℕ, true, false, Some, None, MatchOption, get_or, length, map, nat_le, option_map};
ghost use Rattle.common_definitions.specs.Bytes.{AreBytes};
ghost use Rattle.program_interface.specs.declared.area.TheConstants.{SCRATCH_BYTES};
ghost use Rattle.emit_append.specs.Need.{need_behind};
ghost use Rattle.image_store.specs.Namespace.{zone_at};
ghost use Rattle.nvme_entry.specs.declared.command.TheConstants.{MOST_BLOCKS};
ghost use Rattle.kept_device.specs.Kept.{run_told};
ghost use Rattle.runner.specs.DeviceState.{active_of, loaded_slot};
ghost use Rattle.runner.specs.Restored.{CanGoOn};
ghost use Rattle.runner.specs.steps.Ready.{AreForBlocks};
ghost use Rattle.runner.specs.steps.RunningAgain.{CountsFit, IsAgain};
ghost use Rattle.verifier.specs.Verified.{sizes_of};

use crate::active_run::ActiveRun;
use crate::kept_run::{destination_again, pending_of, scratch_of, source_again};
use crate::loaded_program::LoadedProgram;
use emit_append::{Packer, blocks_needed_behind};
use image_store::ZoneBlock;
use kept_device::KeptRun;
use nvme_entry::{PROGRAM_SLOTS, ProgramSlot};
use program_interface::{BlockSize, LARGEST_BLOCK, RunSizes};
use word_domain::Domain;
use zns_commands::Namespace;

/// A run that was kept, as an active one; `None` where it can't go on.
pub fn run_again<D: Domain>(
    namespace: &Namespace,
    slots: &[Option<LoadedProgram<D>>; PROGRAM_SLOTS],
    kept: &KeptRun,
) -> Option<ActiveRun>
    requires { AreForBlocks namespace.now slots.now }
    ensures { MatchOption result
        (CanGoOn namespace.now (map loaded_slot slots.now) (run_told kept.now) → ⊥)
        (IsAgain namespace.now slots.now (run_told kept.now)) }
{
    let block = namespace.geometry().block();
    let Some(sizes) = sizes_in(slots, kept.command.slot) else {
        return None;
    };
    if !counts_fit(kept, block) {
        return None;
    }
    let Some(source) = source_again(namespace, &kept.command) else {
        return None;
    };
    let Some(destination) = destination_again(namespace, &kept.command) else {
        return None;
    };
    if source.zone == destination {
        return None;
    }
    if !has_room(namespace, destination, sizes, kept) {
        return None;
    }
    Some(active_again(kept, source, destination, block))
}

/// The sizes that the program of a slot was accepted for, where there is one.
fn sizes_in<D: Domain>(
    slots: &[Option<LoadedProgram<D>>; PROGRAM_SLOTS],
    slot: ProgramSlot,
) -> Option<RunSizes>
    ensures { result ≡ option_map (λ p. sizes_of p.prepared) (get_or slots.now slot None) }
{
    match &slots[slot.index()] {
        Some(loaded) => Some(loaded.prepared.verified().sizes()),
        None => None,
    }
}

/// Does a run count what one can, and has it no more of a block than one has?
fn counts_fit(kept: &KeptRun, block: BlockSize) -> bool
    ensures yes { result ≡ true → CountsFit block (run_told kept.now) }
    ensures no { result ≡ false → CountsFit block (run_told kept.now) → ⊥ }
{
    kept.index < kept.command.blocks.get()
        && u64::from(kept.frames) <= u64::from(kept.index) * LARGEST_BLOCK as u64
        && kept.appended <= kept.index
        && kept.pending.len() <= block.bytes() as usize
}

/// Has a zone room for what is left of a run, however long the groups of its program are?
fn has_room(namespace: &Namespace, destination: u32, sizes: RunSizes, kept: &KeptRun) -> bool
    requires inside { destination < length namespace.now.zones }
    requires counts { CountsFit sizes.block (run_told kept.now) }
    ensures { result ≡ nat_le (length (zone_at namespace.now destination).blocks
        + need_behind (length (run_told kept.now).so_far.pending) (kept.now.command.blocks - kept.now.index) sizes) namespace.now.capacity }
{
    let zone = namespace.zone(destination);
    let left = kept.command.blocks.get() - kept.index;
    let needed = blocks_needed_behind(kept.pending.len() as u32, left, sizes);
    u64::from(zone.written()) + u64::from(needed) <= u64::from(zone.capacity())
}

/// The active run.
fn active_again(kept: &KeptRun, source: ZoneBlock, destination: u32, block: BlockSize) -> ActiveRun
    requires { length (run_told kept.now).so_far.pending ≤ block }
    ensures seen { active_of result ≡ run_told kept.now }
    ensures source { result.source ≡ source }
    ensures destination { result.destination ≡ destination }
    ensures block { result.packer.block ≡ block }
    ensures most { kept.now.command.blocks ≤ MOST_BLOCKS }
    ensures long { length kept.now.scratch ≡ SCRATCH_BYTES }
    ensures scratch_bytes { AreBytes kept.now.scratch }
    ensures pending_bytes { AreBytes kept.now.pending.items }
{
    // Brings in what holds of each number of blocks.
    let _ = kept.command.blocks.get();
    ActiveRun {
        queue: kept.queue,
        cid: kept.cid,
        command: kept.command,
        source,
        destination,
        index: kept.index,
        scratch: scratch_of(&kept.scratch),
        packer: Packer::begun(block, pending_of(kept.pending.as_slice())),
        frames: kept.frames,
        appended: kept.appended,
    }
}
