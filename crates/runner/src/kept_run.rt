//! Runs that are kept, and go on.

ghost use Rattle.std.specs.Prelude.{◌≡◌, IfOk, MatchOption, length};
ghost use Rattle.common_definitions.specs.Bytes.{AreBytes};
ghost use Rattle.program_interface.specs.declared.area.TheConstants.{SCRATCH_BYTES};
ghost use Rattle.kept_device.specs.Kept.{run_told};
ghost use Rattle.zns_commands.specs.Address.{zone_number};
ghost use Rattle.runner.specs.DeviceState.{active_of};
ghost use Rattle.runner.specs.steps.RunsKept.{IsOfRun};
ghost use Rattle.runner.specs.steps.RunningAgain.{AreSourcesWritten, IsDestination, IsOpened, IsSource};

use crate::active_run::ActiveRun;
use image_store::ZoneBlock;
use kept_device::KeptRun;
use nvme_entry::RunCommand;
use program_interface::SCRATCH_BYTES;
use std::alloc::{AllocError, Global};
use zns_commands::Namespace;

/// What is kept of an active run.
///
/// # Errors
///
/// No memory.
pub fn kept_run(alloc: Global, active: &ActiveRun) -> Result<KeptRun, AllocError>
    ensures told { IfOk result (λ kept. run_told kept ≡ active_of active.now) }
    ensures is { IsOfRun active.now }
{
    let scratch = scratch_of(&active.scratch);
    let pending = pending_of(active.packer.pending());
    Ok(KeptRun {
        queue: active.queue,
        cid: active.cid,
        command: active.command,
        index: active.index,
        scratch,
        pending: Vec::from_slice(alloc, pending)?,
        frames: active.frames,
        appended: active.appended,
    })
}

/// Scratch bytes.
pub fn scratch_of(scratch: &[u8; SCRATCH_BYTES]) -> [u8; SCRATCH_BYTES]
    ensures value { result ≡ scratch.now }
    ensures long { length scratch.now ≡ SCRATCH_BYTES }
    ensures are { AreBytes scratch.now }
{
    let _bytes = pending_of(scratch);
    *scratch
}

/// Pending bytes.
pub fn pending_of(pending: &[u8]) -> &[u8]
    ensures value { result.now ≡ pending.now }
    ensures are { AreBytes pending.now }
{
    pending
}

/// The first source block of a Run, where its source blocks are written.
pub fn source_again(namespace: &Namespace, command: &RunCommand) -> Option<ZoneBlock>
    ensures { MatchOption result
        (AreSourcesWritten namespace.now command.now → ⊥) (IsSource namespace.now command.now) }
{
    let blocks = command.blocks.get();
    let Some(first) = namespace.geometry().zone_block(command.lba) else {
        return None;
    };
    let written = namespace.zone(first.zone).written();
    if u64::from(first.offset) + u64::from(blocks) > u64::from(written) {
        return None;
    }
    Some(first)
}

/// The number of the zone that a Run appends to, where it is open or filled.
pub fn destination_again(namespace: &Namespace, command: &RunCommand) -> Option<u32>
    ensures { MatchOption result
        (IsOpened namespace.now (zone_number namespace.now command.now.destination) → ⊥) (IsDestination namespace.now command.now) }
{
    let Some(first) = namespace.geometry().zone_block(command.destination) else {
        return None;
    };
    let zone = namespace.zone(first.zone);
    if !zone.state().is_open() && zone.written() != zone.capacity() {
        return None;
    }
    Some(first.zone)
}
