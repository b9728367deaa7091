//! Whether a run is admitted.

ghost use Rattle.std.specs.Prelude.{false, ◌≡◌, ◌<◌, ◌≤◌, ◌+◌, ◌^◌, length, IfOk, IfErr, OnOk, OnErr};
ghost use Rattle.std.specs.Result.{result_err};
ghost use Rattle.common_definitions.specs.Checks.{first_failed};
ghost use Rattle.zone_resources.specs.Holds.{is_destination};
ghost use Rattle.image_store.specs.Namespace.{zone_at};
ghost use Rattle.device_meaning.specs.steps.Checks.{address_checks, destination_checks, source_checks};
ghost use Rattle.runner.specs.steps.Admitting.{AreZonesOf, IsAdmission, refusal_by};
ghost use Rattle.runner.specs.steps.Answered.{Refuses, Starts};
ghost use Rattle.runner.specs.steps.Ready.{AreWritten};

use crate::active_run::ActiveRun;
use crate::device_state::DeviceState;
use emit_append::blocks_needed;
use image_store::ZoneBlock;
use nvme_entry::{BlockCount, RunCommand, Status};
use word_domain::Domain;
use zns_commands::{
    Holds, Namespace, check_readable, check_transfer, check_within_zone, first_block, lowest,
};
use zone_resources::RUNS;

/// What a run that is admitted is given: its number, where its first source block is, and the number of
/// the zone that it appends to.
#[derive(Clone, Copy, Debug, PartialEq, Eq)]
struct Admitted {
    run: u8,
    source: ZoneBlock,
    destination: u32,
}

/// Starts a run at the lowest free place, whose number it gives.
///
/// # Errors
///
/// The status of the first check that fails. Nothing is started then.
pub fn start<D: Domain>(
    state: &mut DeviceState<D>,
    queue: u16,
    cid: u16,
    command: &RunCommand,
    input: &[u8],
) -> Result<u8, Status>
    ensures ok { IfOk result (Starts command.now queue cid input.now state.old state.new) }
    ensures err { IfErr result (Refuses command.now input.now state.old) }
    ensures kept { OnErr result (state.new ≡ state.old) }
{
    let admitted = admit(state, command, input)?;
    let block = state.namespace.geometry().block();
    state.runs[usize::from(admitted.run)] = Some(ActiveRun::new(
        queue,
        cid,
        *command,
        admitted.source,
        admitted.destination,
        block,
    ));
    Ok(admitted.run)
}

/// Tests a run.
fn admit<D: Domain>(
    state: &DeviceState<D>,
    command: &RunCommand,
    input: &[u8],
) -> Result<Admitted, Status>
    ensures why { result_err result ≡ refusal_by state.now command.now input.now }
    ensures admission { IfOk result (IsAdmission state.now command.now) }
    ensures inside { IfOk result (λ admitted. admitted.run < RUNS) }
{
    check_transfer(0, 0, input)?;
    let Some(sizes) = state.sizes(command.slot) else {
        return Err(Status::NO_SUCH_PROGRAM);
    };
    let namespace = state.namespace();
    let (source, destination) = source_and_destination(namespace, command)?;
    let Some(run) = state.free_place() else {
        return Err(Status::NO_RUN_FREE);
    };
    check_source(namespace, source, command.blocks)?;
    let blocks = blocks_needed(command.blocks.get(), sizes);
    check_destination(namespace, &state.holds(), destination, blocks)?;
    Ok(Admitted {
        run,
        source,
        destination,
    })
}

/// Where a run reads and appends: its first source block, and its destination.
fn source_and_destination(
    namespace: &Namespace,
    command: &RunCommand,
) -> Result<(ZoneBlock, u32), Status>
    ensures why { result_err result ≡ first_failed (address_checks namespace.now command.now) }
    ensures zones { IfOk result (λ found. AreZonesOf namespace.now command.now found.0 found.1) }
{
    let source = first_block(namespace.image(), command.lba, command.blocks)?;
    let destination = lowest(namespace.image(), command.destination)?;
    if source.zone == destination {
        return Err(Status::SOURCE_IS_DESTINATION);
    }
    Ok((source, destination))
}

/// Tests the blocks that a run is to read: they lie in one zone, which can be read, and are written.
fn check_source(namespace: &Namespace, first: ZoneBlock, blocks: BlockCount) -> Result<(), Status>
    requires { first.zone < length namespace.now.zones }
    ensures why { result_err result ≡ first_failed (source_checks namespace.now first blocks) }
    ensures written { OnOk result (AreWritten namespace.now first blocks) }
    ensures small { OnOk result (first.offset + blocks < 2 ^ 32) }
{
    check_within_zone(namespace.image(), first, blocks)?;
    check_readable(namespace.image(), first.zone)?;
    let zone = namespace.zone(first.zone);
    let end = u64::from(first.offset) + u64::from(blocks.get());
    if end > u64::from(zone.written()) {
        return Err(Status::SOURCE_NOT_WRITTEN);
    }
    Ok(())
}

/// Tests the zone that a run is to append to: no other run does, it is open, and it has room.
fn check_destination(
    namespace: &Namespace,
    holds: &Holds,
    zone: u32,
    blocks: u32,
) -> Result<(), Status>
    requires { zone < length namespace.now.zones }
    ensures why { result_err result ≡ first_failed (destination_checks namespace.now holds.now zone blocks) }
    ensures alone { OnOk result (is_destination holds.now zone ≡ false) }
    ensures room { OnOk result (length (zone_at namespace.now zone).blocks + blocks ≤ namespace.now.capacity) }
{
    if holds.is_destination(zone) {
        return Err(Status::ZONE_HELD);
    }
    let zone = namespace.zone(zone);
    if !zone.state().is_open() {
        return Err(Status::DESTINATION_NOT_OPEN);
    }
    if u64::from(zone.written()) + u64::from(blocks) > u64::from(zone.capacity()) {
        return Err(Status::DESTINATION_LACKS_ROOM);
    }
    Ok(())
}
