//! Turns.

ghost use Rattle.std.specs.Prelude.{◌≡◌, ◌<◌, ◌≤◌, ◌+◌, ◌^◌, ℕ, [], ◌∷◌, get_or, length, None, IsNone};
ghost use Rattle.device_meaning.specs.Judging.{judge_by};
ghost use Rattle.program_interface.specs.declared.block_size.TheConstants.{LARGEST_BLOCK};
ghost use Rattle.emit_append.specs.Packer.{after_put, given_by_finish, given_by_put, new_packer};
ghost use Rattle.common_definitions.specs.Bytes.{padded};
ghost use Rattle.device_events.specs.Replies.{data_length};
ghost use Rattle.device_meaning.specs.Happenings.{added, turned};
ghost use Rattle.runner.specs.DeviceState.{active_of};
ghost use Rattle.runner.specs.Turns.{has_turns_left, turned_on};
ghost use Rattle.runner.specs.steps.Ready.{FitsNamespace};
ghost use Rattle.device_meaning.specs.Reached.{IsReached};
ghost use Rattle.runner.specs.steps.Turning.{FitsAt, FitsIn, FitsOn, HasRoom, HasRunNext, IsTaking, Keeps, PlaceTurned, SlotTurned, Turned, next_block, next_block_run, steps_by, steps_in, steps_of_turn, with_packer};

use crate::active_run::ActiveRun;
use crate::completion::complete;
use crate::device_state::DeviceState;
use crate::loaded_program::LoadedProgram;
use crate::places;
use device_events::Reply;
use device_meaning::laws::domains_judge_soundly;
use emit_append::Packer;
use nvme_entry::{PROGRAM_SLOTS, Status};
use program_interface::{Context, LARGEST_BLOCK};
use program_meaning::TrapFree;
use verified_run::{Exit, Prepared, Stack, StepCount};
use word_domain::Domain;
use zns_commands::{Answer, Namespace};

/// The block that a run reads next.
fn source_block<'a>(namespace: &'a Namespace, active: &ActiveRun) -> &'a [u8]
    requires { FitsNamespace namespace.now active.now }
    ensures value { result.now ≡ next_block namespace.now (active_of active.now) }
    ensures size { length result.now ≡ namespace.now.block }
{
    let first = active.source;
    namespace
        .image()
        .blocks(first.zone, first.offset + active.index, 1)
}

/// Runs the program on the block that is next.
#[inline(always)]
fn run_next<V: TrapFree + Drop>(
    namespace: &Namespace,
    prepared: &Prepared<V>,
    active: &mut ActiveRun,
    stack: &mut Stack,
    group: &mut [u8; LARGEST_BLOCK],
    count: &mut StepCount,
) -> Exit
    requires fits { FitsNamespace namespace.now active.old }
    requires block { V.block prepared.now ≡ namespace.now.block }
    requires limit { V.limit prepared.now ≤ namespace.now.block }
    ensures next { HasRunNext namespace.now (V.code prepared.now) (V.limit prepared.now) active.old active.new result group.new }
    ensures counts { count.new.steps ≡ count.old.steps + result.steps }
    ensures limit { result.group_length ≤ namespace.now.block }
    ensures few { result.frames ≤ LARGEST_BLOCK }
    ensures within { result.group_length ≤ length group.new }
{
    let command = active.command;
    let context = Context {
        lba: command.lba + u64::from(active.index),
        index: active.index,
        count: command.blocks.get(),
        block: namespace.geometry().block(),
        argument: command.argument,
    };
    let block = source_block(namespace, active);
    prepared.run_over(
        block,
        &context.encode(),
        &mut active.scratch,
        stack,
        group,
        count,
    )
}

/// Appends the block that is pending, and begins the next.
fn release(namespace: &mut Namespace, active: &mut ActiveRun)
    requires block { active.old.packer.block ≡ namespace.old.block }
    requires room { IsTaking namespace.old active.old.destination 1 }
    requires few { active.old.appended + 1 < 2 ^ 32 }
    ensures namespace { namespace.new
        ≡ added namespace.old active.old.destination (padded active.old.packer.block active.old.packer.pending ∷ []) }
    ensures active { active.new ≡ with_packer active.old (new_packer active.old.packer.block) 1 }
{
    namespace.append_blocks(active.destination, active.packer.padded());
    active.packer.clear();
    active.appended += 1;
}

/// Packs a group. Where it doesn't fit into the pending block, that one is appended first.
#[inline(always)]
fn put(namespace: &mut Namespace, active: &mut ActiveRun, group: &[u8])
    requires block { active.old.packer.block ≡ namespace.old.block }
    requires whole { length group.now ≤ namespace.old.block }
    requires room { HasRoom namespace.old active.old.destination (given_by_put active.old.packer group.now) }
    requires few { active.old.appended + 1 < 2 ^ 32 }
    ensures namespace { namespace.new ≡ added namespace.old active.old.destination (given_by_put active.old.packer group.now) }
    ensures active { active.new
        ≡ with_packer active.old (after_put active.old.packer group.now) (length (given_by_put active.old.packer group.now)) }
    ensures one { length (given_by_put active.old.packer group.now) ≤ 1 }
    ensures begun { length active.old.packer.pending ≤ active.old.packer.block }
{
    if !active.packer.has_room(group.len()) {
        release(namespace, active);
    }
    active.packer.add(group);
}

/// Appends the pending block, where it has a group.
fn finish(namespace: &mut Namespace, active: &mut ActiveRun)
    requires block { active.old.packer.block ≡ namespace.old.block }
    requires room { HasRoom namespace.old active.old.destination (given_by_finish active.old.packer) }
    requires few { active.old.appended + 1 < 2 ^ 32 }
    ensures namespace { namespace.new ≡ added namespace.old active.old.destination (given_by_finish active.old.packer) }
    ensures active { active.new ≡ with_packer active.old (new_packer active.old.packer.block) (length (given_by_finish active.old.packer)) }
{
    if !active.packer.is_empty() {
        release(namespace, active);
    }
}

/// A turn of a run: its program on the next block, and what that emits is packed. Gives the run's answer
/// where it has ended.
#[inline(always)]
fn advance<V: TrapFree + Drop>(
    namespace: &mut Namespace,
    prepared: &Prepared<V>,
    active: &mut ActiveRun,
    stack: &mut Stack,
    group: &mut [u8; LARGEST_BLOCK],
    count: &mut StepCount,
) -> Option<Answer>
    requires fits { FitsOn namespace.old (V.code prepared.now) (V.limit prepared.now) active.old }
    requires block { V.block prepared.now ≡ namespace.old.block }
    ensures turn { Turned namespace.old namespace.new (V.code prepared.now) (V.limit prepared.now) active.old active.new result }
    ensures counts { count.new.steps ≡ count.old.steps
        + (next_block_run namespace.old (V.code prepared.now) (V.limit prepared.now) (active_of active.old)).steps }
    ensures kept { Keeps active.old active.new }
    ensures fits { IsNone result → FitsNamespace namespace.new active.new }
{
    let exit = run_next(namespace, prepared, active, stack, group, count);
    put(namespace, active, &group[..exit.group_length]);
    active.index += 1;
    active.frames += exit.frames as u32;
    if exit.r0 == 0 && active.index < active.command.blocks.get() {
        return None;
    }
    finish(namespace, active);
    Some(Answer {
        status: Status::SUCCESS,
        dw0: active.frames,
        dw1: active.appended,
        length: 0,
    })
}

/// A turn of a run by the program of its slot, which has the run's scratch bytes as its result once the run
/// has ended.
#[inline(always)]
fn advance_by_slot<D: Domain>(
    namespace: &mut Namespace,
    slot: &mut Option<LoadedProgram<D>>,
    active: &mut ActiveRun,
    stack: &mut Stack,
    group: &mut [u8; LARGEST_BLOCK],
) -> Option<Answer>
    requires { FitsIn namespace.old slot.old active.old }
    ensures turned { SlotTurned namespace.old namespace.new slot.old slot.new active.old active.new result }
    ensures counts { steps_in slot.new ≡ steps_in slot.old + steps_by namespace.old slot.old active.old }
{
    let Some(loaded) = slot else {
        unreachable!();
    };
    let (prepared, count) = (&loaded.prepared, &mut loaded.count);
    let answer = advance(namespace, prepared, active, stack, group, count)?;
    loaded.result = active.scratch;
    Some(answer)
}

/// Frees a place. A function clears the room of its large values as it begins, and an empty place is as large as a run: so it is made
/// here alone, and a turn after which the run goes on doesn't pay for it.
#[inline(never)]
fn free(place: &mut Option<ActiveRun>)
    ensures { place.new ≡ None }
{
    *place = None;
}

/// Gives the run at a place a turn, where there is one. The place is free once the run has ended.
#[inline(always)]
fn turn_place<D: Domain>(
    namespace: &mut Namespace,
    slots: &mut [Option<LoadedProgram<D>>; PROGRAM_SLOTS],
    place: &mut Option<ActiveRun>,
    stack: &mut Stack,
    group: &mut [u8; LARGEST_BLOCK],
    run: u8,
) -> Reply
    requires { FitsAt namespace.old slots.old place.old }
    ensures turned { PlaceTurned namespace.old namespace.new slots.old slots.new run place.old place.new result }
    ensures counts { (slot : ℕ) → steps_in (get_or slots.new slot None)
        ≡ steps_in (get_or slots.old slot None) + steps_of_turn namespace.old slots.old place.old slot }
    ensures no_data { data_length result ≡ 0 }
{
    let Some(active) = place else {
        return Reply::Idle;
    };
    let slot = active.command.slot.index();
    let Some(answer) = advance_by_slot(namespace, &mut slots[slot], active, stack, group) else {
        return Reply::Pending { run };
    };
    let reply = complete(active.queue, active.cid, answer);
    free(place);
    reply
}

/// Gives a run a turn.
#[inline(always)]
pub fn turn<D: Domain>(
    state: &mut DeviceState<D>,
    stack: &mut Stack,
    group: &mut [u8; LARGEST_BLOCK],
    run: u8,
) -> Reply
    requires reached { IsReached (judge_by D.operations) state.old }
    ensures reply { result ≡ (turned state.old run).reply.reply }
    ensures state { state.new ≡ (turned state.old run).state }
    ensures no_data { data_length result ≡ 0 }
{
    domains_judge_soundly::<D>();
    let place = usize::from(run);
    if place >= places::count(&state.runs) {
        return Reply::Idle;
    }
    let place = &mut state.runs[place];
    turn_place(
        &mut state.namespace,
        &mut state.slots,
        place,
        stack,
        group,
        run,
    )
}

/// Has a run turns left, by the reply to its turn?
fn has_turns_left(reply: &Reply) -> bool
    ensures { result ≡ has_turns_left reply.now }
{
    match reply {
        Reply::Pending { .. } => true,
        Reply::Complete { .. } | Reply::Idle | Reply::FaultTaken | Reply::FaultRefused => false,
    }
}

/// Gives a run a turn, and up to `more` after it as long as it has turns left: the reply is that to the last of them.
pub fn turns<D: Domain>(
    state: &mut DeviceState<D>,
    stack: &mut Stack,
    group: &mut [u8; LARGEST_BLOCK],
    run: u8,
    more: usize,
) -> Reply
    requires reached { IsReached (judge_by D.operations) state.old }
    ensures reply { result ≡ (turned_on more state.old run).reply.reply }
    ensures state { state.new ≡ (turned_on more state.old run).state }
    ensures no_data { data_length result ≡ 0 }
    ensures reached { IsReached (judge_by D.operations) state.new }
{
    let mut left = more;
    loop {
        let reply = turn(state, stack, group, run);
        if left == 0 || !has_turns_left(&reply) {
            return reply;
        }
        left -= 1;
    }
}
