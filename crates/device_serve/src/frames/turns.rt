//! Turns, round the runs.

ghost use Rattle.std.specs.Prelude.{◌≡◌, ◌≤◌, ◌<◌, ◌+◌, ◌*◌, ◌-◌, ◌^◌, if◌then◌else◌, true, length, IfOk, OnErr};
ghost use Rattle.nvme_entry.specs.declared.command.TheConstants.{MOST_TRANSFER};
ghost use Rattle.device_events.specs.declared.event.Event.TheVariants.{Turn};
ghost use Rattle.device_serve.specs.FrameStream.{Began, GivesTurns, HasNone, WentRound};
ghost use Rattle.device_serve.specs.steps.FrameParts.{GaveTurn, HasGrown};

use crate::frames::spelling::add_frame;
use crate::kept::KeptDevice;
use durable_device::{FrameDevice, is_idle};
use durable_machine::Store;
use nvme_entry::MOST_TRANSFER;
use runner::Event;
use std::alloc::AllocError;
use zone_resources::RUNS;

/// How many runs there are at most, which their numbers are below.
const NUMBERS: u8 = RUNS as u8;

/// Gives the active runs turns, one after another, so many at most, and adds the frame of the reply to each to the answer. It ends
/// earlier where no run is left.
///
/// # Errors
///
/// No memory. Then some turns are given, and all of them are answered, or all but the last.
pub(crate) fn give_turns<S: Store<FrameDevice> + Drop>(
    kept: &mut KeptDevice<S>,
    turns: u32,
    output: &mut [u8],
    answer: &mut Vec<u8>,
) -> Result<u32, AllocError>
    requires room { length output.old ≡ MOST_TRANSFER }
    requires kept { S.keeps kept.old.device.value (S.waits kept.old.events) (S.disk kept.old.events) }
    ensures kept { S.keeps kept.new.device.value (S.waits kept.new.events) (S.disk kept.new.events) }
    ensures same { S.disk kept.new.events ≡ S.disk kept.old.events }
    ensures given { IfOk result (λ given.
        GivesTurns turns given kept.old.device.value kept.new.device.value answer.old.items answer.new.items) }
    ensures round { WentRound turns kept.old.device.value kept.new.device.value }
    ensures grown { HasGrown answer.old.items answer.new.items }
{
    let mut given = 0;
    let mut idle = 0;
    let mut run = 0;
    // The numbers that were found to have no run. A turn starts none, so these aren't tried again.
    let mut free = [false; RUNS];
    while given < turns && idle < NUMBERS {
        let place = usize::from(run);
        let was = turn_unless(free[place], kept, run, output, answer)?;
        free[place] = !was;
        (given, idle) = counted(was, given, idle);
        run = (run + 1) % NUMBERS;
    }
    Ok(given)
}

/// Gives a turn, unless it is known that no run has the number, and says whether one has.
fn turn_unless<S: Store<FrameDevice> + Drop>(
    is_free: bool,
    kept: &mut KeptDevice<S>,
    run: u8,
    output: &mut [u8],
    answer: &mut Vec<u8>,
) -> Result<bool, AllocError>
    requires free { is_free ≡ true → HasNone kept.old.device.value run }
    requires room { length output.old ≡ MOST_TRANSFER }
    requires kept { S.keeps kept.old.device.value (S.waits kept.old.events) (S.disk kept.old.events) }
    ensures kept { S.keeps kept.new.device.value (S.waits kept.new.events) (S.disk kept.new.events) }
    ensures same { S.disk kept.new.events ≡ S.disk kept.old.events }
    ensures gave { IfOk result (λ was. GaveTurn run was kept.old.device.value kept.new.device.value answer.old.items answer.new.items) }
    ensures began { OnErr result (Began (Turn run) kept.old.device.value kept.new.device.value) }
    ensures unanswered { OnErr result (answer.new.items ≡ answer.old.items) }
{
    if is_free {
        return Ok(false);
    }
    give_turn(kept, run, output, answer)
}

/// Gives a turn, and says whether a run has the number. Then the frame of the reply is added to the answer.
fn give_turn<S: Store<FrameDevice> + Drop>(
    kept: &mut KeptDevice<S>,
    run: u8,
    output: &mut [u8],
    answer: &mut Vec<u8>,
) -> Result<bool, AllocError>
    requires room { length output.old ≡ MOST_TRANSFER }
    requires kept { S.keeps kept.old.device.value (S.waits kept.old.events) (S.disk kept.old.events) }
    ensures kept { S.keeps kept.new.device.value (S.waits kept.new.events) (S.disk kept.new.events) }
    ensures same { S.disk kept.new.events ≡ S.disk kept.old.events }
    ensures gave { IfOk result (λ was. GaveTurn run was kept.old.device.value kept.new.device.value answer.old.items answer.new.items) }
    ensures began { OnErr result (Began (Turn run) kept.old.device.value kept.new.device.value) }
    ensures unanswered { OnErr result (answer.new.items ≡ answer.old.items) }
{
    let reply = kept.apply(&Event::Turn { run }, output)?;
    if is_idle(&reply) {
        return Ok(false);
    }
    add_frame(answer, reply, &output[..reply.data_length()])?;
    Ok(true)
}

/// How many turns were given with this one, and how many numbers that no run has come after the last of them.
fn counted(was: bool, given: u32, idle: u8) -> (u32, u8)
    requires few { given < 2 ^ 32 - 1 }
    requires some { idle < 8 }
    ensures given { result.0 ≡ (if was then given + 1 else given) }
    ensures idle { result.1 ≡ (if was then 0 else idle + 1) }
    ensures within { result.1 ≤ 8 }
    ensures more { result.0 ≤ given + 1 }
    ensures progress { 9 * given + idle < 9 * result.0 + result.1 }
{
    if was {
        (given + 1, 0)
    } else {
        (given, idle + 1)
    }
}
