//! Requests, and what answers them.

ghost use Rattle.std.specs.Prelude.{◌≡◌, ◌++◌, ◌∷◌, ◌⊎◌, [], length, IfErr, OnErr, OnOk};
ghost use Rattle.nvme_entry.specs.declared.command.TheConstants.{MOST_TRANSFER};
ghost use Rattle.event_frames.specs.Frames.{saved_frame};
ghost use Rattle.event_frames.specs.Requests.{Fits, told_event, told_of};
ghost use Rattle.device_serve.specs.FrameStream.{Answers, Began, Drains, Fails, IsDone, WentRound, seen};
ghost use Rattle.device_serve.specs.declared.fault.ServeFault.TheVariants.{Memory, Save};
ghost use Rattle.device_serve.specs.steps.FrameParts.{HasGrown};

use crate::fault::ServeFault;
use crate::frames::spelling::add_frame;
use crate::frames::turns::give_turns;
use crate::keep::Keep;
use crate::kept::KeptDevice;
use durable_device::FrameDevice;
use durable_machine::Store;
use event_frames::{Request, push_drained, push_saved};
use runner::{Device, Event};

/// Does a request, and adds what answers it to the answer.
///
/// # Errors
///
/// No memory for what answers it or for its note, or the image can't be saved. The request may be done all the same, a drain in part, and
/// a part of what answers a drain may have been added.
pub(crate) fn do_request<S: Store<FrameDevice> + Drop, K: Keep>(
    kept: &mut KeptDevice<S>,
    request: &Request,
    output: &mut [u8],
    answer: &mut Vec<u8>,
    keeper: &mut K,
) -> Result<(), ServeFault>
    requires room { length output.old ≡ MOST_TRANSFER }
    requires fits { Fits (told_of request.now) }
    requires kept { S.keeps kept.old.device.value (S.waits kept.old.events) (S.disk kept.old.events) }
    requires ready { K.is_ready keeper.old }
    ensures ready { K.is_ready keeper.new }
    ensures keeper { K.becomes keeper.old keeper.new }
    ensures kept { S.keeps kept.new.device.value (S.waits kept.new.events) (S.disk kept.new.events) }
    ensures same { S.disk kept.new.events ≡ S.disk kept.old.events }
    ensures done { OnOk result (IsDone K.has_kept request.now
        (seen kept.old.device.value answer.old.items keeper.old) (seen kept.new.device.value answer.new.items keeper.new)) }
    ensures fails { IfErr result (Fails K.has_kept request.now
        (seen kept.old.device.value answer.old.items keeper.old) (seen kept.new.device.value answer.old.items keeper.new)) }
    ensures grown { HasGrown answer.old.items answer.new.items }
{
    match request {
        Request::Event(event) => answer_event(kept, event, output, answer),
        Request::Drain { turns } => drain(kept, *turns, output, answer),
        Request::Save => save(&kept.device, answer, keeper),
    }
}

/// Has the image kept, and adds that it was to the answer.
fn save<K: Keep>(device: &Device, answer: &mut Vec<u8>, keeper: &mut K) -> Result<(), ServeFault>
    requires ready { K.is_ready keeper.old }
    ensures ready { K.is_ready keeper.new }
    ensures keeper { K.becomes keeper.old keeper.new }
    ensures kept { OnOk result (K.has_kept keeper.old keeper.new device.now.namespace) }
    ensures answered { OnOk result (answer.new.items ≡ answer.old.items ++ saved_frame) }
    ensures fails { IfErr result (λ why. (why ≡ Save) ⊎ ((why ≡ Memory) × K.has_kept keeper.old keeper.new device.now.namespace)) }
    ensures unanswered { OnErr result (answer.new.items ≡ answer.old.items) }
{
    if keeper.keep(device.image()).is_err() {
        return Err(ServeFault::Save);
    }
    push_saved(answer)?;
    Ok(())
}

/// Lets an event happen, and adds the frame of the reply to it to the answer.
fn answer_event<S: Store<FrameDevice> + Drop>(
    kept: &mut KeptDevice<S>,
    event: &Event,
    output: &mut [u8],
    answer: &mut Vec<u8>,
) -> Result<(), ServeFault>
    requires room { length output.old ≡ MOST_TRANSFER }
    requires fits { Fits (told_event event.now) }
    requires kept { S.keeps kept.old.device.value (S.waits kept.old.events) (S.disk kept.old.events) }
    ensures kept { S.keeps kept.new.device.value (S.waits kept.new.events) (S.disk kept.new.events) }
    ensures same { S.disk kept.new.events ≡ S.disk kept.old.events }
    ensures answered { OnOk result
        (Answers (event.now ∷ []) kept.old.device.value kept.new.device.value answer.old.items answer.new.items) }
    ensures began { OnErr result (Began event.now kept.old.device.value kept.new.device.value) }
    ensures starved { IfErr result (λ why. why ≡ Memory) }
    ensures grown { HasGrown answer.old.items answer.new.items }
{
    let reply = kept.apply(event, output)?;
    add_frame(answer, reply, &output[..reply.data_length()])?;
    Ok(())
}

/// Gives turns, and adds the frames of the replies to them to the answer, and then how many they were.
fn drain<S: Store<FrameDevice> + Drop>(
    kept: &mut KeptDevice<S>,
    turns: u32,
    output: &mut [u8],
    answer: &mut Vec<u8>,
) -> Result<(), ServeFault>
    requires room { length output.old ≡ MOST_TRANSFER }
    requires kept { S.keeps kept.old.device.value (S.waits kept.old.events) (S.disk kept.old.events) }
    ensures kept { S.keeps kept.new.device.value (S.waits kept.new.events) (S.disk kept.new.events) }
    ensures same { S.disk kept.new.events ≡ S.disk kept.old.events }
    ensures answered { OnOk result (Drains turns kept.old.device.value kept.new.device.value answer.old.items answer.new.items) }
    ensures round { OnErr result (WentRound turns kept.old.device.value kept.new.device.value) }
    ensures starved { IfErr result (λ why. why ≡ Memory) }
    ensures grown { HasGrown answer.old.items answer.new.items }
{
    let given = give_turns(kept, turns, output, answer)?;
    push_drained(answer, given)?;
    Ok(())
}
