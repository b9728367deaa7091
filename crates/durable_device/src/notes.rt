//! Events, noted before they are done: each as the frame that asks for it, whose parts aren't copied first.

ghost use Rattle.std.specs.Prelude.{◌≡◌, false, take, IfOk, OnErr, OnOk};
ghost use Rattle.event_frames.specs.Frames.{request_frame};
ghost use Rattle.event_frames.specs.Requests.{Faulted, Fits, Submitted, Turned, told_event};
ghost use Rattle.device_events.specs.ToldEvents.{told_of};
ghost use Rattle.device_meaning.specs.State.{State};
ghost use Rattle.durable_device.specs.Changing.{HasIdentifier, may_change};
ghost use Rattle.durable_device.specs.Machine.{next_state};

use crate::{FrameDevice, asks_change, is_idle, is_refusal};
use durable_machine::Store;
use event_frames::{header, state_number};
use nvme_entry::Entry;
use runner::{Event, Reply};
use std::alloc::AllocError;
use zone_state::FaultState;

/// Notes an event that is done next, and gives how many bytes of notes there were before.
///
/// # Errors
///
/// No memory. Then nothing is noted.
pub fn note<S: Store<FrameDevice>>(events: &mut S, event: &Event) -> Result<usize, AllocError>
    requires fits { Fits (told_event event.now) }
    ensures noted { (device : State) → S.keeps device (S.waits events.old) (S.disk events.old)
        → OnOk result (S.keeps (next_state device false (request_frame (told_event event.now))) (S.waits events.new) (S.disk events.new)) }
    ensures marked { IfOk result (λ before. take before (S.waits events.new) ≡ S.waits events.old) }
    ensures refused { OnErr result (S.waits events.new ≡ S.waits events.old) }
    ensures same { S.disk events.new ≡ S.disk events.old }
{
    match event {
        Event::Submit {
            queue,
            entry,
            input,
        } => note_submission(events, *queue, entry, input.as_slice()),
        Event::Turn { run } => note_turn(events, *run),
        Event::Fault { zone, state } => note_fault(events, *zone, *state),
    }
}

/// Notes a submission that is done next, and gives how many bytes of notes there were before.
///
/// # Errors
///
/// No memory. Then nothing is noted.
pub fn note_submission<S: Store<FrameDevice>>(
    events: &mut S,
    queue: u16,
    entry: &[u8; 64],
    input: &[u8],
) -> Result<usize, AllocError>
    requires fits { Fits (Submitted queue entry.now input.now) }
    ensures noted { (device : State) → S.keeps device (S.waits events.old) (S.disk events.old)
        → OnOk result (S.keeps (next_state device false (request_frame (Submitted queue entry.now input.now))) (S.waits events.new)
        (S.disk events.new)) }
    ensures marked { IfOk result (λ before. take before (S.waits events.new) ≡ S.waits events.old) }
    ensures refused { OnErr result (S.waits events.new ≡ S.waits events.old) }
    ensures same { S.disk events.new ≡ S.disk events.old }
{
    events.note(&header(1, 0, queue, 0, input.len() as u32), entry, input)
}

/// Notes a turn of a run that is given next, and gives how many bytes of notes there were before.
///
/// # Errors
///
/// No memory. Then nothing is noted.
pub fn note_turn<S: Store<FrameDevice>>(events: &mut S, run: u8) -> Result<usize, AllocError>
    ensures noted { (device : State) → S.keeps device (S.waits events.old) (S.disk events.old)
        → OnOk result (S.keeps (next_state device false (request_frame (Turned run))) (S.waits events.new) (S.disk events.new)) }
    ensures marked { IfOk result (λ before. take before (S.waits events.new) ≡ S.waits events.old) }
    ensures refused { OnErr result (S.waits events.new ≡ S.waits events.old) }
    ensures same { S.disk events.new ≡ S.disk events.old }
{
    events.note(&header(2, run, 0, 0, 0), &[], &[])
}

/// Notes a fault of a zone.
fn note_fault<S: Store<FrameDevice>>(
    events: &mut S,
    zone: u32,
    state: FaultState,
) -> Result<usize, AllocError>
    ensures noted { (device : State) → S.keeps device (S.waits events.old) (S.disk events.old)
        → OnOk result (S.keeps (next_state device false (request_frame (Faulted zone state))) (S.waits events.new) (S.disk events.new)) }
    ensures marked { IfOk result (λ before. take before (S.waits events.new) ≡ S.waits events.old) }
    ensures refused { OnErr result (S.waits events.new ≡ S.waits events.old) }
    ensures same { S.disk events.new ≡ S.disk events.old }
{
    events.note(&header(3, state_number(state), 0, zone, 0), &[], &[])
}

/// Whether an event with this reply may have changed the device. A refused one hasn't, whatever it was refused for, nor has one that
/// only reads.
pub fn may_change(event: &Event, reply: &Reply) -> bool
    ensures told { result ≡ may_change (told_of event.now) reply.now }
    ensures identifier { HasIdentifier (told_of event.now) }
{
    match event {
        Event::Submit { entry, .. } => {
            let _identifier = Entry::cid(entry);
            asks_change(entry) && !is_refusal(reply)
        }
        Event::Turn { .. } => !is_idle(reply),
        Event::Fault { .. } => matches!(reply, Reply::FaultTaken),
    }
}
