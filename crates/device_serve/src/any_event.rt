//! Any events, also those with more data than a frame carries.

ghost use Rattle.std.specs.Prelude.{◌≡◌, ◌≤◌, true, false, length, take, IfOk, OnErr};
ghost use Rattle.nvme_entry.specs.declared.command.TheConstants.{MOST_TRANSFER};
ghost use Rattle.device_events.specs.Replies.{data_length};
ghost use Rattle.device_meaning.specs.Events.{HasHappened};
ghost use Rattle.device_meaning.specs.Judging.{interval_judge};
ghost use Rattle.event_frames.specs.Requests.{Fits, Submitted, told_event};
ghost use Rattle.device_serve.specs.LongData.{IsLong};

use crate::kept::KeptDevice;
use durable_device::FrameDevice;
use durable_machine::Store;
use nvme_entry::MOST_TRANSFER;
use runner::{Event, Reply};
use std::alloc::AllocError;

impl<S: Store<FrameDevice> + Drop> KeptDevice<S> {
    /// Does an event at once, as [`KeptDevice::apply`] does, and also one with more data than a command moves. Such an event never
    /// changes the device, so it isn't noted.
    ///
    /// # Errors
    ///
    /// No memory for the note. Then the device is as it was, and nothing is noted.
    pub fn apply_any(&mut self, event: &Event, output: &mut [u8]) -> Result<Reply, AllocError>
        requires room { MOST_TRANSFER ≤ length output.old }
        requires kept { S.keeps self.old.device.value (S.waits self.old.events) (S.disk self.old.events) }
        ensures happened { IfOk result (λ reply. HasHappened interval_judge event.now self.old.device.value self.new.device.value
            (record { reply = reply; bytes = take (data_length reply) output.new })) }
        ensures within { IfOk result (λ reply. data_length reply ≤ length output.new) }
        ensures refused { OnErr result (self.new.device.value ≡ self.old.device.value) }
        ensures not_noted { OnErr result (S.waits self.new.events ≡ S.waits self.old.events) }
        ensures same { S.disk self.new.events ≡ S.disk self.old.events }
        ensures counted { (self.new.folded ≡ self.old.folded) × (self.new.last_fold ≡ self.old.last_fold) }
        ensures kept { S.keeps self.new.device.value (S.waits self.new.events) (S.disk self.new.events) }
    {
        if fits_frame(event) {
            return self.apply(event, output);
        }
        Ok(self.device.apply(event, output))
    }
}

/// Whether a frame carries an event: its data is no more than a command moves.
fn fits_frame(event: &Event) -> bool
    ensures fits { result ≡ true → Fits (told_event event.now) }
    ensures long { result ≡ false → IsLong (told_event event.now) }
{
    match event {
        Event::Submit {
            queue,
            entry,
            input,
        } => is_carried(*queue, *entry, input.as_slice()),
        Event::Turn { run } => {
            // Brings in that it fits its field.
            let _run = *run;
            true
        }
        Event::Fault { zone, .. } => {
            let _zone = *zone;
            true
        }
    }
}

/// Whether a frame carries a submission. The queue and the entry fit their fields by their types.
fn is_carried(queue: u16, entry: [u8; 64], input: &[u8]) -> bool
    ensures fits { result ≡ true → Fits (Submitted queue entry input.now) }
    ensures long { result ≡ false → IsLong (Submitted queue entry input.now) }
{
    input.len() <= MOST_TRANSFER
}
