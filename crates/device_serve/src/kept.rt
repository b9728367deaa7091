//! A device, and what keeps its events.

ghost use Rattle.std.specs.Prelude.{◌≡◌, ◌≤◌, [], length, take, IfOk, OnErr, OnOk};
ghost use Rattle.stored_file.specs.File.{LeavesOnly};
ghost use Rattle.stored_file.specs.Cause.{HasCause};
ghost use Rattle.durable_machine.specs.Seals.{events_of};
ghost use Rattle.nvme_entry.specs.declared.command.TheConstants.{MOST_TRANSFER};
ghost use Rattle.device_events.specs.Replies.{data_length};
ghost use Rattle.device_meaning.specs.Events.{HasHappened};
ghost use Rattle.device_meaning.specs.Judging.{interval_judge};
ghost use Rattle.device_meaning.specs.State.{State};
ghost use Rattle.durable_device.specs.Kept.{IsEither};
ghost use Rattle.event_frames.specs.Requests.{Fits, told_event};

use durable_device::laws::changes_come_again;
use durable_device::{DurableDevice, Folding, FrameDevice, may_change, note};
use durable_machine::{Batch, Durable, InFile, Journal, Store};
use nvme_entry::MOST_TRANSFER;
use runner::{Device, Event, Reply};
use std::alloc::{AllocError, Global};
use stored_file::{FileError, StoredFile};

/// A device, and what keeps its events: a journal in a file, or nothing. What is done may be answered once [`KeptDevice::commit`] has
/// answered `Ok`, and not before.
#[derive(Drop)]
pub struct KeptDevice<S: Drop> {
    /// The device.
    pub device: Box<Device>,
    /// What keeps its events.
    pub events: S,
    /// How many bytes of the file were taken when it was made, was opened, or was to be folded last.
    pub folded: usize,
    /// What came of the last fold; [`Folding::Done`] where there was none yet.
    pub last_fold: Folding,
}

impl<F: StoredFile + Drop> KeptDevice<InFile<F>> {
    /// A device that was opened, with its journal. It is on the disk as it is, so nothing waits for a commit.
    pub fn opened(alloc: Global, device: DurableDevice<F>) -> KeptDevice<InFile<F>>
        ensures device { result.device.value ≡ device.store.machine }
        ensures journal { result.events.journal ≡ device.store.events.journal }
        ensures none { events_of result.events.waiting ≡ [] }
        ensures counted { (result.folded ≡ device.folded) × (result.last_fold ≡ device.last_fold) }
    {
        let DurableDevice {
            store,
            folded,
            last_fold,
        } = device;
        let Durable { machine, events } = store;
        let InFile { journal, .. } = events;
        let waiting = Batch::new(alloc);
        KeptDevice {
            device: machine.into_device(),
            events: InFile { journal, waiting },
            folded,
            last_fold,
        }
    }

    /// The file of its journal, which is written no more.
    pub fn into_file(self) -> F
        ensures { result ≡ self.events.journal.file }
    {
        let KeptDevice { events, .. } = self;
        let InFile { journal, .. } = events;
        let Journal { file, .. } = journal;
        file
    }
}

impl<S: Store<FrameDevice> + Drop> KeptDevice<S> {
    /// Does an event at once, and notes it if it may have changed the device. The data of the reply goes to the front of `output`.
    ///
    /// # Errors
    ///
    /// No memory for the note. Then the device is as it was, and nothing is noted.
    pub fn apply(&mut self, event: &Event, output: &mut [u8]) -> Result<Reply, AllocError>
        requires room { MOST_TRANSFER ≤ length output.old }
        requires fits { Fits (told_event event.now) }
        requires kept { S.keeps self.old.device.value (S.waits self.old.events) (S.disk self.old.events) }
        ensures happened { IfOk result (λ reply. HasHappened interval_judge event.now self.old.device.value self.new.device.value
            (record { reply = reply; bytes = take (data_length reply) output.new })) }
        ensures within { IfOk result (λ reply. data_length reply ≤ length output.new) }
        ensures refused { OnErr result (self.new.device.value ≡ self.old.device.value) }
        ensures not_noted { OnErr result (S.waits self.new.events ≡ S.waits self.old.events) }
        ensures same { S.disk self.new.events ≡ S.disk self.old.events }
        ensures counted { (self.new.folded ≡ self.old.folded) × (self.new.last_fold ≡ self.old.last_fold) }
        ensures kept { S.keeps self.new.device.value (S.waits self.new.events) (S.disk self.new.events) }
    {
        changes_come_again();
        // It is noted first, so that nothing can fail between the deed and its note.
        let before = note(&mut self.events, event)?;
        let reply = self.device.apply(event, output);
        if may_change(event, &reply) {
            return Ok(reply);
        }
        self.events.take_back(before);
        Ok(reply)
    }

    /// Commits what was done: from then on each crash leaves what stands for the device as it is, where there is a disk. Where nothing
    /// may have changed it since the last commit, the disk isn't waited for.
    ///
    /// # Errors
    ///
    /// No memory, or the disk's. Then the file has to be opened again, and nothing may go out.
    pub fn commit(&mut self, alloc: Global) -> Result<(), FileError>
        requires kept { S.keeps self.old.device.value (S.waits self.old.events) (S.disk self.old.events) }
        ensures unchanged { self.new.device.value ≡ self.old.device.value }
        ensures none { OnOk result (S.waits self.new.events ≡ []) }
        ensures counted { (self.new.folded ≡ self.old.folded) × (self.new.last_fold ≡ self.old.last_fold) }
        ensures committed { OnOk result (S.settled self.new.device.value (S.disk self.new.events)) }

        // A crash at any moment of it leaves the device that was committed before, or the one after all that was done since.
        ensures any_moment { (before : State) → S.settled before (S.disk self.old.events)
            → LeavesOnly (S.told (S.disk self.old.events)) (S.told (S.disk self.new.events)) (IsEither before self.old.device.value) }

        // It doesn't give up by itself.
        ensures cause { HasCause (S.told (S.disk self.old.events)) (S.told (S.disk self.new.events)) result }
    {
        self.events.commit(alloc)
    }
}
