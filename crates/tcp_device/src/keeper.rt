//! What keeps the device of a target in a file.

ghost use Rattle.std.specs.Prelude.{◌≡◌, ◌↔◌, ◌<◌, ◌≤◌, ◌-◌, [], true, Ok, Some, IfOk, IsSome, IsTrue, OnErr, OnOk, is_some, slice_index_or, None};
ghost use Rattle.std.specs.Option.{option_map};
ghost use Rattle.stored_file.specs.File.{LeavesOnly};
ghost use Rattle.stored_file.specs.Cause.{HasCause};
ghost use Rattle.durable_machine.specs.Seals.{events_of};
ghost use Rattle.image_store.specs.Namespace.{shape};
ghost use Rattle.device_meaning.specs.State.{State};
ghost use Rattle.nvme_entry.specs.Entry.{decoded};
ghost use Rattle.durable_device.specs.Changing.{asks_change};
ghost use Rattle.durable_device.specs.Kept.{IsCommittedBut, IsEither, IsKept, StandsFor};
ghost use Rattle.tcp_target.specs.QueueCommands.{given_to_device};
ghost use Rattle.tcp_target.specs.Ready.{is_ready};
ghost use Rattle.tcp_device.specs.Deeds.{Does, Served, Turned};
ghost use Rattle.tcp_device.specs.Format.{IsFormatOf};
ghost use Rattle.tcp_device.specs.Served.{can_go, next_run};
ghost use Rattle.tcp_device.specs.State.{begun_on};
ghost use Rattle.tcp_device.specs.Resuming.{Resumes};

use crate::served::ServedTarget;
use durable_device::laws::changes_come_again;
use durable_device::{
    DurableDevice, Folding, Folds, FrameDevice, MOST_JOURNAL, asks_change, is_idle, is_refusal,
    note_submission, note_turn,
};
use durable_machine::{Batch, Durable, InFile, Store};
use nvme_entry::{Entry, MOST_TRANSFER};
use std::alloc::{AllocError, Global};
use stored_file::{FileError, StoredFile};
use tcp_admin::{NamespaceFormat, Subsystem};
use tcp_target::MOST_CONNECTIONS;
use zone_resources::RUNS;

/// What keeps the events of the device of a target: a journal in a file, or nothing. What hosts ask for is done at once, and sent to them
/// once it is committed: all that was done since the last commit is on the disk then, or after a crash none of it. After an `Err` the
/// file has to be opened again, and nothing may be sent.
#[derive(Drop)]
pub struct Keeper<S: Drop> {
    /// What keeps the events of the device.
    pub events: S,
    /// How many bytes of the file were taken when it was made, was opened, or was to be folded last.
    pub folded: usize,
}

/// A target without connections before a device that is kept, and what keeps it on.
///
/// # Errors
///
/// No memory for what they keep.
pub fn target_of<F: StoredFile + Drop>(
    alloc: Global,
    device: DurableDevice<F>,
    subsystem: Subsystem,
    format: NamespaceFormat,
) -> Result<(ServedTarget, Keeper<InFile<F>>), AllocError>
    requires format { IsFormatOf (shape device.store.machine.namespace) format }
    requires kept { IsKept device.store.machine device.store.events.journal.gate (F.told device.store.events.journal.file) }
    ensures served { IfOk result (λ made. made.0 ≡ begun_on device.store.machine subsystem format) }
    ensures journal { IfOk result (λ made. made.1.events.journal ≡ device.store.events.journal) }
    ensures kept { IfOk result (λ made.
        IsCommittedBut (events_of made.1.events.waiting) made.0.device made.1.events.journal.gate (F.told made.1.events.journal.file)) }
{
    let DurableDevice { store, folded, .. } = device;
    let Durable { machine, events } = store;
    let InFile { journal, .. } = events;
    let served = ServedTarget::on(
        alloc,
        Box::into_inner(machine.into_device()),
        subsystem,
        format,
    )?;
    // The device is on the disk as it is, so nothing waits.
    let waiting = Batch::new(alloc);
    Ok((
        served,
        Keeper {
            events: InFile { journal, waiting },
            folded,
        },
    ))
}

impl<S: Store<FrameDevice> + Drop> Keeper<S> {
    /// Does the command that is ready on a connection, and says whether there is one, as [`ServedTarget::serve`].
    ///
    /// # Errors
    ///
    /// No memory for the journal. Then the target is as it was, and nothing is noted.
    pub fn serve(&mut self, served: &mut ServedTarget, number: usize) -> Result<bool, AllocError>
        requires number { number < MOST_CONNECTIONS }
        requires kept { S.keeps served.old.device (S.waits self.old.events) (S.disk self.old.events) }
        ensures ready { IfOk result (λ ready. ready ≡ is_ready number served.old.target) }
        ensures done { OnOk result (Does (Served number) served.old served.new) }
        ensures refused { OnErr result (served.new ≡ served.old) }
        ensures same { S.disk self.new.events ≡ S.disk self.old.events }
        ensures kept { S.keeps served.new.device (S.waits self.new.events) (S.disk self.new.events) }
    {
        let target = served.target();
        let is_ready = target.is_ready(number);
        match target.given_to_device(number) {
            Some(entry) => self.submit(served, number, &entry)?,
            None => {
                served.serve(number);
            }
        }
        Ok(is_ready)
    }

    /// Submits the entry that goes to the device next.
    fn submit(
        &mut self,
        served: &mut ServedTarget,
        number: usize,
        entry: &[u8; 64],
    ) -> Result<(), AllocError>
        requires number { number < MOST_CONNECTIONS }
        requires given { option_map (λ execution. execution.entry) (given_to_device number served.old.target.queues) ≡ Some entry.now }
        requires kept { S.keeps served.old.device (S.waits self.old.events) (S.disk self.old.events) }
        ensures done { OnOk result (Does (Served number) served.old served.new) }
        ensures refused { OnErr result (served.new ≡ served.old) }
        ensures same { S.disk self.new.events ≡ S.disk self.old.events }
        ensures kept { S.keeps served.new.device (S.waits self.new.events) (S.disk self.new.events) }
    {
        changes_come_again();
        let _identifier = Entry::cid(entry);
        if asks_change(entry) {
            return self.submit_change(served, number, entry);
        }
        served.submit(number, entry);
        Ok(())
    }

    /// Submits it, where it may change the device.
    fn submit_change(
        &mut self,
        served: &mut ServedTarget,
        number: usize,
        entry: &[u8; 64],
    ) -> Result<(), AllocError>
        requires number { number < MOST_CONNECTIONS }
        requires given { option_map (λ execution. execution.entry) (given_to_device number served.old.target.queues) ≡ Some entry.now }
        requires asks { asks_change (decoded entry.now) ≡ true }
        requires kept { S.keeps served.old.device (S.waits self.old.events) (S.disk self.old.events) }
        ensures done { OnOk result (Does (Served number) served.old served.new) }
        ensures refused { OnErr result (served.new ≡ served.old) }
        ensures same { S.disk self.new.events ≡ S.disk self.old.events }
        ensures kept { S.keeps served.new.device (S.waits self.new.events) (S.disk self.new.events) }
    {
        changes_come_again();
        let _identifier = Entry::cid(entry);
        let input = served.given_data(number);
        if input.len() > MOST_TRANSFER {
            return Err(AllocError);
        }
        let before = note_submission(&mut self.events, number as u16, entry, input)?;
        let reply = served.submit(number, entry);
        if is_refusal(&reply) {
            self.events.take_back(before);
        }
        Ok(())
    }

    /// Gives the next run a turn, and says whether there is one, as [`ServedTarget::turn`].
    ///
    /// # Errors
    ///
    /// No memory for the journal. Then the target is as it was, and nothing is noted.
    pub fn turn(&mut self, served: &mut ServedTarget) -> Result<bool, AllocError>
        requires kept { S.keeps served.old.device (S.waits self.old.events) (S.disk self.old.events) }
        ensures given { IfOk result (λ given. given ≡ is_some (next_run served.old)) }
        ensures done { OnOk result (Does Turned served.old served.new) }
        ensures refused { OnErr result (served.new ≡ served.old) }
        ensures same { S.disk self.new.events ≡ S.disk self.old.events }
        ensures kept { S.keeps served.new.device (S.waits self.new.events) (S.disk self.new.events) }
    {
        match served.next_run() {
            Some(run) => {
                self.give_turn(served, run)?;
                Ok(true)
            }
            None => Ok(false),
        }
    }

    /// Gives this run the next turn.
    fn give_turn(&mut self, served: &mut ServedTarget, run: usize) -> Result<(), AllocError>
        requires next { next_run served.old ≡ Some run }
        requires within { run < RUNS }
        requires goes { IsTrue (can_go served.old.target (slice_index_or served.old.pending run None)) }
        requires kept { S.keeps served.old.device (S.waits self.old.events) (S.disk self.old.events) }
        ensures done { OnOk result (Does Turned served.old served.new) }
        ensures refused { OnErr result (served.new ≡ served.old) }
        ensures same { S.disk self.new.events ≡ S.disk self.old.events }
        ensures kept { S.keeps served.new.device (S.waits self.new.events) (S.disk self.new.events) }
    {
        changes_come_again();
        let before = note_turn(&mut self.events, run as u8)?;
        let reply = served.give_turn(run);
        if is_idle(&reply) {
            self.events.take_back(before);
        }
        Ok(())
    }

    /// Gives a run a turn of whose command no connection waits, as of one that was kept in the file, and says whether there was such a
    /// run: as [`ServedTarget::resume`].
    ///
    /// # Errors
    ///
    /// No memory for the journal. Then the target is as it was, and nothing is noted.
    pub fn resume(&mut self, served: &mut ServedTarget, run: usize) -> Result<bool, AllocError>
        requires within { run < RUNS }
        requires kept { S.keeps served.old.device (S.waits self.old.events) (S.disk self.old.events) }
        ensures done { IfOk result (Resumes run served.old served.new) }
        ensures refused { OnErr result (served.new ≡ served.old) }
        ensures same { S.disk self.new.events ≡ S.disk self.old.events }
        ensures kept { S.keeps served.new.device (S.waits self.new.events) (S.disk self.new.events) }
    {
        changes_come_again();
        let before = note_turn(&mut self.events, run as u8)?;
        let reply = served.resume(run);
        if is_idle(&reply) {
            self.events.take_back(before);
            return Ok(false);
        }
        Ok(true)
    }

    /// Commits what was done: from then on each crash leaves a file that stands for the device as it is. Where nothing may have changed
    /// it since the last commit, the disk isn't waited for.
    ///
    /// # Errors
    ///
    /// No memory, or the disk's.
    pub fn commit(&mut self, alloc: Global, served: &ServedTarget) -> Result<(), FileError>
        requires kept { S.keeps served.now.device (S.waits self.old.events) (S.disk self.old.events) }
        ensures none { OnOk result (S.waits self.new.events ≡ []) }
        ensures counted { self.new.folded ≡ self.old.folded }
        ensures committed { OnOk result (S.settled served.now.device (S.disk self.new.events)) }

        // A crash at any moment of it leaves the device that was committed before, or the one after all that was done since.
        ensures any_moment { (before : State) → S.settled before (S.disk self.old.events)
            → LeavesOnly (S.told (S.disk self.old.events)) (S.told (S.disk self.new.events)) (IsEither before served.now.device) }

        // It doesn't give up by itself.
        ensures cause { HasCause (S.told (S.disk self.old.events)) (S.told (S.disk self.new.events)) result }
    {
        self.events.commit(alloc)
    }

    /// Is all committed that was done with the target?
    pub fn is_committed(&self, served: &ServedTarget) -> bool
        requires { S.keeps served.now.device (S.waits self.now.events) (S.disk self.now.events) }
        ensures none { IsTrue result ↔ S.waits self.now.events ≡ [] }
        ensures kept { IsTrue result → S.settled served.now.device (S.disk self.now.events) }
    {
        S::rests();
        self.events.is_committed()
    }
}

impl<S: Folds + Drop> Keeper<S> {
    /// Folds the journal where the file has grown by more than [`MOST_JOURNAL`] since it was made, opened or to be folded last, and gives
    /// what came of that; else nothing happens, and there is `None`. Without room or memory for the new file, the old one is used on, and
    /// its growth counts from now on.
    ///
    /// # Errors
    ///
    /// The disk's, or no memory to hand the file over: then the file has to be opened again.
    pub fn fold_when_due(
        &mut self,
        alloc: Global,
        served: &ServedTarget,
    ) -> Result<Option<Folding>, FileError>
        requires settled { S.settled served.now.device (S.disk self.old.events) }
        ensures same { S.waits self.new.events ≡ S.waits self.old.events }
        ensures idle { S.length (S.disk self.old.events) - self.old.folded ≤ MOST_JOURNAL → (self.new ≡ self.old) × (result ≡ Ok None) }
        ensures due { MOST_JOURNAL < S.length (S.disk self.old.events) - self.old.folded → IfOk result (λ folding. IsSome folding) }
        ensures short { OnOk result (S.length (S.disk self.new.events) - self.new.folded ≤ MOST_JOURNAL) }
        ensures untried { IfOk result (λ folding. folding ≡ None → self.new ≡ self.old) }
        ensures tried { IfOk result (λ folding. IsSome folding → self.new.folded ≡ S.length (S.disk self.new.events)) }
        ensures in_base { IfOk result (λ folding. folding ≡ Some Folding.Done → S.in_base served.now.device (S.disk self.new.events)) }
        ensures no_room { IfOk result (λ folding. folding ≡ Some Folding.NoRoom
            → (S.told (S.disk self.old.events)).faults < (S.told (S.disk self.new.events)).faults) }
        ensures settled { OnOk result (S.settled served.now.device (S.disk self.new.events)) }
        ensures any_moment { LeavesOnly (S.told (S.disk self.old.events)) (S.told (S.disk self.new.events))
            (λ c. StandsFor c served.now.device) }

        // It doesn't give up by itself.
        ensures cause { HasCause (S.told (S.disk self.old.events)) (S.told (S.disk self.new.events)) result }
    {
        // Brings in that a crash leaves what is committed.
        S::rests();
        if self.events.length().saturating_sub(self.folded) <= MOST_JOURNAL {
            return Ok(None);
        }
        match self.fold(alloc, served) {
            Ok(folding) => Ok(Some(folding)),
            Err(error) => Err(error),
        }
    }

    /// Folds the journal, however short it is. A crash at any moment leaves a file that stands for the same device. Without room or memory
    /// for the new file, the old one is used on.
    ///
    /// # Errors
    ///
    /// The disk's, or no memory to hand the file over: then the file has to be opened again.
    pub fn fold(&mut self, alloc: Global, served: &ServedTarget) -> Result<Folding, FileError>
        requires settled { S.settled served.now.device (S.disk self.old.events) }
        ensures same { S.waits self.new.events ≡ S.waits self.old.events }
        ensures counted { OnOk result (self.new.folded ≡ S.length (S.disk self.new.events)) }
        ensures settled { OnOk result (S.settled served.now.device (S.disk self.new.events)) }
        ensures in_base { IfOk result (λ folding. folding ≡ Folding.Done → S.in_base served.now.device (S.disk self.new.events)) }
        ensures any_moment { LeavesOnly (S.told (S.disk self.old.events)) (S.told (S.disk self.new.events))
            (λ c. StandsFor c served.now.device) }

        // It doesn't give up by itself.
        ensures cause { HasCause (S.told (S.disk self.old.events)) (S.told (S.disk self.new.events)) result }
        ensures no_room { IfOk result (λ folding. folding ≡ Folding.NoRoom
            → (S.told (S.disk self.old.events)).faults < (S.told (S.disk self.new.events)).faults) }
    {
        let folding = self.events.fold(alloc, served.device())?;
        self.folded = self.events.length();
        Ok(folding)
    }
}
