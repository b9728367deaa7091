//! A target before a device that is kept in a file.

ghost use Rattle.std.specs.Prelude.{◌≡◌, [], false, IfOk};
ghost use Rattle.image_store.specs.Namespace.{shape};
ghost use Rattle.durable_device.specs.Kept.{IsCommittedBut, IsKept};
ghost use Rattle.durable_machine.specs.Seals.{events_of};
ghost use Rattle.handed_file.specs.Handed.{noted, told, waits};
ghost use Rattle.handed_file.specs.Handing.{has_refused};
ghost use Rattle.tcp_device.specs.Format.{IsFormatOf};
ghost use Rattle.tcp_device.specs.State.{begun_on};
ghost use Rattle.tcp_loop.specs.Keeping.{Covers};
ghost use Rattle.tcp_device.specs.FileCalls.{keeping_of};
ghost use Rattle.tcp_device.specs.Kept.{file_of};
ghost use Rattle.tcp_device.specs.LoopMeaning.{kept_in_file};

use crate::file_calls;
use crate::keeper::{Keeper, target_of};
use crate::keeping::{commit, commit_and_fold, fold};
use crate::served::ServedTarget;
use durable_device::{DurableDevice, FrameDevice};
use durable_machine::{InFile, Store};
use handed_file::HandedFile;
use std::alloc::{AllocError, Global};
use std::marker::Model;
use stored_file::FileError;
use tcp_admin::{NamespaceFormat, Subsystem};
use tcp_loop::{Call, KeptTarget};

/// A target before a device that is kept in a file, for which another makes the calls. Once a call was refused, or memory was wanting,
/// the file has to be opened again: then nothing is done any more.
#[derive(Drop)]
pub struct DurableTarget {
    served: ServedTarget,
    keeper: Keeper<InFile<HandedFile>>,
    alloc: Global,
    /// Whether the file has to be opened again.
    failed: bool,
}

impl Model for DurableTarget {
    ghost use Rattle.tcp_loop.specs.Keeping.{KeptState};
    ghost use Rattle.tcp_device.specs.State.{ServedState};
    ghost use Rattle.tcp_device.specs.FileCalls.{keeping_of};
    ghost use Rattle.tcp_device.specs.Kept.{KeepsUnlessFailed};

    ghost Value = { KeptState ServedState };

    ghost view = { λ t. record { state = t.served; file = keeping_of t.keeper.events.journal.file } };

    ghost invariant = { λ t. KeepsUnlessFailed t.failed t.keeper t.served.device };
}

impl DurableTarget {
    /// A target without connections before a device that was opened in a file.
    ///
    /// # Errors
    ///
    /// No memory for what it keeps.
    pub fn new(
        alloc: Global,
        device: DurableDevice<HandedFile>,
        subsystem: Subsystem,
        format: NamespaceFormat,
    ) -> Result<DurableTarget, AllocError>
        requires format { IsFormatOf (shape device.store.machine.namespace) format }
        requires kept { IsKept device.store.machine device.store.events.journal.gate (told device.store.events.journal.file) }
        ensures state { IfOk result (λ made. made.state ≡ begun_on device.store.machine subsystem format) }
        ensures file { IfOk result (λ made. made.file ≡ keeping_of device.store.events.journal.file) }

        // Where all calls were told as done by which the file was opened, a crash leaves the device.
        ensures covers { IfOk result (λ made. has_refused (noted device.store.events.journal.file) ≡ false → made.file.waits ≡ []
            → Covers kept_in_file made.file.waits made.file.made made.state made.state) }
    {
        // Brings in that all that was done was told, where nothing waits.
        let _ = device.store.events.journal.file.has_failed();
        let (served, keeper) = target_of(alloc, device, subsystem, format)?;
        Ok(DurableTarget::of(alloc, served, keeper))
    }

    /// A target that is served, and what keeps its device.
    pub fn of(
        alloc: Global,
        served: ServedTarget,
        keeper: Keeper<InFile<HandedFile>>,
    ) -> DurableTarget
        requires { IsCommittedBut (events_of keeper.events.waiting) served.device keeper.events.journal.gate (told (file_of keeper)) }
        ensures state { result.state ≡ served }
        ensures file { result.file ≡ keeping_of (file_of keeper) }

        // Where nothing waits, a crash leaves the device.
        ensures covers { events_of keeper.events.waiting ≡ [] → has_refused (noted (file_of keeper)) ≡ false
            → waits (file_of keeper) ≡ [] → Covers kept_in_file result.file.waits result.file.made result.state result.state }
    {
        <InFile<HandedFile> as Store<FrameDevice>>::rests();
        let failed = keeper.events.journal.file.has_failed();
        DurableTarget {
            served,
            keeper,
            alloc,
            failed,
        }
    }
}

impl KeptTarget for DurableTarget {
    ghost use Rattle.tcp_device.specs.State.{ServedState};
    ghost use Rattle.tcp_target.specs.Queues.{free_number};
    ghost use Rattle.tcp_device.specs.LoopMeaning.{kept_in_file};

    type State = ServedTarget;

    ghost at = { λ target. target };

    ghost means = { kept_in_file };

    ghost free = { λ s. free_number s.target.queues };

    fn free(&self) -> Option<usize> {
        self.served.target().free_number()
    }

    fn open(&mut self, _number: usize) {
        let _ = self.served.open();
    }

    fn receive(&mut self, number: usize, piece: &[u8]) -> usize {
        self.served.receive(number, piece)
    }

    fn serve(&mut self, number: usize) -> Result<bool, AllocError> {
        if self.failed {
            return Err(AllocError);
        }
        self.keeper.serve(&mut self.served, number)
    }

    fn unsent(&self, number: usize) -> &[u8] {
        self.served.target().connection(number).unsent()
    }

    fn sent(&mut self, number: usize, count: usize) {
        self.served.sent(number, count);
    }

    fn is_ended(&self, number: usize) -> bool {
        self.served.target().connection(number).is_ended()
    }

    fn is_given_up(&self, number: usize) -> bool {
        self.served.target().is_given_up(number)
    }

    fn close(&mut self, number: usize) {
        self.served.close(number);
    }

    fn tick(&mut self, milliseconds: u32) {
        self.served.tick(milliseconds);
    }

    fn turn(&mut self) -> Result<bool, AllocError> {
        if self.failed {
            return Err(AllocError);
        }
        self.keeper.turn(&mut self.served)
    }

    fn resume(&mut self, run: usize) -> Result<bool, AllocError> {
        if self.failed {
            return Err(AllocError);
        }
        self.keeper.resume(&mut self.served, run)
    }

    fn commit(&mut self) -> Result<(), FileError> {
        if self.failed {
            return Err(FileError::Failed);
        }
        match commit_and_fold(&mut self.keeper, self.alloc, &self.served) {
            Ok(()) => Ok(()),
            Err(error) => {
                self.failed = true;
                Err(error)
            }
        }
    }

    fn next_call(&self) -> Option<Call> {
        file_calls::next_call(&self.keeper.events.journal.file)
    }

    fn call_bytes(&self) -> &[u8] {
        file_calls::call_bytes(&self.keeper.events.journal.file)
    }

    fn call_done(&mut self) {
        self.keeper.events.journal.file.tell_done();
    }

    fn fold(&mut self) -> Result<bool, FileError> {
        if self.failed {
            return Err(FileError::Failed);
        }
        match fold(&mut self.keeper, self.alloc, &self.served) {
            Ok(is_put) => Ok(is_put),
            Err(error) => {
                self.failed = true;
                Err(error)
            }
        }
    }

    fn finish(&mut self) -> Result<(), AllocError> {
        if self.failed {
            return Err(AllocError);
        }
        match commit(&mut self.keeper, self.alloc, &self.served) {
            Ok(()) => Ok(()),
            Err(_) => {
                self.failed = true;
                Err(AllocError)
            }
        }
    }
}
