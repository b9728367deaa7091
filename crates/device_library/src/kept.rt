//! A device in a file for which C makes the calls.

ghost use Rattle.std.specs.Prelude.{◌≡◌, [], false, true, IfErr, IsTrue, OnOk};
ghost use Rattle.durable_device.specs.Kept.{IsKept};
ghost use Rattle.device_library.specs.Files.{promised_of};
ghost use Rattle.device_library.specs.Devices as opened;

use crate::serving::{handed, serve};
use device_serve::{FrameCodec, FrameStreamRoom, KeepsNothing, KeptDevice, ServeFault};
use durable_device::{DurableDevice, Folding};
use durable_machine::InFile;
use handed_file::HandedFile;
use std::alloc::Global;

/// A device, and its journal in a file for which C makes the calls.
#[derive(Drop)]
pub struct Kept {
    /// The device and its journal.
    pub device: KeptDevice<InFile<HandedFile>>,
    /// What reads the frames.
    pub codec: FrameCodec<KeepsNothing>,
    /// The frames of the replies to what was served last.
    pub answer: Vec<u8>,
    /// Whether the file has to be opened again.
    pub failed: bool,
}

impl Kept {
    ghost use Rattle.device_library.specs.Kept.{FoldsTo, HasServed, HasStopped, IsOnTheDisk, TakesDone, TakesFailed, WillBeKept, file_of, is_on_disk, journal_of, replies_of, state_of};

    /// A device that was opened, with room for frames.
    pub fn new(alloc: Global, device: DurableDevice<HandedFile>, room: FrameStreamRoom) -> Kept
        requires { IsKept (opened.state_of device) (opened.journal_of device).gate (promised_of (opened.journal_of device).file) }
        ensures state { state_of result ≡ opened.state_of device }
        ensures journal { journal_of result ≡ opened.journal_of device }
        ensures answer { result.answer.items ≡ [] }
        ensures usable { result.failed ≡ false }
        ensures kept { WillBeKept result }
    {
        Kept {
            device: handed(alloc, device),
            codec: FrameCodec::over(room, 0, false, KeepsNothing),
            answer: Vec::new(alloc),
            failed: false,
        }
    }

    /// Its file.
    pub fn file(&self) -> &HandedFile
        ensures { result.now ≡ file_of self.now }
    {
        &self.device.events.journal.file
    }

    /// Does what frames ask for, and keeps the frames of the replies.
    ///
    /// # Errors
    ///
    /// Why it isn't done. The file has to be opened again.
    pub fn serve(&mut self, alloc: Global, frames: &[u8]) -> Result<(), ServeFault>
        requires usable { self.old.failed ≡ false }
        requires kept { WillBeKept self.old }
        ensures served { OnOk result (HasServed frames.now self.old self.new) }
        ensures stopped { IfErr result (HasStopped frames.now self.old self.new) }
        ensures kept { WillBeKept self.new }
    {
        self.answer.clear();
        let done = serve(
            alloc,
            &mut self.device,
            &mut self.codec,
            frames,
            &mut self.answer,
        );
        self.failed = done.is_err();
        done
    }

    /// Has C told that each call for the file is done, and failed none? Then all that was served is on the disk.
    pub fn is_on_disk(&self) -> bool
        requires { WillBeKept self.now }
        ensures settled { result ≡ is_on_disk self.now }
        ensures kept { IsTrue result → IsOnTheDisk self.now }
    {
        !self.failed && self.file().is_settled()
    }

    /// The frames of the replies, once what they answer is on the disk; none before.
    pub fn replies(&self) -> &[u8]
        requires { WillBeKept self.now }
        ensures given { result.now ≡ replies_of self.now }
        ensures kept { is_on_disk self.now ≡ true → IsOnTheDisk self.now }
    {
        if self.is_on_disk() {
            self.answer.as_slice()
        } else {
            &[]
        }
    }

    /// Takes the next call for done.
    pub fn tell_done(&mut self)
        requires { WillBeKept self.old }
        ensures done { TakesDone self.old self.new }
        ensures kept { WillBeKept self.new }
    {
        self.device.events.journal.file.tell_done();
    }

    /// Takes it for failed: the file has to be opened again.
    pub fn tell_failed(&mut self)
        ensures { TakesFailed self.old self.new }
    {
        self.failed = true;
    }

    /// Folds the journal into a new file of at most so many bytes, for which C has room, and gives what came of that; `None` where the
    /// file has to be opened again.
    pub fn fold(&mut self, alloc: Global, room: usize) -> Option<Folding>
        requires usable { self.old.failed ≡ false }
        requires kept { WillBeKept self.old }
        ensures folds { FoldsTo self.old self.new result }
        ensures kept { WillBeKept self.new }
    {
        self.device.events.journal.file.grant(room);
        match self.device.fold(alloc) {
            Ok(folding) => Some(folding),
            Err(_) => {
                self.failed = true;
                None
            }
        }
    }
}
