//! A target before a device in memory alone, which is saved at the end.

ghost use Rattle.std.specs.Prelude.{◌≡◌, ◌∷◌, ◌++◌, [], true, IfOk, OnErr, OnOk};
ghost use Rattle.image_text.specs.Text.{text};
ghost use Rattle.stored_file.specs.Calls.{Replaced};
ghost use Rattle.handed_file.specs.Handed.{made_calls, waits};

use crate::file_calls;
use crate::served::ServedTarget;
use handed_file::HandedFile;
use image_store::Image;
use image_text::{Buffer, ImageText};
use runner::Reply;
use std::alloc::{AllocError, Global};
use stored_file::FileError;
use tcp_loop::{Call, KeptTarget};

/// A target before a device in memory alone, and the file to which that is saved at the end, for which another makes the calls.
#[derive(Drop)]
pub struct MemoryTarget {
    /// The target.
    pub served: ServedTarget,
    /// The file.
    pub file: HandedFile,
    /// Where memory comes from for the image that is saved.
    pub alloc: Global,
}

/// The text of an image.
///
/// # Errors
///
/// No memory.
fn text_of(alloc: Global, image: &Image) -> Result<Vec<u8>, AllocError>
    ensures { IfOk result (λ bytes. bytes.items ≡ text image.now) }
{
    let mut buffer = Buffer::new(alloc);
    match image.save(&mut buffer) {
        Ok(()) => Ok(buffer.into_bytes()),
        Err(_) => Err(AllocError),
    }
}

/// Has a new file with the text of an image take the place of one.
///
/// # Errors
///
/// No memory.
fn save(alloc: Global, image: &Image, file: &mut HandedFile) -> Result<(), AllocError>
    ensures saved { OnOk result (waits file.new ≡ waits file.old ++ Replaced (text image.now) true ∷ []) }
    ensures refused { OnErr result (waits file.new ≡ waits file.old) }
    ensures made { made_calls file.new ≡ made_calls file.old }
{
    let bytes = text_of(alloc, image)?;
    match file.put(bytes) {
        Ok(()) => Ok(()),
        Err(_) => Err(AllocError),
    }
}

impl KeptTarget for MemoryTarget {
    ghost use Rattle.tcp_device.specs.State.{ServedState};
    ghost use Rattle.tcp_target.specs.Queues.{free_number};
    ghost use Rattle.tcp_device.specs.FileCalls.{keeping_of};
    ghost use Rattle.tcp_device.specs.LoopMeaning.{in_memory};

    type State = ServedTarget;

    ghost at = { λ target. record { state = target.served; file = keeping_of target.file } };

    ghost means = { in_memory };

    ghost free = { λ s. free_number s.target.queues };

    fn free(&self) -> Option<usize> {
        self.served.target().free_number()
    }

    fn open(&mut self, _number: usize) {
        let _ = self.served.open();
    }

    fn receive(&mut self, number: usize, piece: &[u8]) -> usize {
        self.served.receive(number, piece)
    }

    fn serve(&mut self, number: usize) -> Result<bool, AllocError> {
        Ok(self.served.serve(number))
    }

    fn unsent(&self, number: usize) -> &[u8] {
        self.served.target().connection(number).unsent()
    }

    fn sent(&mut self, number: usize, count: usize) {
        self.served.sent(number, count);
    }

    fn is_ended(&self, number: usize) -> bool {
        self.served.target().connection(number).is_ended()
    }

    fn is_given_up(&self, number: usize) -> bool {
        self.served.target().is_given_up(number)
    }

    fn close(&mut self, number: usize) {
        self.served.close(number);
    }

    fn tick(&mut self, milliseconds: u32) {
        self.served.tick(milliseconds);
    }

    fn turn(&mut self) -> Result<bool, AllocError> {
        Ok(self.served.turn())
    }

    fn resume(&mut self, run: usize) -> Result<bool, AllocError> {
        let reply = self.served.resume(run);
        Ok(!matches!(reply, Reply::Idle))
    }

    fn commit(&mut self) -> Result<(), FileError> {
        Ok(())
    }

    fn next_call(&self) -> Option<Call> {
        file_calls::next_call(&self.file)
    }

    fn call_bytes(&self) -> &[u8] {
        file_calls::call_bytes(&self.file)
    }

    fn call_done(&mut self) {
        self.file.tell_done();
    }

    /// The image isn't in a journal.
    fn fold(&mut self) -> Result<bool, FileError> {
        Ok(false)
    }

    fn finish(&mut self) -> Result<(), AllocError> {
        save(self.alloc, self.served.device().image(), &mut self.file)
    }
}
