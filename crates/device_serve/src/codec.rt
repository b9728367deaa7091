//! What reads a stream, and spells what answers it.

ghost use Rattle.std.specs.Prelude.{◌≡◌, ◌↔◌, ◌<◌, ◌≤◌, [], List, ℕ, length, take, Option, IfErr, IfOk, IsTrue, OnOk};
ghost use Rattle.std.specs.Io.KnownBytes.{IsAtEnd};
ghost use Rattle.device_meaning.specs.State.{State};
ghost use Rattle.device_serve.specs.Rounds.{DoneInParts, IsCodecs, StoppedInParts};
ghost use Rattle.device_serve.specs.declared.fault.ServeFault.{ServeFault};
ghost use Rattle.device_serve.specs.declared.fault.ServeFault.TheVariants as fault;

use crate::fault::ServeFault;
use crate::kept::KeptDevice;
use durable_device::FrameDevice;
use durable_machine::Store;

/// How many bytes of answers wait at most before they are written. What answers one request may come after them.
pub const MOST_WAITING: usize = 1 << 20;

/// Reads the requests of a stream, which comes in any pieces, has a device do them, and spells what answers them. What answers is held back
/// by who calls until all that it answers is on the disk.
pub trait Codec<S: Store<FrameDevice> + Drop> {
    /// It may be used.
    ghost is_ready: { Self → Type 0 };

    /// From it and a state, after these answers, bytes are done, which leads to a codec and a state, and to these answers.
    ghost does: { Self → State → List ℕ → List ℕ → Self → State → List ℕ → Type 0 };

    /// The same at the end of the stream, where nothing waits to be answered.
    ghost ends: { Self → State → Self → State → List ℕ → Type 0 };

    /// The first of some bytes are done and answered so, of a stream of which this is left, and for this it stops there.
    ghost stops: { Self → State → List ℕ → List ℕ → Option (List ℕ) → Self → State → List ℕ → ServeFault → Type 0 };

    /// A request has begun of which not all has come.
    ghost within: { Self → Type 0 };

    /// Does requests that end in a piece, and adds what answers them to the answer. It takes all of the piece, or less where much waits to
    /// be answered, and gives how many bytes it took.
    ///
    /// # Errors
    ///
    /// Why the stream is served no further.
    fn take(
        &mut self,
        kept: &mut KeptDevice<S>,
        piece: &[u8],
        answer: &mut Vec<u8>,
    ) -> Result<usize, ServeFault>
        requires ready { is_ready self.old }
        requires kept { S.keeps kept.old.device.value (S.waits kept.old.events) (S.disk kept.old.events) }
        ensures ready { is_ready self.new }
        ensures kept { S.keeps kept.new.device.value (S.waits kept.new.events) (S.disk kept.new.events) }
        ensures same { S.disk kept.new.events ≡ S.disk kept.old.events }
        ensures within { IfOk result (λ count. count ≤ length piece.now) }
        ensures some { length answer.old.items < MOST_WAITING → 0 < length piece.now → IfOk result (λ count. 0 < count) }
        ensures done { IfOk result (λ count. does self.old kept.old.device.value answer.old.items (take count piece.now)
            self.new kept.new.device.value answer.new.items) }
        ensures stopped { (left : Option (List ℕ)) → IfErr result (stops self.old kept.old.device.value answer.old.items piece.now left
            self.new kept.new.device.value answer.new.items) }
        ensures codecs { IfErr result IsCodecs };

    /// Does what is to be done before more is read: gives the runs turns, where that is asked for, and spells the replies.
    ///
    /// # Errors
    ///
    /// No memory.
    fn rest(&mut self, kept: &mut KeptDevice<S>, answer: &mut Vec<u8>) -> Result<(), ServeFault>
        requires ready { is_ready self.old }
        requires empty { answer.old.items ≡ [] }
        requires kept { S.keeps kept.old.device.value (S.waits kept.old.events) (S.disk kept.old.events) }
        ensures ready { is_ready self.new }
        ensures kept { S.keeps kept.new.device.value (S.waits kept.new.events) (S.disk kept.new.events) }
        ensures same { S.disk kept.new.events ≡ S.disk kept.old.events }
        ensures done { OnOk result (does self.old kept.old.device.value [] [] self.new kept.new.device.value answer.new.items) }
        ensures stopped { (left : Option (List ℕ)) → IfErr result (stops self.old kept.old.device.value [] [] left
            self.new kept.new.device.value answer.new.items) }
        ensures codecs { IfErr result IsCodecs };

    /// Does what the end of the stream asks for, and spells what answers it.
    ///
    /// # Errors
    ///
    /// Why the stream may not end here, or no memory.
    fn end(&mut self, kept: &mut KeptDevice<S>, answer: &mut Vec<u8>) -> Result<(), ServeFault>
        requires ready { is_ready self.old }
        requires empty { answer.old.items ≡ [] }
        requires kept { S.keeps kept.old.device.value (S.waits kept.old.events) (S.disk kept.old.events) }
        ensures ready { is_ready self.new }
        ensures kept { S.keeps kept.new.device.value (S.waits kept.new.events) (S.disk kept.new.events) }
        ensures same { S.disk kept.new.events ≡ S.disk kept.old.events }
        ensures done { OnOk result (ends self.old kept.old.device.value self.new kept.new.device.value answer.new.items) }
        ensures stopped { (left : Option (List ℕ)) → IsAtEnd left → IfErr result (stops self.old kept.old.device.value [] [] left
            self.new kept.new.device.value answer.new.items) }
        ensures codecs { IfErr result IsCodecs };

    /// Has a request begun of which not all has come?
    fn is_within(&self) -> bool
        ensures { IsTrue result ↔ within self.now };

    /// What is done in two parts is done as a whole, and where it stops in the second, it stops in the whole. A proof about every codec
    /// calls this, which has no code.
    fn joins()
        ensures done { DoneInParts does }
        ensures stopped { StoppedInParts does stops };

    /// Of no bytes nothing is done.
    ghost stays: { (codec : Self) (s : State) → is_ready codec → does codec s [] [] codec s [] };

    /// Where the stream can't be read, nothing more is done.
    ghost unread: { (codec : Self) (s : State) (left : Option (List ℕ)) → is_ready codec
        → stops codec s [] [] left codec s [] fault.Read };

    /// Nor is it where memory is wanting before anything is read.
    ghost starved: { (codec : Self) (s : State) (left : Option (List ℕ)) → is_ready codec
        → stops codec s [] [] left codec s [] fault.Memory };
}
