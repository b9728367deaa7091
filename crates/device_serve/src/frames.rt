//! A stream of frames, which asks for requests.

mod requests;
mod spelling;
mod turns;

ghost use Rattle.std.specs.Prelude.{◌≡◌, ◌<◌, ◌≤◌, [], length, take, List, ℕ, Option, IfErr, IfOk, OnOk, None};
ghost use Rattle.std.specs.Io.KnownBytes.{IsAtEnd};
ghost use Rattle.nvme_entry.specs.declared.command.TheConstants.{MOST_TRANSFER};
ghost use Rattle.device_serve.specs.Begun.{IsWithin};
ghost use Rattle.device_serve.specs.FrameStream.{Does, Ends, IsReady, Stops, reader};
ghost use Rattle.device_serve.specs.Rounds.{IsCodecs};
ghost use Rattle.device_serve.specs.steps.FrameLaws.{no_memory, not_read, nothing_done};

use crate::codec::{Codec, MOST_WAITING};
use crate::draining::end_runs;
use crate::fault::ServeFault;
use crate::frames::requests::do_request;
use crate::frames::spelling::AsFrames;
use crate::frames::turns::give_turns;
use crate::keep::Keep;
use crate::kept::KeptDevice;
use durable_device::FrameDevice;
use durable_machine::Store;
use event_frames::{Session, Taken};
use nvme_entry::MOST_TRANSFER;
use std::alloc::{AllocError, Global};

/// What a codec of frames needs memory for.
#[derive(Drop)]
pub struct FrameStreamRoom {
    session: Session,
    output: Vec<u8>,
    ghost fresh: { session ≡ record { pending = []; place = 0; fault = None } },
    ghost room: { length output.items ≡ MOST_TRANSFER },
}

impl FrameStreamRoom {
    /// Room for the longest request and for the data of a reply.
    ///
    /// # Errors
    ///
    /// No memory.
    pub fn new(alloc: Global) -> Result<FrameStreamRoom, AllocError> {
        Ok(FrameStreamRoom {
            session: Session::new(alloc)?,
            output: vec![in alloc; 0; MOST_TRANSFER]?,
        })
    }
}

/// Reads a stream of frames, does the requests that they ask for, and spells what answers these as frames.
#[derive(Drop)]
pub struct FrameCodec<K: Keep + Drop> {
    session: Session,
    turns: u32,
    ends_runs: bool,
    keeper: K,
    /// Where the data of a reply goes.
    output: Vec<u8>,
}

impl<K: Keep + Drop> FrameCodec<K> {
    /// A codec of a stream of which nothing has come. Between two reads it gives the runs so many turns; the end of the stream ends all
    /// runs where that is asked for. The images that are to be saved go to `keeper`.
    pub fn over(room: FrameStreamRoom, turns: u32, ends_runs: bool, keeper: K) -> FrameCodec<K>
        ensures begun { reader result.session result.turns result.ends_runs result.keeper
            ≡ reader (record { pending = []; place = 0; fault = None }) turns ends_runs keeper }
        ensures ready { K.is_ready keeper
            → IsReady K.is_ready (reader result.session result.turns result.ends_runs result.keeper) result.output.items }
    {
        let FrameStreamRoom {
            session,
            output,
            ..
        } = room;
        FrameCodec {
            session,
            turns,
            ends_runs,
            keeper,
            output,
        }
    }

    /// What kept its images.
    pub fn into_keeper(self) -> K
        ensures { result ≡ self.keeper }
    {
        let FrameCodec { keeper, .. } = self;
        keeper
    }
}

impl<S: Store<FrameDevice> + Drop, K: Keep + Drop> Codec<S> for FrameCodec<K> {
    ghost is_ready = { λ c. IsReady K.is_ready (reader c.session c.turns c.ends_runs c.keeper) c.output.items };

    ghost does = { λ c s before bytes d t after. Does K.has_kept K.becomes
        (reader c.session c.turns c.ends_runs c.keeper) s before bytes (reader d.session d.turns d.ends_runs d.keeper) t after };

    ghost ends = { λ c s d t answers. Ends K.has_kept K.becomes
        (reader c.session c.turns c.ends_runs c.keeper) s [] (reader d.session d.turns d.ends_runs d.keeper) t answers };

    ghost stops = { λ c s before bytes left d t after why. Stops K.has_kept K.becomes
        (reader c.session c.turns c.ends_runs c.keeper) s before bytes left (reader d.session d.turns d.ends_runs d.keeper) t after why };

    ghost within = { λ c. IsWithin (reader c.session c.turns c.ends_runs c.keeper) };

    fn take(
        &mut self,
        kept: &mut KeptDevice<S>,
        piece: &[u8],
        answer: &mut Vec<u8>,
    ) -> Result<usize, ServeFault> {
        do_some(self, kept, piece, answer)
    }

    fn rest(&mut self, kept: &mut KeptDevice<S>, answer: &mut Vec<u8>) -> Result<(), ServeFault> {
        rest(self, kept, answer)
    }

    fn end(&mut self, kept: &mut KeptDevice<S>, answer: &mut Vec<u8>) -> Result<(), ServeFault> {
        end(self, kept, answer)
    }

    /// A stream that could end here holds nothing of a frame.
    fn is_within(&self) -> bool {
        self.session.end().is_err()
    }

    fn joins() {}

    ghost stays = { λ c s ready. nothing_done K.has_kept K.becomes K.stays (reader c.session c.turns c.ends_runs c.keeper) s [] };

    ghost unread = { λ c s left ready.
        not_read K.has_kept K.becomes K.stays (reader c.session c.turns c.ends_runs c.keeper) s left ready.partial };

    ghost starved = { λ c s left ready. no_memory K.has_kept K.becomes K.stays (reader c.session c.turns c.ends_runs c.keeper) s left };
}

/// Does the requests whose frames end in a piece, until the piece ends or much waits to be written, and gives how many bytes were taken.
fn do_some<S: Store<FrameDevice> + Drop, K: Keep + Drop>(
    codec: &mut FrameCodec<K>,
    kept: &mut KeptDevice<S>,
    piece: &[u8],
    answer: &mut Vec<u8>,
) -> Result<usize, ServeFault>
    requires ready { IsReady K.is_ready (reader codec.old.session codec.old.turns codec.old.ends_runs codec.old.keeper)
        codec.old.output.items }
    requires kept { S.keeps kept.old.device.value (S.waits kept.old.events) (S.disk kept.old.events) }
    ensures ready { IsReady K.is_ready (reader codec.new.session codec.new.turns codec.new.ends_runs codec.new.keeper)
        codec.new.output.items }
    ensures kept { S.keeps kept.new.device.value (S.waits kept.new.events) (S.disk kept.new.events) }
    ensures same { S.disk kept.new.events ≡ S.disk kept.old.events }
    ensures within { IfOk result (λ count. count ≤ length piece.now) }
    ensures some { length answer.old.items < MOST_WAITING → 0 < length piece.now → IfOk result (λ count. 0 < count) }
    ensures done { IfOk result (λ count. Does K.has_kept K.becomes
        (reader codec.old.session codec.old.turns codec.old.ends_runs codec.old.keeper) kept.old.device.value answer.old.items
        (take count piece.now)
        (reader codec.new.session codec.new.turns codec.new.ends_runs codec.new.keeper) kept.new.device.value answer.new.items) }
    ensures stopped { (left : Option (List ℕ)) → IfErr result (Stops K.has_kept K.becomes
        (reader codec.old.session codec.old.turns codec.old.ends_runs codec.old.keeper) kept.old.device.value answer.old.items
        piece.now left
        (reader codec.new.session codec.new.turns codec.new.ends_runs codec.new.keeper) kept.new.device.value answer.new.items) }
    ensures codecs { IfErr result IsCodecs }
{
    let mut taken = 0;
    while taken < piece.len() && answer.len() < MOST_WAITING {
        let count = do_next(codec, kept, &piece[taken..], answer)?;
        taken += count;
    }
    Ok(taken)
}

/// Takes bytes up to the end of a frame, does its request, and gives how many bytes were taken. What answers a request that fails is
/// dropped.
fn do_next<S: Store<FrameDevice> + Drop, K: Keep + Drop>(
    codec: &mut FrameCodec<K>,
    kept: &mut KeptDevice<S>,
    rest: &[u8],
    answer: &mut Vec<u8>,
) -> Result<usize, ServeFault>
    requires ready { IsReady K.is_ready (reader codec.old.session codec.old.turns codec.old.ends_runs codec.old.keeper)
        codec.old.output.items }
    requires kept { S.keeps kept.old.device.value (S.waits kept.old.events) (S.disk kept.old.events) }
    ensures ready { IsReady K.is_ready (reader codec.new.session codec.new.turns codec.new.ends_runs codec.new.keeper)
        codec.new.output.items }
    ensures kept { S.keeps kept.new.device.value (S.waits kept.new.events) (S.disk kept.new.events) }
    ensures same { S.disk kept.new.events ≡ S.disk kept.old.events }
    ensures within { IfOk result (λ count. count ≤ length rest.now) }
    ensures some { 0 < length rest.now → IfOk result (λ count. 0 < count) }
    ensures done { IfOk result (λ count. Does K.has_kept K.becomes
        (reader codec.old.session codec.old.turns codec.old.ends_runs codec.old.keeper) kept.old.device.value answer.old.items
        (take count rest.now)
        (reader codec.new.session codec.new.turns codec.new.ends_runs codec.new.keeper) kept.new.device.value answer.new.items) }
    ensures stopped { (left : Option (List ℕ)) → IfErr result (Stops K.has_kept K.becomes
        (reader codec.old.session codec.old.turns codec.old.ends_runs codec.old.keeper) kept.old.device.value answer.old.items
        rest.now left
        (reader codec.new.session codec.new.turns codec.new.ends_runs codec.new.keeper) kept.new.device.value answer.new.items) }
{
    let Taken { count, request } = codec.session.take(rest)?;
    let Some(request) = request else {
        return Ok(count);
    };
    let before = answer.len();
    let output = codec.output.as_mut_slice();
    match do_request(kept, &request, output, answer, &mut codec.keeper) {
        Ok(()) => {
            codec.session.reuse(request);
            Ok(count)
        }
        Err(fault) => {
            answer.truncate(before);
            Err(fault)
        }
    }
}

/// Gives the runs the turns that they are given between two reads.
fn rest<S: Store<FrameDevice> + Drop, K: Keep + Drop>(
    codec: &mut FrameCodec<K>,
    kept: &mut KeptDevice<S>,
    answer: &mut Vec<u8>,
) -> Result<(), ServeFault>
    requires ready { IsReady K.is_ready (reader codec.old.session codec.old.turns codec.old.ends_runs codec.old.keeper)
        codec.old.output.items }
    requires empty { answer.old.items ≡ [] }
    requires kept { S.keeps kept.old.device.value (S.waits kept.old.events) (S.disk kept.old.events) }
    ensures ready { IsReady K.is_ready (reader codec.new.session codec.new.turns codec.new.ends_runs codec.new.keeper)
        codec.new.output.items }
    ensures kept { S.keeps kept.new.device.value (S.waits kept.new.events) (S.disk kept.new.events) }
    ensures same { S.disk kept.new.events ≡ S.disk kept.old.events }
    ensures done { OnOk result (Does K.has_kept K.becomes
        (reader codec.old.session codec.old.turns codec.old.ends_runs codec.old.keeper) kept.old.device.value [] []
        (reader codec.new.session codec.new.turns codec.new.ends_runs codec.new.keeper) kept.new.device.value answer.new.items) }
    ensures stopped { (left : Option (List ℕ)) → IfErr result (Stops K.has_kept K.becomes
        (reader codec.old.session codec.old.turns codec.old.ends_runs codec.old.keeper) kept.old.device.value [] [] left
        (reader codec.new.session codec.new.turns codec.new.ends_runs codec.new.keeper) kept.new.device.value answer.new.items) }
    ensures codecs { IfErr result IsCodecs }
{
    let output = codec.output.as_mut_slice();
    match give_turns(kept, codec.turns, output, answer) {
        Ok(_) => Ok(()),
        Err(_) => {
            answer.clear();
            Err(ServeFault::Memory)
        }
    }
}

/// Ends the stream, and all runs where that is asked for.
fn end<S: Store<FrameDevice> + Drop, K: Keep + Drop>(
    codec: &mut FrameCodec<K>,
    kept: &mut KeptDevice<S>,
    answer: &mut Vec<u8>,
) -> Result<(), ServeFault>
    requires ready { IsReady K.is_ready (reader codec.old.session codec.old.turns codec.old.ends_runs codec.old.keeper)
        codec.old.output.items }
    requires empty { answer.old.items ≡ [] }
    requires kept { S.keeps kept.old.device.value (S.waits kept.old.events) (S.disk kept.old.events) }
    ensures ready { IsReady K.is_ready (reader codec.new.session codec.new.turns codec.new.ends_runs codec.new.keeper)
        codec.new.output.items }
    ensures kept { S.keeps kept.new.device.value (S.waits kept.new.events) (S.disk kept.new.events) }
    ensures same { S.disk kept.new.events ≡ S.disk kept.old.events }
    ensures done { OnOk result (Ends K.has_kept K.becomes
        (reader codec.old.session codec.old.turns codec.old.ends_runs codec.old.keeper) kept.old.device.value []
        (reader codec.new.session codec.new.turns codec.new.ends_runs codec.new.keeper) kept.new.device.value answer.new.items) }
    ensures stopped { (left : Option (List ℕ)) → IsAtEnd left → IfErr result (Stops K.has_kept K.becomes
        (reader codec.old.session codec.old.turns codec.old.ends_runs codec.old.keeper) kept.old.device.value [] [] left
        (reader codec.new.session codec.new.turns codec.new.ends_runs codec.new.keeper) kept.new.device.value answer.new.items) }
    ensures codecs { IfErr result IsCodecs }
{
    codec.session.end()?;
    if !codec.ends_runs {
        return Ok(());
    }
    let output = codec.output.as_mut_slice();
    end_runs(kept, &mut AsFrames, output, answer)?;
    Ok(())
}
