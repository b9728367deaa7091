//! Rounds of a stream.

ghost use Rattle.std.specs.Prelude.{◌≡◌, ◌≤◌, ◌<◌, [], length, take, IfErr, IfOk, IsTrue, OnErr, OnOk};
ghost use Rattle.std.specs.Io.KnownBytes.{Appends, Consumes, IsAtEnd, Keeps};
ghost use Rattle.stored_file.specs.File.{LeavesOnly};
ghost use Rattle.device_meaning.specs.State.{State};
ghost use Rattle.durable_device.specs.Kept.{IsEither};
ghost use Rattle.device_serve.specs.Faults.{BlamesDisk};
ghost use Rattle.device_serve.specs.Rounds.{IsUnsent, StopsServing, afresh, on, stops_afresh};
ghost use Rattle.device_serve.specs.declared.fault.ServeFault.TheVariants.{Read, Write as CantWrite};
ghost use Rattle.device_serve.specs.steps.UnderWay.{BreaksThere, ReadSoFar, ReadsMore, ServesMore, StopsThere};

use crate::codec::{Codec, MOST_WAITING};
use crate::fault::ServeFault;
use crate::kept::KeptDevice;
use durable_device::{Folds, FrameDevice};
use durable_machine::Store;
use std::alloc::Global;
use std::io::{ErrorKind, Read, Write};

/// How much is read at a time, and where a disk is waited for, how much at most before more is read in the same round.
pub(crate) const PIECE: usize = 1 << 20;

/// Serves in one round what has come of a stream, and as long as the round may go on also what comes then. Gives how many bytes were read
/// last, which is 0 only at the stream's end.
pub(crate) fn serve_round<R: Read, S: Folds + Drop, C: Codec<S>, W: Write>(
    alloc: Global,
    kept: &mut KeptDevice<S>,
    codec: &mut C,
    reader: &mut R,
    buffer: &mut [u8],
    answer: &mut Vec<u8>,
    out: &mut W,
) -> Result<usize, ServeFault>
    requires some { 0 < length buffer.old }
    requires empty { answer.old.items ≡ [] }
    requires none { S.waits kept.old.events ≡ [] }
    requires settled { S.settled kept.old.device.value (S.disk kept.old.events) }
    requires ready { C.is_ready codec.old }
    ensures ready { C.is_ready codec.new }
    ensures empty { OnOk result (answer.new.items ≡ []) }
    ensures none { OnOk result (S.waits kept.new.events ≡ []) }
    ensures settled { OnOk result (S.settled kept.new.device.value (S.disk kept.new.events)) }
    ensures blames { BlamesDisk (S.told (S.disk kept.old.events)) (S.told (S.disk kept.new.events)) result }
    ensures end { IfOk result (λ count. count ≡ 0 → IsAtEnd (R.remaining reader.new)) }
    ensures served { OnOk result (ReadSoFar C.does S.told S.settled (R.remaining reader.old) (R.remaining reader.new)
        (on codec.old kept.old.device.value (W.contents out.old) (S.disk kept.old.events))
        (on codec.new kept.new.device.value (W.contents out.new) (S.disk kept.new.events))) }
    ensures stopped { IfErr result (StopsServing (afresh C.does) S.told S.settled C.ends (stops_afresh C.stops)
        (R.remaining reader.old) (R.remaining reader.new)
        (on codec.old kept.old.device.value (W.contents out.old) (S.disk kept.old.events))
        (on codec.new kept.new.device.value (W.contents out.new) (S.disk kept.new.events))) }
{
    // Brings in that nothing waits.
    S::rests();
    let mut count = serve_next(alloc, kept, codec, reader, buffer, answer, out)?;
    let mut come = count;
    while goes_on(kept, codec, count, come, answer.len()) {
        count = serve_next(alloc, kept, codec, reader, buffer, answer, out)?;
        come = come.saturating_add(count);
    }
    flush(alloc, kept, answer, out)?;
    Ok(count)
}

/// Does a round go on? Only where it waits for a disk and a request has begun of which the client owes the rest, and neither much has come
/// in it nor much waits to be answered. At the stream's end nothing more comes.
fn goes_on<S: Folds + Drop, C: Codec<S>>(
    kept: &KeptDevice<S>,
    codec: &C,
    count: usize,
    come: usize,
    waiting: usize,
) -> bool
    ensures some { IsTrue result → 0 < count }
    ensures bound { IsTrue result → come < PIECE }
    ensures few { IsTrue result → waiting < MOST_WAITING }
    ensures owed { IsTrue result → C.within codec.now }
    ensures waits { IsTrue result → S.waits kept.now.events ≡ [] → ⊥ }
    ensures goes { 0 < count → come < PIECE → waiting < MOST_WAITING → C.within codec.now
        → (S.waits kept.now.events ≡ [] → ⊥) → IsTrue result }
{
    count > 0
        && come < PIECE
        && waiting < MOST_WAITING
        && codec.is_within()
        && !kept.events.is_committed()
}

/// Reads a piece of a stream, and does it in the round that is under way. Gives how many bytes it has, which is 0 only at the stream's end.
///
/// # Errors
///
/// Why the stream is served no further. Where it can't be read, what was done is on the disk and answered.
fn serve_next<R: Read, S: Folds + Drop, C: Codec<S>, W: Write>(
    alloc: Global,
    kept: &mut KeptDevice<S>,
    codec: &mut C,
    reader: &mut R,
    buffer: &mut [u8],
    answer: &mut Vec<u8>,
    out: &mut W,
) -> Result<usize, ServeFault>
    requires some { 0 < length buffer.old }
    requires few { length answer.old.items < MOST_WAITING }
    requires kept { S.keeps kept.old.device.value (S.waits kept.old.events) (S.disk kept.old.events) }
    requires ready { C.is_ready codec.old }
    ensures ready { C.is_ready codec.new }
    ensures kept { OnOk result (S.keeps kept.new.device.value (S.waits kept.new.events) (S.disk kept.new.events)) }
    ensures blames { BlamesDisk (S.told (S.disk kept.old.events)) (S.told (S.disk kept.new.events)) result }
    ensures end { IfOk result (λ count. count ≡ 0 → IsAtEnd (R.remaining reader.new)) }
    ensures served { OnOk result (ReadsMore C.does S.told S.settled (R.remaining reader.old) (R.remaining reader.new)
        (on codec.old kept.old.device.value (W.contents out.old) (S.disk kept.old.events)) answer.old.items
        (on codec.new kept.new.device.value (W.contents out.new) (S.disk kept.new.events)) answer.new.items) }
    ensures stopped { IfErr result (StopsThere C.does S.told S.settled C.ends C.stops (R.remaining reader.old) (R.remaining reader.new)
        (on codec.old kept.old.device.value (W.contents out.old) (S.disk kept.old.events)) answer.old.items
        (on codec.new kept.new.device.value (W.contents out.new) (S.disk kept.new.events))) }
{
    // Brings in that a crash leaves what is committed.
    S::rests();
    match read(reader, buffer) {
        Ok(count) => {
            serve_piece(alloc, kept, codec, &buffer[..count], answer, out)?;
            Ok(count)
        }
        Err(fault) => {
            flush(alloc, kept, answer, out)?;
            Err(fault)
        }
    }
}

/// Reads a piece, again where a signal interrupts it. Nothing comes only at the end.
fn read<R: Read>(reader: &mut R, buffer: &mut [u8]) -> Result<usize, ServeFault>
    requires { 0 < length buffer.old }
    ensures bound { IfOk result (λ count. count ≤ length buffer.new) }
    ensures bytes { IfOk result (λ count. Consumes (R.remaining reader.old) (R.remaining reader.new) (take count buffer.new)) }
    ensures end { IfOk result (λ count. count ≡ 0 → IsAtEnd (R.remaining reader.new)) }
    ensures kept { OnErr result (Keeps (R.remaining reader.old) (R.remaining reader.new)) }
    ensures unread { IfErr result (λ fault. fault ≡ Read) }
{
    for _ in 0..u64::MAX {
        match reader.read(buffer) {
            Ok(count) => return Ok(count),
            Err(error) => {
                if error.kind() != ErrorKind::Interrupted {
                    return Err(ServeFault::Read);
                }
            }
        }
    }
    Err(ServeFault::Read)
}

/// Serves a piece of a stream in the round that is under way, and in others after it where much waits to be answered.
pub(crate) fn serve_piece<S: Folds + Drop, C: Codec<S>, W: Write>(
    alloc: Global,
    kept: &mut KeptDevice<S>,
    codec: &mut C,
    piece: &[u8],
    answer: &mut Vec<u8>,
    out: &mut W,
) -> Result<(), ServeFault>
    requires few { length answer.old.items < MOST_WAITING }
    requires kept { S.keeps kept.old.device.value (S.waits kept.old.events) (S.disk kept.old.events) }
    requires ready { C.is_ready codec.old }
    ensures ready { C.is_ready codec.new }
    ensures kept { OnOk result (S.keeps kept.new.device.value (S.waits kept.new.events) (S.disk kept.new.events)) }
    ensures blames { BlamesDisk (S.told (S.disk kept.old.events)) (S.told (S.disk kept.new.events)) result }
    ensures served { OnOk result (ServesMore C.does S.told S.settled piece.now
        (on codec.old kept.old.device.value (W.contents out.old) (S.disk kept.old.events)) answer.old.items
        (on codec.new kept.new.device.value (W.contents out.new) (S.disk kept.new.events)) answer.new.items) }
    ensures stopped { IfErr result (BreaksThere C.does S.told S.settled C.ends C.stops piece.now
        (on codec.old kept.old.device.value (W.contents out.old) (S.disk kept.old.events)) answer.old.items
        (on codec.new kept.new.device.value (W.contents out.new) (S.disk kept.new.events))) }
{
    let mut rest = piece;
    while !rest.is_empty() {
        let count = serve_batch(alloc, kept, codec, rest, answer, out)?;
        rest = &rest[count..];
    }
    Ok(())
}

/// Serves the front of a piece in the round that is under way, and gives how many bytes of it were taken. The round ends where these aren't
/// all.
fn serve_batch<S: Folds + Drop, C: Codec<S>, W: Write>(
    alloc: Global,
    kept: &mut KeptDevice<S>,
    codec: &mut C,
    piece: &[u8],
    answer: &mut Vec<u8>,
    out: &mut W,
) -> Result<usize, ServeFault>
    requires few { length answer.old.items < MOST_WAITING }
    requires kept { S.keeps kept.old.device.value (S.waits kept.old.events) (S.disk kept.old.events) }
    requires ready { C.is_ready codec.old }
    ensures ready { C.is_ready codec.new }
    ensures few { IfOk result (λ count. count < length piece.now → length answer.new.items < MOST_WAITING) }
    ensures kept { OnOk result (S.keeps kept.new.device.value (S.waits kept.new.events) (S.disk kept.new.events)) }
    ensures blames { BlamesDisk (S.told (S.disk kept.old.events)) (S.told (S.disk kept.new.events)) result }
    ensures within { IfOk result (λ count. count ≤ length piece.now) }
    ensures some { 0 < length piece.now → IfOk result (λ count. 0 < count) }
    ensures served { IfOk result (λ count. ServesMore C.does S.told S.settled (take count piece.now)
        (on codec.old kept.old.device.value (W.contents out.old) (S.disk kept.old.events)) answer.old.items
        (on codec.new kept.new.device.value (W.contents out.new) (S.disk kept.new.events)) answer.new.items) }
    ensures stopped { IfErr result (BreaksThere C.does S.told S.settled C.ends C.stops piece.now
        (on codec.old kept.old.device.value (W.contents out.old) (S.disk kept.old.events)) answer.old.items
        (on codec.new kept.new.device.value (W.contents out.new) (S.disk kept.new.events))) }
{
    // Bring in that nothing waits after a commit, and that what is done in parts is done as a whole.
    S::rests();
    C::joins();
    match codec.take(kept, piece, answer) {
        Ok(count) => {
            if count == piece.len() {
                return Ok(count);
            }
            flush(alloc, kept, answer, out)?;
            Ok(count)
        }
        Err(fault) => {
            flush(alloc, kept, answer, out)?;
            Err(fault)
        }
    }
}

/// Commits what was done, and then writes what answers it.
///
/// # Errors
///
/// No memory, or the disk's, and then nothing is written; or the answer can't be written.
pub(crate) fn flush<S: Store<FrameDevice> + Drop, W: Write>(
    alloc: Global,
    kept: &mut KeptDevice<S>,
    answer: &mut Vec<u8>,
    out: &mut W,
) -> Result<(), ServeFault>
    requires kept { S.keeps kept.old.device.value (S.waits kept.old.events) (S.disk kept.old.events) }
    ensures unchanged { kept.new.device.value ≡ kept.old.device.value }
    ensures none { OnOk result (S.waits kept.new.events ≡ []) }
    ensures settled { OnOk result (S.settled kept.new.device.value (S.disk kept.new.events)) }
    ensures written { OnOk result (Appends (W.contents out.old) (W.contents out.new) answer.old.items) }
    ensures empty { OnOk result (answer.new.items ≡ []) }
    ensures unsent { IfErr result (λ why. IsUnsent why (W.contents out.old) (W.contents out.new)) }
    ensures on_disk { IfErr result (λ why. why ≡ CantWrite → S.settled kept.new.device.value (S.disk kept.new.events)) }
    ensures any_moment { (before : State) → S.settled before (S.disk kept.old.events)
        → LeavesOnly (S.told (S.disk kept.old.events)) (S.told (S.disk kept.new.events)) (IsEither before kept.old.device.value) }
    ensures blames { BlamesDisk (S.told (S.disk kept.old.events)) (S.told (S.disk kept.new.events)) result }
{
    kept.commit(alloc)?;
    write(out, answer.as_slice())?;
    answer.clear();
    Ok(())
}

/// Writes bytes, and hands them on at once.
fn write<W: Write>(out: &mut W, bytes: &[u8]) -> Result<(), ServeFault>
    ensures written { OnOk result (Appends (W.contents out.old) (W.contents out.new) bytes.now) }
    ensures unwritten { IfErr result (λ why. why ≡ CantWrite) }
{
    if out.write_all(bytes).is_err() {
        return Err(ServeFault::Write);
    }
    if out.flush().is_err() {
        return Err(ServeFault::Write);
    }
    Ok(())
}
