//! A stream that is served as it comes.

ghost use Rattle.std.specs.Prelude.{◌≡◌, ◌<◌, ◌⊎◌, [], length, List, ℕ, Option, Some, IfErr, OnOk};
ghost use Rattle.std.specs.Io.KnownBytes.{IsAtEnd};
ghost use Rattle.stored_file.specs.File.{LeavesOnly};
ghost use Rattle.durable_device.specs.Kept.{StandsFor};
ghost use Rattle.device_serve.specs.Faults.{BlamesDisk};
ghost use Rattle.device_serve.specs.Rounds.{Breaks, LastRound, Round, ServesStream, StopsServing, afresh, on, stops_afresh};
ghost use Rattle.device_serve.specs.declared.fault.ServeFault.TheVariants.{Disk, Memory};

use crate::codec::Codec;
use crate::fault::ServeFault;
use crate::kept::KeptDevice;
use crate::round::{PIECE, flush, serve_piece, serve_round};
use durable_device::Folds;
use std::alloc::Global;
use std::io::{Read, Write};

/// Serves a stream as it comes, in rounds: does what was read, then waits until all of it is on the disk, where there is one, then writes
/// what answers it. Where a disk is to be waited for and a request has begun of which not all has come, more is read first: the client owes
/// it anyway. Between two rounds a journal that has grown long is folded.
///
/// # Errors
///
/// Why the stream is served no further. What was served before is done, on the disk and answered.
pub fn serve<R: Read, S: Folds + Drop, C: Codec<S>, W: Write>(
    alloc: Global,
    kept: &mut KeptDevice<S>,
    codec: &mut C,
    reader: &mut R,
    out: &mut W,
) -> Result<(), ServeFault>
    requires none { S.waits kept.old.events ≡ [] }
    requires settled { S.settled kept.old.device.value (S.disk kept.old.events) }
    requires ready { C.is_ready codec.old }
    ensures ready { C.is_ready codec.new }
    ensures none { OnOk result (S.waits kept.new.events ≡ []) }
    ensures settled { OnOk result (S.settled kept.new.device.value (S.disk kept.new.events)) }
    ensures blames { BlamesDisk (S.told (S.disk kept.old.events)) (S.told (S.disk kept.new.events)) result }
    ensures served { OnOk result (ServesStream (afresh C.does) S.told S.settled C.ends (R.remaining reader.old)
        (on codec.old kept.old.device.value (W.contents out.old) (S.disk kept.old.events))
        (on codec.new kept.new.device.value (W.contents out.new) (S.disk kept.new.events))) }
    ensures stopped { IfErr result (StopsServing (afresh C.does) S.told S.settled C.ends (stops_afresh C.stops)
        (R.remaining reader.old) (R.remaining reader.new)
        (on codec.old kept.old.device.value (W.contents out.old) (S.disk kept.old.events))
        (on codec.new kept.new.device.value (W.contents out.new) (S.disk kept.new.events))) }
{
    // Brings in that a crash leaves what is committed.
    S::rests();
    let mut buffer = vec![in alloc; 0u8; PIECE]?;
    let buffer = buffer.as_mut_slice();
    serve_pieces(alloc, kept, codec, reader, buffer, out)
}

/// Serves a stream of which nothing has come yet. Each piece goes to `buffer` first.
fn serve_pieces<R: Read, S: Folds + Drop, C: Codec<S>, W: Write>(
    alloc: Global,
    kept: &mut KeptDevice<S>,
    codec: &mut C,
    reader: &mut R,
    buffer: &mut [u8],
    out: &mut W,
) -> Result<(), ServeFault>
    requires some { 0 < length buffer.old }
    requires none { S.waits kept.old.events ≡ [] }
    requires settled { S.settled kept.old.device.value (S.disk kept.old.events) }
    requires ready { C.is_ready codec.old }
    ensures ready { C.is_ready codec.new }
    ensures none { OnOk result (S.waits kept.new.events ≡ []) }
    ensures settled { OnOk result (S.settled kept.new.device.value (S.disk kept.new.events)) }
    ensures blames { BlamesDisk (S.told (S.disk kept.old.events)) (S.told (S.disk kept.new.events)) result }
    ensures served { OnOk result (ServesStream (afresh C.does) S.told S.settled C.ends (R.remaining reader.old)
        (on codec.old kept.old.device.value (W.contents out.old) (S.disk kept.old.events))
        (on codec.new kept.new.device.value (W.contents out.new) (S.disk kept.new.events))) }
    ensures stopped { IfErr result (StopsServing (afresh C.does) S.told S.settled C.ends (stops_afresh C.stops)
        (R.remaining reader.old) (R.remaining reader.new)
        (on codec.old kept.old.device.value (W.contents out.old) (S.disk kept.old.events))
        (on codec.new kept.new.device.value (W.contents out.new) (S.disk kept.new.events))) }
{
    // Brings in that a crash leaves what is committed.
    S::rests();
    let mut answer = Vec::new(alloc);
    for _ in 0..u64::MAX {
        let count = serve_round(alloc, kept, codec, reader, buffer, &mut answer, out)?;
        if count == 0 {
            return end(alloc, kept, codec, &mut answer, out);
        }
        rest(alloc, kept, codec, &mut answer, out)?;
        fold(alloc, kept)?;
    }
    Err(ServeFault::Read)
}

/// Serves a stream that has come whole, as [`serve`] does one that comes in pieces. It isn't copied first.
///
/// # Errors
///
/// Why the stream is served no further. What was served before is done, on the disk and answered.
pub fn serve_whole<S: Folds + Drop, C: Codec<S>, W: Write>(
    alloc: Global,
    kept: &mut KeptDevice<S>,
    codec: &mut C,
    bytes: &[u8],
    out: &mut W,
) -> Result<(), ServeFault>
    requires none { S.waits kept.old.events ≡ [] }
    requires settled { S.settled kept.old.device.value (S.disk kept.old.events) }
    requires ready { C.is_ready codec.old }
    ensures ready { C.is_ready codec.new }
    ensures none { OnOk result (S.waits kept.new.events ≡ []) }
    ensures settled { OnOk result (S.settled kept.new.device.value (S.disk kept.new.events)) }
    ensures blames { BlamesDisk (S.told (S.disk kept.old.events)) (S.told (S.disk kept.new.events)) result }
    ensures served { OnOk result (ServesStream (afresh C.does) S.told S.settled C.ends (Some bytes.now)
        (on codec.old kept.old.device.value (W.contents out.old) (S.disk kept.old.events))
        (on codec.new kept.new.device.value (W.contents out.new) (S.disk kept.new.events))) }
    ensures stopped { IfErr result (StopsServing (afresh C.does) S.told S.settled C.ends (stops_afresh C.stops) (Some bytes.now) (Some [])
        (on codec.old kept.old.device.value (W.contents out.old) (S.disk kept.old.events))
        (on codec.new kept.new.device.value (W.contents out.new) (S.disk kept.new.events))) }
{
    // Brings in that nothing waits.
    S::rests();
    let mut answer = Vec::new(alloc);
    serve_piece(alloc, kept, codec, bytes, &mut answer, out)?;
    flush(alloc, kept, &mut answer, out)?;
    rest(alloc, kept, codec, &mut answer, out)?;
    fold(alloc, kept)?;
    end(alloc, kept, codec, &mut answer, out)
}

/// Does in one round what is to be done before more is read.
fn rest<S: Folds + Drop, C: Codec<S>, W: Write>(
    alloc: Global,
    kept: &mut KeptDevice<S>,
    codec: &mut C,
    answer: &mut Vec<u8>,
    out: &mut W,
) -> Result<(), ServeFault>
    requires empty { answer.old.items ≡ [] }
    requires none { S.waits kept.old.events ≡ [] }
    requires settled { S.settled kept.old.device.value (S.disk kept.old.events) }
    requires ready { C.is_ready codec.old }
    ensures ready { C.is_ready codec.new }
    ensures empty { OnOk result (answer.new.items ≡ []) }
    ensures none { OnOk result (S.waits kept.new.events ≡ []) }
    ensures settled { OnOk result (S.settled kept.new.device.value (S.disk kept.new.events)) }
    ensures blames { BlamesDisk (S.told (S.disk kept.old.events)) (S.told (S.disk kept.new.events)) result }
    ensures served { OnOk result (Round (afresh C.does) S.told S.settled []
        (on codec.old kept.old.device.value (W.contents out.old) (S.disk kept.old.events))
        (on codec.new kept.new.device.value (W.contents out.new) (S.disk kept.new.events))) }
    ensures stopped { (left : Option (List ℕ)) → IfErr result (Breaks (afresh C.does) S.told S.settled C.ends
        (stops_afresh C.stops) [] left
        (on codec.old kept.old.device.value (W.contents out.old) (S.disk kept.old.events))
        (on codec.new kept.new.device.value (W.contents out.new) (S.disk kept.new.events))) }
{
    // Brings in that nothing waits.
    S::rests();
    let done = codec.rest(kept, answer);
    flush(alloc, kept, answer, out)?;
    match done {
        Ok(()) => Ok(()),
        Err(fault) => Err(fault),
    }
}

/// Does in one round what the end of the stream asks for.
fn end<S: Folds + Drop, C: Codec<S>, W: Write>(
    alloc: Global,
    kept: &mut KeptDevice<S>,
    codec: &mut C,
    answer: &mut Vec<u8>,
    out: &mut W,
) -> Result<(), ServeFault>
    requires empty { answer.old.items ≡ [] }
    requires none { S.waits kept.old.events ≡ [] }
    requires settled { S.settled kept.old.device.value (S.disk kept.old.events) }
    requires ready { C.is_ready codec.old }
    ensures ready { C.is_ready codec.new }
    ensures none { OnOk result (S.waits kept.new.events ≡ []) }
    ensures settled { OnOk result (S.settled kept.new.device.value (S.disk kept.new.events)) }
    ensures blames { BlamesDisk (S.told (S.disk kept.old.events)) (S.told (S.disk kept.new.events)) result }
    ensures ended { OnOk result (LastRound (afresh C.does) S.told S.settled C.ends
        (on codec.old kept.old.device.value (W.contents out.old) (S.disk kept.old.events))
        (on codec.new kept.new.device.value (W.contents out.new) (S.disk kept.new.events))) }
    ensures stopped { (left : Option (List ℕ)) → IsAtEnd left → IfErr result (Breaks (afresh C.does) S.told S.settled C.ends
        (stops_afresh C.stops) [] left
        (on codec.old kept.old.device.value (W.contents out.old) (S.disk kept.old.events))
        (on codec.new kept.new.device.value (W.contents out.new) (S.disk kept.new.events))) }
{
    // Brings in that nothing waits.
    S::rests();
    let done = codec.end(kept, answer);
    flush(alloc, kept, answer, out)?;
    match done {
        Ok(()) => Ok(()),
        Err(fault) => Err(fault),
    }
}

/// Folds the journal where it has grown long.
fn fold<S: Folds + Drop>(alloc: Global, kept: &mut KeptDevice<S>) -> Result<(), ServeFault>
    requires none { S.waits kept.old.events ≡ [] }
    requires settled { S.settled kept.old.device.value (S.disk kept.old.events) }
    ensures unchanged { kept.new.device.value ≡ kept.old.device.value }
    ensures none { S.waits kept.new.events ≡ [] }
    ensures settled { OnOk result (S.settled kept.new.device.value (S.disk kept.new.events)) }
    ensures blames { BlamesDisk (S.told (S.disk kept.old.events)) (S.told (S.disk kept.new.events)) result }
    ensures unfolded { IfErr result (λ why. (why ≡ Disk) ⊎ (why ≡ Memory)) }
    ensures any_moment { LeavesOnly (S.told (S.disk kept.old.events)) (S.told (S.disk kept.new.events))
        (λ c. StandsFor c kept.old.device.value) }
{
    kept.fold_when_due(alloc)?;
    Ok(())
}
