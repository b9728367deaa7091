//! A device in a file, as C asks it.

ghost use Rattle.std.specs.Prelude.{◌≡◌};
ghost use Rattle.handed_file.specs.Handed.{waiting};
ghost use Rattle.device_library.specs.Files.{TellsNext, next_of};
ghost use Rattle.device_library.specs.Kept.{Answers, AnswersTo, Folds, KeptLent, Notes, Serves, TakesDone, TakesFailed, WillBeKept, fault_number, file_of, fold_number, stream_number};

use crate::files::tell_next;
use crate::kept::Kept;
use crate::kind::{KeptKind, nothing};
use crate::put::{behind, put};
use device_serve::ServeFault;
use durable_device::Folding;
use event_frames::StreamFault;
use std::alloc::Global;

/// Does what a device is asked for by a number, and gives the answer. Not inlined, so that a device in memory doesn't pay for its room on
/// the stack.
#[inline(never)]
pub fn answer_to(
    session: &mut Kept,
    alloc: Global,
    kind: u32,
    count: usize,
    piece: &[u8],
    out: &mut [u8],
) -> usize
    requires { WillBeKept session.old }
    ensures answered { AnswersTo kind count piece.now (record { session = session.old; out = out.old })
        (record { session = session.new; out = out.new }) result }
    ensures kept { WillBeKept session.new }
{
    match KeptKind::from_number(kind) {
        Some(kind) => answer(session, alloc, kind, count, piece, out),
        None => nothing(kind),
    }
}

/// Does what a device is asked for, and gives the answer.
fn answer(
    session: &mut Kept,
    alloc: Global,
    kind: KeptKind,
    count: usize,
    piece: &[u8],
    out: &mut [u8],
) -> usize
    requires { WillBeKept session.old }
    ensures answered { Answers kind count piece.now (record { session = session.old; out = out.old })
        (record { session = session.new; out = out.new }) result }
    ensures kept { WillBeKept session.new }
{
    match kind {
        KeptKind::Serve => serve(session, alloc, piece),
        KeptKind::Replies => put(behind(session.replies(), count), out),
        KeptKind::Fold => fold(session, alloc, count),
        KeptKind::Folded => number_of(session.device.last_fold),
        KeptKind::Ask(question) => tell_next(session.failed, session.file(), question, count, out),
        KeptKind::Done => done(session),
        KeptKind::Failed => failed(session),
    }
}

/// Does what frames ask for: 1 where it is done, once C has made the calls for it, or why it isn't.
fn serve(session: &mut Kept, alloc: Global, frames: &[u8]) -> usize
    requires { WillBeKept session.old }
    ensures served { Serves frames.now session.old session.new result }
    ensures kept { WillBeKept session.new }
{
    if session.failed {
        return 0;
    }
    match session.serve(alloc, frames) {
        Ok(()) => 1,
        Err(why) => fault_number(why),
    }
}

/// Why frames aren't served, by number.
fn fault_number(why: ServeFault) -> usize
    ensures { result ≡ fault_number why }
{
    match why {
        ServeFault::Stream(fault) => stream_number(fault),
        ServeFault::Write | ServeFault::Memory => 3,
        ServeFault::Read | ServeFault::Line { .. } | ServeFault::Save | ServeFault::Disk => 0,
    }
}

/// Why bytes aren't read as frames, by number.
fn stream_number(fault: StreamFault) -> usize
    ensures { result ≡ stream_number fault }
{
    match fault {
        StreamFault::Byte { .. } | StreamFault::CutOff { .. } => 2,
        StreamFault::Memory => 3,
    }
}

/// Folds the journal into a new file of at most so many bytes: 1 where it is done, once C has made the calls for it, 2 where it would be
/// longer, 3 where memory is wanting for it; 0 where the file has to be opened again.
fn fold(session: &mut Kept, alloc: Global, room: usize) -> usize
    requires { WillBeKept session.old }
    ensures folded { Folds session.old session.new result }
    ensures kept { WillBeKept session.new }
{
    if session.failed {
        return 0;
    }
    match session.fold(alloc, room) {
        Some(folding) => number_of(folding),
        None => 0,
    }
}

/// What came of a fold, by number.
fn number_of(folding: Folding) -> usize
    ensures { result ≡ fold_number folding }
{
    match folding {
        Folding::Done => 1,
        Folding::NoRoom => 2,
        Folding::NoMemory => 3,
    }
}

/// Takes the next call for done.
fn done(session: &mut Kept) -> usize
    requires { WillBeKept session.old }
    ensures done { Notes TakesDone session.old session.new result }
    ensures kept { WillBeKept session.new }
{
    session.tell_done();
    0
}

/// Takes it for failed.
fn failed(session: &mut Kept) -> usize
    ensures failed { Notes TakesFailed session.old session.new result }
    ensures kept { WillBeKept session.new }
{
    session.tell_failed();
    0
}
