//! A target, as C asks it until a loop serves it.

ghost use Rattle.std.specs.Prelude.{◌≡◌};
ghost use Rattle.device_library.specs.Asked.{told_by};
ghost use Rattle.device_library.specs.Target.{TakesDone, TakesFailed, WillBeKept};
ghost use Rattle.device_library.specs.TargetAnswers.{Answers, AnswersTo, TellsIn, as_number};

use crate::asked::AskedBy;
use crate::files::tell_next;
use crate::kind::{Question, TargetKind, nothing};
use crate::put::put;
use crate::target::Target;
use std::alloc::Global;

/// Does what a target is asked for by a number, and gives the answer. Not inlined, so that a device in memory doesn't pay for its room on
/// the stack.
#[inline(never)]
pub fn answer_to(
    session: &mut Target,
    alloc: Global,
    kind: u32,
    asked: &AskedBy<'_>,
    out: &mut [u8],
) -> usize
    requires { WillBeKept session.old }
    ensures answered { AnswersTo kind (told_by asked.now) (record { session = session.old; out = out.old })
        (record { session = session.new; out = out.new }) result }
    ensures kept { WillBeKept session.new }
{
    match TargetKind::from_number(kind) {
        Some(kind) => answer(session, alloc, kind, asked, out),
        None => nothing(kind),
    }
}

/// Does what a target is asked for, and gives the answer.
fn answer(
    session: &mut Target,
    alloc: Global,
    kind: TargetKind,
    asked: &AskedBy<'_>,
    out: &mut [u8],
) -> usize
    requires { WillBeKept session.old }
    ensures answered { Answers kind (told_by asked.now) (record { session = session.old; out = out.old })
        (record { session = session.new; out = out.new }) result }
    ensures kept { WillBeKept session.new }
{
    match kind {
        TargetKind::Ask(question) => ask(session, question, asked.count, out),
        TargetKind::Done => done(session),
        TargetKind::Failed => failed(session),
        TargetKind::Name => as_number(session.name(alloc, asked.piece)),
        TargetKind::Nqn => put(session.served.target().nqn(), out),
    }
}

/// 1 for yes, 0 for no.
fn as_number(is: bool) -> usize
    ensures { result ≡ as_number is }
{
    if is { 1 } else { 0 }
}

/// Answers a question about the call that C is to make next for the file.
fn ask(session: &Target, question: Question, from: usize, out: &mut [u8]) -> usize
    ensures { TellsIn session.now.keeper question session.now.failed from out.old out.new result }
{
    match &session.keeper {
        Some(keeper) => tell_next(
            session.failed,
            &keeper.events.journal.file,
            question,
            from,
            out,
        ),
        None => 0,
    }
}

/// Takes the next call for done.
fn done(session: &mut Target) -> usize
    requires { WillBeKept session.old }
    ensures told { result ≡ 0 }
    ensures done { TakesDone session.old session.new }
    ensures kept { WillBeKept session.new }
{
    session.tell_done();
    0
}

/// Takes it for failed.
fn failed(session: &mut Target) -> usize
    ensures told { result ≡ 0 }
    ensures failed { TakesFailed session.old session.new }
    ensures kept { WillBeKept session.new }
{
    session.tell_failed();
    0
}
