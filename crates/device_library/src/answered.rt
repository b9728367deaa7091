//! What came of an operation.

ghost use Rattle.std.specs.Prelude.{◌≡◌, ◌≤◌, length, take};
ghost use Rattle.device_library.specs.OperationAnswers.{accepts, answer_in, came_in, ends, ready_in, signals, told_by};

use crate::answer_asked::AnswerAsked;
use crate::flags::flags_in;
use tcp_loop::{Answer, INCOMING, Ready};

/// What came of an operation, by what C says. An answer of a kind that there isn't says that it failed.
pub(crate) fn answer_in(told: &AnswerAsked<'_>) -> Answer
    ensures { result ≡ answer_in (told_by told.now) }
{
    match told.kind {
        0 => Answer::Done,
        1 => Answer::Came,
        2 => Answer::Taken { count: told.number },
        3 => Answer::Again,
        4 => Answer::NoRoom,
        6 => Answer::Happened {
            ready: ready_in(told),
        },
        7 => Answer::Time {
            now: told.number as u64,
        },
        8 => Answer::Signal {
            ends: ends(told.number),
        },
        _ => Answer::Failed,
    }
}

/// The bytes that came: no more than are read at once.
pub(crate) fn came_in<'a>(told: &AnswerAsked<'a>) -> &'a [u8]
    ensures bytes { result.now ≡ came_in (told_by told.now) }
    ensures few { length result.now ≤ INCOMING }
{
    match told.kind {
        1 => first_of(told.piece),
        _ => &[],
    }
}

/// The first of some bytes, as many as are read at once.
fn first_of(bytes: &[u8]) -> &[u8]
    ensures bytes { result.now ≡ take INCOMING bytes.now }
    ensures few { length result.now ≤ INCOMING }
{
    &bytes[..bytes.len().min(INCOMING)]
}

/// What happened where it was waited for.
fn ready_in(told: &AnswerAsked<'_>) -> Ready
    ensures { result ≡ ready_in (told_by told.now) }
{
    Ready {
        reads: flags_in(told.piece),
        writes: flags_in(told.beside),
        accepts: accepts(told.number),
        signals: signals(told.number),
    }
}

/// Does a host want to connect, by a number?
fn accepts(number: usize) -> bool
    ensures { result ≡ accepts number }
{
    number == 1 || number == 3
}

/// Did a signal come?
fn signals(number: usize) -> bool
    ensures { result ≡ signals number }
{
    number == 2 || number == 3
}

/// Does a signal end the program?
fn ends(number: usize) -> bool
    ensures { result ≡ ends number }
{
    number == 1
}
