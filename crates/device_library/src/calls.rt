//! What C asks of a handle.

ghost use Rattle.device_library.specs.Asked.{Asked, told_by};
ghost use Rattle.std.specs.Prelude.{ℕ, ◌≡◌, List, IfSome};
ghost use Rattle.device_library.specs.Calls.{AnswersAs, Begins, Called, Held, Lent, ServesSession, is_target};
ghost use Rattle.device_library.specs.Sessions.{KeepsAll, KeepsSession};

use crate::asked::AskedBy;
use crate::event::ReplyHead;
use crate::handle::{Handle, Session};
use crate::kind::{BEGIN, OPENED, nothing};
use crate::looping::Serving;
use crate::{kept_answers, looping, memory, target_answers};
use std::alloc::Global;
use std::mem;

/// Does what is asked for, and gives the answer. Where there is nothing that knows the kind, nothing is done.
#[inline(always)]
pub fn call(
    handle: &mut Handle,
    kind: u32,
    number: usize,
    count: usize,
    piece: &[u8],
    beside: &[u8],
    reply: &mut ReplyHead,
    out: &mut [u8],
) -> usize
    requires { KeepsAll handle.old }
    ensures { Called kind (record { number = number; count = count; piece = piece.now; beside = beside.now })
        (record { handle = handle.old; reply = reply.old; out = out.old })
        (record { handle = handle.new; reply = reply.new; out = out.new }) result }
{
    let asked = AskedBy {
        number,
        count,
        piece,
        beside,
    };
    do_asked(handle, kind, &asked, reply, out)
}

/// Does what is asked for, with all that goes with it.
#[inline(always)]
fn do_asked(
    handle: &mut Handle,
    kind: u32,
    asked: &AskedBy<'_>,
    reply: &mut ReplyHead,
    out: &mut [u8],
) -> usize
    requires { KeepsAll handle.old }
    ensures { Called kind (told_by asked.now)
        (record { handle = handle.old; reply = reply.old; out = out.old })
        (record { handle = handle.new; reply = reply.new; out = out.new }) result }
{
    if kind == OPENED {
        return handle.opened as usize;
    }
    let alloc = handle.alloc;
    if kind == BEGIN {
        return begin(handle, alloc, asked.number);
    }
    match &mut handle.session {
        Some(session) => answer(session, alloc, kind, asked, reply, out),
        None => nothing(kind),
    }
}

/// Does what a session is asked for, and gives the answer. On the way to a device in memory functions are inlined, and what is asked for
/// stays in registers, so that a turn takes little time: a function that isn't inlined is lent a copy.
#[inline(always)]
fn answer(
    session: &mut Session,
    alloc: Global,
    kind: u32,
    asked: &AskedBy<'_>,
    reply: &mut ReplyHead,
    out: &mut [u8],
) -> usize
    requires { KeepsSession session.old }
    ensures answered { AnswersAs session.old kind (told_by asked.now)
        (record { session = session.old; reply = reply.old; out = out.old })
        (record { session = session.new; reply = reply.new; out = out.new }) result }
    ensures kept { KeepsSession session.new }
{
    match session {
        Session::Memory(device) => memory::answer_to(device, alloc, kind, asked, reply, out),
        Session::Kept(kept) => {
            kept_answers::answer_to(kept, alloc, kind, asked.count, asked.piece, out)
        }
        Session::Target(target) => {
            let lent = *asked;
            target_answers::answer_to(target, alloc, kind, &lent, out)
        }
        Session::Loop(serving) => {
            let lent = *asked;
            looping::answer_to(serving, kind, &lent, reply, out)
        }
    }
}

/// Has a loop serve the target of a handle from now on: 1 where it does. Where there is no target, nothing happens, and where memory is
/// wanting for the loop, there is nothing any more. Not inlined, since it has room for the target on the stack.
#[inline(never)]
fn begin(handle: &mut Handle, alloc: Global, level: usize) -> usize
    requires { KeepsAll handle.old }
    ensures begins { (reply : ReplyHead) (out : List ℕ) → Begins handle.old.session
        (record { handle = handle.old; reply = reply; out = out }) (record { handle = handle.new; reply = reply; out = out }) result }
    ensures kept { KeepsAll handle.new }
{
    if !is_target(&handle.session) {
        return 0;
    }
    match begun(alloc, mem::replace(&mut handle.session, None), level) {
        Some(serving) => {
            handle.session = Some(Session::Loop(serving));
            1
        }
        None => 0,
    }
}

/// Is there a target?
fn is_target(session: &Option<Session>) -> bool
    ensures { result ≡ is_target session.now }
{
    match session {
        Some(Session::Target(_)) => true,
        Some(Session::Memory(_)) => false,
        Some(Session::Kept(_)) => false,
        Some(Session::Loop(_)) => false,
        None => false,
    }
}

/// The loop that serves a target; `None` where there is none, or memory is wanting.
#[inline(never)]
fn begun(alloc: Global, session: Option<Session>, level: usize) -> Option<Serving>
    requires { IfSome session KeepsSession }
    ensures { IfSome result (ServesSession session) }
{
    match session {
        Some(Session::Target(target)) => looping::begin(alloc, target, level),
        Some(Session::Memory(_)) => None,
        Some(Session::Kept(_)) => None,
        Some(Session::Loop(_)) => None,
        None => None,
    }
}
