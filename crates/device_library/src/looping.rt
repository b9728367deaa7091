//! The loop that serves a target, as C asks it.

ghost use Rattle.std.specs.Prelude.{◌≡◌, [], true, IfSome};
ghost use Rattle.durable_device.specs.Kept.{IsCommittedBut};
ghost use Rattle.durable_machine.specs.Seals.{events_of};
ghost use Rattle.handed_file.specs.Handed.{is_settled};
ghost use Rattle.device_library.specs.Asked.{told_by};
ghost use Rattle.device_library.specs.Looping.{Answers, AnswersTo, BeginsInFile, BeginsInMemory, HasBegun, IsStanding, LoopLent, LoopNow, ServingLent, Stands, level_of, reply_of};
ghost use Rattle.device_library.specs.Target.{WillBeKept, promised};

use crate::answer_asked::AnswerAsked;
use crate::asked::AskedBy;
use crate::event::ReplyHead;
use crate::kind::{LoopKind, nothing};
use crate::loop_calls;
use crate::operation_head::OperationHead;
use crate::put::put;
use crate::target::Target;
use durable_machine::InFile;
use handed_file::HandedFile;
use std::alloc::Global;
use tcp_device::{
    DurableTarget, Keeper, MemoryTarget, ServedTarget, begin_in_file, begin_in_memory,
};
use tcp_loop::{KeptTarget, Level, Loop, Options};

/// How many turns runs are given in a round, where the device is in memory alone: so often hosts are looked at.
const TURNS: u32 = 32;

/// And as many where hosts wait for the disk.
const KEPT_TURNS: u32 = 1024;

/// A target that a loop serves, before a device in a file or in memory.
#[derive(Drop)]
pub enum Serving {
    /// In a file for which C makes the calls.
    Durable(Loop<DurableTarget>),
    /// In memory, of which the image is saved at the end.
    Memory(Loop<MemoryTarget>),
}

/// Begins to serve a target whose calls for the file are made. `None` where memory is wanting, something waits for the disk, or the file has
/// to be opened again.
pub fn begin(alloc: Global, target: Target, level: usize) -> Option<Serving>
    requires { WillBeKept target }
    ensures { IfSome result (HasBegun target) }
{
    if !target.may_begin() {
        return None;
    }
    let Target { served, keeper, .. } = target;
    match keeper {
        Some(keeper) => begin_durable(alloc, served, keeper, level),
        None => begin_memory(alloc, served, level),
    }
}

/// Begins to serve one before a device in a file.
#[inline(never)]
fn begin_durable(
    alloc: Global,
    served: ServedTarget,
    keeper: Keeper<InFile<HandedFile>>,
    level: usize,
) -> Option<Serving>
    requires kept { IsCommittedBut (events_of keeper.events.waiting) served.device keeper.events.journal.gate (promised keeper) }
    requires none { events_of keeper.events.waiting ≡ [] }
    requires settled { is_settled keeper.events.journal.file ≡ true }
    ensures { IfSome result (BeginsInFile keeper.events.journal.file served) }
{
    let options = Options {
        turns: KEPT_TURNS,
        has_kept_runs: true,
        level: level_of(level),
    };
    match begin_in_file(alloc, served, keeper, options) {
        Ok(serving) => Some(Serving::Durable(serving)),
        Err(_) => None,
    }
}

/// Begins to serve one before a device in memory.
#[inline(never)]
fn begin_memory(alloc: Global, served: ServedTarget, level: usize) -> Option<Serving>
    ensures { IfSome result (BeginsInMemory served) }
{
    let options = Options {
        turns: TURNS,
        has_kept_runs: false,
        level: level_of(level),
    };
    match begin_in_memory(alloc, served, options) {
        Ok(serving) => Some(Serving::Memory(serving)),
        Err(_) => None,
    }
}

/// How much is told, by number.
fn level_of(level: usize) -> Level
    ensures { result ≡ level_of level }
{
    match level {
        0 => Level::Failures,
        1 => Level::Connections,
        _ => Level::Commands,
    }
}

/// Does what a loop is asked for by a number, and gives the answer. Not inlined, so that a device in memory doesn't pay for its room on the
/// stack.
#[inline(never)]
pub fn answer_to(
    serving: &mut Serving,
    kind: u32,
    asked: &AskedBy<'_>,
    reply: &mut ReplyHead,
    out: &mut [u8],
) -> usize
    requires { IsStanding serving.old }
    ensures answered { AnswersTo kind (told_by asked.now)
        (record { serving = serving.old; reply = reply.old; out = out.old })
        (record { serving = serving.new; reply = reply.new; out = out.new }) result }
    ensures stands { IsStanding serving.new }
{
    match LoopKind::from_number(kind) {
        Some(kind) => match serving {
            Serving::Durable(serving) => answer(serving, kind, asked, reply, out),
            Serving::Memory(serving) => answer(serving, kind, asked, reply, out),
        },
        None => nothing(kind),
    }
}

/// Does what it is asked for, and gives the answer.
fn answer<T: KeptTarget + Drop>(
    serving: &mut Loop<T>,
    kind: LoopKind,
    asked: &AskedBy<'_>,
    reply: &mut ReplyHead,
    out: &mut [u8],
) -> usize
    requires { Stands T.means T.free (record {
      stage = serving.old.stage;
      now = T.at serving.old.target;
      waiting = serving.old.incoming.items;
      clock = serving.old.clock;
    }) }
    ensures answered { Answers T.means T.free kind (told_by asked.now)
        (record {
          asked = record {
            stage = serving.old.stage;
            now = T.at serving.old.target;
            waiting = serving.old.incoming.items;
            clock = serving.old.clock;
          };
          reply = reply.old;
          out = out.old;
        })
        (record {
          asked = record {
            stage = serving.new.stage;
            now = T.at serving.new.target;
            waiting = serving.new.incoming.items;
            clock = serving.new.clock;
          };
          reply = reply.new;
          out = out.new;
        }) result }
    ensures stands { Stands T.means T.free (record {
      stage = serving.new.stage;
      now = T.at serving.new.target;
      waiting = serving.new.incoming.items;
      clock = serving.new.clock;
    }) }
{
    match kind {
        LoopKind::Operation => {
            let (head, carried) = loop_calls::operation(serving);
            *reply = reply_of(head);
            carried
        }
        LoopKind::Reads => put(&loop_calls::reads(serving), out),
        LoopKind::Writes => put(&loop_calls::writes(serving), out),
        LoopKind::Carried => put(loop_calls::carried(serving, asked.count), out),
        LoopKind::Step => {
            let told = AnswerAsked {
                kind: asked.number,
                number: asked.count,
                piece: asked.piece,
                beside: asked.beside,
            };
            loop_calls::step(serving, &told);
            0
        }
    }
}

/// What is told of an operation, in what C has for replies.
fn reply_of(head: OperationHead) -> ReplyHead
    ensures { result ≡ reply_of head }
{
    let mut completion = [0; 16];
    completion[0] = u8::from(head.flag);
    ReplyHead {
        length: head.number,
        number: head.kind,
        completion,
    }
}
