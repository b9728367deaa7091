//! What C asks a device in memory to do: an event, or turns of a run.

ghost use Rattle.std.specs.Prelude.{ℕ, ◌≡◌, ◌≤◌, ◌≢◌, List, length, IfSome, None};
ghost use Rattle.nvme_entry.specs.declared.command.TheConstants.{MOST_TRANSFER};
ghost use Rattle.device_library.specs.Asked.{told_by};
ghost use Rattle.device_library.specs.Events.{DoesEvent, EventAsked, Happens, IsAsked, MemoryLent, event_of, head_of, most_number, refusal, reply_number};
ghost use Rattle.device_library.specs.Turns.{DoesTurns, turns_of, why_no_turn};
ghost use Rattle.device_library.specs.declared.numbers.TheConstants.{SUBMIT, TURN};

use crate::asked::AskedBy;
use crate::numbers::{
    COMPLETION, FAULT_OFFLINE, FAULT_READ_ONLY, FAULT_REFUSED, FAULT_TAKEN, IDLE, NUMBER_TOO_LARGE,
    PENDING, SUBMIT, TURN, UNKNOWN_KIND, WRONG_SIZE,
};
use nvme_entry::MOST_TRANSFER;
use runner::{Device, Event, Reply};
use zone_state::FaultState;

/// The bytes of an entry (NVMe Base 2.0, 3.3.3.1).
const ENTRY_BYTES: usize = 64;

/// What is told of a reply beside its data.
#[repr(C)]
#[derive(Clone, Copy)]
pub struct ReplyHead {
    /// How many bytes of data go with it.
    pub length: usize,
    /// The queue of a completion, or the run that is pending.
    pub number: u32,
    /// The completion's bytes (NVMe Base 2.0, 3.3.3.2), zeros of another reply.
    pub completion: [u8; 16],
}

/// Does the event that is asked for, of the kind that is told as the count, and gives the number of what became of it.
#[inline(always)]
pub fn event(
    device: &mut Device,
    asked: &AskedBy<'_>,
    reply: &mut ReplyHead,
    output: &mut [u8],
) -> usize
    ensures { DoesEvent (event_of (told_by asked.now))
        (record { device = device.old; reply = reply.old; out = output.old })
        (record { device = device.new; reply = reply.new; out = output.new }) result }
{
    let AskedBy {
        number,
        count: kind,
        piece: entry,
        beside: input,
    } = *asked;
    if let Some(why) = refusal(kind, number, entry, output) {
        return why;
    }
    let told = happen(device, kind, number, entry, input, output);
    *reply = head_of(&told);
    reply_number(&told)
}

/// Gives the run with the number a turn, and further ones as long as it has turns left, at most as many in all as the count; and gives the
/// number of the reply to the last.
#[inline(always)]
pub fn turns(device: &mut Device, asked: &AskedBy<'_>, reply: &mut ReplyHead) -> usize
    ensures { (out : List ℕ) → DoesTurns (turns_of (told_by asked.now))
        (record { device = device.old; reply = reply.old; out = out })
        (record { device = device.new; reply = reply.new; out = out }) result }
{
    if let Some(why) = why_no_turn(asked.number) {
        return why;
    }
    let told = device.turns(asked.number as u8, asked.count.saturating_sub(1));
    *reply = head_of(&told);
    reply_number(&told)
}

/// Why a run is given no turn.
#[inline(always)]
fn why_no_turn(run: usize) -> Option<usize>
    ensures { result ≡ why_no_turn run }
{
    if run > 255 {
        Some(NUMBER_TOO_LARGE)
    } else {
        None
    }
}

/// Why nothing can happen that is asked for.
#[inline(always)]
fn refusal(kind: usize, number: usize, entry: &[u8], output: &[u8]) -> Option<usize>
    ensures { result ≡ refusal kind number (length entry.now) (length output.now) }
{
    let Some(most) = most_number(kind) else {
        return Some(UNKNOWN_KIND);
    };
    if number > most {
        return Some(NUMBER_TOO_LARGE);
    }
    if kind == SUBMIT && entry.len() != ENTRY_BYTES {
        return Some(WRONG_SIZE);
    }
    if output.len() < MOST_TRANSFER {
        return Some(WRONG_SIZE);
    }
    None
}

/// The largest number that goes with a kind: of a queue, a run or a zone.
#[inline(always)]
fn most_number(kind: usize) -> Option<usize>
    ensures { result ≡ most_number kind }
{
    if kind == SUBMIT {
        Some(65_535)
    } else if kind == TURN {
        Some(255)
    } else if kind == FAULT_READ_ONLY || kind == FAULT_OFFLINE {
        Some(u32::MAX as usize)
    } else {
        None
    }
}

/// Does an event that nothing refuses.
#[inline(always)]
fn happen(
    device: &mut Device,
    kind: usize,
    number: usize,
    entry: &[u8],
    input: &[u8],
    output: &mut [u8],
) -> Reply
    requires { refusal kind number (length entry.now) (length output.old) ≡ None }
    ensures { Happens (record { kind = kind; number = number; entry = entry.now; input = input.now })
        device.old device.new result output.old output.new }
{
    if kind == SUBMIT {
        return submit(device, number as u16, entry, input, output);
    }
    if kind == TURN {
        return device.turns(number as u8, 0);
    }
    device.apply(&fault(kind, number), output)
}

/// Submits an entry. Not inlined, so that a turn doesn't pay for its room on the stack.
#[inline(never)]
fn submit(device: &mut Device, queue: u16, entry: &[u8], input: &[u8], output: &mut [u8]) -> Reply
    requires entry { length entry.now ≡ 64 }
    requires room { MOST_TRANSFER ≤ length output.old }
    ensures { Happens (record { kind = SUBMIT; number = queue; entry = entry.now; input = input.now })
        device.old device.new result output.old output.new }
{
    let mut bytes = [0; ENTRY_BYTES];
    bytes.copy_from_slice(entry);
    device.submit(queue, &bytes, input, output)
}

/// The fault of a kind.
fn fault(kind: usize, number: usize) -> Event
    requires other { kind ≢ SUBMIT }
    requires kind { kind ≢ TURN }
    requires number { IfSome (most_number kind) (λ most. number ≤ most) }
    requires known { most_number kind ≢ None }
    ensures { (entry input : List ℕ) → IsAsked (record { kind = kind; number = number; entry = entry; input = input }) result }
{
    if kind == FAULT_READ_ONLY {
        Event::Fault {
            zone: number as u32,
            state: FaultState::ReadOnly,
        }
    } else {
        Event::Fault {
            zone: number as u32,
            state: FaultState::Offline,
        }
    }
}

/// What is told of a reply beside its data.
#[inline(always)]
fn head_of(reply: &Reply) -> ReplyHead
    ensures { result ≡ head_of reply.now }
{
    match reply {
        Reply::Complete {
            queue,
            entry,
            length,
        } => ReplyHead {
            length: *length,
            number: u32::from(*queue),
            completion: entry.bytes(),
        },
        Reply::Pending { run } => ReplyHead {
            length: 0,
            number: u32::from(*run),
            completion: [0; 16],
        },
        Reply::Idle | Reply::FaultTaken | Reply::FaultRefused => ReplyHead {
            length: 0,
            number: 0,
            completion: [0; 16],
        },
    }
}

/// The number of a reply.
#[inline(always)]
fn reply_number(reply: &Reply) -> usize
    ensures { result ≡ reply_number reply.now }
{
    match reply {
        Reply::Complete { .. } => COMPLETION,
        Reply::Pending { .. } => PENDING,
        Reply::Idle => IDLE,
        Reply::FaultTaken => FAULT_TAKEN,
        Reply::FaultRefused => FAULT_REFUSED,
    }
}
