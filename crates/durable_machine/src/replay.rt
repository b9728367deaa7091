//! The events of batches, done again.

ghost use Rattle.std.specs.Prelude.{◌≡◌, ◌<◌, ◌≤◌, ◌^◌, ◌+◌, length, IfOk, IfErr, OnOk};
ghost use Rattle.durable_machine.specs.Replay.{AreAllDone, HaltsAtBatch, HaltsAtEvent, LeadsAgain};

use crate::Machine;
use crate::journal_reading::{first_batch, first_event};
use crc32c::Sums;
use std::alloc::{AllocError, Global};

/// Why events aren't all done again.
#[derive(Clone, Copy)]
pub(crate) enum Halt {
    /// Memory is wanting.
    Memory,
    /// The event at this offset changes nothing.
    Idle(usize),
}

impl From<AllocError> for Halt {
    ghost use Rattle.durable_machine.specs.declared.replay.Halt.TheVariants.{Memory};

    ghost from_gives = { λ _ halt. halt ≡ Memory };

    fn from(_: AllocError) -> Self {
        Halt::Memory
    }
}

/// Batches after a file's front.
#[derive(Clone, Copy)]
pub(crate) struct Batches {
    /// How many bytes they take.
    pub(crate) taken: usize,
    /// Where the last of them begins; where there is none, it is where they end.
    pub(crate) last: usize,
    /// How many they are.
    pub(crate) count: usize,
}

/// Does the batches at the front of the bytes again, which begin at an offset of the file.
///
/// # Errors
///
/// An event isn't done again, or no memory.
pub(crate) fn replay_batches<M: Machine>(
    alloc: Global,
    sums: &Sums,
    machine: &mut M,
    begin: usize,
    bytes: &[u8],
) -> Result<Batches, Halt>
    requires { begin + length bytes.now < 2 ^ 63 }
    ensures done { IfOk result (λ found. AreAllDone M.next begin bytes.now found.taken found.last found.count machine.old machine.new) }
    ensures within { IfOk result (λ found. (found.taken ≤ length bytes.now) × (found.last ≤ found.taken)) }
    ensures halts { IfErr result (HaltsAtBatch M.next begin bytes.now machine.old) }
{
    let mut rest = bytes;
    let mut last = 0;
    let mut count = 0;
    while let Some((place, events, behind)) = first_batch(
        sums,
        begin + (bytes.len() - rest.len()),
        rest,
    ) {
        let at = bytes.len() - rest.len();
        match apply_again(alloc, machine, events) {
            Ok(()) => {}
            Err(Halt::Idle(event)) => return Err(Halt::Idle(at + place + event)),
            Err(Halt::Memory) => return Err(Halt::Memory),
        }
        last = at;
        count += 1;
        rest = behind;
    }
    Ok(Batches {
        taken: bytes.len() - rest.len(),
        last,
        count,
    })
}

/// Does events again, which bytes spell, where memory was given.
///
/// # Errors
///
/// One of them changes nothing, or no memory.
fn apply_again<M: Machine>(alloc: Global, machine: &mut M, bytes: &[u8]) -> Result<(), Halt>
    ensures again { OnOk result (LeadsAgain M.next bytes.now machine.old machine.new) }
    ensures halts { IfErr result (HaltsAtEvent M.next bytes.now machine.old) }
{
    let mut rest = bytes;
    while let Some((event, behind)) = first_event(rest) {
        let done = machine.apply(alloc, event)?;
        if done.starved {
            return Err(Halt::Memory);
        }
        if !done.changes {
            return Err(Halt::Idle(bytes.len() - rest.len()));
        }
        rest = behind;
    }
    Ok(())
}
