//! What is saved of a damaged file.

ghost use Rattle.std.specs.Prelude.{◌≡◌, ◌<◌, ◌≤◌, ◌^◌, ◌+◌, List, ℕ, length, IfOk, IfErr, MatchOption};
ghost use Rattle.durable_machine.specs.Refused.{IsRefused};
ghost use Rattle.durable_machine.specs.Salvage.{AreFound, IsSalvaged, IsSeen};

use crate::finding::replay_front;
use crate::journal_reading::first_batch;
use crate::{Fault, Machine};
use crc32c::Sums;
use std::alloc::Global;
use stored_file::{SECTOR, SliceReading};

/// What is saved of a file.
#[derive(Drop)]
pub struct Salvaged<M: Drop> {
    /// The machine after the batches that stand whole after the base.
    pub machine: M,
    /// How many these are.
    pub whole: usize,
    /// Where they end. A damaged file is damaged at this byte.
    pub end: usize,
    /// How many batches stand whole after that, in sectors of their own. They are left out.
    pub readable: usize,
}

/// The machine after the batches that stand whole after a file's base, damaged or not, and how many others are left out. A new file can be
/// made of it ([`put_base`](crate::put_base)); the old one isn't changed.
///
/// # Errors
///
/// The file doesn't begin with a base in whole sectors, an event of a whole batch isn't done again, or no memory.
pub fn salvage<M: Machine + Drop>(alloc: Global, file: &[u8]) -> Result<Salvaged<M>, Fault>
    ensures saved { IfOk result (λ found. IsSalvaged M.loads M.next found.end found.whole found.readable file.now found.machine) }
    ensures refused { IfErr result (λ fault. IsRefused M.loads M.next file.now fault) }
{
    let sums = Sums::new();
    let mut reading = SliceReading::new(file);
    let mut window = Vec::new(alloc);
    let found = replay_front(alloc, &sums, &mut reading, &mut window)?;
    let readable = batches_in(&sums, found.end, &file[found.end..]);
    Ok(Salvaged {
        machine: found.machine,
        whole: found.count,
        end: found.end,
        readable,
    })
}

/// How many batches stand whole in bytes that begin at an offset, where each sector is looked at in turn.
fn batches_in(sums: &Sums, begin: usize, bytes: &[u8]) -> usize
    requires { begin + length bytes.now < 2 ^ 63 }
    ensures { (batches : List (List (List ℕ))) × AreFound begin batches bytes.now × (result ≡ length batches) }
{
    let mut rest = bytes;
    let mut found = 0;
    while let Some((more, behind)) = look(sums, begin + (bytes.len() - rest.len()), rest) {
        found += more;
        rest = behind;
    }
    found
}

/// Looks at the first sector of bytes that begin at an offset: how many batches begin there, one or none, and where the next one may begin.
/// `None` where there is no room for one.
fn look<'a>(sums: &Sums, at: usize, bytes: &'a [u8]) -> Option<(usize, &'a [u8])>
    ensures { MatchOption result (length bytes.now ≤ 4096) (λ seen. IsSeen at bytes.now seen.0 seen.1.now) }
{
    if bytes.len() <= SECTOR {
        return None;
    }
    match first_batch(sums, at, bytes) {
        Some((_, _, behind)) => Some((1, behind)),
        None => Some((0, &bytes[SECTOR..])),
    }
}
