//! A file that is read piece by piece, in order.

ghost use Rattle.std.specs.Prelude.{◌≡◌, ◌⊎◌, ◌<◌, ◌≤◌, ◌^◌, ◌+◌, ◌++◌, List, ℕ, length, take, drop, IfSome, OnOk};
ghost use Rattle.stored_file.specs.Reading.{HasReadCause};
ghost use Rattle.durable_machine.specs.Events.{number_bytes};
ghost use Rattle.durable_machine.specs.Journal.{payload_length};
ghost use Rattle.durable_machine.specs.Pieces.{HasReadOn, TakesBytes, TellsBatch};

use crate::journal_reading::{begins_closed, whole_payload};
use crate::seal::{SEAL, SEALED};
use stored_file::{FileError, FileReading, SECTOR};

/// How many bytes are read at once, at least: a call of the system for each small batch would be slow.
const PIECE: usize = 1 << 18;

/// The first byte of an event, with which a batch begins in an earlier version of the format, which tells no length.
const EVENT: u8 = 1;

/// More bytes than a file has (POSIX, `off_t`).
const MOST_BYTES: usize = 1 << 63;

/// Reads on until the window has so many bytes, or all of the file was read.
///
/// # Errors
///
/// No memory, or the disk's.
pub(crate) fn read_up_to<R: FileReading>(
    reading: &mut R,
    window: &mut Vec<u8>,
    wanted: usize,
) -> Result<(), FileError>
    ensures read { HasReadOn (R.given reading.old) (R.given reading.new) window.old.items window.new.items }
    ensures enough { OnOk result ((wanted ≤ length window.new.items) ⊎ (length (R.given reading.new) ≡ R.size reading.new)) }
    ensures size { R.size reading.new ≡ R.size reading.old }
    ensures known { R.known reading.new ≡ R.known reading.old }
    ensures cause { HasReadCause (R.faults reading.old) (R.faults reading.new) result }
{
    if wanted <= window.len() {
        return Ok(());
    }
    let missing = wanted - window.len();
    let count = missing.max(PIECE).min(reading.left());
    reading.read_next(count, window)
}

/// Reads the rest of the file, and keeps none of it.
///
/// # Errors
///
/// No memory, or the disk's.
pub(crate) fn skip_rest<R: FileReading>(
    reading: &mut R,
    window: &mut Vec<u8>,
) -> Result<(), FileError>
    ensures read { (rest : List ℕ) × (R.given reading.new ≡ R.given reading.old ++ rest) }
    ensures whole { OnOk result (length (R.given reading.new) ≡ R.size reading.new) }
    ensures size { R.size reading.new ≡ R.size reading.old }
    ensures known { R.known reading.new ≡ R.known reading.old }
    ensures cause { HasReadCause (R.faults reading.old) (R.faults reading.new) result }
{
    while reading.left() > 0 {
        window.clear();
        let count = reading.left().min(PIECE);
        reading.read_next(count, window)?;
    }
    Ok(())
}

/// Takes the first bytes out of the window. The others are moved to its front.
pub(crate) fn forget(window: &mut Vec<u8>, count: usize)
    requires { count ≤ length window.old.items }
    ensures { window.new.items ≡ drop count window.old.items }
{
    let rest = window.len() - count;
    window.copy_within(count.., 0);
    window.truncate(rest);
}

/// Reads on until the window tells whether a batch stands at its front: it has all of it, or none stands there. Of a batch of the earlier
/// version of the format, which tells no length, all of the file is read.
///
/// # Errors
///
/// No memory, or the disk's.
pub(crate) fn fill<R: FileReading>(reading: &mut R, window: &mut Vec<u8>) -> Result<(), FileError>
    requires within { length window.old.items ≤ length (R.given reading.old) }
    ensures read { HasReadOn (R.given reading.old) (R.given reading.new) window.old.items window.new.items }
    ensures told { OnOk result (TellsBatch (R.size reading.new) (R.given reading.new) window.new.items) }
    ensures enough { OnOk result ((4096 < length window.new.items) ⊎ (length (R.given reading.new) ≡ R.size reading.new)) }
    ensures size { R.size reading.new ≡ R.size reading.old }
    ensures known { R.known reading.new ≡ R.known reading.old }
    ensures cause { HasReadCause (R.faults reading.old) (R.faults reading.new) result }
{
    read_up_to(reading, window, SECTOR + SEAL)?;
    let Some(length) = batch_length(window) else {
        let count = reading.left();
        return reading.read_next(count, window);
    };
    if length > window.len() && length - window.len() > reading.left() {
        // The file ends before it does: it doesn't stand there.
        return Ok(());
    }
    read_up_to(reading, window, length)
}

/// How many bytes a batch takes that stands at the front of bytes which begin so; 0 where none stands there. `None` where that isn't told.
fn batch_length(front: &[u8]) -> Option<usize>
    ensures { IfSome result (λ n. TakesBytes n front.now) }
{
    if front.len() < SECTOR + SEAL {
        return None;
    }
    if begins_closed(front) {
        return Some(0);
    }
    let payload = &front[SECTOR..];
    if payload[0] == SEALED {
        return Some(sealed_length(payload));
    }
    if payload[0] == EVENT {
        return None;
    }
    Some(0)
}

/// How many bytes a batch takes whose payload begins so, with a seal; 0 where no file has as many.
fn sealed_length(payload: &[u8]) -> usize
    requires { 21 ≤ length payload.now }
    ensures { (n : ℕ) → 21 + n < 2 ^ 63 → take 8 (drop 9 payload.now) ≡ number_bytes n
        → result ≡ 4096 + payload_length (21 + n) }
{
    let Some((number, _)) = payload[9..].split_first_chunk::<8>() else {
        return 0;
    };
    match usize::try_from(u64::from_le_bytes(*number)) {
        Ok(length) if length < MOST_BYTES - SEAL => SECTOR + whole_payload(SEAL + length),
        _ => 0,
    }
}
