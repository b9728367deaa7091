//! What a file stands for, as it is found by reading the file piece by piece.

ghost use Rattle.std.specs.Prelude.{◌≡◌, ◌⊎◌, ◌<◌, ◌≤◌, [], ◌++◌, List, ℕ, length, IfOk, IfErr, IfSome, MatchOption, OnOk};
ghost use Rattle.stored_file.specs.Reading.{HasReadCause};
ghost use Rattle.durable_machine.specs.Bases.{BeginsBase, BeginsNoBase, HasReadBase};
ghost use Rattle.durable_machine.specs.Pieces.{AreAllRead, HaltsReading, HasGate, HasReadOn, HoldsOfWhole, IsAfter, IsFound, IsRefusedSoFar, IsRefusedWhole};
ghost use Rattle.durable_machine.specs.Salvage.{HasBegun};

use crate::journal_reading::is_end;
use crate::pieces::{fill, forget, read_up_to, skip_rest};
use crate::replay::{Halt, replay_batches};
use crate::sectors::in_sectors;
use crate::{Fault, Machine};
use crc32c::Sums;
use std::alloc::Global;
use stored_file::{FileError, FileReading, SECTOR};

/// What a file stands for, and what opening it writes again.
#[derive(Drop)]
pub struct Found<M: Drop> {
    /// The machine in its state.
    pub machine: M,
    /// Where the file's batches end.
    pub end: usize,
    /// The offset of the last one's gate; where there is none, it is that end.
    pub last: usize,
    /// The bytes of that gate's sector; none where there is no batch.
    pub gate: Vec<u8>,
    /// How many batches there are.
    pub count: usize,
}

/// Batches after a file's base, as they are done again.
#[derive(Drop)]
struct Done {
    end: usize,
    last: usize,
    gate: Vec<u8>,
    count: usize,
}

/// Reads a file, and finds the machine for which it stands. In memory are its base until that is loaded, then one batch at a time, and no
/// more than 256 KiB beside it; of the earlier version of the format, which tells no length, all batches.
///
/// # Errors
///
/// The file doesn't begin with a base in whole sectors, it is damaged, or an event of it isn't done again: of this the file is read to its
/// end, too. Or no memory, or the disk's.
pub fn find<M: Machine + Drop, R: FileReading>(
    alloc: Global,
    reading: &mut R,
) -> Result<Found<M>, Fault>
    requires { R.given reading.old ≡ [] }
    ensures found { IfOk result (λ found.
        IsFound M.loads M.next found.end found.last found.gate.items (R.given reading.new) found.machine) }
    ensures whole { OnOk result (length (R.given reading.new) ≡ R.size reading.new) }
    ensures refused { IfErr result
        (IsRefusedWhole M.loads M.next (R.size reading.new) (R.given reading.new) (R.faults reading.old) (R.faults reading.new)) }
    ensures size { R.size reading.new ≡ R.size reading.old }
    ensures known { R.known reading.new ≡ R.known reading.old }
{
    let mut window = Vec::new(alloc);
    match replay(alloc, reading, &mut window) {
        Err(Fault::OfFile(error)) => Err(Fault::OfFile(error)),
        result => {
            skip_rest(reading, &mut window)?;
            result
        }
    }
}

/// Finds the machine for which a file stands, and reads no more than tells it.
///
/// # Errors
///
/// Those of [`find`].
fn replay<M: Machine + Drop, R: FileReading>(
    alloc: Global,
    reading: &mut R,
    window: &mut Vec<u8>,
) -> Result<Found<M>, Fault>
    requires none { (R.given reading.old ≡ []) × (window.old.items ≡ []) }
    ensures found { IfOk result (λ found. HoldsOfWhole (R.size reading.new) (R.given reading.new)
        (λ file. IsFound M.loads M.next found.end found.last found.gate.items file found.machine)) }
    ensures refused { IfErr result
        (IsRefusedSoFar M.loads M.next (R.size reading.new) (R.given reading.new) (R.faults reading.old) (R.faults reading.new)) }
    ensures size { R.size reading.new ≡ R.size reading.old }
    ensures known { R.known reading.new ≡ R.known reading.old }
    ensures faults { R.faults reading.old ≤ R.faults reading.new }
{
    let found = replay_front(alloc, &Sums::new(), reading, window)?;
    if !is_end(window) {
        return Err(Fault::Damaged(found.end));
    }
    Ok(found)
}

/// Finds the machine to which a file's base and the batches lead that stand whole after it, whatever stands after these. What stands
/// there is in the window, or as much of it as tells whether it is an end.
///
/// # Errors
///
/// The file begins with no base in whole sectors, an event isn't done again; or no memory, or the disk's.
pub(crate) fn replay_front<M: Machine + Drop, R: FileReading>(
    alloc: Global,
    sums: &Sums,
    reading: &mut R,
    window: &mut Vec<u8>,
) -> Result<Found<M>, Fault>
    requires none { (R.given reading.old ≡ []) × (window.old.items ≡ []) }
    ensures begun { IfOk result (λ found. HoldsOfWhole (R.size reading.new) (R.given reading.new)
        (λ file. HasBegun M.loads M.next found.end found.last found.count file found.machine)) }
    ensures gate { IfOk result (λ found. HasGate found.last found.end found.gate.items (R.given reading.new)) }
    ensures after { IfOk result (λ found. IsAfter found.end (R.given reading.new) window.new.items) }
    ensures enough { OnOk result ((4096 < length window.new.items) ⊎ (length (R.given reading.new) ≡ R.size reading.new)) }
    ensures refused { IfErr result
        (IsRefusedSoFar M.loads M.next (R.size reading.new) (R.given reading.new) (R.faults reading.old) (R.faults reading.new)) }
    ensures size { R.size reading.new ≡ R.size reading.old }
    ensures known { R.known reading.new ≡ R.known reading.old }
    ensures faults { R.faults reading.old ≤ R.faults reading.new }
{
    let Some((mut machine, base)) = read_base::<M, R>(alloc, reading, window)? else {
        return Err(Fault::Unreadable);
    };
    let front = in_sectors(base);
    read_up_to(reading, window, front)?;
    if window.len() < front {
        return Err(Fault::Unreadable);
    }
    forget(window, front);
    let done = replay_pieces(alloc, sums, &mut machine, front, reading, window)?;
    Ok(Found {
        machine,
        end: done.end,
        last: done.last,
        gate: done.gate,
        count: done.count,
    })
}

/// Reads the base at the front of a file, and loads it. Gives its length, too; `None` where no base stands there.
///
/// # Errors
///
/// No memory, or the disk's.
fn read_base<M: Machine, R: FileReading>(
    alloc: Global,
    reading: &mut R,
    window: &mut Vec<u8>,
) -> Result<Option<(M, usize)>, FileError>
    requires { window.old.items ≡ R.given reading.old }
    ensures base { IfOk result (λ found. HoldsOfWhole (R.size reading.new) (R.given reading.new)
        (λ file. MatchOption found (BeginsNoBase M.loads file) (λ base. BeginsBase M.loads base.0 base.1 file))) }
    ensures within { IfOk result (λ found. IfSome found (λ base. base.1 ≤ length (R.given reading.new))) }
    ensures same { OnOk result (window.new.items ≡ R.given reading.new) }
    ensures size { R.size reading.new ≡ R.size reading.old }
    ensures known { R.known reading.new ≡ R.known reading.old }
    ensures cause { HasReadCause (R.faults reading.old) (R.faults reading.new) result }
{
    read_needed::<M, R>(reading, window)?;
    let found = M::load(alloc, window)?;
    Ok(found)
}

/// Reads on until a base at the front of the file is in the window.
///
/// # Errors
///
/// No memory, or the disk's.
fn read_needed<M: Machine, R: FileReading>(
    reading: &mut R,
    window: &mut Vec<u8>,
) -> Result<(), FileError>
    requires { window.old.items ≡ R.given reading.old }
    ensures base { OnOk result (HasReadBase M.loads (R.size reading.new) (R.given reading.new)) }
    ensures same { OnOk result (window.new.items ≡ R.given reading.new) }
    ensures size { R.size reading.new ≡ R.size reading.old }
    ensures known { R.known reading.new ≡ R.known reading.old }
    ensures cause { HasReadCause (R.faults reading.old) (R.faults reading.new) result }
{
    let mut needed = M::base_length(window);
    'base: while needed > window.len() && needed - window.len() <= reading.left() {
        read_up_to(reading, window, needed)?;
        needed = M::base_length(window);
    }
    Ok(())
}

/// Does the batches again that stand in a file from an offset on, and reads no more than tells that no further one follows.
///
/// # Errors
///
/// An event isn't done again; or no memory, or the disk's.
fn replay_pieces<M: Machine, R: FileReading>(
    alloc: Global,
    sums: &Sums,
    machine: &mut M,
    begin: usize,
    reading: &mut R,
    window: &mut Vec<u8>,
) -> Result<Done, Fault>
    requires { IsAfter begin (R.given reading.old) window.old.items }
    ensures done { IfOk result (λ done. AreAllRead M.next begin (R.size reading.new) (R.given reading.new) window.new.items
        done.end done.last done.count done.gate.items machine.old machine.new) }
    ensures halts { IfErr result (HaltsReading M.next begin (R.size reading.new) (R.given reading.new) machine.old
        (R.faults reading.old) (R.faults reading.new)) }
    ensures size { R.size reading.new ≡ R.size reading.old }
    ensures known { R.known reading.new ≡ R.known reading.old }
    ensures faults { R.faults reading.old ≤ R.faults reading.new }
    // What was read before is the front of what was read.
    ensures read { (more : List ℕ) × (R.given reading.new ≡ R.given reading.old ++ more) }
{
    let mut done = Done {
        end: begin,
        last: begin,
        gate: Vec::new(alloc),
        count: 0,
    };
    'pieces: loop {
        fill(reading, window)?;
        let more = match replay_batches(alloc, sums, machine, done.end, window) {
            Ok(more) => more,
            Err(Halt::Idle(at)) => return Err(Fault::Undone(done.end + at)),
            Err(Halt::Memory) => return Err(Fault::OfFile(FileError::Memory)),
        };
        if more.count == 0 {
            return Ok(done);
        }
        done.gate = window[more.last..more.last + SECTOR].to_vec(alloc)?;
        done.last = done.end + more.last;
        done.end += more.taken;
        done.count += more.count;
        forget(window, more.taken);
    }
}
