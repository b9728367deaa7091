//! The journal.

ghost use Rattle.std.specs.Prelude.{◌≡◌, ◌<◌, ◌≤◌, ◌^◌, ◌+◌, ◌++◌, [], ◌∷◌, List, ℕ, length, take, drop, IfOk, OnOk, OnErr};
ghost use Rattle.stored_file.specs.File.{IsWhole, LeavesNow, LeavesOnly};
ghost use Rattle.stored_file.specs.Cause.{HasCause};
ghost use Rattle.durable_machine.specs.Events.{spelled, AreSpelled, AreSized};
ghost use Rattle.durable_machine.specs.Seals.{events_of};
ghost use Rattle.durable_machine.specs.Journal.{HasBatches, StandsFor, StandsWithOrWithout, IsAt, IsSettled};
ghost use Rattle.durable_machine.specs.Staging.{HasStaged, IsStaged};
ghost use Rattle.durable_machine.specs.LastBatch.{IsSameBut};

use crate::batch::Batch;
use crate::gates::{closed_sector, open_sector};
use crc32c::Sums;
use std::alloc::AllocError;
use stored_file::{FileError, SECTOR, StoredFile, write_durably};

/// A journal in a file.
#[derive(Drop)]
pub struct Journal<F: StoredFile> {
    /// Where it is kept.
    pub file: F,
    /// The offset of its closed gate.
    pub gate: usize,
    /// What makes the sums of batches.
    pub sums: Sums,
}

/// Puts an event after those of a batch, whole or not at all.
///
/// # Errors
///
/// No memory. Then the batch is as it was.
pub fn add_event(events: &mut Vec<u8>, event: &[u8]) -> Result<(), AllocError>
    ensures added { OnOk result (events.new.items ≡ events.old.items ++ spelled (event.now ∷ [])) }
    ensures refused { OnErr result (events.new.items ≡ events.old.items) }
    ensures sized { length event.now < 2 ^ 64 }
{
    add_parts(events, event, &[], &[])
}

/// Puts an event, of which the bytes stand in three parts, after those of a batch, whole or not at all.
///
/// # Errors
///
/// No memory. Then the batch is as it was.
pub(crate) fn add_parts(
    events: &mut Vec<u8>,
    first: &[u8],
    second: &[u8],
    third: &[u8],
) -> Result<(), AllocError>
    ensures added { OnOk result
        (events.new.items ≡ events.old.items ++ spelled ((first.now ++ second.now ++ third.now) ∷ [])) }
    ensures refused { OnErr result (events.new.items ≡ events.old.items) }
    ensures sized { OnOk result (length (first.now ++ second.now ++ third.now) < 2 ^ 64) }
{
    let before = events.len();
    let result = put_parts(events, first, second, third);
    if result.is_err() {
        events.truncate(before);
    }
    result
}

/// Puts it after those of a batch, or its first bytes.
///
/// # Errors
///
/// No memory: there is none for so many bytes either, where their number is none of 64 bits.
fn put_parts(
    events: &mut Vec<u8>,
    first: &[u8],
    second: &[u8],
    third: &[u8],
) -> Result<(), AllocError>
    ensures added { OnOk result
        (events.new.items ≡ events.old.items ++ spelled ((first.now ++ second.now ++ third.now) ∷ [])) }
    ensures begins { take (length events.old.items) events.new.items ≡ events.old.items }
    ensures sized { OnOk result (length (first.now ++ second.now ++ third.now) < 2 ^ 64) }
{
    let size = size_of(first.len(), second.len(), third.len())?;
    events.push(1)?;
    events.extend_from_slice(&size.to_le_bytes())?;
    events.extend_from_slice(first)?;
    events.extend_from_slice(second)?;
    events.extend_from_slice(third)?;
    Ok(())
}

/// The length of three parts.
///
/// # Errors
///
/// It is no number of 64 bits, so that no memory has room for them.
fn size_of(first: usize, second: usize, third: usize) -> Result<u64, AllocError>
    ensures { IfOk result (λ size. size ≡ first + (second + third)) }
{
    let Some(behind) = second.checked_add(third) else {
        return Err(AllocError);
    };
    let Some(size) = first.checked_add(behind) else {
        return Err(AllocError);
    };
    Ok(size as u64)
}

impl<F: StoredFile> Journal<F> {
    /// Adds a batch of events, all or none. At `Ok` they are acknowledged: from then on each crash leaves a file that
    /// has them. At `Err`, the file has to be opened again.
    ///
    /// It waits for the disk twice, before the batch's gate is opened and after, although the batch has a sum. With one sync for both, a
    /// crash could leave the gate open and the batch torn, and a sum finds that only with high probability. So what a crash leaves is proved
    /// without any assumption about sums; they only find bytes that changed on the disk by themselves.
    ///
    /// # Errors
    ///
    /// No memory, or the disk's.
    pub fn append(&mut self, batch: &mut Batch) -> Result<(), FileError>
        requires settled { IsSettled self.old.gate (F.told self.old.file) }
        requires spelled { AreSpelled (events_of batch.old) }

        ensures emptied { OnOk result (events_of batch.new ≡ []) }

        ensures acknowledged { OnOk result ((front : List ℕ) (before : List (List (List ℕ))) (added : List (List ℕ))
            → IsAt front before self.old.gate (F.told self.old.file)
            → AreSized added → events_of batch.old ≡ spelled added
            → IsAt front (before ++ added ∷ []) self.new.gate (F.told self.new.file)) }

        // A crash at any moment of the call leaves the batches from before it, with the new one or without.
        ensures any_moment { (front : List ℕ) (before : List (List (List ℕ))) (added : List (List ℕ))
            → IsAt front before self.old.gate (F.told self.old.file)
            → AreSized added → events_of batch.old ≡ spelled added
            → LeavesOnly (F.told self.old.file) (F.told self.new.file) (StandsWithOrWithout front before (added ∷ [])) }

        // It doesn't give up by itself.
        ensures cause { HasCause (F.told self.old.file) (F.told self.new.file) result }
    {
        let next = self.stage(batch)?;
        self.open_gate(next)
    }

    /// Writes a batch of events after the closed gate, with a closed gate after it, and waits for the disk. It doesn't count yet. Gives
    /// the offset of that gate.
    ///
    /// # Errors
    ///
    /// No memory, or the disk's.
    fn stage(&mut self, batch: &mut Batch) -> Result<usize, FileError>
        requires settled { IsSettled self.old.gate (F.told self.old.file) }
        requires spelled { AreSpelled (events_of batch.old) }

        ensures emptied { OnOk result (events_of batch.new ≡ []) }

        ensures staged { IfOk result (λ next. (front : List ℕ) (before : List (List (List ℕ))) (added : List (List ℕ))
            → IsAt front before self.old.gate (F.told self.old.file)
            → AreSized added → events_of batch.old ≡ spelled added
            → IsStaged front before added self.new.gate next (F.told self.new.file)) }

        // A crash at any moment of the call leaves the batches from before it.
        ensures any_moment { (front : List ℕ) (before : List (List (List ℕ)))
            → IsAt front before self.old.gate (F.told self.old.file)
            → LeavesOnly (F.told self.old.file) (F.told self.new.file) (StandsFor front before) }

        ensures cause { HasCause (F.told self.old.file) (F.told self.new.file) result }
    {
        batch.seal(&self.sums, self.gate)?;
        write_durably(&mut self.file, self.gate + SECTOR, &batch.bytes)?;
        let next = self.gate + batch.bytes.len();
        batch.clear();
        Ok(next)
    }

    /// Opens the gate of the batch that is staged, and waits for the disk. At `Ok` the batch is acknowledged, and the gate after it, at
    /// this offset, ends the journal.
    ///
    /// # Errors
    ///
    /// No memory, or the disk's.
    fn open_gate(&mut self, next: usize) -> Result<(), FileError>
        requires staged { HasStaged self.old.gate next (F.told self.old.file) }

        ensures acknowledged { OnOk result ((front : List ℕ) (before : List (List (List ℕ))) (staged : List (List ℕ))
            → IsStaged front before staged self.old.gate next (F.told self.old.file)
            → IsAt front (before ++ staged ∷ []) self.new.gate (F.told self.new.file)) }

        // A crash at any moment of the call leaves the batches from before it, with the staged one or without.
        ensures any_moment { (front : List ℕ) (before : List (List (List ℕ))) (staged : List (List ℕ))
            → IsStaged front before staged self.old.gate next (F.told self.old.file)
            → LeavesOnly (F.told self.old.file) (F.told self.new.file) (StandsWithOrWithout front before (staged ∷ [])) }

        ensures cause { HasCause (F.told self.old.file) (F.told self.new.file) result }
    {
        write_durably(&mut self.file, self.gate, &open_sector())?;
        self.gate = next;
        Ok(())
    }
}

/// Puts a closed gate after the batches of a file that a crash may have left, in place of what stands there. The last batch's gate
/// is written again before: an earlier program may have failed to bring it to the disk, and then it was read all the same. It may
/// crash too.
///
/// `end` is where the batches end, `at` the offset of the last one's gate, and `gate` the bytes of its sector; where there is no
/// batch, `gate` is empty, and `at` is `end`.
///
/// # Errors
///
/// No memory, or the disk's.
pub fn repair<F: StoredFile>(
    file: &mut F,
    end: usize,
    at: usize,
    gate: &[u8],
) -> Result<(), FileError>
    requires within { end ≤ length (F.told file.old).seen }
    requires before { at + length gate.now ≤ end }
    requires whole { IsWhole end × IsWhole at × IsWhole (length gate.now) }
    requires again { take (length gate.now) (drop at (F.told file.old).seen) ≡ gate.now }
    // What is read is on the disk, but for that gate, and for what stands after the batches.
    requires restarted { LeavesNow (F.told file.old) (IsSameBut at (length gate.now) end (F.told file.old).seen) }

    ensures settled { OnOk result ((front : List ℕ) (batches : List (List (List ℕ))) → IsWhole (length front)
        → HasBatches front batches end (F.told file.old).seen → IsAt front batches end (F.told file.new)) }

    // A crash at any moment leaves the same, but for that gate.
    ensures any_moment { LeavesOnly (F.told file.old) (F.told file.new) (IsSameBut at (length gate.now) end (F.told file.old).seen) }

    // Where it is on the disk, a crash at any moment leaves it there.
    ensures kept { LeavesNow (F.told file.old) (IsSameBut at 0 end (F.told file.old).seen)
        → LeavesOnly (F.told file.old) (F.told file.new) (IsSameBut at 0 end (F.told file.old).seen) }

    ensures cause { HasCause (F.told file.old) (F.told file.new) result }
{
    // The cut has to be on the disk first: after a gate that is torn open, what was there would count.
    file.set_len(end)?;
    file.renew(at, gate)?;
    file.sync()?;
    write_durably(file, end, &closed_sector())?;
    Ok(())
}
