//! Machines whose events are kept in a file, as they are opened and made.

ghost use Rattle.std.specs.Prelude.{◌≡◌, ◌<◌, [], IfOk, IfErr};
ghost use Rattle.stored_file.specs.File.{LeavesOnly};
ghost use Rattle.stored_file.specs.declared.stored_file.FileError.TheVariants.{NoRoom, Failed};
ghost use Rattle.durable_machine.specs.Seals.{events_of};
ghost use Rattle.durable_machine.specs.Files.{IsItsState, IsDurable, IsInBase, IsOldOrStands};
ghost use Rattle.durable_machine.specs.Pieces.{IsFound};
ghost use Rattle.durable_machine.specs.Restart.{IsRestarted, KeepsRestarted};
ghost use Rattle.durable_machine.specs.Refused.{Refuses};

use crate::base::put_base;
use crate::batch::Batch;
use crate::finding::find;
use crate::journal::{Journal, repair};
use crate::{Fault, Found, InFile, Machine};
use crc32c::Sums;
use std::alloc::Global;
use stored_file::{FileError, SliceReading, StoredFile};

/// A machine, and the journal of its events in a file. Each event is noted before it is done, and what was done may go out once it is
/// committed ([`Store`](crate::Store)).
#[derive(Drop)]
pub struct Durable<M: Drop, F: StoredFile + Drop> {
    /// The machine.
    pub machine: M,
    /// What keeps its events.
    pub events: InFile<F>,
}

impl<M: Machine + Drop, F: StoredFile + Drop> Durable<M, F> {
    /// Opens a file of which these bytes were read, and reads nothing of it. A crash may have left the file, or an earlier program that
    /// failed to bring its last batch to the disk. At `Ok` all that it stands for is there. It may crash too, at any moment, and then the
    /// file stands for the same state; or for that from before the last batch, where that wasn't on the disk. An `Err` hands the file
    /// back.
    ///
    /// # Errors
    ///
    /// The file doesn't begin with a base in whole sectors, or has what no crash leaves: then it stands for no state, and stays
    /// as it is. No memory, or the disk's.
    pub fn open_read(alloc: Global, file: F, bytes: &[u8]) -> Result<Durable<M, F>, (Fault, F)>
        // What is read is on the disk, but for what an earlier program did last.
        requires restarted { IsRestarted M.loads M.next (F.told file) }
        requires read { bytes.now ≡ (F.told file).seen }

        ensures state { IfOk result (λ store. IsItsState M.loads M.next (F.told file).seen store.machine) }
        ensures durable { IfOk result (λ store.
            IsDurable M.loads M.next store.machine store.events.journal.gate (F.told store.events.journal.file)) }
        ensures none { IfOk result (λ store. events_of store.events.waiting ≡ []) }

        // A crash at any moment leaves what an earlier program may have left; where all was on the disk, the same state.
        ensures any_moment { IfOk result (λ store. KeepsRestarted M.loads M.next (F.told file) (F.told store.events.journal.file)) }
        ensures any_moment_err { IfErr result (λ refusal. KeepsRestarted M.loads M.next (F.told file) (F.told refusal.1)) }

        ensures refused { IfErr result (λ refusal. Refuses M.loads M.next (F.told file) (F.told refusal.1) refusal.0) }
    {
        match find(alloc, &mut SliceReading::new(bytes)) {
            Ok(found) => Durable::open_found(alloc, file, found),
            Err(fault) => Err((fault, file)),
        }
    }

    /// Opens a file in which this was found ([`find`](crate::find)), as [`Durable::open_read`] does. So a file is opened that isn't in
    /// memory.
    ///
    /// # Errors
    ///
    /// No memory, or the disk's.
    pub fn open_found(
        alloc: Global,
        mut file: F,
        found: Found<M>,
    ) -> Result<Durable<M, F>, (Fault, F)>
        requires restarted { IsRestarted M.loads M.next (F.told file) }
        requires found { IsFound M.loads M.next found.end found.last found.gate.items (F.told file).seen found.machine }

        ensures state { IfOk result (λ store. IsItsState M.loads M.next (F.told file).seen store.machine) }
        ensures durable { IfOk result (λ store.
            IsDurable M.loads M.next store.machine store.events.journal.gate (F.told store.events.journal.file)) }
        ensures none { IfOk result (λ store. events_of store.events.waiting ≡ []) }
        ensures any_moment { IfOk result (λ store. KeepsRestarted M.loads M.next (F.told file) (F.told store.events.journal.file)) }
        ensures any_moment_err { IfErr result (λ refusal. KeepsRestarted M.loads M.next (F.told file) (F.told refusal.1)) }
        ensures refused { IfErr result (λ refusal. Refuses M.loads M.next (F.told file) (F.told refusal.1) refusal.0) }
    {
        match repair(&mut file, found.end, found.last, &found.gate) {
            Ok(()) => Ok(Durable {
                machine: found.machine,
                events: InFile {
                    journal: Journal {
                        file,
                        gate: found.end,
                        sums: Sums::new(),
                    },
                    waiting: Batch::new(alloc),
                },
            }),
            Err(error) => Err((Fault::from(error), file)),
        }
    }

    /// Makes a file of a base, which stands for the machine, and an empty journal, in the place of what the file was. An `Err`
    /// hands the file back.
    ///
    /// # Errors
    ///
    /// No memory, no room, or the disk's.
    pub fn create(
        alloc: Global,
        machine: M,
        base: Vec<u8>,
        mut file: F,
    ) -> Result<Durable<M, F>, (FileError, F)>
        requires stands { M.loads base.items machine }

        ensures same { IfOk result (λ store. store.machine ≡ machine) }
        ensures durable { IfOk result (λ store.
            IsDurable M.loads M.next store.machine store.events.journal.gate (F.told store.events.journal.file)) }
        ensures none { IfOk result (λ store. events_of store.events.waiting ≡ []) }
        ensures in_base { IfOk result (λ store.
            IsInBase M.loads M.next store.machine store.events.journal.gate (F.told store.events.journal.file)) }

        // A crash at any moment leaves what it might have left before, or a file that stands for the machine.
        ensures any_moment { IfOk result (λ store. LeavesOnly (F.told file) (F.told store.events.journal.file)
            (IsOldOrStands M.loads M.next (F.told file) machine)) }
        ensures any_moment_err { IfErr result (λ failure. LeavesOnly (F.told file) (F.told failure.1)
            (IsOldOrStands M.loads M.next (F.told file) machine)) }

        // It doesn't give up by itself.
        ensures cause { IfErr result (λ failure. failure.0 ≡ Failed → (F.told file).faults < (F.told failure.1).faults) }
        ensures no_room { IfErr result (λ failure. failure.0 ≡ NoRoom → (F.told file).faults < (F.told failure.1).faults) }
    {
        match put_base::<M, F>(base, &mut file) {
            Ok(gate) => Ok(Durable {
                machine,
                events: InFile {
                    journal: Journal {
                        file,
                        gate,
                        sums: Sums::new(),
                    },
                    waiting: Batch::new(alloc),
                },
            }),
            Err(error) => Err((error, file)),
        }
    }
}
