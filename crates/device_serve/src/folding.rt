//! When the journal of a device is folded.

ghost use Rattle.std.specs.Prelude.{◌≡◌, ◌<◌, ◌≤◌, ◌-◌, ◌⊎◌, IfOk, IsSome, None, Ok, OnOk, Some};
ghost use Rattle.stored_file.specs.File.{LeavesOnly};
ghost use Rattle.stored_file.specs.Cause.{HasCause};
ghost use Rattle.durable_device.specs.Kept.{StandsFor};
ghost use Rattle.durable_device.specs.declared.durable_device.Folding.TheVariants.{Done, NoRoom};

use crate::kept::KeptDevice;
use durable_device::{Folding, Folds, MOST_JOURNAL};
use std::alloc::Global;
use stored_file::FileError;

impl<S: Folds + Drop> KeptDevice<S> {
    /// Folds the journal, however short it is.
    ///
    /// # Errors
    ///
    /// The disk's, or no memory to hand the file over: then the file has to be opened again.
    pub fn fold(&mut self, alloc: Global) -> Result<Folding, FileError>
        requires settled { S.settled self.old.device.value (S.disk self.old.events) }
        ensures unchanged { self.new.device.value ≡ self.old.device.value }
        ensures same { S.waits self.new.events ≡ S.waits self.old.events }
        ensures counted { OnOk result (self.new.folded ≡ S.length (S.disk self.new.events)) }
        ensures told { IfOk result (λ folding. self.new.last_fold ≡ folding) }
        ensures settled { OnOk result (S.settled self.new.device.value (S.disk self.new.events)) }
        ensures in_base { IfOk result (λ folding. folding ≡ Done → S.in_base self.new.device.value (S.disk self.new.events)) }
        ensures any_moment { LeavesOnly (S.told (S.disk self.old.events)) (S.told (S.disk self.new.events))
            (λ c. StandsFor c self.old.device.value) }
        ensures cause { HasCause (S.told (S.disk self.old.events)) (S.told (S.disk self.new.events)) result }
        ensures no_room { IfOk result (λ folding. folding ≡ NoRoom
            → (S.told (S.disk self.old.events)).faults < (S.told (S.disk self.new.events)).faults) }
    {
        let folding = self.events.fold(alloc, &self.device)?;
        self.folded = self.events.length();
        self.last_fold = folding;
        Ok(folding)
    }

    /// Folds the journal where its file has grown by more than [`MOST_JOURNAL`] since it was made, opened or to be folded last, and gives
    /// what came of that; else nothing happens, and there is `None`. Without room or memory for the new file, the growth counts from now
    /// on.
    ///
    /// # Errors
    ///
    /// The disk's, or no memory to hand the file over: then the file has to be opened again.
    pub fn fold_when_due(&mut self, alloc: Global) -> Result<Option<Folding>, FileError>
        requires settled { S.settled self.old.device.value (S.disk self.old.events) }
        ensures unchanged { self.new.device.value ≡ self.old.device.value }
        ensures same { S.waits self.new.events ≡ S.waits self.old.events }
        ensures idle { S.length (S.disk self.old.events) - self.old.folded ≤ MOST_JOURNAL → (self.new ≡ self.old) × (result ≡ Ok None) }
        ensures due { MOST_JOURNAL < S.length (S.disk self.old.events) - self.old.folded → IfOk result (λ folding. IsSome folding)
            × OnOk result (self.new.folded ≡ S.length (S.disk self.new.events)) }
        ensures settled { OnOk result (S.settled self.new.device.value (S.disk self.new.events)) }
        ensures told { IfOk result (λ folding.
            folding ≡ Some self.new.last_fold ⊎ (folding ≡ None) × (self.new.last_fold ≡ self.old.last_fold)) }
        ensures in_base { IfOk result (λ folding. folding ≡ Some Done → S.in_base self.new.device.value (S.disk self.new.events)) }
        ensures any_moment { LeavesOnly (S.told (S.disk self.old.events)) (S.told (S.disk self.new.events))
            (λ c. StandsFor c self.old.device.value) }
        ensures cause { HasCause (S.told (S.disk self.old.events)) (S.told (S.disk self.new.events)) result }
        ensures no_room { IfOk result (λ folding. folding ≡ Some NoRoom
            → (S.told (S.disk self.old.events)).faults < (S.told (S.disk self.new.events)).faults) }
    {
        // Brings in that a crash leaves what is committed.
        S::rests();
        if self.events.length().saturating_sub(self.folded) <= MOST_JOURNAL {
            return Ok(None);
        }
        match self.fold(alloc) {
            Ok(folding) => Ok(Some(folding)),
            Err(error) => Err(error),
        }
    }
}
