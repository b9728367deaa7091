//! A file in memory, on a disk that tears.

ghost use Rattle.std.specs.Prelude.{◌≡◌, ◌<◌, ◌≤◌, ◌^◌, ℕ, List, length, take, IfOk};

use crate::change::Change;
use crate::choices::Choices;
use crate::left::left_by;
use crate::written::written;
use crate::{FileError, StoredFile};
use std::alloc::{AllocError, Global};

/// A file in memory, which keeps what it had at first and each change since. So it can tell what a crash might have
/// left at each moment: of what no sync followed any bytes, those from before, those written, or others.
#[derive(Drop)]
pub struct TearingFile {
    alloc: Global,
    first: Vec<u8>,
    changes: Vec<Change>,
    bytes: Vec<u8>,
    ghost has_length: { length bytes.items < 2 ^ 63 },
}

impl TearingFile {
    ghost use Rattle.stored_file.specs.Tearing.{told_of, IsUnchanged};

    /// A file of these bytes, all of them on the disk.
    ///
    /// # Errors
    ///
    /// No memory.
    pub fn new(alloc: Global, bytes: &[u8]) -> Result<Self, AllocError>
        ensures { IfOk result (λ file. IsUnchanged (told_of file) bytes.now) }
    {
        Ok(TearingFile {
            alloc,
            first: bytes.to_vec(alloc)?,
            changes: Vec::new(alloc),
            bytes: bytes.to_vec(alloc)?,
        })
    }

    /// What a read returns.
    pub fn bytes(&self) -> &[u8]
        ensures { result.now ≡ (told_of self.now).seen }
    {
        &self.bytes
    }

    /// The moment, in changes.
    pub fn moment(&self) -> usize
        ensures { result ≡ (told_of self.now).moment }
    {
        self.changes.len()
    }

    /// What a crash at a moment may leave; which of it, the seed chooses.
    ///
    /// # Errors
    ///
    /// No memory.
    pub fn crashed(&self, alloc: Global, moment: usize, seed: u64) -> Result<Vec<u8>, AllocError>
        requires { moment ≤ (told_of self.now).moment }
        ensures { IfOk result (λ bytes. (told_of self.now).left_since moment bytes.items) }
    {
        let mut choices = Choices::new(seed);
        let mut left = self.first.to_vec(alloc)?;
        for change in &self.changes[..moment] {
            left = left_by(alloc, &left, change, &mut choices)?;
        }
        Ok(left)
    }
}

impl StoredFile for TearingFile {
    ghost use Rattle.stored_file.specs.Tearing.{told_of};
    ghost use Rattle.stored_file.specs.Unsynced.{counts_at};

    ghost told = { told_of };

    ghost counts_now = { λ file t c early now. counts_at file.first.items file.changes.items t c early now };

    ghost has_length = { λ file. file.has_length };

    fn read(&mut self, alloc: Global) -> Result<Vec<u8>, FileError> {
        Ok(self.bytes.to_vec(alloc)?)
    }

    fn write_at(&mut self, at: usize, bytes: &[u8]) -> Result<(), FileError> {
        let next = written(self.alloc, &self.bytes, at, bytes)?;
        let bytes = bytes.to_vec(self.alloc)?;
        self.changes.push(Change::Written { at, bytes })?;
        self.bytes = next;
        Ok(())
    }

    fn renew(&mut self, at: usize, bytes: &[u8]) -> Result<(), FileError> {
        let bytes = bytes.to_vec(self.alloc)?;
        self.changes.push(Change::Renewed { at, bytes })?;
        Ok(())
    }

    fn set_len(&mut self, len: usize) -> Result<(), FileError> {
        self.changes.push(Change::Shortened(len))?;
        self.bytes.truncate(len);
        Ok(())
    }

    fn replace(&mut self, bytes: &[u8]) -> Result<(), FileError> {
        let next = bytes.to_vec(self.alloc)?;
        let settled = bytes.to_vec(self.alloc)?;
        self.changes.push(Change::Settled(settled))?;
        self.bytes = next;
        Ok(())
    }

    fn sync(&mut self) -> Result<(), FileError> {
        let settled = self.bytes.to_vec(self.alloc)?;
        self.changes.push(Change::Settled(settled))?;
        Ok(())
    }
}
