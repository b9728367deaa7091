//! The file.

ghost use Rattle.std.specs.Prelude.{◌≡◌, ◌<◌, ◌≤◌, ◌^◌, false, true, List, ℕ, [], ◌∷◌, length};
ghost use Rattle.std.specs.Option.{ForSome};
ghost use Rattle.stored_file.specs.File.{LeavesNow};
ghost use Rattle.stored_file.specs.Calls.{IsOnlyRead, Opened, Refused, ends_where_it_fails, has_failed, told_of};

use crate::{FileCalls, FileError, StoredFile};
use std::alloc::Global;

/// The largest length of a file, in bytes (POSIX, `off_t`).
const MOST_BYTES: usize = (1 << 63) - 1;

/// A file of the system, over the calls that are made for it. A call that fails ends its use: from then on none is made, and each
/// is answered by [`FileError::Failed`]. That there is no room for a new file is no such failure.
#[derive(Drop)]
pub struct SystemFile<C: FileCalls> {
    calls: C,
    /// What was read as it was opened, until that is handed out or the file changes.
    unread: Option<Vec<u8>>,
    /// Whether a call has failed.
    failed: bool,
    ghost known: { ForSome unread (λ bytes. bytes.items ≡ (told_of C.FileCalls.left (C.FileCalls.notes calls)).seen) },
    ghost has_length: { length (told_of C.FileCalls.left (C.FileCalls.notes calls)).seen < 2 ^ 63 },
    ghost told_failed: { failed ≡ has_failed (C.FileCalls.notes calls) },
    /// No call was made after one that failed.
    pub ghost ended: { ends_where_it_fails (C.FileCalls.notes calls) ≡ true },
}

impl<C: FileCalls> SystemFile<C> {
    /// A file that was opened, with the bytes that were read.
    pub fn new(calls: C, bytes: Vec<u8>) -> SystemFile<C>
        requires { C.notes calls ≡ Opened bytes.items ∷ [] }
        ensures left { let file = ⟦<SystemFile<C> as StoredFile>⟧.told result in LeavesNow file (C.left file.seen) }
        ensures seen { (⟦<SystemFile<C> as StoredFile>⟧.told result).seen ≡ bytes.items }
    {
        SystemFile {
            calls,
            unread: Some(bytes),
            failed: false,
        }
    }

    /// A file that was opened, and all of which was read. Its bytes aren't in memory, so none are handed out.
    pub fn opened(calls: C) -> SystemFile<C>
        requires { (bytes : List ℕ) × IsOnlyRead bytes (C.notes calls) }
        ensures left { let file = ⟦<SystemFile<C> as StoredFile>⟧.told result in LeavesNow file (C.left file.seen) }
        ensures seen { C.notes calls ≡ Opened (⟦<SystemFile<C> as StoredFile>⟧.told result).seen ∷ [] }
    {
        SystemFile {
            calls,
            unread: None,
            failed: false,
        }
    }

    /// Answers a call without making it.
    fn refuse<T>(&mut self) -> Result<T, FileError>
        ensures refused { result ≡ Err FileError.Failed }
        ensures noted { C.notes self.new.calls ≡ Refused ∷ C.notes self.old.calls }
    {
        self.calls.refuse();
        Err(FileError::Failed)
    }
}

impl<C: FileCalls> StoredFile for SystemFile<C> {
    ghost use Rattle.stored_file.specs.Calls.{counts_behind};

    ghost told = { λ file. told_of C.left (C.notes file.calls) };

    ghost counts_now = { λ file t c early now. counts_behind C.left (C.notes file.calls) t c early now };

    ghost has_length = { λ file. file.has_length };

    /// Hands out what was read as the file was opened, once and before the file changes: nothing tells that it would be read again.
    fn read(&mut self, _alloc: Global) -> Result<Vec<u8>, FileError> {
        match self.unread.take() {
            Some(bytes) => Ok(bytes),
            None => self.refuse(),
        }
    }

    fn write_at(&mut self, at: usize, bytes: &[u8]) -> Result<(), FileError> {
        if self.failed || bytes.len() > MOST_BYTES - at {
            return self.refuse();
        }
        self.unread = None;
        let done = self.calls.write_at(at, bytes);
        self.failed = done.is_err();
        done
    }

    fn renew(&mut self, at: usize, bytes: &[u8]) -> Result<(), FileError> {
        if self.failed {
            return self.refuse();
        }
        self.unread = None;
        let done = self.calls.renew(at, bytes);
        self.failed = done.is_err();
        done
    }

    fn set_len(&mut self, len: usize) -> Result<(), FileError> {
        if self.failed {
            return self.refuse();
        }
        self.unread = None;
        let done = self.calls.set_len(len);
        self.failed = done.is_err();
        done
    }

    fn replace(&mut self, bytes: &[u8]) -> Result<(), FileError> {
        if self.failed || bytes.len() > MOST_BYTES {
            return self.refuse();
        }
        self.unread = None;
        match self.calls.replace(bytes) {
            Ok(()) => Ok(()),
            // The old file is as it was, and is used on.
            Err(FileError::NoRoom) => Err(FileError::NoRoom),
            Err(FileError::Memory) => {
                self.failed = true;
                Err(FileError::Memory)
            }
            Err(FileError::Failed) => {
                self.failed = true;
                Err(FileError::Failed)
            }
        }
    }

    fn sync(&mut self) -> Result<(), FileError> {
        if self.failed {
            return self.refuse();
        }
        let done = self.calls.sync();
        self.failed = done.is_err();
        done
    }
}
