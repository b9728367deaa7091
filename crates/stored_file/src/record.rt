//! The notes of calls, for clauses alone. They take no memory, and noting does nothing when it runs.

ghost use Rattle.std.specs.Prelude.{◌≡◌, List, [], ◌∷◌};
ghost use Rattle.std.specs.Borrow.{ftrue};
ghost use Rattle.stored_file.specs.Calls.{Call, Opened, Written, Renewed, Shortened, Synced, Replaced, NotReplaced, Refused, read_further};

use std::marker::Model;

/// Each call that was made for a file, with its answer, as clauses see it.
#[derive(Drop)]
pub struct Record {
    /// The last of them stands first.
    pub ghost calls: { List Call },
}

impl Model for Record {
    ghost also_owns = { λ _. ftrue };
}

impl Record {
    /// A file was opened, and these bytes were read.
    pub fn opened(bytes: &[u8]) -> Record
        ensures { result.calls ≡ Opened bytes.now ∷ [] }
    {
        let mut record = Record::new();
        record.note(bytes, 0, true);
        record
    }

    /// Further bytes were read of a file for which no other call was made.
    pub fn read_on(&mut self, bytes: &[u8])
        ensures { self.new.calls ≡ read_further bytes.now self.old.calls }
    {
        self.note(bytes, 0, true);
    }

    /// Bytes were written at an offset.
    pub fn written(&mut self, at: usize, bytes: &[u8], done: bool)
        ensures { self.new.calls ≡ Written at bytes.now done ∷ self.old.calls }
    {
        self.note(bytes, at, done);
    }

    /// Bytes that are there were written again.
    pub fn renewed(&mut self, offset: usize, bytes: &[u8], done: bool)
        ensures { self.new.calls ≡ Renewed offset bytes.now done ∷ self.old.calls }
    {
        self.note(bytes, offset, done);
    }

    /// The length was set.
    pub fn shortened(&mut self, len: usize, done: bool)
        ensures { self.new.calls ≡ Shortened len done ∷ self.old.calls }
    {
        self.note(&[], len, done);
    }

    /// What was written was brought to the disk.
    pub fn synced(&mut self, done: bool)
        ensures { self.new.calls ≡ Synced done ∷ self.old.calls }
    {
        self.note(&[], 0, done);
    }

    /// A new file of these bytes took the file's place.
    pub fn replaced(&mut self, bytes: &[u8], done: bool)
        ensures { self.new.calls ≡ Replaced bytes.now done ∷ self.old.calls }
    {
        self.note(bytes, 0, done);
    }

    /// There was no room for a new file, and nothing has changed.
    pub fn not_replaced(&mut self)
        ensures { self.new.calls ≡ NotReplaced ∷ self.old.calls }
    {
        self.note(&[], 0, false);
    }

    /// A call wasn't made.
    pub fn refused(&mut self)
        ensures { self.new.calls ≡ Refused ∷ self.old.calls }
    {
        self.note(&[], 0, false);
    }

    fn new() -> Record
        ensures { result.calls ≡ [] }
    {
        Record {}
    }

    /// Notes the calls that its caller picks.
    fn note(&mut self, _bytes: &[u8], _number: usize, _done: bool)
        ghost picked: { List Call }
        ensures { self.new.calls ≡ picked }
    {}
}
