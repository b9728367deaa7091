//! The file.

ghost use Rattle.std.specs.Prelude.{◌≡◌, ◌∷◌, ◌++◌, ◌<◌, ◌^◌, ◌↔◌, ◌⊎◌, ℕ, List, [], false, true, length, IfSome, IsNone, IsTrue, OnOk, OnErr};
ghost use Rattle.stored_file.specs.File.{MayLeave};
ghost use Rattle.stored_file.specs.Calls.{Call, NotReplaced, Opened, Refused, Replaced, told_of};
ghost use Rattle.durable_device.specs.Kept.{IsRestarted, MayBeLeft};
ghost use Rattle.handed_file.specs.Handing.{IsThere, all_done, call_bytes, call_kind, call_place, done_call, each_is_there, handed, has_refused, is_want};
ghost use Rattle.handed_file.specs.Left.{each_is_long};
ghost use Rattle.handed_file.specs.declared.handed_file.FileCall.{FileCall};

use std::alloc::Global;
use std::collections::VecDeque;
use std::mem;
use stored_file::{FileError, Record, StoredFile};

/// The largest length of a file, in bytes (POSIX, `off_t`).
const MOST_BYTES: usize = (1 << 63) - 1;

/// A call that a host is to make for a file.
#[derive(Drop)]
pub enum FileCall {
    /// Bytes are written at an offset, over what is there and past the end.
    Write { at: usize, bytes: Vec<u8> },
    /// Bytes that were read at an offset are written there again.
    Renew { at: usize, bytes: Vec<u8> },
    /// The length is set.
    Shorten { len: usize },
    /// All that was written is brought to the disk.
    Sync,
    /// A new file of these bytes, which is on the disk before it has the name, takes the place of this one, and its name is brought to
    /// the disk.
    Replace { bytes: Vec<u8> },
    /// A new file of these bytes was to take the place of this one, and the host hadn't said that there is room. Nothing changes. There
    /// are none where memory is wanting for them.
    Want { bytes: Vec<u8> },
}

impl FileCall {
    /// Its number, by which hosts know which call it is; none has 0.
    pub fn kind(&self) -> usize
        ensures { result ≡ call_kind self.now }
    {
        match self {
            FileCall::Write { .. } | FileCall::Renew { .. } => 1,
            FileCall::Shorten { .. } => 2,
            FileCall::Sync => 3,
            FileCall::Replace { .. } => 4,
            FileCall::Want { .. } => 5,
        }
    }

    /// At which offset it writes, or to which length it sets the file; else 0.
    pub fn place(&self) -> usize
        ensures { result ≡ call_place self.now }
    {
        match self {
            FileCall::Write { at, .. } | FileCall::Renew { at, .. } => *at,
            FileCall::Shorten { len } => *len,
            FileCall::Sync | FileCall::Replace { .. } | FileCall::Want { .. } => 0,
        }
    }

    /// The bytes that are written by it, or are those of the new file that wants room.
    pub fn bytes(&self) -> &[u8]
        ensures { result.now ≡ call_bytes self.now }
    {
        match self {
            FileCall::Write { bytes, .. }
            | FileCall::Renew { bytes, .. }
            | FileCall::Replace { bytes }
            | FileCall::Want { bytes } => bytes.as_slice(),
            FileCall::Shorten { .. } | FileCall::Sync => &[],
        }
    }

    /// Does it say that a new file is wanted?
    pub fn is_want(&self) -> bool
        ensures { result ≡ is_want self.now }
    {
        match self {
            FileCall::Want { .. } => true,
            FileCall::Write { .. } => false,
            FileCall::Renew { .. } => false,
            FileCall::Shorten { .. } => false,
            FileCall::Sync => false,
            FileCall::Replace { .. } => false,
        }
    }

    /// Does a new file of these bytes take the place of the file by it?
    pub fn replaces_by(&self, new: &[u8]) -> bool
        ensures { IsTrue result → done_call self.now ≡ Replaced new.now true }
    {
        match self {
            FileCall::Replace { bytes } => bytes.as_slice() == new,
            FileCall::Write { .. } => false,
            FileCall::Renew { .. } => false,
            FileCall::Shorten { .. } => false,
            FileCall::Sync => false,
            FileCall::Want { .. } => false,
        }
    }
}

/// A file for which a host makes the calls, in order. Each is answered as done once it is handed over.
#[derive(Drop)]
pub struct HandedFile {
    alloc: Global,
    /// How many bytes the next new file may have, as the host said.
    room: usize,
    /// The calls that the host hasn't told as done.
    calls: VecDeque<FileCall>,
    /// Whether a call was refused.
    failed: bool,
    /// Each call, as it was answered.
    notes: Record,
    /// Each call that the host told as done.
    made: Record,
    ghost has_length: { length (told_of MayBeLeft notes.calls).seen < 2 ^ 63 },
    ghost told_failed: { failed ≡ has_refused notes.calls },
    /// What is written again is there.
    ghost there: { each_is_there notes.calls ≡ true },
    /// What a crash leaves is long enough for it.
    ghost long: { each_is_long notes.calls ≡ true },
    /// What was handed over is what was told as done, and behind it what wasn't yet.
    pub ghost in_order: { handed notes.calls ≡ all_done calls.items ++ made.calls },
}

impl HandedFile {
    ghost use Rattle.handed_file.specs.Handed.{is_settled, made_calls, noted, told, waiting, waits};

    /// A file that the host has opened, and brought to the disk as far as it can be, with the bytes that it has read. They stay the
    /// host's: whoever opens the file is given them beside it. There is no room for a new file until the host says so.
    pub fn new(alloc: Global, bytes: &[u8]) -> HandedFile
        ensures opened { noted result ≡ Opened bytes.now ∷ [] }
        ensures restarted { IsRestarted (told_of MayBeLeft (noted result)) }
        ensures known { IsRestarted (told result) }
        ensures settled { made_calls result ≡ noted result }
    {
        HandedFile {
            alloc,
            room: 0,
            calls: VecDeque::new(alloc),
            failed: false,
            notes: Record::opened(bytes),
            made: Record::opened(bytes),
        }
    }

    /// The host says that there is room for a new file of at most so many bytes, which is for the next one alone.
    pub fn grant(&mut self, room: usize)
        ensures noted { noted self.new ≡ noted self.old }
        ensures made { made_calls self.new ≡ made_calls self.old }
        ensures waiting { waiting self.new ≡ waiting self.old }
    {
        self.room = room;
    }

    /// The call that the host is to make next; `None` where it told all as done.
    pub fn next(&self) -> Option<&FileCall>
        ensures none { IsNone result ↔ (waiting self.now ≡ []) }
        ensures first { IfSome result (λ call. (rest : List FileCall) × (waiting self.now ≡ call.now ∷ rest)) }
        ensures there { IfSome result (λ call. IsThere call.now (told_of MayBeLeft (made_calls self.now)).seen) }
    {
        match self.calls.front() {
            Some(call) => Some(call),
            None => None,
        }
    }

    /// Was a call refused? Else each that was answered was handed over.
    pub fn has_failed(&self) -> bool
        ensures refused { result ≡ has_refused (noted self.now) }
        ensures order { result ≡ false → noted self.now ≡ all_done (waiting self.now) ++ made_calls self.now }
    {
        self.failed
    }

    /// A crash leaves some file. Nothing is done.
    pub fn leaves(&self)
        ensures { (c : List ℕ) × MayLeave (told self.now) c }
    {
        let _ = self.failed;
    }

    /// Has the host told each call as done, and was none refused?
    pub fn is_settled(&self) -> bool
        ensures settled { result ≡ is_settled self.now }
        ensures made { IsTrue result → (made_calls self.now ≡ noted self.now) }
    {
        self.next().is_none() && !self.failed
    }

    /// The host tells that it has made the next call, and that it is done.
    pub fn tell_done(&mut self)
        ensures same { noted self.new ≡ noted self.old }
        ensures told { (call : FileCall) (rest : List FileCall) → waiting self.old ≡ call ∷ rest
            → (waiting self.new ≡ rest) × (made_calls self.new ≡ done_call call ∷ made_calls self.old) }
    {
        match self.calls.pop_front() {
            Some(FileCall::Write { at, bytes }) => self.made.written(at, &bytes, true),
            Some(FileCall::Renew { at, bytes }) => self.made.renewed(at, &bytes, true),
            Some(FileCall::Shorten { len }) => self.made.shortened(len, true),
            Some(FileCall::Sync) => self.made.synced(true),
            Some(FileCall::Replace { bytes }) => self.made.replaced(&bytes, true),
            Some(FileCall::Want { bytes: _bytes }) => self.made.not_replaced(),
            None => {}
        }
    }

    /// Hands over a new file of these bytes, which takes the place of this one, whatever room there is.
    ///
    /// # Errors
    ///
    /// No memory, or a call was refused before: it isn't handed over.
    pub fn put(&mut self, bytes: Vec<u8>) -> Result<(), FileError>
        ensures handed { OnOk result (waits self.new ≡ waits self.old ++ Replaced bytes.items true ∷ []) }
        ensures refused { OnErr result (waits self.new ≡ waits self.old) }
        ensures made { made_calls self.new ≡ made_calls self.old }
    {
        if self.failed || bytes.len() > MOST_BYTES {
            return self.refuse(FileError::Failed);
        }
        self.hand(FileCall::Replace { bytes })
    }

    // ---- a new file that was wanted

    /// Takes the bytes out of the only call that waits, where that wants a new file of them.
    pub fn take_wanted(&mut self) -> Option<Vec<u8>>
        ensures wanted { IfSome result (λ bytes. waiting self.old ≡ FileCall.Want bytes ∷ []) }
        ensures waits { waits self.new ≡ waits self.old }
        ensures same { noted self.new ≡ noted self.old }
        ensures made { made_calls self.new ≡ made_calls self.old }
    {
        if self.calls.len() != 1 || !self.calls[0].is_want() {
            return None;
        }
        match self.calls.pop_front() {
            Some(FileCall::Want { bytes }) => {
                let bytes_left = Vec::new(self.alloc);
                self.calls
                    .push_back_reserved(FileCall::Want { bytes: bytes_left });
                Some(bytes)
            }
            _ => unreachable!(),
        }
    }

    /// Do just these calls wait: for a new file that was wanted, and for one of these bytes?
    pub fn is_replaced_by(&self, bytes: &[u8]) -> bool
        ensures { IsTrue result → waits self.now ≡ NotReplaced ∷ Replaced bytes.now true ∷ [] }
    {
        self.calls.len() == 2 && self.calls[0].is_want() && self.calls[1].replaces_by(bytes)
    }

    /// Is the next call for a new file that is wanted?
    pub fn is_wanted(&self) -> bool
        ensures { IsTrue result → (rest : List Call) × (waits self.now ≡ NotReplaced ∷ rest) }
    {
        match self.next() {
            Some(call) => call.is_want(),
            None => false,
        }
    }

    /// Hands a call over, and answers it as done.
    ///
    /// # Errors
    ///
    /// No memory: it isn't handed over.
    fn hand(&mut self, call: FileCall) -> Result<(), FileError>
        requires sized { length (told_of MayBeLeft (done_call call ∷ self.old.notes.calls)).seen < 2 ^ 63 }
        requires there { each_is_there (done_call call ∷ self.old.notes.calls) ≡ true }
        requires long { each_is_long (done_call call ∷ self.old.notes.calls) ≡ true }
        ensures handed { OnOk result (self.new.notes.calls ≡ done_call call ∷ self.old.notes.calls) }
        ensures waits { OnOk result (self.new.calls.items ≡ self.old.calls.items ++ call ∷ []) }
        ensures kept { OnErr result (self.new.calls.items ≡ self.old.calls.items) }
        ensures made { self.new.made.calls ≡ self.old.made.calls }
        ensures refused { OnErr result (self.new.notes.calls ≡ Refused ∷ self.old.notes.calls) }
        ensures memory { OnErr result (result ≡ Err FileError.Memory) }
    {
        if self.calls.push_back(call).is_err() {
            return self.refuse(FileError::Memory);
        }
        note(&mut self.notes, self.calls.back().unwrap());
        Ok(())
    }

    /// Hands over that a new file of these bytes wants room, for which nothing changes.
    ///
    /// # Errors
    ///
    /// No room; or no memory: it isn't handed over.
    fn want(&mut self, bytes: Vec<u8>) -> Result<(), FileError>
        ensures wanted { ((result ≡ Err FileError.NoRoom) × (self.new.notes.calls ≡ NotReplaced ∷ self.old.notes.calls))
            ⊎ ((result ≡ Err FileError.Memory) × (self.new.notes.calls ≡ Refused ∷ self.old.notes.calls)) }
        ensures made { self.new.made.calls ≡ self.old.made.calls }
    {
        self.hand(FileCall::Want { bytes })?;
        Err(FileError::NoRoom)
    }

    /// Answers a call without handing it over.
    fn refuse<T>(&mut self, error: FileError) -> Result<T, FileError>
        ensures refused { result ≡ Err error }
        ensures noted { self.new.notes.calls ≡ Refused ∷ self.old.notes.calls }
        ensures kept { self.new.calls.items ≡ self.old.calls.items }
        ensures made { self.new.made.calls ≡ self.old.made.calls }
    {
        self.notes.refused();
        self.failed = true;
        Err(error)
    }
}

/// Notes a call as done.
fn note(notes: &mut Record, call: &FileCall)
    ensures { notes.new.calls ≡ done_call call.now ∷ notes.old.calls }
{
    match call {
        FileCall::Write { at, bytes } => notes.written(*at, bytes, true),
        FileCall::Renew { at, bytes } => notes.renewed(*at, bytes, true),
        FileCall::Shorten { len } => notes.shortened(*len, true),
        FileCall::Sync => notes.synced(true),
        FileCall::Replace { bytes } => notes.replaced(bytes, true),
        FileCall::Want { .. } => notes.not_replaced(),
    }
}

impl StoredFile for HandedFile {
    ghost use Rattle.stored_file.specs.Calls.{counts_behind};
    ghost use Rattle.handed_file.specs.Handed.{told};

    ghost told = { told };

    ghost counts_now = { λ file t c early now. counts_behind MayBeLeft file.notes.calls t c early now };

    ghost has_length = { λ file. file.has_length };

    /// It isn't read: the host has done that.
    fn read(&mut self, _alloc: Global) -> Result<Vec<u8>, FileError> {
        self.refuse(FileError::Failed)
    }

    fn write_at(&mut self, at: usize, bytes: &[u8]) -> Result<(), FileError> {
        if self.failed || bytes.len() > MOST_BYTES - at {
            return self.refuse(FileError::Failed);
        }
        match Vec::from_slice(self.alloc, bytes) {
            Ok(bytes) => self.hand(FileCall::Write { at, bytes }),
            Err(_) => self.refuse(FileError::Memory),
        }
    }

    fn renew(&mut self, at: usize, bytes: &[u8]) -> Result<(), FileError> {
        if self.failed {
            return self.refuse(FileError::Failed);
        }
        match Vec::from_slice(self.alloc, bytes) {
            Ok(bytes) => self.hand(FileCall::Renew { at, bytes }),
            Err(_) => self.refuse(FileError::Memory),
        }
    }

    fn set_len(&mut self, len: usize) -> Result<(), FileError> {
        if self.failed {
            return self.refuse(FileError::Failed);
        }
        self.hand(FileCall::Shorten { len })
    }

    fn replace(&mut self, bytes: &[u8]) -> Result<(), FileError> {
        if self.failed || bytes.len() > MOST_BYTES {
            return self.refuse(FileError::Failed);
        }
        let room = mem::replace(&mut self.room, 0);
        let Ok(bytes) = Vec::from_slice(self.alloc, bytes) else {
            // The old file is used on.
            return self.want(Vec::new(self.alloc));
        };
        if bytes.len() > room {
            return self.want(bytes);
        }
        self.hand(FileCall::Replace { bytes })
    }

    fn sync(&mut self) -> Result<(), FileError> {
        if self.failed {
            return self.refuse(FileError::Failed);
        }
        self.hand(FileCall::Sync)
    }
}
