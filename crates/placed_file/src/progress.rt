//! What was done for a new file.

ghost use Rattle.std.specs.Prelude.{◌≡◌};

/// How far a new file that is written has come on its way to a name.
#[derive(Clone, Copy, Debug, PartialEq, Eq)]
pub struct Progress {
    /// Its bytes are on the disk.
    pub synced: bool,
    /// It was to be given the name.
    pub tried: bool,
    /// It has the name.
    pub named: bool,
    /// It was to be given the name before its bytes were on the disk.
    pub early: bool,
    /// The name is on the disk.
    pub settled: bool,
}

impl Progress {
    ghost use Rattle.placed_file.specs.Placing.{begun, after_sync, after_rename, after_settling};

    /// Nothing was done for it but that it was written.
    pub const fn begun() -> Self
        ensures { result ≡ begun }
    {
        Progress {
            synced: false,
            tried: false,
            named: false,
            early: false,
            settled: false,
        }
    }

    /// Notes that it was to be brought to the disk, and whether that is done.
    pub fn note_sync(&mut self, done: bool)
        ensures { self.new ≡ after_sync done self.old }
    {
        self.synced = self.synced || done;
    }

    /// Notes that it was to be given the name, and whether that is done.
    pub fn note_rename(&mut self, done: bool)
        ensures { self.new ≡ after_rename done self.old }
    {
        self.tried = true;
        self.named = self.named || done;
        self.early = self.early || !self.synced;
    }

    /// Notes that the name was to be brought to the disk, and whether that is done.
    pub fn note_settling(&mut self, done: bool)
        ensures { self.new ≡ after_settling done self.old }
    {
        self.settled = self.settled || (self.named && done);
    }
}
