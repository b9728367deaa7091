//! The notes of what is done for new files, for clauses alone. They take no memory, and noting does nothing when it runs.

ghost use Rattle.std.specs.Prelude.{◌≡◌, ℕ, List, [], ◌∷◌, ◌++◌};
ghost use Rattle.std.specs.Borrow.{ftrue};
ghost use Rattle.placed_file.specs.Placing.{Attempt};

use crate::progress::Progress;
use std::marker::Model;

/// The bytes that were written to a new file, as clauses see them.
#[derive(Drop)]
pub struct Written {
    pub ghost bytes: { List ℕ },
}

impl Model for Written {
    ghost also_owns = { λ _. ftrue };
}

impl Written {
    /// None yet.
    pub fn new() -> Written
        ensures { result.bytes ≡ [] }
    {
        Written {}
    }

    /// These were, behind the others.
    pub fn add(&mut self, bytes: &[u8])
        ensures { self.new.bytes ≡ self.old.bytes ++ bytes.now }
    {}
}

/// Each file that was to be given a name, as clauses see it.
#[derive(Drop)]
pub struct Attempts {
    /// The last of them stands first.
    pub ghost attempts: { List Attempt },
}

impl Model for Attempts {
    ghost also_owns = { λ _. ftrue };
}

impl Attempts {
    /// None yet.
    pub fn new() -> Attempts
        ensures { result.attempts ≡ [] }
    {
        Attempts {}
    }

    /// A file that was written was to be given a name: what was done for it, and whether it was told as done.
    pub fn add(&mut self, path: &[u8], file: &Written, progress: &Progress, done: bool)
        ensures { self.new.attempts
            ≡ record { path = path.now; bytes = file.now.bytes; progress = progress.now; done = done } ∷ self.old.attempts }
    {}
}
