//! Where names lead to bytes.

ghost use Rattle.std.specs.Prelude.{◌≡◌, ◌≤◌, ◌*◌, ◌^◌, ℕ, List, [], IfErr, IfOk, IfSome, OnOk, OnErr, Option, None, Some, length, take};
ghost use Rattle.std.specs.IoError.{error_kind};
ghost use Rattle.placed_file.specs.Placing.{Attempt};
ghost use Rattle.command_files.specs.Crash.{AreWritten, LeavesOldOrNew, LeavesOthers};
ghost use Rattle.command_files.specs.Made.{AreAsTold, HasReplaced, KeepsModes, Made, then_made};
ghost use Rattle.command_files.specs.UserTold.{IsPast, told_of_file};
ghost use Rattle.command_files.specs.declared.files.FileFault.TheVariants.{Memory};

use crate::file_cause::FileCause;
use image_text::{Sink, Source};
use std::alloc::AllocError;
use std::io::{self, ErrorKind};
use thiserror::Error;

/// Why a file wasn't read or written.
#[derive(Clone, Copy, Debug, Error)]
pub enum FileFault {
    /// A call of the system for it failed.
    #[error("the file fails")]
    Failed(FileCause),
    /// Memory is wanting.
    #[error("no memory")]
    Memory,
}

/// How many bytes a mebibyte has.
pub(crate) const MEBIBYTE: usize = 1_048_576;

/// Where names lead to bytes.
pub trait Files {
    /// A file that is read in pieces.
    type Reader: Source + Drop;

    /// A file that is written in pieces.
    type Writer: Sink + Drop;

    /// The files that were made, in order, or `None` where it doesn't tell.
    ghost made: { Self → Option (List Made) };

    /// Each file that was to be given a name, of which the last stands first, with what was done for it.
    ghost tried: { Self → List Attempt };

    /// The bytes of the file of each name, or `None` where it doesn't tell them.
    ghost contents: { Self → List ℕ → Option (List ℕ) } = { λ _ _. None };

    /// The permission bits of the file of each name, or `None` where it doesn't tell them.
    ghost modes: { Self → List ℕ → Option ℕ } = { λ _ _. None };

    /// The name that is held, if one is.
    ghost held: { Self → Option (List ℕ) };

    /// All bytes of a file, of which it has at most so many times 2^20. The name `-` is that of standard input, which is read once.
    ///
    /// # Errors
    ///
    /// It can't be read, it has more bytes ([`FileCause::LargerThan`]), standard input was read already ([`FileCause::ReadBefore`]), or
    /// there is no memory for its bytes.
    fn read(&mut self, path: &str, mebibytes: u32) -> Result<Vec<u8>, FileFault>
        ensures made { made self.new ≡ made self.old }
        ensures tried { tried self.new ≡ tried self.old }
        ensures contents { contents self.new ≡ contents self.old }
        ensures modes { modes self.new ≡ modes self.old }
        ensures held { held self.new ≡ held self.old }
        ensures bytes { IfOk result (λ file. AreAsTold (contents self.old path.now) file.items) }
        ensures within { IfOk result (λ file. length file.items ≤ mebibytes * 2 ^ 20) }
        ensures larger { IfErr result (IsPast (contents self.old path.now) mebibytes) };

    /// Makes a file of these bytes, in place of the one with this name, whose permissions it keeps, or makes none.
    /// Where files tell their bytes, it has just these then, and each other what it had; where this fails, each has.
    ///
    /// # Errors
    ///
    /// It can't be written, or another command holds it ([`FileCause::InUse`]). It isn't told as made then. A file of the system is as it
    /// was, unless none can be put in its place, as in a folder that takes no new file: a beginning of the bytes may stand there then.
    fn write(&mut self, path: &str, bytes: &[u8]) -> Result<(), FileFault>
        ensures made { OnOk result (made self.new ≡ then_made (made self.old) path.now bytes.now) }
        ensures kept { OnErr result (made self.new ≡ made self.old) }
        ensures crash { LeavesOthers path.now (tried self.old) (tried self.new) }
        ensures replaced { OnOk result (HasReplaced path.now bytes.now (contents self.old) (contents self.new)) }
        ensures contents { OnErr result (contents self.new ≡ contents self.old) }
        ensures modes { OnOk result (KeepsModes (modes self.old) (modes self.new)) }
        ensures modes_left { OnErr result (modes self.new ≡ modes self.old) }
        ensures held { held self.new ≡ held self.old };

    /// A file, from its first byte on.
    ///
    /// # Errors
    ///
    /// It can't be opened, or memory is wanting.
    fn open(&mut self, path: &str) -> Result<Self::Reader, FileFault>
        ensures made { made self.new ≡ made self.old }
        ensures tried { tried self.new ≡ tried self.old }
        ensures contents { contents self.new ≡ contents self.old }
        ensures modes { modes self.new ≡ modes self.old }
        ensures held { held self.new ≡ held self.old }
        ensures healthy { IfOk result (λ file. Self.Reader.failures file ≡ 0) }
        ensures bytes { Self.Reader.tells → IfOk result (λ file. AreAsTold (contents self.old path.now) (Self.Reader.rest file)) };

    /// Holds a name, whether or not a file has it: no other command replaces the file that the name leads to, until this one
    /// fails to finish a new file, holds another name or ends.
    ///
    /// # Errors
    ///
    /// Another command holds the file ([`FileCause::InUse`]), it is no ordinary one ([`FileCause::NotOrdinary`]), or it can't be
    /// opened.
    fn hold(&mut self, path: &str) -> Result<(), FileFault>
        ensures made { made self.new ≡ made self.old }
        ensures tried { tried self.new ≡ tried self.old }
        ensures contents { contents self.new ≡ contents self.old }
        ensures modes { modes self.new ≡ modes self.old }
        ensures held { OnOk result (held self.new ≡ Some path.now) };

    /// The first bytes of the file whose name is held, as many as it has and at most so many; none where no file has the name.
    ///
    /// # Errors
    ///
    /// It can't be read, or memory is wanting.
    fn first_bytes(&mut self, path: &str, most: usize) -> Result<Vec<u8>, FileFault>
        requires { held self.old ≡ Some path.now }
        ensures made { made self.new ≡ made self.old }
        ensures tried { tried self.new ≡ tried self.old }
        ensures contents { contents self.new ≡ contents self.old }
        ensures modes { modes self.new ≡ modes self.old }
        ensures held { held self.new ≡ held self.old }
        ensures bytes { IfOk result (λ first. IfSome (contents self.old path.now) (λ bytes. first.items ≡ take most bytes)) };

    /// The file whose name is held, from its first byte on.
    ///
    /// # Errors
    ///
    /// No file has the name, it can't be read, or memory is wanting.
    fn open_held(&mut self, path: &str) -> Result<Self::Reader, FileFault>
        requires { held self.old ≡ Some path.now }
        ensures made { made self.new ≡ made self.old }
        ensures tried { tried self.new ≡ tried self.old }
        ensures contents { contents self.new ≡ contents self.old }
        ensures modes { modes self.new ≡ modes self.old }
        ensures held { held self.new ≡ held self.old }
        ensures healthy { IfOk result (λ file. Self.Reader.failures file ≡ 0) }
        ensures bytes { Self.Reader.tells → IfOk result (λ file. AreAsTold (contents self.old path.now) (Self.Reader.rest file)) };

    /// A file of no bytes yet, which is this command's alone. It has the name that is held once it is finished: the file with
    /// this name is as it was until then.
    ///
    /// # Errors
    ///
    /// It can't be begun, or memory is wanting.
    fn begin(&mut self, path: &str) -> Result<Self::Writer, FileFault>
        requires { held self.old ≡ Some path.now }
        ensures made { made self.new ≡ made self.old }
        ensures tried { tried self.new ≡ tried self.old }
        ensures contents { contents self.new ≡ contents self.old }
        ensures modes { modes self.new ≡ modes self.old }
        ensures held { held self.new ≡ held self.old }
        ensures healthy { IfOk result (λ file. Self.Writer.failures file ≡ 0) }
        ensures empty { Self.Writer.tells → IfOk result (λ file. Self.Writer.taken file ≡ []) };

    /// Gives a file that was begun the name that is held, in place of the file with this name, whose permissions it has
    /// then. Where files tell their bytes, it has just those that were written, and each other what it had; where this
    /// fails, each has. The name is held still, and the new file with it.
    ///
    /// # Errors
    ///
    /// It can't be finished, and is forgotten then: the file with this name is as it was, unless
    /// the new one has its name and only its folder couldn't be brought to the disk. No name is held then.
    fn finish(&mut self, path: &str, file: Self::Writer) -> Result<(), FileFault>
        requires { held self.old ≡ Some path.now }
        ensures made { OnOk result (made self.new ≡ then_made (made self.old) path.now (Self.Writer.taken file)) }
        ensures kept { OnErr result (made self.new ≡ made self.old) }
        ensures crash { LeavesOldOrNew path.now (AreWritten Self.Writer.tells (Self.Writer.taken file)) (tried self.old) (tried self.new) }
        ensures replaced { OnOk result (HasReplaced path.now (Self.Writer.taken file) (contents self.old) (contents self.new)) }
        ensures contents { OnErr result (contents self.new ≡ contents self.old) }
        ensures modes { OnOk result (KeepsModes (modes self.old) (modes self.new)) }
        ensures modes_left { OnErr result (modes self.new ≡ modes self.old) }
        ensures held { OnOk result (held self.new ≡ held self.old) }
        ensures released { OnErr result (held self.new ≡ None) };

    /// Forgets a file that was begun. Gives why a write to it failed, as far as that is known.
    fn discard(&mut self, file: Self::Writer) -> FileCause
        ensures made { made self.new ≡ made self.old }
        ensures tried { tried self.new ≡ tried self.old }
        ensures contents { contents self.new ≡ contents self.old }
        ensures modes { modes self.new ≡ modes self.old }
        ensures held { held self.new ≡ held self.old };
}

impl From<io::Error> for FileFault {
    /// Why a file fails, as the system tells it: that memory is wanting, a cause that a user is told of, or another
    /// one.
    ghost from_gives = { λ error fault. fault ≡ told_of_file (error_kind error) };

    fn from(error: io::Error) -> FileFault {
        match error.kind() {
            ErrorKind::OutOfMemory => FileFault::Memory,
            ErrorKind::NotFound => FileFault::Failed(FileCause::NotFound),
            ErrorKind::PermissionDenied => FileFault::Failed(FileCause::PermissionDenied),
            ErrorKind::NotADirectory => FileFault::Failed(FileCause::NotADirectory),
            ErrorKind::IsADirectory => FileFault::Failed(FileCause::IsADirectory),
            ErrorKind::ReadOnlyFilesystem => FileFault::Failed(FileCause::ReadOnlyFilesystem),
            ErrorKind::StorageFull | ErrorKind::QuotaExceeded => {
                FileFault::Failed(FileCause::NoRoom)
            }
            ErrorKind::FileTooLarge => FileFault::Failed(FileCause::TooLarge),
            _ => FileFault::Failed(FileCause::Other),
        }
    }
}

impl From<AllocError> for FileFault {
    ghost from_gives = { λ _ fault. fault ≡ Memory };

    fn from(_error: AllocError) -> FileFault {
        FileFault::Memory
    }
}
