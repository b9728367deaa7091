//! Why a file can't be read or written.

ghost use Rattle.std.specs.Prelude.{◌≡◌};
ghost use Rattle.command_files.specs.FileCause.{cause_words};

/// Why a file can't be read or written, as far as the system tells.
#[derive(Clone, Copy, Debug)]
pub enum FileCause {
    /// No file or folder has the name.
    NotFound,
    /// The user may not.
    PermissionDenied,
    /// What stands before a `/` of the name is no folder.
    NotADirectory,
    /// The name is a folder's.
    IsADirectory,
    /// Nothing can be written to the file system.
    ReadOnlyFilesystem,
    /// The file system, or what the user may have of it, is full.
    NoRoom,
    /// A new file that was to take its place can't be written beside it, for want of room or another cause.
    NoNewFile,
    /// The file would be larger than the file system takes, or than the user may have one.
    TooLarge,
    /// It has more bytes than so many times 2^20, the most that is read of such a file.
    LargerThan(u32),
    /// Standard input was read already.
    ReadBefore,
    /// Another command works on the file.
    InUse,
    /// A new file isn't made of this name, since a file with bytes has it.
    Exists,
    /// The name is that of a device, a pipe or a socket, or of another thing that holds no bytes.
    NotOrdinary,
    /// Another one, or none that is told.
    Other,
}

impl FileCause {
    /// What the user is told of the file: nothing of another cause, and of [`FileCause::LargerThan`], which has a number.
    pub fn words(self) -> &'static str
        ensures { result.now ≡ cause_words self }
    {
        match self {
            FileCause::NotFound => "no such file or folder",
            FileCause::PermissionDenied => "permission denied",
            FileCause::NotADirectory => "a part of its path is no folder",
            FileCause::IsADirectory => "it is a folder",
            FileCause::ReadOnlyFilesystem => "the file system is read-only",
            FileCause::NoRoom => "no room is left",
            FileCause::NoNewFile =>
                "no new file can be written beside it, as where no room is left",
            FileCause::TooLarge => "too large for the file system, or for a limit of the user",
            FileCause::ReadBefore => "standard input was read already",
            FileCause::InUse => "in use by another command",
            FileCause::Exists => "it has bytes already, and isn't replaced",
            FileCause::NotOrdinary => "not an ordinary file",
            FileCause::LargerThan(_) | FileCause::Other => "",
        }
    }
}
