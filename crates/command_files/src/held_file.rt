//! Holding a file of the system: an exclusive lock on it, which outlives its name.

ghost use Rattle.std.specs.Prelude.{◌≡◌, bit_and};
ghost use Rattle.std.specs.Fs.{metadata_mode, permissions_mode};

use crate::file_cause::FileCause;
use crate::files::FileFault;
use std::fs::{File, Metadata, OpenOptions, Permissions, TryLockError};
use std::io::{self, ErrorKind, Seek};
use std::os::unix::fs::{MetadataExt, OpenOptionsExt, PermissionsExt, fchown};
use std::path::Path;
use std::{fs, rt};

/// How many links one behind another a name may lead through, and how often a name that leads elsewhere meanwhile is looked up
/// again.
const MOST_TRIES: u32 = 40;

/// The bits of a mode that say who may read, write and run a file.
const PERMISSION_BITS: u32 = 0o7777;

/// An ordinary file that this command holds, under an exclusive lock until this is dropped.
#[derive(Drop)]
pub(crate) struct HeldFile {
    file: File,
    metadata: Metadata,
}

impl HeldFile {
    /// Holds the file that a name leads to, or says that none is there.
    ///
    /// # Errors
    ///
    /// It is no ordinary file, another command holds it, or it can't be opened.
    pub(crate) fn of<R: rt::Files<File = File>>(
        rt: &R,
        name: &str,
    ) -> Result<Option<HeldFile>, FileFault> {
        for _attempt in 0..MOST_TRIES {
            match Attempt::at(rt, name)? {
                Attempt::Held(held) => return Ok(Some(held)),
                Attempt::NoFile => return Ok(None),
                Attempt::Moved => {}
            }
        }
        Err(FileFault::Failed(FileCause::InUse))
    }

    /// A new file of no bytes, which this command holds from the first on; `None` where a file with this name stands there, if
    /// only for a moment.
    ///
    /// # Errors
    ///
    /// It can't be made.
    pub(crate) fn create<R: rt::Files<File = File>>(
        rt: &R,
        name: &str,
        mode: u32,
    ) -> Result<Option<HeldFile>, FileFault> {
        match OpenOptions::new()
            .read(true)
            .write(true)
            .create_new(true)
            .mode(mode)
            .open(rt, name)
        {
            // Who removes what a killed command left may have found this file before its lock.
            Ok(file) => match Attempt::on(rt, name, file) {
                Ok(Attempt::Held(held)) => Ok(Some(held)),
                Ok(_) | Err(FileFault::Failed(FileCause::InUse)) => Ok(None),
                Err(fault) => Err(fault),
            },
            Err(error) if error.kind() == ErrorKind::AlreadyExists => Ok(None),
            Err(error) => Err(error.into()),
        }
    }

    /// The same where a killed command may have left a file with this name, which is removed then.
    ///
    /// # Errors
    ///
    /// It can't be made, or the file that stands there can't be removed.
    pub(crate) fn create_anew<R: rt::Files<File = File>>(
        rt: &R,
        name: &str,
        mode: u32,
    ) -> Result<Option<HeldFile>, FileFault> {
        if let Some(created) = HeldFile::create(rt, name, mode)? {
            return Ok(Some(created));
        }
        match HeldFile::of(rt, name) {
            Ok(left) => {
                // It is held by this command alone while it is removed.
                if left.is_some() {
                    fs::remove_file(rt, name)?;
                }
                HeldFile::create(rt, name, mode)
            }
            Err(FileFault::Failed(FileCause::InUse | FileCause::NotOrdinary)) => Ok(None),
            Err(fault) => Err(fault),
        }
    }

    /// The open file, which shares its place with each other handle that this gives.
    ///
    /// # Errors
    ///
    /// Those of the system.
    pub(crate) fn handle(&self) -> io::Result<File> {
        self.file.try_clone()
    }

    /// The same at the file's first byte.
    ///
    /// # Errors
    ///
    /// Those of the system.
    pub(crate) fn from_start(&self) -> io::Result<File> {
        let mut file = self.handle()?;
        file.rewind()?;
        Ok(file)
    }

    /// This file, which took after another one and stands in its place now.
    pub(crate) fn after(self, before: HeldFile) -> HeldFile {
        HeldFile {
            file: self.file,
            metadata: before.metadata,
        }
    }

    /// Gives this file the permissions of another one, and its owner, where the system lets it.
    ///
    /// # Errors
    ///
    /// It doesn't get the permissions.
    pub(crate) fn take_after(&self, other: &HeldFile) -> io::Result<()> {
        let owner = Some(other.metadata.uid());
        let group = Some(other.metadata.gid());
        // Only root gives a file to another user; a group of this user's own can be kept all the same.
        if fchown(&self.file, owner, group).is_err() {
            let _ = fchown(&self.file, None, group);
        }
        self.file.set_permissions(permissions_of(&other.metadata))
    }
}

/// Who may read, write and run a file.
fn permissions_of(metadata: &Metadata) -> Permissions
    ensures { permissions_mode result ≡ bit_and (metadata_mode metadata.now) PERMISSION_BITS }
{
    Permissions::from_mode(metadata.mode() & PERMISSION_BITS)
}

/// What an attempt to hold the file of a name came to.
#[derive(Drop)]
enum Attempt {
    /// It is held.
    Held(HeldFile),
    /// No file has the name.
    NoFile,
    /// The name leads to another file by now, or to none.
    Moved,
}

impl Attempt {
    /// Opens the ordinary file that a name leads to, and holds it.
    fn at<R: rt::Files<File = File>>(rt: &R, name: &str) -> Result<Attempt, FileFault> {
        match fs::metadata(rt, name) {
            Ok(metadata) if metadata.is_file() => {}
            Ok(_) => return Err(FileFault::Failed(FileCause::NotOrdinary)),
            Err(error) if error.kind() == ErrorKind::NotFound => return Ok(Attempt::NoFile),
            Err(error) => return Err(error.into()),
        }
        match open(rt, name) {
            Ok(file) => Attempt::on(rt, name, file),
            Err(error) if error.kind() == ErrorKind::NotFound => Ok(Attempt::Moved),
            Err(error) => Err(error.into()),
        }
    }

    /// Holds an open file, if the name still leads to it.
    fn on<R: rt::Files<File = File>>(rt: &R, name: &str, file: File) -> Result<Attempt, FileFault> {
        match locked(rt, name, &file) {
            Ok(Some(metadata)) => Ok(Attempt::Held(HeldFile { file, metadata })),
            Ok(None) => Ok(Attempt::Moved),
            Err(fault) => Err(fault),
        }
    }
}

/// Locks an open file, and says what it is, if the name still leads to it.
fn locked<R: rt::Files<File = File>>(
    rt: &R,
    name: &str,
    file: &File,
) -> Result<Option<Metadata>, FileFault> {
    match file.try_lock() {
        Ok(()) => {}
        Err(TryLockError::WouldBlock) => return Err(FileFault::Failed(FileCause::InUse)),
        Err(TryLockError::Error(error)) => return Err(error.into()),
    }
    let metadata = file.metadata()?;
    if leads_to(rt, name, &metadata)? {
        Ok(Some(metadata))
    } else {
        Ok(None)
    }
}

/// An open file, for writing too where that is permitted: some file systems lock no other exclusively.
fn open<R: rt::Files<File = File>>(rt: &R, name: &str) -> io::Result<File> {
    match OpenOptions::new().read(true).write(true).open(rt, name) {
        Ok(file) => Ok(file),
        Err(_) => fs::open(rt, name),
    }
}

/// Does a name lead to the file that this is of?
fn leads_to<R: rt::Files>(rt: &R, name: &str, metadata: &Metadata) -> io::Result<bool> {
    match fs::metadata(rt, name) {
        Ok(now) => Ok(now.dev() == metadata.dev() && now.ino() == metadata.ino()),
        Err(error) if error.kind() == ErrorKind::NotFound => Ok(false),
        Err(error) => Err(error),
    }
}

/// Where a name leads in the end, through all links.
///
/// # Errors
///
/// A link can't be read, or there are too many.
pub(crate) fn behind_links<R: rt::Files + AllocGlobal>(rt: &R, path: &str) -> io::Result<String> {
    let mut name = String::from_str(rt.alloc(), path)?;
    for _link in 0..MOST_TRIES {
        match behind_link(rt, name.as_str())? {
            Some(next) => name = next,
            None => return Ok(name),
        }
    }
    Err(io::Error::from(ErrorKind::FilesystemLoop))
}

/// Does a name lead to a stream that a command has open, as that of standard output? Its file isn't replaced: what is open would be
/// another one then.
///
/// # Errors
///
/// A link can't be read, or there are too many.
pub(crate) fn leads_to_a_stream<R: rt::Files + AllocGlobal>(
    rt: &R,
    path: &str,
) -> io::Result<bool> {
    let mut name = String::from_str(rt.alloc(), path)?;
    for _link in 0..MOST_TRIES {
        if is_of_a_stream(name.as_str()) {
            return Ok(true);
        }
        match behind_link(rt, name.as_str())? {
            Some(next) => name = next,
            None => return Ok(false),
        }
    }
    Err(io::Error::from(ErrorKind::FilesystemLoop))
}

/// Is a name one by which Linux names streams that are open?
fn is_of_a_stream(name: &str) -> bool {
    name.starts_with("/proc/") || name.starts_with("/dev/fd/")
}

/// Where a name leads that is a link; `None` for any other.
fn behind_link<R: rt::Files + AllocGlobal>(rt: &R, name: &str) -> io::Result<Option<String>> {
    match fs::symlink_metadata(rt, name) {
        Ok(metadata) if metadata.is_symlink() => {}
        Ok(_) => return Ok(None),
        Err(error) if error.kind() == ErrorKind::NotFound => return Ok(None),
        Err(error) => return Err(error),
    }
    let link = fs::read_link(rt, name)?;
    let next = folder_of(name).join(rt.alloc(), link.as_path())?;
    Ok(Some(next.into_string()))
}

/// The folder that a name stands in.
pub(crate) fn folder_of(name: &str) -> Path<'_> {
    match Path::new(name).parent() {
        Some(folder) if !folder.as_str().is_empty() => folder,
        _ => Path::new("."),
    }
}
