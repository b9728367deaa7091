//! The calls of the system for a file that is held.

ghost use Rattle.std.specs.Prelude.{◌≡◌, is_ok, IfOk};
ghost use Rattle.durable_device.specs.Kept.{IsRestarted, MayBeLeft};

use command_files::{Disk, FileCause, FileFault, Files};
use std::alloc::Global;
use std::fs::File;
use std::io::{Read, Seek};
use std::os::unix::fs::FileExt;
use std::rt;
use stored_file::{FileCalls, FileError, Record, StoredFile, SystemFile};

/// A file of the system that is held, under an exclusive lock until this is dropped. Each method makes one call, and then notes it
/// with its answer. No clause says that it makes that call: this is to be read.
#[derive(Drop)]
pub struct DiskCalls<'a, R> {
    /// What holds its name.
    pub(crate) disk: Disk<'a, R>,
    pub(crate) file: File,
    pub(crate) notes: Record,
}

/// The file whose name is held, as what reads and writes it durably: it and its name are brought to the disk, and then it is read. What
/// an earlier program failed to bring there the system may keep in memory as if it were there: then it is what is read, and nothing
/// but writing it again brings it to the disk. It is held on, and no name is held where it was; no file is told as made.
///
/// # Errors
///
/// No name is held, no file has it, it can't be read or brought to the disk, or memory is wanting. The name is held no longer then.
pub fn open<'a, R: rt::Files<File = File> + AllocGlobal>(
    alloc: Global,
    files: &mut Disk<'a, R>,
) -> Result<SystemFile<DiskCalls<'a, R>>, FileFault>
    ensures restarted { IfOk result (λ opened. IsRestarted (⟦<SystemFile<DiskCalls<'a, R>> as StoredFile>⟧.told opened)) }
    ensures made { ⟦<Disk<'a, R> as Files>⟧.made files.new ≡ ⟦<Disk<'a, R> as Files>⟧.made files.old }
{
    let disk = files.take();
    disk.settle()?;
    let mut file = disk.handle()?;
    let bytes = whole(alloc, &mut file)?;
    let notes = Record::opened(bytes.as_slice());
    Ok(SystemFile::new(DiskCalls { disk, file, notes }, bytes))
}

/// All bytes of a file.
fn whole(alloc: Global, file: &mut File) -> Result<Vec<u8>, FileFault> {
    let most = usize::try_from(file.metadata()?.len()).unwrap_or(0);
    let mut bytes = Vec::with_capacity(alloc, most)?;
    file.rewind()?;
    file.read_to_end(&mut bytes)?;
    Ok(bytes)
}

/// What a call came to, and of its cause whether there was no room.
fn told<E: Into<FileFault>>(done: Result<(), E>) -> Result<(), FileError>
    ensures { is_ok result ≡ is_ok done }
{
    match done {
        Ok(()) => Ok(()),
        Err(error) => match error.into() {
            FileFault::Memory => Err(FileError::Memory),
            FileFault::Failed(FileCause::NoRoom) => Err(FileError::NoRoom),
            FileFault::Failed(_) => Err(FileError::Failed),
        },
    }
}

impl<R: rt::Files<File = File> + AllocGlobal> FileCalls for DiskCalls<'_, R> {
    ghost notes = { λ calls. calls.notes.calls };

    ghost left = { MayBeLeft };

    fn write_at(&mut self, at: usize, bytes: &[u8]) -> Result<(), FileError> {
        let done = told(self.file.write_all_at(bytes, at as u64));
        self.notes.written(at, bytes, done.is_ok());
        done
    }

    fn renew(&mut self, at: usize, bytes: &[u8]) -> Result<(), FileError> {
        let done = told(self.file.write_all_at(bytes, at as u64));
        self.notes.renewed(at, bytes, done.is_ok());
        done
    }

    fn set_len(&mut self, len: usize) -> Result<(), FileError> {
        let done = told(self.file.set_len(len as u64));
        self.notes.shortened(len, done.is_ok());
        done
    }

    fn sync(&mut self) -> Result<(), FileError> {
        let done = told(self.file.sync_data());
        self.notes.synced(done.is_ok());
        done
    }

    fn replace(&mut self, bytes: &[u8]) -> Result<(), FileError> {
        let placed = self.disk.replace(bytes).is_ok();
        match self.disk.handle() {
            Ok(file) if placed => {
                self.file = file;
                self.notes.replaced(bytes, true);
                Ok(())
            }
            // The new file didn't get the name, whatever it lacked: the old one is held still.
            Ok(_) => {
                self.notes.not_replaced();
                Err(FileError::NoRoom)
            }
            Err(_) => {
                self.notes.replaced(bytes, false);
                Err(FileError::Failed)
            }
        }
    }

    fn refuse(&mut self) {
        self.notes.refused();
    }
}
