//! A file of the system that is held, as it is read piece by piece.

ghost use Rattle.std.specs.Prelude.{◌≡◌, ◌≤◌, ◌<◌, ◌^◌, ◌+◌, false, [], ◌∷◌, length, take, IfOk, OnErr};
ghost use Rattle.stored_file.specs.Calls.{Opened};
ghost use Rattle.durable_device.specs.Kept.{IsRestarted};
ghost use Rattle.disk_file.specs.Reading.{faults_of, read_of};

use crate::DiskCalls;
use command_files::{Disk, FileCause, FileFault, Files};
use std::fs::File;
use std::os::unix::fs::FileExt;
use std::{io, rt};
use stored_file::{FileError, FileReading, Record, StoredFile, SystemFile};

/// More bytes than a file has (POSIX, `off_t`).
const MOST_BYTES: usize = 1 << 63;

/// A file of the system, as it is read from its front on. What was read is noted: from then on the file is one that has these bytes. That
/// it has no others is a premise, as it is of a file that is read at once: no clause says what a read gives.
#[derive(Drop)]
pub struct DiskReading {
    file: File,
    /// How many bytes were read.
    at: usize,
    /// How many weren't yet, by the length that the file had when it was opened.
    left: usize,
    /// Whether a read has failed. None is made from then on.
    failed: bool,
    notes: Record,
    ghost counted: { length (read_of notes.calls) ≡ at },
    ghost has_length: { at + left < 2 ^ 63 },
    ghost only_read: { failed ≡ false → notes.calls ≡ Opened (read_of notes.calls) ∷ [] },
}

impl DiskReading {
    /// Answers that a read failed.
    fn fail(&mut self) -> Result<(), FileError>
        ensures failed { result ≡ Err FileError.Failed }
        ensures read { read_of self.new.notes.calls ≡ read_of self.old.notes.calls }
        ensures faults { faults_of self.new.notes.calls ≡ faults_of self.old.notes.calls + 1 }
        ensures same { (self.new.at ≡ self.old.at) × (self.new.left ≡ self.old.left) }
    {
        self.failed = true;
        self.notes.refused();
        Err(FileError::Failed)
    }
}

impl FileReading for DiskReading {
    ghost use Rattle.std.specs.Prelude.{None};
    ghost use Rattle.disk_file.specs.Reading.{is_within};

    ghost given = { λ reading. read_of reading.notes.calls };

    ghost size = { λ reading. reading.at + reading.left };

    ghost known = { λ _. None };

    ghost faults = { λ reading. faults_of reading.notes.calls };

    ghost has_length = { λ reading. (is_within reading.notes.calls reading.at reading.left reading.counted, reading.has_length) };

    ghost is_front = { λ _. tt };

    fn left(&self) -> usize {
        self.left
    }

    fn read_next(&mut self, count: usize, bytes: &mut Vec<u8>) -> Result<(), FileError> {
        if self.failed {
            return self.fail();
        }
        let before = bytes.len();
        bytes.resize(before + count, 0)?;
        match read_after(&self.file, self.at, before, bytes.as_mut_slice()) {
            Ok(()) => {
                self.notes.read_on(&bytes[before..]);
                self.at += count;
                self.left -= count;
                Ok(())
            }
            Err(_) => {
                bytes.truncate(before);
                self.fail()
            }
        }
    }
}

/// Reads bytes at an offset of a file, to the end of a buffer, after those that are in it.
fn read_after(file: &File, at: usize, before: usize, buffer: &mut [u8]) -> io::Result<()>
    requires { before ≤ length buffer.old }
    ensures front { take before buffer.new ≡ take before buffer.old }
{
    file.read_exact_at(&mut buffer[before..], at as u64)
}

/// The file whose name is held, of which nothing was read yet: it and its name are brought to the disk. The name is held on.
///
/// # Errors
///
/// No name is held, no file has it, it can't be read or brought to the disk.
pub fn begin<R: rt::Files<File = File> + AllocGlobal>(
    files: &Disk<'_, R>,
) -> Result<DiskReading, FileFault>
    ensures none { IfOk result (λ reading. ⟦<DiskReading as FileReading>⟧.given reading ≡ []) }
{
    files.settle()?;
    let file = files.handle()?;
    let left = file.metadata()?.len() as usize;
    if left >= MOST_BYTES {
        return Err(FileFault::Failed(FileCause::Other));
    }
    Ok(DiskReading {
        file,
        at: 0,
        left,
        failed: false,
        notes: Record::opened(&[]),
    })
}

/// The file whose name is held, once all of it was read, as what writes it durably, as [`open`](crate::open) gives it. It is held on, and no name
/// is held where it was; no file is told as made.
///
/// # Errors
///
/// A read of it failed.
pub fn opened<'a, R: rt::Files<File = File> + AllocGlobal>(
    files: &mut Disk<'a, R>,
    reading: DiskReading,
) -> Result<SystemFile<DiskCalls<'a, R>>, FileFault>
    requires whole { let R = ⟦<DiskReading as FileReading>⟧ in length (R.given reading) ≡ R.size reading }
    ensures restarted { IfOk result (λ opened. IsRestarted (⟦<SystemFile<DiskCalls<'a, R>> as StoredFile>⟧.told opened)) }
    ensures bytes { IfOk result (λ opened.
        (⟦<SystemFile<DiskCalls<'a, R>> as StoredFile>⟧.told opened).seen ≡ ⟦<DiskReading as FileReading>⟧.given reading) }
    ensures made { ⟦<Disk<'a, R> as Files>⟧.made files.new ≡ ⟦<Disk<'a, R> as Files>⟧.made files.old }
{
    if reading.failed {
        return Err(FileFault::Failed(FileCause::Other));
    }
    let DiskReading { file, notes, .. } = reading;
    let disk = files.take();
    Ok(SystemFile::opened(DiskCalls { disk, file, notes }))
}
