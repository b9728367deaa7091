//! Files of the system that aren't finished: written beside the one whose name is held, which they get at the end.

ghost use Rattle.std.specs.Prelude.{◌≡◌, ◌++◌, [], IfOk, OnOk, option_map, string_bytes};
ghost use Rattle.placed_file.specs.Placing.{IsWhole};

use crate::file_cause::FileCause;
use crate::files::FileFault;
use crate::held_file::{HeldFile, behind_links, folder_of};
use image_text::{Sink, StreamFault};
use placed_file::{Placing, Progress, Written, put_in_place};
use std::alloc::{AllocError, Global};
use std::fs::File;
use std::io::{BufWriter, ErrorKind, Write};
use std::{fs, io, mem, rt};

/// How many names for a file that isn't finished are tried: others are then in use.
const MOST_NAMES: u32 = 1000;

/// The permission bits that a new file is made with, less those that the user's mask takes away.
const NEW_MODE: u32 = 0o666;

/// Those of a file that gets the ones of the file before, until it has them.
const OWN_MODE: u32 = 0o600;

/// A name that is held.
#[derive(Drop)]
pub(crate) struct HeldName {
    pub(crate) name: String,
    /// Where it leads, through all links.
    pub(crate) target: String,
    /// The file that is there.
    pub(crate) file: Option<HeldFile>,
}

impl HeldName {
    /// A name, with the file that it leads to, which no other command works on then.
    ///
    /// # Errors
    ///
    /// The file is no ordinary one, another command holds it, or it can't be opened.
    pub(crate) fn of<R: rt::Files<File = File> + AllocGlobal>(
        rt: &R,
        path: &str,
    ) -> Result<HeldName, FileFault>
        ensures { IfOk result (λ held. string_bytes held.name ≡ path.now) }
    {
        let name = String::from_str(rt.alloc(), path)?;
        let target = behind_links(rt, path)?;
        let file = HeldFile::of(rt, target.as_str())?;
        Ok(HeldName { name, target, file })
    }
}

/// A file of no bytes yet beside the one that is held, whose permissions and owner it has.
pub(crate) fn begin_beside<R: rt::Files<File = File> + AllocGlobal>(
    rt: &R,
    held: &HeldName,
) -> Result<FileWriter, FileFault>
    ensures healthy { IfOk result (λ file. file.failures ≡ 0) }
    ensures empty { IfOk result (λ file. file.written.bytes ≡ []) }
{
    let (name, created) = create_beside(rt, held)?;
    match writer_of(rt, held, &created) {
        Ok(file) => Ok(FileWriter {
            file,
            created,
            name,
            failures: 0,
            cause: FileCause::Other,
            written: Written::new(),
        }),
        Err(fault) => {
            // What failed is told; a failure to remove the file would hide it.
            let _ = fs::remove_file(rt, name.as_str());
            Err(fault)
        }
    }
}

/// A new file beside the one that is held, with its name, which no other command uses.
fn create_beside<R: rt::Files<File = File> + AllocGlobal>(
    rt: &R,
    held: &HeldName,
) -> Result<(String, HeldFile), FileFault> {
    let mode = if held.file.is_some() {
        OWN_MODE
    } else {
        NEW_MODE
    };
    for number in 0..MOST_NAMES {
        let name = unfinished(rt.alloc(), held.target.as_str(), number)?;
        if let Some(created) = HeldFile::create_anew(rt, name.as_str(), mode)? {
            return Ok((name, created));
        }
    }
    Err(FileFault::Failed(FileCause::InUse))
}

/// The names that a file has which is to replace another one, until it is finished: they are tried from 0 on.
fn unfinished(alloc: Global, target: &str, number: u32) -> Result<String, AllocError> {
    if number == 0 {
        format!(in alloc; "{target}.unfinished")
    } else {
        format!(in alloc; "{target}.unfinished.{number}")
    }
}

/// What writes to a file that was created to replace the one that is held.
fn writer_of<R: rt::Files<File = File> + AllocGlobal>(
    rt: &R,
    held: &HeldName,
    created: &HeldFile,
) -> Result<BufWriter<File>, FileFault> {
    if let Some(before) = &held.file {
        created.take_after(before)?;
    }
    Ok(BufWriter::new(rt.alloc(), created.handle()?)?)
}

/// A file that is written, on its way to the name that is held. Each method makes one call of the system, and notes it with its answer.
#[derive(Drop)]
struct Unplaced<'w, 'a, R> {
    rt: &'a R,
    held: &'w HeldName,
    file: &'w File,
    /// Its name until it has that one.
    name: &'w str,
    progress: Progress,
}

impl<R: rt::Files<File = File>> Placing for Unplaced<'_, '_, R> {
    type Fault = FileFault;

    ghost progress = { λ new. new.progress };

    fn sync(&mut self) -> Result<(), FileFault> {
        let done = synced(self.file);
        self.progress.note_sync(done.is_ok());
        done
    }

    fn rename(&mut self) -> Result<(), FileFault> {
        let done = give_name(self.rt, self.held, self.name);
        self.progress.note_rename(done.is_ok());
        done
    }

    fn settle(&mut self) -> Result<(), FileFault> {
        let done = settle_name(self.rt, self.held);
        self.progress.note_settling(done.is_ok());
        done
    }
}

/// Gives a file that is written the name that is held: where the power fails, the name leads to all of the old bytes or to all of the
/// new ([`put_in_place`]). Beside how that ends it says what was done.
pub(crate) fn place_under<R: rt::Files<File = File>>(
    rt: &R,
    held: &HeldName,
    file: &FileWriter,
) -> (Result<(), FileFault>, Progress)
    ensures { IsWhole result.1 }
{
    let mut unplaced = Unplaced {
        rt,
        held,
        file: file.file.get_ref(),
        name: file.name.as_str(),
        progress: Progress::begun(),
    };
    let done = put_in_place(&mut unplaced);
    (done, unplaced.progress)
}

/// Brings the bytes of a file to the disk.
fn synced(file: &File) -> Result<(), FileFault> {
    Ok(file.sync_all()?)
}

/// Brings a name to the disk.
pub(crate) fn settle_name<R: rt::Files<File = File>>(
    rt: &R,
    held: &HeldName,
) -> Result<(), FileFault> {
    Ok(fs::open(rt, folder_of(held.target.as_str()))?.sync_all()?)
}

/// Holds a file that has its name now in place of the one that had it.
pub(crate) fn hold_finished(held: &mut Option<HeldName>, created: HeldFile)
    ensures { option_map (λ held. string_bytes held.name) held.new ≡ option_map (λ held. string_bytes held.name) held.old }
{
    if let Some(name) = held {
        let before = mem::replace(&mut name.file, None);
        name.file = Some(match before {
            Some(before) => created.after(before),
            None => created,
        });
    }
}

/// Gives a file the name that is held, in place of the file that is held. Where none is, no file that another command has made
/// meanwhile loses the name.
fn give_name<R: rt::Files>(rt: &R, held: &HeldName, unfinished: &str) -> Result<(), FileFault> {
    let target = held.target.as_str();
    if held.file.is_some() {
        return Ok(fs::rename(rt, unfinished, target)?);
    }
    match fs::hard_link(rt, unfinished, target) {
        Ok(()) => {
            // The file has its name. That it has another one too harms nobody.
            let _ = fs::remove_file(rt, unfinished);
            Ok(())
        }
        Err(error) if error.kind() == ErrorKind::AlreadyExists => {
            Err(FileFault::Failed(FileCause::InUse))
        }
        // The file system has no links.
        Err(_) => Ok(fs::rename(rt, unfinished, target)?),
    }
}

/// A file of the system that is written in pieces.
#[derive(Drop)]
pub struct FileWriter {
    file: BufWriter<File>,
    /// The same file, which is held until it is finished.
    pub(crate) created: HeldFile,
    /// Its name until it is finished.
    pub(crate) name: String,
    pub(crate) failures: u64,
    /// Why the last write that failed did.
    pub(crate) cause: FileCause,
    /// What was written.
    pub(crate) written: Written,
}

impl FileWriter {
    /// Writes these bytes behind those that were written, all or none of which the system may have then.
    ///
    /// # Errors
    ///
    /// Those of the system.
    pub(crate) fn hand_over(&mut self, bytes: &[u8]) -> Result<(), FileFault>
        ensures { OnOk result (self.new.written.bytes ≡ self.old.written.bytes ++ bytes.now) }
    {
        self.file.write_all(bytes)?;
        self.written.add(bytes);
        Ok(())
    }

    /// Writes these bytes, and brings them to the disk: some file systems find only then that they have no room.
    ///
    /// # Errors
    ///
    /// Those of the system.
    pub(crate) fn write_to_disk(&mut self, bytes: &[u8]) -> Result<(), FileFault> {
        self.hand_over(bytes)?;
        self.file.flush()?;
        synced(self.file.get_ref())
    }

    /// Hands the system all that was written and is still held back.
    ///
    /// # Errors
    ///
    /// Those of the system, also where one of an earlier write was told.
    pub(crate) fn complete(&mut self) -> Result<(), FileFault>
        ensures { self.new.written ≡ self.old.written }
    {
        if self.failures > 0 {
            return Err(FileFault::Failed(self.cause));
        }
        Ok(self.file.flush()?)
    }
}

impl Sink for FileWriter {
    ghost tells = { Unit {0} };

    ghost taken = { λ writer. writer.written.bytes };

    ghost failures = { λ writer. writer.failures };

    fn write(&mut self, from: &[u8]) -> Result<usize, StreamFault> {
        match self.file.write_all(from) {
            Ok(()) => {
                self.written.add(from);
                Ok(from.len())
            }
            Err(error) => {
                self.failures += 1;
                self.cause = cause_of(error);
                Err(StreamFault)
            }
        }
    }

    fn failures(&self) -> u64 {
        self.failures
    }
}

/// Why a call of the system failed.
fn cause_of(error: io::Error) -> FileCause {
    match FileFault::from(error) {
        FileFault::Failed(cause) => cause,
        FileFault::Memory => FileCause::Other,
    }
}
