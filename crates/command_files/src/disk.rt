//! The files of the system.

ghost use Rattle.std.specs.Prelude.{◌≡◌, ◌≤◌, ◌*◌, ◌^◌, ℕ, List, [], ◌∷◌, ◌++◌, IfErr, IfOk, IsSome, None, Some, length, OnErr, OnOk, option_map, string_bytes};
ghost use Rattle.command_files.specs.Crash.{LeavesOldOrNew};
ghost use Rattle.command_files.specs.Made.{told_made};
ghost use Rattle.command_files.specs.UserTold.{IsNotPast, IsPast};

use crate::file_cause::FileCause;
use crate::file_reader::FileReader;
use crate::files::{FileFault, Files, MEBIBYTE};
use crate::unfinished::{FileWriter, HeldName, begin_beside, hold_finished, settle_name};
use crate::writing::{put_under, write_beside, write_there};
use placed_file::Attempts;
use std::alloc::Global;
use std::fs::File;
use std::io::Read;
use std::{fs, mem, rt};

/// The name by which a command line names standard input.
pub const STANDARD_INPUT: &str = "-";

/// The files of the system. They tell which were to be given names, with what was written to them and what was done for them; not
/// what bytes a name leads to. No clause says that what is noted is what the system does: this is to be read.
#[derive(Drop)]
pub struct Disk<'a, R> {
    rt: &'a R,
    held: Option<HeldName>,
    tried: Attempts,
    /// Was standard input read?
    input_read: bool,
}

impl<'a, R> Disk<'a, R> {
    /// The files that this runtime reaches.
    pub fn new(rt: &'a R) -> Disk<'a, R>
        ensures { result.held ≡ None }
    {
        Disk {
            rt,
            held: None,
            tried: Attempts::new(),
            input_read: false,
        }
    }

    /// Files that hold the name which these held, with its file: these hold none then, and have their notes.
    pub fn take(&mut self) -> Disk<'a, R>
        ensures same { result.held ≡ self.old.held }
        ensures none { self.new.held ≡ None }
        ensures tried { self.new.tried ≡ self.old.tried }
    {
        Disk {
            rt: self.rt,
            held: mem::replace(&mut self.held, None),
            tried: Attempts::new(),
            input_read: self.input_read,
        }
    }
}

impl<R: rt::Files<File = File> + AllocGlobal> Disk<'_, R> {
    /// The file whose name is held, for writing too where that is permitted.
    ///
    /// # Errors
    ///
    /// No name is held, no file has it, or those of the system.
    pub fn handle(&self) -> Result<File, FileFault> {
        match &self.held {
            Some(
                HeldName {
                    file: Some(held),
                    ..
                },
            ) => Ok(held.handle()?),
            _ => Err(FileFault::Failed(FileCause::NotFound)),
        }
    }

    /// Brings the file whose name is held to the disk, and its name.
    ///
    /// # Errors
    ///
    /// No name is held, no file has it, or those of the system.
    pub fn settle(&self) -> Result<(), FileFault> {
        self.handle()?.sync_all()?;
        match &self.held {
            Some(held) => settle_name(self.rt, held),
            None => Err(FileFault::Failed(FileCause::NotFound)),
        }
    }

    /// Puts a file of these bytes in the place of the one whose name is held, as [`Files::begin`] and [`Files::finish`] do. Where it can't
    /// be written or brought to the disk, as for want of room, the name is held still.
    ///
    /// # Errors
    ///
    /// No name is held, or those of the system.
    pub fn replace(&mut self, bytes: &[u8]) -> Result<(), FileFault> {
        let Some(held) = &self.held else {
            return Err(FileFault::Failed(FileCause::NotFound));
        };
        let mut file = begin_beside(self.rt, held)?;
        if let Err(fault) = file.write_to_disk(bytes) {
            self.discard(file);
            return Err(fault);
        }
        self.place(file)
    }

    /// The file with this name, from its first byte on; standard input where the name is `-`.
    ///
    /// # Errors
    ///
    /// Standard input was read already, or those of the system.
    fn opened(&mut self, path: &str) -> Result<File, FileFault>
        ensures not_past { IfErr result IsNotPast }
        ensures held { self.new.held ≡ self.old.held }
        ensures tried { self.new.tried ≡ self.old.tried }
    {
        if path != STANDARD_INPUT {
            return opened_at(self.rt, path);
        }
        if self.input_read {
            return Err(FileFault::Failed(FileCause::ReadBefore));
        }
        self.input_read = true;
        opened_at(self.rt, "/dev/stdin")
    }

    /// Gives a file that is written the name that is held, and holds it then. Where that fails, it is forgotten, and no name is held.
    ///
    /// # Errors
    ///
    /// Those of the system.
    fn place(&mut self, mut file: FileWriter) -> Result<(), FileFault>
        requires { IsSome self.old.held }
        ensures held { let name = option_map (λ held. string_bytes held.name) in OnOk result (name self.new.held ≡ name self.old.held) }
        ensures released { OnErr result (self.new.held ≡ None) }
        ensures made { (name : List ℕ) → option_map (λ held. string_bytes held.name) self.old.held ≡ Some name → OnOk result
            (told_made self.new.tried.attempts ≡ told_made self.old.tried.attempts ++ record { path = name; bytes = file.written.bytes } ∷ []) }
        ensures kept { OnErr result (told_made self.new.tried.attempts ≡ told_made self.old.tried.attempts) }
        ensures crash { (name : List ℕ) → option_map (λ held. string_bytes held.name) self.old.held ≡ Some name →
            LeavesOldOrNew name (λ bytes. bytes ≡ file.written.bytes) self.old.tried.attempts self.new.tried.attempts }
    {
        match self.put_in_place(&mut file) {
            Ok(()) => {
                // The new file was held from the first on, so that none comes between.
                hold_finished(&mut self.held, file.created);
                Ok(())
            }
            Err(fault) => {
                self.discard(file);
                self.held = None;
                Err(fault)
            }
        }
    }

    /// Gives a file that is written the name that is held.
    ///
    /// # Errors
    ///
    /// Those of the system, also where a write to it failed.
    fn put_in_place(&mut self, file: &mut FileWriter) -> Result<(), FileFault>
        requires { IsSome self.old.held }
        ensures held { self.new.held ≡ self.old.held }
        ensures made { (name : List ℕ) → option_map (λ held. string_bytes held.name) self.old.held ≡ Some name → OnOk result
            (told_made self.new.tried.attempts ≡ told_made self.old.tried.attempts ++ record { path = name; bytes = file.old.written.bytes } ∷ []) }
        ensures kept { OnErr result (told_made self.new.tried.attempts ≡ told_made self.old.tried.attempts) }
        ensures crash { (name : List ℕ) → option_map (λ held. string_bytes held.name) self.old.held ≡ Some name →
            LeavesOldOrNew name (λ bytes. bytes ≡ file.old.written.bytes) self.old.tried.attempts self.new.tried.attempts }
    {
        let held = self.held.as_ref().unwrap();
        put_under(self.rt, held, file, &mut self.tried)
    }
}

impl<R: rt::Files<File = File> + AllocGlobal> Files for Disk<'_, R> {
    type Reader = FileReader;

    type Writer = FileWriter;

    ghost made = { λ disk. Some (told_made disk.tried.attempts) };

    ghost tried = { λ disk. disk.tried.attempts };

    ghost held = { λ disk. option_map (λ held. string_bytes held.name) disk.held };

    fn read(&mut self, path: &str, mebibytes: u32) -> Result<Vec<u8>, FileFault> {
        match self.opened(path) {
            Ok(file) => read_whole(self.rt.alloc(), file, mebibytes),
            Err(fault) => Err(fault),
        }
    }

    fn write(&mut self, path: &str, bytes: &[u8]) -> Result<(), FileFault> {
        match write_beside(self.rt, path, bytes, &mut self.tried) {
            // No new file takes the place of a pipe, nor of a file whose folder takes none.
            Err(FileFault::Failed(FileCause::NotOrdinary | FileCause::PermissionDenied)) => {
                write_there(self.rt, path, bytes, &mut self.tried)
            }
            done => done,
        }
    }

    fn open(&mut self, path: &str) -> Result<FileReader, FileFault> {
        Ok(FileReader::new(self.rt.alloc(), fs::open(self.rt, path)?)?)
    }

    fn hold(&mut self, path: &str) -> Result<(), FileFault> {
        // Its own lock would keep this command from the same file too.
        self.held = None;
        self.held = Some(HeldName::of(self.rt, path)?);
        Ok(())
    }

    fn first_bytes(&mut self, _path: &str, most: usize) -> Result<Vec<u8>, FileFault> {
        let mut bytes = Vec::new(self.rt.alloc());
        if let Some(held) = &self.held.as_ref().unwrap().file {
            held.from_start()?
                .take(most as u64)
                .read_to_end(&mut bytes)?;
        }
        Ok(bytes)
    }

    fn open_held(&mut self, _path: &str) -> Result<FileReader, FileFault> {
        match &self.held.as_ref().unwrap().file {
            Some(held) => Ok(FileReader::new(self.rt.alloc(), held.from_start()?)?),
            None => Err(FileFault::Failed(FileCause::NotFound)),
        }
    }

    fn begin(&mut self, _path: &str) -> Result<FileWriter, FileFault> {
        begin_beside(self.rt, self.held.as_ref().unwrap())
    }

    fn finish(&mut self, _path: &str, file: FileWriter) -> Result<(), FileFault> {
        self.place(file)
    }

    fn discard(&mut self, file: FileWriter) -> FileCause {
        // The failure that led here is told; one more would hide it.
        let _ = fs::remove_file(self.rt, file.name.as_str());
        file.cause
    }
}

/// The file with this name, from its first byte on.
fn opened_at<R: rt::Files<File = File>>(rt: &R, path: &str) -> Result<File, FileFault>
    ensures { IfErr result IsNotPast }
{
    Ok(fs::open(rt, path)?)
}

/// All bytes of a file, of which it has at most so many times 2^20.
fn read_whole(alloc: Global, file: File, mebibytes: u32) -> Result<Vec<u8>, FileFault>
    ensures within { IfOk result (λ file. length file.items ≤ mebibytes * 2 ^ 20) }
    ensures larger { IfErr result (IsPast None mebibytes) }
{
    let most = mebibytes as usize * MEBIBYTE;
    let mut bytes = Vec::new(alloc);
    file.take(most as u64 + 1).read_to_end(&mut bytes)?;
    if bytes.len() > most {
        return Err(FileFault::Failed(FileCause::LargerThan(mebibytes)));
    }
    Ok(bytes)
}
