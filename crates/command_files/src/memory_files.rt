//! Files in memory. They tell which files were made, and the bytes of each.

ghost use Rattle.std.specs.Prelude.{◌≡◌, [], drop, false, Some, None, OnOk, OnErr, option_copied, option_map, string_bytes, unwrap_or};
ghost use Rattle.command_files.specs.Made.{KeepsModes};
ghost use Rattle.command_files.specs.MemoryFiles.{HasAdded, HasPut, HasReplacedIn, bytes_named, last_named, made_of, mode_named, tried_of};

use crate::file_cause::FileCause;
use crate::files::{FileFault, Files, MEBIBYTE};
use image_text::{Sink, Source, StreamFault};
use std::alloc::{AllocError, Global};

/// The permission bits that a new file has: its owner may read and write it, others read it.
const NEW_MODE: u32 = 0o644;

/// A file with its name.
#[derive(Drop)]
struct NamedFile {
    path: String,
    bytes: Vec<u8>,
    mode: u32,
}

/// Files in memory, each with its name. They tell each file that was made, in order, and of each name the bytes of the
/// last.
#[derive(Drop)]
pub struct MemoryFiles {
    alloc: Global,
    /// Each file that was made. It hides those before it that have its name.
    files: Vec<NamedFile>,
    /// The most bytes of a file that a command makes.
    pub room: usize,
    /// Does reading in pieces fail behind the first bytes of a file?
    pub fails: bool,
    /// The name that is held.
    held: Option<String>,
}

impl MemoryFiles {
    /// No files, and room for all.
    pub fn new(alloc: Global) -> MemoryFiles
        ensures made { made_of result.files.items ≡ [] }
        ensures room { result.room ≡ usize.MAX }
        ensures healthy { result.fails ≡ false }
        ensures free { result.held ≡ None }
    {
        MemoryFiles {
            alloc,
            files: Vec::new(alloc),
            room: usize::MAX,
            fails: false,
            held: None,
        }
    }

    /// Puts a file of these bytes in the place of the one with this name, whose permissions it has, whatever room there is.
    ///
    /// # Errors
    ///
    /// Want of memory, which leaves the files as they were.
    pub fn put(&mut self, path: &str, bytes: &[u8]) -> Result<(), AllocError>
        ensures made { OnOk result (HasPut path.now bytes.now self.old.files.items self.new.files.items) }
        ensures replaced { OnOk result (HasReplacedIn path.now bytes.now self.old.files.items self.new.files.items) }
        ensures modes { OnOk result (KeepsModes (mode_named self.old.files.items) (mode_named self.new.files.items)) }
        ensures kept { OnErr result (self.new.files.items ≡ self.old.files.items) }
        ensures same { (self.new.room ≡ self.old.room) × (self.new.fails ≡ self.old.fails) × (self.new.held ≡ self.old.held) }
    {
        let file = NamedFile {
            path: String::from_str(self.alloc, path)?,
            bytes: Vec::from_slice(self.alloc, bytes)?,
            mode: self.mode(path),
        };
        self.files.push(file)?;
        Ok(())
    }

    /// Puts a file in the place of the one with this name: of that one's bytes, if there is one, and these behind them.
    ///
    /// # Errors
    ///
    /// Want of memory, which leaves the files as they were.
    pub fn add(&mut self, path: &str, bytes: &[u8]) -> Result<(), AllocError>
        ensures made { OnOk result (HasAdded path.now bytes.now self.old.files.items self.new.files.items) }
        ensures modes { OnOk result (KeepsModes (mode_named self.old.files.items) (mode_named self.new.files.items)) }
        ensures kept { OnErr result (self.new.files.items ≡ self.old.files.items) }
        ensures same { (self.new.room ≡ self.old.room) × (self.new.fails ≡ self.old.fails) × (self.new.held ≡ self.old.held) }
    {
        let mut all = Vec::new(self.alloc);
        if let Some(before) = self.bytes(path) {
            all.extend_from_slice(before)?;
        }
        all.extend_from_slice(bytes)?;
        self.put(path, all.as_slice())
    }

    /// The bytes of the last file that was made with this name; `None` where none was.
    pub fn bytes(&self, path: &str) -> Option<&[u8]>
        ensures { option_copied result ≡ bytes_named self.now.files.items path.now }
    {
        match self.named(path) {
            Some(file) => Some(file.bytes.as_slice()),
            None => None,
        }
    }

    /// The permission bits of the last file that was made with this name, or those of a new file.
    fn mode(&self, path: &str) -> u32
        ensures { result ≡ unwrap_or (mode_named self.now.files.items path.now) NEW_MODE }
    {
        match self.named(path) {
            Some(file) => file.mode,
            None => NEW_MODE,
        }
    }

    /// The last file that was made with this name.
    fn named(&self, path: &str) -> Option<&NamedFile>
        ensures { option_copied result ≡ last_named self.now.files.items path.now }
    {
        self.files
            .iter()
            .rev()
            .find(|file| file.path.as_str() == path)
    }
}

impl Files for MemoryFiles {
    type Reader = MemoryReader;

    type Writer = MemoryWriter;

    ghost made = { λ memory. Some (made_of memory.files.items) };

    ghost tried = { λ memory. tried_of (made_of memory.files.items) };

    ghost contents = { λ memory path. bytes_named memory.files.items path };

    ghost modes = { λ memory path. mode_named memory.files.items path };

    ghost held = { λ memory. option_map string_bytes memory.held };

    fn read(&mut self, path: &str, mebibytes: u32) -> Result<Vec<u8>, FileFault> {
        let bytes = self
            .bytes(path)
            .ok_or(FileFault::Failed(FileCause::NotFound))?;
        if bytes.len() > mebibytes as usize * MEBIBYTE {
            return Err(FileFault::Failed(FileCause::LargerThan(mebibytes)));
        }
        Ok(Vec::from_slice(self.alloc, bytes)?)
    }

    fn write(&mut self, path: &str, bytes: &[u8]) -> Result<(), FileFault> {
        if bytes.len() > self.room {
            return Err(FileFault::Failed(FileCause::NoRoom));
        }
        Ok(self.put(path, bytes)?)
    }

    fn open(&mut self, path: &str) -> Result<MemoryReader, FileFault> {
        Ok(MemoryReader {
            bytes: self.read(path, u32::MAX)?,
            fails: self.fails,
            at: 0,
            failures: 0,
        })
    }

    fn hold(&mut self, path: &str) -> Result<(), FileFault> {
        self.held = Some(String::from_str(self.alloc, path)?);
        Ok(())
    }

    fn first_bytes(&mut self, path: &str, most: usize) -> Result<Vec<u8>, FileFault> {
        let bytes = self.bytes(path).unwrap_or(&[]);
        let count = most.min(bytes.len());
        Ok(Vec::from_slice(self.alloc, &bytes[..count])?)
    }

    fn open_held(&mut self, path: &str) -> Result<MemoryReader, FileFault> {
        self.open(path)
    }

    fn begin(&mut self, _path: &str) -> Result<MemoryWriter, FileFault> {
        Ok(MemoryWriter {
            bytes: Vec::new(self.alloc),
            room: self.room,
            failures: 0,
        })
    }

    fn finish(&mut self, path: &str, file: MemoryWriter) -> Result<(), FileFault> {
        if self.put(path, file.bytes.as_slice()).is_err() {
            self.held = None;
            return Err(FileFault::Memory);
        }
        Ok(())
    }

    fn discard(&mut self, file: MemoryWriter) -> FileCause {
        if file.failures > 0 {
            FileCause::NoRoom
        } else {
            FileCause::Other
        }
    }
}

/// A file in memory that is read in pieces.
#[derive(Drop)]
pub struct MemoryReader {
    bytes: Vec<u8>,
    fails: bool,
    /// How many bytes were read.
    at: usize,
    failures: u64,
}

impl Source for MemoryReader {
    ghost tells = { Unit {0} };

    ghost rest = { λ reader. drop reader.at reader.bytes.items };

    ghost failures = { λ reader. reader.failures };

    fn read(&mut self, to: &mut [u8]) -> Result<usize, StreamFault> {
        if self.fails && self.at > 0 {
            self.failures += 1;
            return Err(StreamFault);
        }
        let start = self.at.min(self.bytes.len());
        let rest = &self.bytes.as_slice()[start..];
        let count = rest.len().min(to.len());
        to[..count].copy_from_slice(&rest[..count]);
        self.at = start + count;
        Ok(count)
    }

    fn skip(&mut self, most: u64) -> Result<u64, StreamFault> {
        if self.fails && self.at > 0 {
            self.failures += 1;
            return Err(StreamFault);
        }
        let start = self.at.min(self.bytes.len());
        let count = most.min((self.bytes.len() - start) as u64);
        self.at = start + count as usize;
        Ok(count)
    }

    fn failures(&self) -> u64 {
        self.failures
    }
}

/// A file in memory that is written in pieces.
#[derive(Drop)]
pub struct MemoryWriter {
    bytes: Vec<u8>,
    /// How many bytes it still takes.
    room: usize,
    failures: u64,
}

impl Sink for MemoryWriter {
    ghost tells = { Unit {0} };

    ghost taken = { λ writer. writer.bytes.items };

    ghost failures = { λ writer. writer.failures };

    fn write(&mut self, from: &[u8]) -> Result<usize, StreamFault> {
        if from.len() > self.room || self.bytes.extend_from_slice(from).is_err() {
            self.failures += 1;
            return Err(StreamFault);
        }
        self.room -= from.len();
        Ok(from.len())
    }

    fn failures(&self) -> u64 {
        self.failures
    }
}
