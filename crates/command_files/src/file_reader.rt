//! Files of the system that are read in pieces.

ghost use Rattle.std.specs.Prelude.{◌≡◌, ◌≤◌, [], IfOk};

use image_text::{Source, StreamFault};
use std::alloc::Global;
use std::fs::File;
use std::io::{self, BufRead, BufReader, Read, Seek};

/// The most bytes that are passed over at once.
const MOST_SKIPPED: u64 = 1 << 62;

/// A file of the system that is read in pieces.
#[derive(Drop)]
pub struct FileReader {
    file: BufReader<File>,
    failures: u64,
}

impl FileReader {
    /// What reads a file, of which no call has failed.
    pub(crate) fn new(alloc: Global, file: File) -> io::Result<FileReader>
        ensures { IfOk result (λ reader. reader.failures ≡ 0) }
    {
        Ok(FileReader {
            file: BufReader::new(alloc, file)?,
            failures: 0,
        })
    }
}

impl Source for FileReader {
    ghost tells = { ⊥ };

    ghost rest = { λ _. [] };

    ghost failures = { λ reader. reader.failures };

    fn read(&mut self, to: &mut [u8]) -> Result<usize, StreamFault> {
        match self.file.read(to) {
            Ok(count) => Ok(count),
            Err(_) => {
                self.failures += 1;
                Err(StreamFault)
            }
        }
    }

    /// Of an ordinary file the bytes aren't read: its length says how many there are.
    fn skip(&mut self, most: u64) -> Result<u64, StreamFault> {
        match pass_over(&mut self.file, most) {
            Ok(count) => Ok(count),
            Err(_) => {
                self.failures += 1;
                Err(StreamFault)
            }
        }
    }

    fn failures(&self) -> u64 {
        self.failures
    }
}

/// Passes over some bytes, at most so many.
fn pass_over(file: &mut BufReader<File>, most: u64) -> io::Result<u64>
    ensures { IfOk result (λ count. count ≤ most) }
{
    let metadata = file.get_ref().metadata()?;
    if !metadata.is_file() {
        return read_over(file, most);
    }
    let left = metadata.len().saturating_sub(file.stream_position()?);
    let count = left.min(most).min(MOST_SKIPPED);
    file.seek_relative(count as i64)?;
    Ok(count)
}

/// Reads some bytes, at most so many, and lets them go.
fn read_over(file: &mut BufReader<File>, most: u64) -> io::Result<u64>
    ensures { IfOk result (λ count. count ≤ most) }
{
    let count = most.min(file.fill_buf()?.len() as u64);
    file.consume(count as usize);
    Ok(count)
}
