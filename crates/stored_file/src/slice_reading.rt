//! The bytes of a file in memory, as they are read piece by piece.

ghost use Rattle.std.specs.Prelude.{◌≡◌, ◌<◌, ◌≤◌, ◌^◌, [], Some, length, take};

use crate::{FileError, FileReading};

/// A file whose bytes are in memory.
#[derive(Clone, Copy, Debug)]
pub struct SliceReading<'a> {
    bytes: &'a [u8],
    /// How many of them were read.
    at: usize,
    ghost within: { at ≤ length bytes.now },
    ghost has_length: { length bytes.now < 2 ^ 63 },
}

impl<'a> SliceReading<'a> {
    /// A file of these bytes, of which none was read.
    pub fn new(bytes: &'a [u8]) -> SliceReading<'a>
        ensures given { ⟦<SliceReading<'a> as FileReading>⟧.given result ≡ [] }
        ensures size { ⟦<SliceReading<'a> as FileReading>⟧.size result ≡ length bytes.now }
        ensures known { ⟦<SliceReading<'a> as FileReading>⟧.known result ≡ Some bytes.now }
        ensures faults { ⟦<SliceReading<'a> as FileReading>⟧.faults result ≡ 0 }
    {
        SliceReading { bytes, at: 0 }
    }
}

impl FileReading for SliceReading<'_> {
    ghost use Rattle.stored_file.specs.Reading.{front_read, part_read};

    ghost given = { λ reading. take reading.at reading.bytes.now };

    ghost size = { λ reading. length reading.bytes.now };

    ghost known = { λ reading. Some reading.bytes.now };

    ghost faults = { λ _. 0 };

    ghost has_length = { λ reading. (part_read reading.at reading.bytes.now, reading.has_length) };

    ghost is_front = { λ reading. front_read reading.at reading.bytes.now reading.within };

    fn left(&self) -> usize {
        self.bytes.len() - self.at
    }

    fn read_next(&mut self, count: usize, bytes: &mut Vec<u8>) -> Result<(), FileError> {
        bytes.extend_from_slice(&self.bytes[self.at..self.at + count])?;
        self.at += count;
        Ok(())
    }
}
