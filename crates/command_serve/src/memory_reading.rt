//! The bytes of a file in memory, as they are read before the file is written.

ghost use Rattle.std.specs.Prelude.{◌≡◌, ◌<◌, ◌≤◌, ◌^◌, [], Some, length};

use stored_file::{FileError, FileReading};

/// The bytes of a file in memory, of which some were read.
#[derive(Drop)]
pub struct MemoryReading {
    bytes: Vec<u8>,
    at: usize,
    ghost within: { at ≤ length bytes.items },
    ghost has_length: { length bytes.items < 2 ^ 63 },
}

impl MemoryReading {
    /// A file of these bytes, of which none was read.
    pub fn new(bytes: Vec<u8>) -> MemoryReading
        ensures given { ⟦<MemoryReading as FileReading>⟧.given result ≡ [] }
        ensures known { ⟦<MemoryReading as FileReading>⟧.known result ≡ Some bytes.items }
    {
        MemoryReading { bytes, at: 0 }
    }

    /// All its bytes, whether or not they were read.
    pub fn bytes(&self) -> &[u8]
        ensures { ⟦<MemoryReading as FileReading>⟧.known self.now ≡ Some result.now }
    {
        &self.bytes
    }
}

impl FileReading for MemoryReading {
    ghost use Rattle.std.specs.Prelude.{take};
    ghost use Rattle.stored_file.specs.Reading.{front_read, part_read};

    ghost given = { λ reading. take reading.at reading.bytes.items };

    ghost size = { λ reading. length reading.bytes.items };

    ghost known = { λ reading. Some reading.bytes.items };

    ghost faults = { λ _. 0 };

    ghost has_length = { λ reading. (part_read reading.at reading.bytes.items, reading.has_length) };

    ghost is_front = { λ reading. front_read reading.at reading.bytes.items reading.within };

    fn left(&self) -> usize {
        self.bytes.len() - self.at
    }

    fn read_next(&mut self, count: usize, bytes: &mut Vec<u8>) -> Result<(), FileError> {
        bytes.extend_from_slice(&self.bytes[self.at..self.at + count])?;
        self.at += count;
        Ok(())
    }
}
