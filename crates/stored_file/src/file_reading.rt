//! What is asked of a file that is read before it is written.

ghost use Rattle.std.specs.Prelude.{◌≡◌, ◌<◌, ◌≤◌, ◌^◌, ◌+◌, List, Option, ℕ, length, OnErr, OnOk};
ghost use Rattle.stored_file.specs.Reading.{HasNotRead, HasRead, HasReadCause, IsReadOf};

use crate::FileError;

/// A file whose bytes are read from its front on, each of them once, before the file is written. No clause of the library's says what
/// a file of the system holds: its bytes are those that were read.
pub trait FileReading {
    /// The bytes that were read so far.
    ghost given: { Self → List ℕ };

    /// How many bytes the file has.
    ghost size: { Self → ℕ };

    /// All bytes of the file, where they are known before they are read.
    ghost known: { Self → Option (List ℕ) };

    /// How often the disk has failed.
    ghost faults: { Self → ℕ };

    /// How many bytes weren't read yet.
    fn left(&self) -> usize
        ensures { length (given self.now) + result ≡ size self.now };

    /// Reads so many bytes more, and puts them after those in a buffer. At `Err` none was read, and the buffer is as it was.
    ///
    /// # Errors
    ///
    /// No memory, or the disk's.
    fn read_next(&mut self, count: usize, bytes: &mut Vec<u8>) -> Result<(), FileError>
        requires within { length (given self.old) + count ≤ size self.old }
        ensures read { OnOk result (HasRead count (given self.old) (given self.new) bytes.old.items bytes.new.items) }
        ensures not_read { OnErr result (HasNotRead (given self.old) (given self.new) bytes.old.items bytes.new.items) }
        ensures size { size self.new ≡ size self.old }
        ensures known { known self.new ≡ known self.old }
        ensures cause { HasReadCause (faults self.old) (faults self.new) result };

    /// A file's length is a signed number of 64 bits (POSIX, `off_t`), and no more is read than it has.
    ghost has_length: { (reading : Self) → (length (given reading) ≤ size reading) × (size reading < 2 ^ 63) };

    /// What was read is the front of what is known.
    ghost is_front: { (reading : Self) → IsReadOf (given reading) (size reading) (known reading) };
}
