//! Fields of entries.

ghost use Rattle.std.specs.Prelude.{◌≡◌, ◌≤◌, ◌+◌, length};
ghost use Rattle.common_definitions.specs.Bytes.{field};

use byteorder::{ByteOrder, LittleEndian};

/// The number in the four bytes from one on.
pub(crate) fn u32_at(entry: &[u8], at: usize) -> u32
    requires { at + 4 ≤ length entry.now }
    ensures { result ≡ field entry.now at 4 }
{
    LittleEndian::read_u32(&entry[at..])
}

/// The number in the eight bytes from one on.
pub(crate) fn u64_at(entry: &[u8], at: usize) -> u64
    requires { at + 8 ≤ length entry.now }
    ensures { result ≡ field entry.now at 8 }
{
    LittleEndian::read_u64(&entry[at..])
}
