//! Dwords of entries.

ghost use Rattle.std.specs.Prelude.{◌≡◌, ◌≤◌, ◌+◌, ◌*◌, length};
ghost use Rattle.common_definitions.specs.Bytes.{field};
ghost use Rattle.nvme_entry.specs.Dwords.{dword};

use byteorder::{ByteOrder, LittleEndian};

/// The dword with this number (NVMe Base 2.0, 3.3.3.1 and 3.3.3.2).
pub(crate) fn dword(entry: &[u8], number: usize) -> u32
    requires { 4 * number + 4 ≤ length entry.now }
    ensures { result ≡ dword entry.now number }
{
    LittleEndian::read_u32(&entry[4 * number..])
}

/// The number of the dword with this number and the one behind it, the lower first.
pub(crate) fn two_dwords(entry: &[u8], number: usize) -> u64
    requires { 4 * number + 8 ≤ length entry.now }
    ensures { result ≡ field entry.now (4 * number) 8 }
{
    LittleEndian::read_u64(&entry[4 * number..])
}
