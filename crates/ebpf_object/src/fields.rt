//! Numbers in the fields of ELF's structures, the lowest byte first (gABI, chapter 4, Data Representation), and parts of a whole.

ghost use Rattle.std.specs.Prelude.{◌≡◌, ◌+◌, ◌≤◌, ◌<◌, ◌^◌, length, nat_le};
ghost use Rattle.common_definitions.specs.Bytes.{field};

use byteorder::{ByteOrder, LittleEndian};

/// The number of 2 bytes at this one (`Elf64_Half`).
pub(crate) fn half_at(bytes: &[u8], at: usize) -> usize
    requires { at + 2 ≤ length bytes.now }
    ensures value { result ≡ field bytes.now at 2 }
    ensures fits { result < 2 ^ 16 }
{
    usize::from(LittleEndian::read_u16(&bytes[at..]))
}

/// The number of 4 bytes at this one (`Elf64_Word`).
pub(crate) fn word_at(bytes: &[u8], at: usize) -> usize
    requires { at + 4 ≤ length bytes.now }
    ensures value { result ≡ field bytes.now at 4 }
    ensures fits { result < 2 ^ 32 }
{
    LittleEndian::read_u32(&bytes[at..]) as usize
}

/// The number of 8 bytes at this one (`Elf64_Xword`, `Elf64_Off` and `Elf64_Addr`).
pub(crate) fn double_word_at(bytes: &[u8], at: usize) -> usize
    requires { at + 8 ≤ length bytes.now }
    ensures { result ≡ field bytes.now at 8 }
{
    LittleEndian::read_u64(&bytes[at..]) as usize
}

/// Do so many bytes from this one on lie in a whole of that many?
pub(crate) fn lie_in(offset: usize, size: usize, whole: usize) -> bool
    ensures { result ≡ nat_le (offset + size) whole }
{
    size <= whole && offset <= whole - size
}
