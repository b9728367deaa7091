//! The ELF header (gABI, chapter 4, ELF Header).

ghost use Rattle.std.specs.Prelude.{◌≡◌, ◌+◌, ◌*◌, ◌≤◌, ◌<◌, ◌^◌, length, OnSome, IfNone};
ghost use Rattle.ebpf_object.specs.Faults.{file_fault, header_fault, identification_fault, table_fault};
ghost use Rattle.ebpf_object.specs.Header.{section_table};

use crate::fault::HeaderFault;
use crate::fields::{double_word_at, half_at, lie_in, word_at};
use crate::section::is_string_table;

/// The bytes of an ELF header.
pub const HEADER_BYTES: usize = 64;

/// The bytes of a section header.
pub const SECTION_HEADER_BYTES: usize = 64;

/// The magic number: 7Fh, `E`, `L` and `F`, the lowest first.
pub const MAGIC: usize = 0x464c_457f;

/// The class of objects of 64 bits (`ELFCLASS64`).
pub const CLASS_64: u8 = 2;

/// The encoding of numbers with their lowest byte first (`ELFDATA2LSB`).
pub const LITTLE_ENDIAN: u8 = 1;

/// The type of relocatable files (`ET_REL`).
pub const RELOCATABLE: usize = 1;

/// The machine of eBPF (`EM_BPF`).
pub const BPF: usize = 247;

/// Where the section headers are, as the ELF header tells.
#[derive(Clone, Copy, Debug, PartialEq, Eq)]
pub struct SectionTable {
    /// The byte of the file at which the first begins (`e_shoff`).
    pub offset: usize,
    /// How many there are (`e_shnum`).
    pub count: usize,
    /// The number of the section with the names of sections (`e_shstrndx`).
    pub names: usize,
}

/// What the header says of the section headers.
pub(crate) fn section_table(bytes: &[u8]) -> SectionTable
    requires { HEADER_BYTES ≤ length bytes.now }
    ensures value { result ≡ section_table bytes.now }
    ensures few { result.count < 2 ^ 16 }
{
    SectionTable {
        offset: double_word_at(bytes, 40),
        count: half_at(bytes, 60),
        names: half_at(bytes, 62),
    }
}

/// The first fault of what says that the file is an ELF file of this class and encoding.
fn identification_fault(bytes: &[u8]) -> Option<HeaderFault>
    requires { HEADER_BYTES ≤ length bytes.now }
    ensures { result ≡ identification_fault bytes.now }
{
    if word_at(bytes, 0) != MAGIC {
        return Some(HeaderFault::Magic);
    }
    if bytes[4] != CLASS_64 {
        return Some(HeaderFault::Class);
    }
    if bytes[5] != LITTLE_ENDIAN {
        return Some(HeaderFault::Encoding);
    }
    None
}

/// The first fault of what says that the file is a relocatable one of eBPF.
fn file_fault(bytes: &[u8]) -> Option<HeaderFault>
    requires { HEADER_BYTES ≤ length bytes.now }
    ensures { result ≡ file_fault bytes.now }
{
    if half_at(bytes, 16) != RELOCATABLE {
        return Some(HeaderFault::Type);
    }
    if half_at(bytes, 18) != BPF {
        return Some(HeaderFault::Machine);
    }
    None
}

/// The first fault of what says where the section headers are.
fn table_fault(bytes: &[u8]) -> Option<HeaderFault>
    requires { HEADER_BYTES ≤ length bytes.now }
    ensures { result ≡ table_fault bytes.now }
{
    let table = section_table(bytes);
    let size = SECTION_HEADER_BYTES * table.count;
    if half_at(bytes, 58) != SECTION_HEADER_BYTES {
        return Some(HeaderFault::HeaderSize);
    }
    if !lie_in(table.offset, size, bytes.len()) {
        return Some(HeaderFault::Outside);
    }
    if !is_string_table(bytes, table, table.names) {
        return Some(HeaderFault::Names);
    }
    None
}

/// The first fault of the header.
pub(crate) fn header_fault(bytes: &[u8]) -> Option<HeaderFault>
    ensures { result ≡ header_fault bytes.now }
{
    if bytes.len() < HEADER_BYTES {
        return Some(HeaderFault::Short);
    }
    identification_fault(bytes)
        .or(file_fault(bytes))
        .or(table_fault(bytes))
}
