//! Section headers (gABI, chapter 4, Sections).

ghost use Rattle.std.specs.Prelude.{◌≡◌, ◌+◌, ◌*◌, ◌<◌, ◌≤◌, length, nat_lt, ◌&&◌, IsTrue};
ghost use Rattle.ebpf_object.specs.Sections.{HeadersAre, contents, first_overlap, has_bytes, has_contents, is_string_table, lies_inside, overlap, section_at, section_header, section_kind};

use crate::fields::{double_word_at, lie_in, word_at};
use crate::header::{SECTION_HEADER_BYTES, SectionTable};

/// What a section has (`sh_type`).
#[derive(Clone, Copy, Debug, PartialEq, Eq)]
pub enum SectionKind {
    /// Nothing: a header that stands for no section (`SHT_NULL`).
    Null,
    /// What the program has in it, as code and data (`SHT_PROGBITS`).
    ProgramBits,
    /// Symbols (`SHT_SYMTAB`).
    SymbolTable,
    /// Names (`SHT_STRTAB`).
    StringTable,
    /// Relocations with addends of their own (`SHT_RELA`).
    Addends,
    /// Zeros, which take no bytes in the file (`SHT_NOBITS`).
    NoBits,
    /// Relocations (`SHT_REL`).
    Relocations,
    /// Something else.
    Other(usize),
}

impl SectionKind {
    /// What a section with this number as its type has.
    pub(crate) fn from_number(number: usize) -> SectionKind
        ensures { result ≡ section_kind number }
    {
        match number {
            0 => SectionKind::Null,
            1 => SectionKind::ProgramBits,
            2 => SectionKind::SymbolTable,
            3 => SectionKind::StringTable,
            4 => SectionKind::Addends,
            8 => SectionKind::NoBits,
            9 => SectionKind::Relocations,
            _ => SectionKind::Other(number),
        }
    }

    /// Has such a section bytes in the file?
    pub fn has_contents(self) -> bool
        ensures { result ≡ has_contents self }
    {
        !matches!(self, SectionKind::Null | SectionKind::NoBits)
    }
}

/// A section header.
#[derive(Clone, Copy, Debug, PartialEq, Eq)]
pub struct Section {
    /// Where its name begins in the section of names (`sh_name`).
    pub name: usize,
    /// What it has (`sh_type`).
    pub kind: SectionKind,
    /// Its attributes (`sh_flags`).
    pub flags: usize,
    /// The byte of the file at which its contents begin (`sh_offset`).
    pub offset: usize,
    /// How many bytes it has (`sh_size`).
    pub size: usize,
    /// The number of a section that goes with it, by its kind (`sh_link`).
    pub link: usize,
    /// Another number, by its kind (`sh_info`).
    pub info: usize,
}

/// The section header at this byte.
fn section_header(bytes: &[u8], at: usize) -> Section
    requires { at + SECTION_HEADER_BYTES ≤ length bytes.now }
    ensures { result ≡ section_header bytes.now at }
{
    Section {
        name: word_at(bytes, at),
        kind: SectionKind::from_number(word_at(bytes, at + 4)),
        flags: double_word_at(bytes, at + 8),
        offset: double_word_at(bytes, at + 24),
        size: double_word_at(bytes, at + 32),
        link: word_at(bytes, at + 40),
        info: word_at(bytes, at + 44),
    }
}

/// The section with this number.
pub(crate) fn section_at(bytes: &[u8], table: SectionTable, number: usize) -> Section
    requires headers { HeadersAre bytes.now table }
    requires there { number < table.count }
    ensures { result ≡ section_at bytes.now number }
{
    let at = table.offset + SECTION_HEADER_BYTES * number;
    section_header(bytes, at)
}

/// Do the section's bytes lie in the file?
pub(crate) fn lies_inside(bytes: &[u8], section: Section) -> bool
    ensures { result ≡ lies_inside bytes.now section }
{
    !section.kind.has_contents() || lie_in(section.offset, section.size, bytes.len())
}

/// The bytes of a section.
pub(crate) fn contents(bytes: &[u8], section: Section) -> &[u8]
    requires { IsTrue (lies_inside bytes.now section) }
    ensures { result.now ≡ contents bytes.now section }
{
    if section.kind.has_contents() {
        &bytes[section.offset..][..section.size]
    } else {
        &[]
    }
}

/// Have two sections a byte of the file in common?
fn overlap(a: Section, b: Section) -> bool
    ensures { result ≡ overlap a b }
{
    a.kind.has_contents()
        && b.kind.has_contents()
        && b.offset.saturating_sub(a.offset) < a.size
        && a.offset.saturating_sub(b.offset) < b.size
}

/// The first section with a number below this one that has a byte in common with a section.
pub(crate) fn first_overlap(
    bytes: &[u8],
    table: SectionTable,
    section: Section,
    count: usize,
) -> Option<usize>
    requires headers { HeadersAre bytes.now table }
    requires there { count ≤ table.count }
    ensures { result ≡ first_overlap bytes.now section count }
{
    for number in 0..count {
        if overlap(section_at(bytes, table, number), section) {
            return Some(number);
        }
    }
    None
}

/// Is there a section with this number, and is it a string table?
pub(crate) fn is_string_table(bytes: &[u8], table: SectionTable, number: usize) -> bool
    requires { HeadersAre bytes.now table }
    ensures { result ≡ (nat_lt number table.count && is_string_table bytes.now number) }
{
    number < table.count && section_at(bytes, table, number).kind == SectionKind::StringTable
}

/// Is there a section with this number, and has it bytes in the file?
pub(crate) fn has_bytes(bytes: &[u8], table: SectionTable, number: usize) -> bool
    requires { HeadersAre bytes.now table }
    ensures { result ≡ (nat_lt number table.count && has_bytes bytes.now number) }
{
    number < table.count && section_at(bytes, table, number).kind.has_contents()
}
