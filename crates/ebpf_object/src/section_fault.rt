//! What is wrong with a section.

ghost use Rattle.std.specs.Prelude.{◌≡◌, ◌<◌, ◌≤◌, ◌+◌, length, IsTrue};
ghost use Rattle.common_definitions.specs.Checks.{first_failed};
ghost use Rattle.ebpf_object.specs.Faults.{any_section_fault, kind_fault, relocations_checks, section_fault, symbol_table_checks};
ghost use Rattle.ebpf_object.specs.Sections.{HeadersAre, lies_inside};

use crate::fault::SectionFault;
use crate::header::SectionTable;
use crate::names::is_ended;
use crate::relocation::RELOCATION_BYTES;
use crate::section::{
    Section, SectionKind, contents, first_overlap, has_bytes, is_string_table, lies_inside,
    section_at,
};
use crate::symbol::SYMBOL_BYTES;

/// The first fault that a section of any kind may have.
fn any_section_fault(bytes: &[u8], table: SectionTable, section: Section) -> Option<SectionFault>
    requires headers { HeadersAre bytes.now table }
    requires names { table.names < table.count }
    ensures { result ≡ any_section_fault bytes.now section }
{
    if !lies_inside(bytes, section) {
        return Some(SectionFault::Outside);
    }
    if section.name >= section_at(bytes, table, table.names).size {
        return Some(SectionFault::Name);
    }
    None
}

/// The first fault of a symbol table.
fn symbol_table_fault(bytes: &[u8], table: SectionTable, section: Section) -> Option<SectionFault>
    requires { HeadersAre bytes.now table }
    ensures { result ≡ first_failed (symbol_table_checks bytes.now section) }
{
    if section.size % SYMBOL_BYTES != 0 {
        return Some(SectionFault::Entries);
    }
    if !is_string_table(bytes, table, section.link) {
        return Some(SectionFault::Strings);
    }
    None
}

/// The first fault of a section of relocations, where the symbol table is this one.
fn relocations_fault(
    bytes: &[u8],
    table: SectionTable,
    symbols: usize,
    section: Section,
) -> Option<SectionFault>
    requires { HeadersAre bytes.now table }
    ensures { result ≡ first_failed (relocations_checks bytes.now symbols section) }
{
    if section.size % RELOCATION_BYTES != 0 {
        return Some(SectionFault::Entries);
    }
    if section.link != symbols {
        return Some(SectionFault::Symbols);
    }
    if !has_bytes(bytes, table, section.info) {
        return Some(SectionFault::Target);
    }
    None
}

/// The first fault that a section has by its kind.
fn kind_fault(
    bytes: &[u8],
    table: SectionTable,
    symbols: usize,
    section: Section,
) -> Option<SectionFault>
    requires headers { HeadersAre bytes.now table }
    requires inside { IsTrue (lies_inside bytes.now section) }
    ensures { result ≡ kind_fault bytes.now symbols section section.kind }
{
    match section.kind {
        SectionKind::StringTable if is_ended(contents(bytes, section)) => None,
        SectionKind::StringTable => Some(SectionFault::Unended),
        SectionKind::SymbolTable => symbol_table_fault(bytes, table, section),
        SectionKind::Relocations => relocations_fault(bytes, table, symbols, section),
        SectionKind::Addends => Some(SectionFault::Addends),
        _ => None,
    }
}

/// The first fault of the section with this number, where the symbol table is this one.
pub(crate) fn section_fault(
    bytes: &[u8],
    table: SectionTable,
    symbols: usize,
    number: usize,
) -> Option<SectionFault>
    requires headers { HeadersAre bytes.now table }
    requires names { table.names < table.count }
    requires there { number < table.count }
    ensures { result ≡ section_fault bytes.now symbols number }
{
    let section = section_at(bytes, table, number);
    if let Some(fault) = any_section_fault(bytes, table, section) {
        return Some(fault);
    }
    if let Some(other) = first_overlap(bytes, table, section, number) {
        return Some(SectionFault::Overlap(other));
    }
    kind_fault(bytes, table, symbols, section)
}
