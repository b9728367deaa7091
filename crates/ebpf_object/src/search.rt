//! The first part of an object that has a fault.

ghost use Rattle.std.specs.Prelude.{◌≡◌, ◌<◌, ◌≤◌, ◌+◌, length, MatchOption, None};
ghost use Rattle.ebpf_object.specs.Faults.{relocation_fault, section_fault, symbol_fault};
ghost use Rattle.ebpf_object.specs.First.{IsFirst, NoneHas};
ghost use Rattle.ebpf_object.specs.Objects.{IsFirstRelocation, NoRelocationHas, faults_in, relocations_in, symbol_table_at};
ghost use Rattle.ebpf_object.specs.Relocations.{relocation_count};
ghost use Rattle.ebpf_object.specs.Sections.{HeadersAre, section_at};
ghost use Rattle.ebpf_object.specs.Symbols.{symbol_count};

use crate::entry_fault::{relocation_fault, symbol_fault};
use crate::fault::{RelocationFault, SectionFault, SymbolFault};
use crate::header::SectionTable;
use crate::relocation::RELOCATION_BYTES;
use crate::section::{Section, SectionKind, section_at};
use crate::section_fault::section_fault;
use crate::symbol::SYMBOL_BYTES;

/// The number of a section, where it is a symbol table.
fn symbol_table_at(bytes: &[u8], table: SectionTable, number: usize) -> Option<usize>
    requires headers { HeadersAre bytes.now table }
    requires there { number < table.count }
    ensures { result ≡ symbol_table_at bytes.now number }
{
    match section_at(bytes, table, number).kind {
        SectionKind::SymbolTable => Some(number),
        _ => None,
    }
}

/// The number of the first symbol table.
pub(crate) fn symbol_table(bytes: &[u8], table: SectionTable) -> Option<usize>
    requires { HeadersAre bytes.now table }
    ensures { MatchOption result (NoneHas (symbol_table_at bytes.now) table.count)
        (λ number. IsFirst (symbol_table_at bytes.now) table.count number number) }
{
    for number in 0..table.count {
        if symbol_table_at(bytes, table, number).is_some() {
            return Some(number);
        }
    }
    None
}

/// The first section with a fault, and which it has.
pub(crate) fn faulty_section(
    bytes: &[u8],
    table: SectionTable,
    symbols: usize,
) -> Option<(usize, SectionFault)>
    requires headers { HeadersAre bytes.now table }
    requires names { table.names < table.count }
    ensures { MatchOption result (NoneHas (section_fault bytes.now symbols) table.count)
        (λ found. IsFirst (section_fault bytes.now symbols) table.count found.0 found.1) }
{
    for number in 0..table.count {
        if let Some(fault) = section_fault(bytes, table, symbols, number) {
            return Some((number, fault));
        }
    }
    None
}

/// The first symbol with a fault, and which it has.
pub(crate) fn faulty_symbol(
    bytes: &[u8],
    table: SectionTable,
    symbols: Section,
) -> Option<(usize, SymbolFault)>
    requires headers { HeadersAre bytes.now table }
    requires inside { symbols.offset + symbols.size ≤ length bytes.now }
    requires strings { symbols.link < table.count }
    ensures { MatchOption result (NoneHas (symbol_fault bytes.now symbols) (symbol_count symbols))
        (λ found. IsFirst (symbol_fault bytes.now symbols) (symbol_count symbols) found.0 found.1) }
{
    for number in 0..symbols.size / SYMBOL_BYTES {
        if let Some(fault) = symbol_fault(bytes, table, symbols, number) {
            return Some((number, fault));
        }
    }
    None
}

/// The first relocation of a section of them with a fault, and which it has.
fn faulty_relocation_in(
    bytes: &[u8],
    table: SectionTable,
    symbols: Section,
    section: Section,
) -> Option<(usize, RelocationFault)>
    requires headers { HeadersAre bytes.now table }
    requires inside { section.offset + section.size ≤ length bytes.now }
    requires target { section.info < table.count }
    ensures { MatchOption result (NoneHas (relocation_fault bytes.now symbols section) (relocation_count section))
        (λ found. IsFirst (relocation_fault bytes.now symbols section) (relocation_count section) found.0 found.1) }
{
    for number in 0..section.size / RELOCATION_BYTES {
        if let Some(fault) = relocation_fault(bytes, table, symbols, section, number) {
            return Some((number, fault));
        }
    }
    None
}

/// The first relocation of a section with a fault, and which it has.
fn faulty_relocation_of(
    bytes: &[u8],
    table: SectionTable,
    symbols: usize,
    number: usize,
) -> Option<(usize, RelocationFault)>
    requires headers { HeadersAre bytes.now table }
    requires there { number < table.count }
    requires symbols_there { symbols < table.count }
    requires none { section_fault bytes.now symbols number ≡ None }
    ensures { MatchOption result (NoneHas (faults_in bytes.now symbols number) (relocations_in bytes.now number))
        (λ found. IsFirst (faults_in bytes.now symbols number) (relocations_in bytes.now number) found.0 found.1) }
{
    let section = section_at(bytes, table, number);
    match section.kind {
        SectionKind::Relocations => {
            faulty_relocation_in(bytes, table, section_at(bytes, table, symbols), section)
        }
        _ => None,
    }
}

/// The first relocation with a fault: its section, its number in that, and which fault it has.
pub(crate) fn faulty_relocation(
    bytes: &[u8],
    table: SectionTable,
    symbols: usize,
) -> Option<(usize, usize, RelocationFault)>
    requires headers { HeadersAre bytes.now table }
    requires symbols_there { symbols < table.count }
    requires sections { NoneHas (section_fault bytes.now symbols) table.count }
    ensures { MatchOption result (NoRelocationHas bytes.now symbols table.count)
        (λ found. IsFirstRelocation bytes.now symbols found.0 found.1 found.2) }
{
    for number in 0..table.count {
        if let Some((relocation, fault)) = faulty_relocation_of(bytes, table, symbols, number) {
            return Some((number, relocation, fault));
        }
    }
    None
}
