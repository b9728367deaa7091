//! What is wrong with a symbol or a relocation.

ghost use Rattle.std.specs.Prelude.{◌≡◌, ◌<◌, ◌≤◌, ◌+◌, length};
ghost use Rattle.ebpf_object.specs.Faults.{place_fault, relocation_fault, symbol_fault};
ghost use Rattle.ebpf_object.specs.Relocations.{relocation_at, relocation_count};
ghost use Rattle.ebpf_object.specs.Sections.{HeadersAre};
ghost use Rattle.ebpf_object.specs.Symbols.{symbol_at, symbol_count};

use crate::fault::{RelocationFault, SymbolFault};
use crate::fields::lie_in;
use crate::header::SectionTable;
use crate::relocation::{RELOCATION_BYTES, Relocation, relocation_entry};
use crate::section::{Section, section_at};
use crate::symbol::{Place, SYMBOL_BYTES, Symbol, symbol_entry};

/// The symbol with this number of a symbol table.
pub(crate) fn symbol_at(bytes: &[u8], table: Section, number: usize) -> Symbol
    requires inside { table.offset + table.size ≤ length bytes.now }
    requires there { number < symbol_count table }
    ensures { result ≡ symbol_at bytes.now table number }
{
    symbol_entry(bytes, table.offset + SYMBOL_BYTES * number)
}

/// The relocation with this number of a section of them.
pub(crate) fn relocation_at(bytes: &[u8], section: Section, number: usize) -> Relocation
    requires inside { section.offset + section.size ≤ length bytes.now }
    requires there { number < relocation_count section }
    ensures { result ≡ relocation_at bytes.now section number }
{
    relocation_entry(bytes, section.offset + RELOCATION_BYTES * number)
}

/// The first fault that a symbol has by where it is.
fn place_fault(bytes: &[u8], table: SectionTable, symbol: &Symbol) -> Option<SymbolFault>
    requires { HeadersAre bytes.now table }
    ensures { result ≡ place_fault bytes.now symbol.now symbol.now.place }
{
    let Place::Section(number) = symbol.place else {
        return None;
    };
    if number >= table.count {
        return Some(SymbolFault::Section);
    }
    let section = section_at(bytes, table, number);
    if !lie_in(symbol.value, symbol.size, section.size) {
        return Some(SymbolFault::Outside);
    }
    if !symbol.is_whole(section.kind) {
        return Some(SymbolFault::Function);
    }
    None
}

/// The first fault of the symbol with this number of a symbol table.
pub(crate) fn symbol_fault(
    bytes: &[u8],
    table: SectionTable,
    symbols: Section,
    number: usize,
) -> Option<SymbolFault>
    requires headers { HeadersAre bytes.now table }
    requires inside { symbols.offset + symbols.size ≤ length bytes.now }
    requires strings { symbols.link < table.count }
    requires there { number < symbol_count symbols }
    ensures { result ≡ symbol_fault bytes.now symbols number }
{
    let symbol = symbol_at(bytes, symbols, number);
    if symbol.name >= section_at(bytes, table, symbols.link).size {
        return Some(SymbolFault::Name);
    }
    place_fault(bytes, table, &symbol)
}

/// The first fault of the relocation with this number of a section of them, where the symbol table is this one.
pub(crate) fn relocation_fault(
    bytes: &[u8],
    table: SectionTable,
    symbols: Section,
    section: Section,
    number: usize,
) -> Option<RelocationFault>
    requires headers { HeadersAre bytes.now table }
    requires inside { section.offset + section.size ≤ length bytes.now }
    requires target { section.info < table.count }
    requires there { number < relocation_count section }
    ensures { result ≡ relocation_fault bytes.now symbols section number }
{
    let relocation = relocation_at(bytes, section, number);
    if relocation.symbol >= symbols.size / SYMBOL_BYTES {
        return Some(RelocationFault::Symbol);
    }
    let Some(kind) = relocation.kind else {
        return Some(RelocationFault::Type);
    };
    let size = section_at(bytes, table, section.info).size;
    if !lie_in(relocation.offset, kind.width(), size) {
        return Some(RelocationFault::Outside);
    }
    None
}
