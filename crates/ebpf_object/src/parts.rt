//! The parts of an object, by its bytes, its section headers and the number of its symbol table.

ghost use Rattle.std.specs.Prelude.{ℕ, ◌≡◌, ◌<◌, ◌≤◌, ◌+◌, length, IfSome, IsTrue};
ghost use Rattle.ebpf_object.specs.Functions.{LiesIn, function_of};
ghost use Rattle.ebpf_object.specs.Objects.{IsObject, relocations_in, section_count};
ghost use Rattle.ebpf_object.specs.Relocations.{relocation_at};
ghost use Rattle.ebpf_object.specs.Sections.{HeadersAre, lies_inside, section_at};
ghost use Rattle.ebpf_object.specs.Symbols.{symbol_at, symbol_count};

use crate::entry_fault::{relocation_at, symbol_at};
use crate::function::{Function, function_of};
use crate::header::SectionTable;
use crate::relocation::Relocation;
use crate::section::{Section, section_at};
use crate::symbol::{Place, Symbol};

/// The section with this number.
pub(crate) fn section_of(
    bytes: &[u8],
    table: SectionTable,
    symbols: usize,
    number: usize,
) -> Section
    requires headers { HeadersAre bytes.now table }
    requires object { IsObject bytes.now symbols }
    requires there { number < section_count bytes.now }
    ensures value { result ≡ section_at bytes.now number }
    ensures inside { IsTrue (lies_inside bytes.now result) }
{
    section_at(bytes, table, number)
}

/// The symbol table.
pub(crate) fn symbol_table_of(bytes: &[u8], table: SectionTable, symbols: usize) -> Section
    requires headers { HeadersAre bytes.now table }
    requires object { IsObject bytes.now symbols }
    ensures value { result ≡ section_at bytes.now symbols }
    ensures inside { result.offset + result.size ≤ length bytes.now }
    ensures strings { result.link < section_count bytes.now }
{
    section_at(bytes, table, symbols)
}

/// The symbol with this number.
pub(crate) fn symbol_of(bytes: &[u8], table: SectionTable, symbols: usize, number: usize) -> Symbol
    requires headers { HeadersAre bytes.now table }
    requires object { IsObject bytes.now symbols }
    requires there { number < symbol_count (section_at bytes.now symbols) }
    ensures value { result ≡ symbol_at bytes.now (section_at bytes.now symbols) number }
    ensures section { (section : ℕ) → result.place ≡ Place.Section section → section < section_count bytes.now }
{
    symbol_at(bytes, symbol_table_of(bytes, table, symbols), number)
}

/// The relocation with this number of the section with that one.
pub(crate) fn relocation_of(
    bytes: &[u8],
    table: SectionTable,
    symbols: usize,
    section: usize,
    number: usize,
) -> Relocation
    requires headers { HeadersAre bytes.now table }
    requires object { IsObject bytes.now symbols }
    requires section_there { section < section_count bytes.now }
    requires there { number < relocations_in bytes.now section }
    ensures value { result ≡ relocation_at bytes.now (section_at bytes.now section) number }
    ensures symbol { result.symbol < symbol_count (section_at bytes.now symbols) }
{
    relocation_at(bytes, section_at(bytes, table, section), number)
}

/// The function that the symbol with this number stands for, where it stands for one of this object.
pub(crate) fn function_with(
    bytes: &[u8],
    table: SectionTable,
    symbols: usize,
    number: usize,
) -> Option<Function>
    requires headers { HeadersAre bytes.now table }
    requires object { IsObject bytes.now symbols }
    requires there { number < symbol_count (section_at bytes.now symbols) }
    ensures value { result ≡ function_of (symbol_at bytes.now (section_at bytes.now symbols) number) }
    ensures inside { IfSome result (λ function. LiesIn bytes.now function) }
{
    function_of(&symbol_of(bytes, table, symbols, number))
}
