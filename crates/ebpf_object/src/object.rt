//! Objects.

ghost use Rattle.std.specs.Prelude.{ℕ, ◌≡◌, ◌<◌, ◌≤◌, ◌+◌, ◌*◌, length, IfErr, IfOk, IfSome, IsTrue, MatchOption, MatchResult, None};
ghost use Rattle.ebpf_object.specs.Faults.{header_fault, section_fault};
ghost use Rattle.ebpf_object.specs.First.{NoneHas};
ghost use Rattle.ebpf_object.specs.Functions.{IsFirstChange, LiesIn, NoChange, code_of, function_of};
ghost use Rattle.ebpf_object.specs.Objects.{AreApart, AreSections, AreSymbols, IsObject, IsSymbolTable, IsTold, relocations_in, section_count, section_name, symbol_name};
ghost use Rattle.ebpf_object.specs.Relocations.{relocation_at};
ghost use Rattle.ebpf_object.specs.Sections.{HeadersAre, contents, lies_inside, section_at};
ghost use Rattle.ebpf_object.specs.Symbols.{symbol_at, symbol_count};

use crate::changes::first_change;
use crate::fault::ObjectFault;
use crate::function::Function;
use crate::header::{SectionTable, header_fault, section_table};
use crate::names::name_in;
use crate::parts::{function_with, relocation_of, section_of, symbol_of, symbol_table_of};
use crate::relocation::{RELOCATION_BYTES, Relocation};
use crate::search::{faulty_relocation, faulty_section, faulty_symbol, symbol_table};
use crate::section::{Section, SectionKind, contents, section_at};
use crate::symbol::{Place, SYMBOL_BYTES, Symbol};

/// What the header of a file of sections says, where it has no fault.
#[tactic(auto, using(crate::proofs::Passed::headers_are, crate::proofs::Passed::names_there, crate::proofs::Passed::is_long))]
fn checked_header(bytes: &[u8]) -> Result<SectionTable, ObjectFault>
    ensures header { MatchResult result (λ _. header_fault bytes.now ≡ None) (λ fault. IsTold bytes.now fault) }
    ensures headers { IfOk result (λ table. HeadersAre bytes.now table) }
    ensures names { IfOk result (λ table. table.names < table.count) }
{
    match header_fault(bytes) {
        Some(fault) => Err(ObjectFault::Header(fault)),
        None => Ok(section_table(bytes)),
    }
}

/// The number of the symbol table, where neither the header nor a section has a fault.
fn checked_sections(bytes: &[u8], table: SectionTable) -> Result<usize, ObjectFault>
    requires header { header_fault bytes.now ≡ None }
    requires headers { HeadersAre bytes.now table }
    requires names { table.names < table.count }
    ensures { MatchResult result (λ symbols. AreSections bytes.now symbols) (λ fault. IsTold bytes.now fault) }
{
    let Some(symbols) = symbol_table(bytes, table) else {
        return Err(ObjectFault::NoSymbols);
    };
    match faulty_section(bytes, table, symbols) {
        Some((section, fault)) => Err(ObjectFault::Section { section, fault }),
        None => Ok(symbols),
    }
}

/// Whether no symbol has a fault.
fn checked_symbols(bytes: &[u8], table: SectionTable, symbols: usize) -> Result<(), ObjectFault>
    requires headers { HeadersAre bytes.now table }
    requires sections { AreSections bytes.now symbols }
    ensures { MatchResult result (λ _. AreSymbols bytes.now symbols) (λ fault. IsTold bytes.now fault) }
{
    match faulty_symbol(bytes, table, section_at(bytes, table, symbols)) {
        Some((symbol, fault)) => Err(ObjectFault::Symbol { symbol, fault }),
        None => Ok(()),
    }
}

/// Whether no relocation has a fault.
fn checked_relocations(bytes: &[u8], table: SectionTable, symbols: usize) -> Result<(), ObjectFault>
    requires headers { HeadersAre bytes.now table }
    requires symbols_are { AreSymbols bytes.now symbols }
    ensures { MatchResult result (λ _. IsObject bytes.now symbols) (λ fault. IsTold bytes.now fault) }
{
    match faulty_relocation(bytes, table, symbols) {
        Some((section, number, fault)) => Err(ObjectFault::Relocation {
            section,
            number,
            fault,
        }),
        None => Ok(()),
    }
}

/// A relocatable object of eBPF: a file in which nothing has a fault.
#[derive(Drop)]
pub struct Object<'a> {
    /// The file's bytes.
    pub bytes: &'a [u8],
    /// Where its section headers are.
    pub table: SectionTable,
    /// The number of its symbol table.
    pub symbols: usize,
    ghost headers: { HeadersAre bytes.now table },
    ghost object: { IsObject bytes.now symbols },
}

impl<'a> Object<'a> {
    /// The object whose bytes these are; no byte of the file is in two of its sections. It asks for no memory, and takes a time that
    /// goes with the number of bytes and with the square of that of the sections.
    ///
    /// # Errors
    ///
    /// The first fault: of the header, else of the sections, else of the symbols, else of the relocations.
    pub fn read(bytes: &'a [u8]) -> Result<Object<'a>, ObjectFault>
        ensures found { IfOk result (λ object. object.bytes.now ≡ bytes.now) }
        ensures apart { IfOk result (λ _. AreApart bytes.now) }
        ensures told { IfErr result (λ fault. IsTold bytes.now fault) }
    {
        let table = checked_header(bytes)?;
        let symbols = checked_sections(bytes, table)?;
        checked_symbols(bytes, table, symbols)?;
        checked_relocations(bytes, table, symbols)?;
        Ok(Object {
            bytes,
            table,
            symbols,
        })
    }

    /// How many sections it has.
    pub fn section_count(&self) -> usize
        ensures { result ≡ section_count self.now.bytes.now }
    {
        self.table.count
    }

    /// The section with this number.
    pub fn section(&self, number: usize) -> Section
        requires { number < section_count self.now.bytes.now }
        ensures value { result ≡ section_at self.now.bytes.now number }
        ensures inside { IsTrue (lies_inside self.now.bytes.now result) }
    {
        section_of(self.bytes, self.table, self.symbols, number)
    }

    /// The symbol table.
    fn symbol_table(&self) -> Section
        ensures value { result ≡ section_at self.now.bytes.now self.now.symbols }
        ensures inside { result.offset + result.size ≤ length self.now.bytes.now }
        ensures strings { result.link < section_count self.now.bytes.now }
    {
        symbol_table_of(self.bytes, self.table, self.symbols)
    }

    /// The bytes of the section with this number.
    pub fn contents(&self, number: usize) -> &'a [u8]
        requires { number < section_count self.now.bytes.now }
        ensures { result.now ≡ contents self.now.bytes.now (section_at self.now.bytes.now number) }
    {
        contents(self.bytes, self.section(number))
    }

    /// How many symbols it has.
    pub fn symbol_count(&self) -> usize
        ensures { result ≡ symbol_count (section_at self.now.bytes.now self.now.symbols) }
    {
        self.symbol_table().size / SYMBOL_BYTES
    }

    /// The symbol with this number.
    pub fn symbol(&self, number: usize) -> Symbol
        requires { number < symbol_count (section_at self.now.bytes.now self.now.symbols) }
        ensures value { result ≡ symbol_at self.now.bytes.now (section_at self.now.bytes.now self.now.symbols) number }
        // Where it is in a section, that is there.
        ensures there { (section : ℕ) → result.place ≡ Place.Section section → section < section_count self.now.bytes.now }
    {
        symbol_of(self.bytes, self.table, self.symbols, number)
    }

    /// How many relocations the section with this number has; none, where it is no section of relocations.
    pub fn relocation_count(&self, section: usize) -> usize
        requires { section < section_count self.now.bytes.now }
        ensures { result ≡ relocations_in self.now.bytes.now section }
    {
        let section = self.section(section);
        match section.kind {
            SectionKind::Relocations => section.size / RELOCATION_BYTES,
            _ => 0,
        }
    }

    /// The relocation with this number of the section with that one.
    pub fn relocation(&self, section: usize, number: usize) -> Relocation
        requires section { section < section_count self.now.bytes.now }
        requires there { number < relocations_in self.now.bytes.now section }
        ensures value { result ≡ relocation_at self.now.bytes.now (section_at self.now.bytes.now section) number }
        // Its symbol is there.
        ensures symbol { result.symbol < symbol_count (section_at self.now.bytes.now self.now.symbols) }
    {
        relocation_of(self.bytes, self.table, self.symbols, section, number)
    }

    /// The name of the section with this number.
    pub fn section_name(&self, number: usize) -> &'a [u8]
        requires { number < section_count self.now.bytes.now }
        ensures { result.now ≡ section_name self.now.bytes.now number }
    {
        name_in(self.contents(self.table.names), self.section(number).name)
    }

    /// The name of the symbol with this number.
    pub fn symbol_name(&self, number: usize) -> &'a [u8]
        requires { number < symbol_count (section_at self.now.bytes.now self.now.symbols) }
        ensures { result.now ≡ symbol_name self.now.bytes.now self.now.symbols number }
    {
        name_in(
            self.contents(self.symbol_table().link),
            self.symbol(number).name,
        )
    }

    /// The function that the symbol with this number stands for; `None` where it stands for something else, or for a function
    /// that isn't in this object.
    pub fn function(&self, number: usize) -> Option<Function>
        requires { number < symbol_count (section_at self.now.bytes.now self.now.symbols) }
        ensures value { result ≡ function_of (symbol_at self.now.bytes.now (section_at self.now.bytes.now self.now.symbols) number) }
        // It lies in a section that is there.
        ensures inside { IfSome result (λ function. LiesIn self.now.bytes.now function) }
    {
        function_with(self.bytes, self.table, self.symbols, number)
    }

    /// The bytes of a function.
    pub fn code(&self, function: Function) -> &'a [u8]
        requires { LiesIn self.now.bytes.now function }
        ensures value { result.now ≡ code_of self.now.bytes.now function }
        ensures whole { length result.now ≡ 8 * function.slots }
    {
        &self.contents(function.section)[function.offset..][..8 * function.slots]
    }

    /// The first relocation that changes what begins at this byte of a section, with the number of the section that has it, and its
    /// number there. `None` where nothing changes it.
    pub fn change(&self, section: usize, byte: usize) -> Option<(usize, usize, Relocation)>
        ensures first { MatchOption result (NoChange self.now.bytes.now section byte (section_count self.now.bytes.now))
            (λ found. IsFirstChange self.now.bytes.now section byte found.0 found.1 found.2) }
        // Its symbol is there.
        ensures symbol { IfSome result (λ found. found.2.symbol < symbol_count (section_at self.now.bytes.now self.now.symbols)) }
    {
        first_change(self, section, byte)
    }
}
