//! Symbols (gABI, chapter 4, Symbol Table).

ghost use Rattle.std.specs.Prelude.{◌≡◌, ◌+◌, ◌*◌, ◌<◌, ◌≤◌, ◌^◌, length};
ghost use Rattle.ebpf_object.specs.Symbols.{binding, is_whole, symbol_entry, symbol_kind, symbol_place};

use crate::fields::{double_word_at, half_at, word_at};
use crate::section::SectionKind;

/// The bytes of an entry of a symbol table.
pub const SYMBOL_BYTES: usize = 24;

/// The lowest section number that stands for no section (`SHN_LORESERVE`).
pub const LOWEST_RESERVED: usize = 0xff00;

/// Who sees a symbol: the upper half of `st_info`.
#[derive(Clone, Copy, Debug, PartialEq, Eq)]
pub enum Binding {
    /// Only the object (`STB_LOCAL`).
    Local,
    /// All objects that are linked with it (`STB_GLOBAL`).
    Global,
    /// All, where none of them has it as a global one (`STB_WEAK`).
    Weak,
    /// A binding of another number.
    Other(u8),
}

/// What a symbol stands for: the lower half of `st_info`.
#[derive(Clone, Copy, Debug, PartialEq, Eq)]
pub enum SymbolKind {
    /// What isn't told, as a label or what is not in the object (`STT_NOTYPE`).
    Untold,
    /// Data (`STT_OBJECT`).
    Data,
    /// A function (`STT_FUNC`).
    Function,
    /// A section (`STT_SECTION`).
    Section,
    /// A source file (`STT_FILE`).
    File,
    /// A type of another number.
    Other(u8),
}

/// Where a symbol is (`st_shndx`).
#[derive(Clone, Copy, Debug, PartialEq, Eq)]
pub enum Place {
    /// Not in this object (`SHN_UNDEF`).
    Undefined,
    /// In the section with this number.
    Section(usize),
    /// In no section: a number that stands for itself, or another of the reserved meanings (`SHN_LORESERVE` and above).
    Reserved(usize),
}

impl Binding {
    /// The binding with this number.
    fn from_number(number: u8) -> Binding
        ensures { result ≡ binding number }
    {
        match number {
            0 => Binding::Local,
            1 => Binding::Global,
            2 => Binding::Weak,
            _ => Binding::Other(number),
        }
    }
}

impl SymbolKind {
    /// What a symbol with this number as its type stands for.
    fn from_number(number: u8) -> SymbolKind
        ensures { result ≡ symbol_kind number }
    {
        match number {
            0 => SymbolKind::Untold,
            1 => SymbolKind::Data,
            2 => SymbolKind::Function,
            3 => SymbolKind::Section,
            4 => SymbolKind::File,
            _ => SymbolKind::Other(number),
        }
    }
}

impl Place {
    /// The place with this number.
    fn from_number(number: usize) -> Place
        ensures { result ≡ symbol_place number }
    {
        match number {
            0 => Place::Undefined,
            LOWEST_RESERVED.. => Place::Reserved(number),
            _ => Place::Section(number),
        }
    }
}

/// A symbol.
#[derive(Clone, Copy, Debug, PartialEq, Eq)]
pub struct Symbol {
    /// Where its name begins in the names of symbols (`st_name`).
    pub name: usize,
    /// Who sees it.
    pub binding: Binding,
    /// What it stands for.
    pub kind: SymbolKind,
    /// Where it is (`st_shndx`).
    pub place: Place,
    /// Of a symbol in a section the byte of the section at which it begins (`st_value`).
    pub value: usize,
    /// How many bytes it has (`st_size`).
    pub size: usize,
}

/// The symbol whose entry is at this byte.
pub(crate) fn symbol_entry(bytes: &[u8], at: usize) -> Symbol
    requires { at + SYMBOL_BYTES ≤ length bytes.now }
    ensures { result ≡ symbol_entry bytes.now at }
{
    let info = bytes[at + 4];
    Symbol {
        name: word_at(bytes, at),
        binding: Binding::from_number(info / 16),
        kind: SymbolKind::from_number(info % 16),
        place: Place::from_number(half_at(bytes, at + 6)),
        value: double_word_at(bytes, at + 8),
        size: double_word_at(bytes, at + 16),
    }
}

impl Symbol {
    /// Is it no function, or one that is whole slots of 8 bytes in a section of this kind (RFC 9669, 3)?
    pub(crate) fn is_whole(&self, kind: SectionKind) -> bool
        ensures { result ≡ is_whole self.now kind }
    {
        self.kind != SymbolKind::Function
            || (self.value % 8 == 0 && self.size % 8 == 0 && kind == SectionKind::ProgramBits)
    }
}
