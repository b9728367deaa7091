//! Why bytes are no object.

use thiserror::Error;

/// Why the ELF header is none of an eBPF object: each but the first tells the byte of the header at which its field begins.
#[derive(Clone, Copy, Debug, PartialEq, Eq, Error)]
pub enum HeaderFault {
    /// There are fewer bytes than a header has.
    #[error("shorter than the 64 bytes of an ELF header")]
    Short,
    /// The magic number (`e_ident[EI_MAG0]` to `EI_MAG3`).
    #[error("byte 0: not the magic number of an ELF file")]
    Magic,
    /// The class (`e_ident[EI_CLASS]`).
    #[error("byte 4: not the class of objects of 64 bits")]
    Class,
    /// The data encoding (`e_ident[EI_DATA]`).
    #[error("byte 5: not little-endian")]
    Encoding,
    /// The object file's type (`e_type`).
    #[error("byte 16: not a relocatable file")]
    Type,
    /// The machine (`e_machine`).
    #[error("byte 18: not an object of eBPF")]
    Machine,
    /// The size of a section header (`e_shentsize`).
    #[error("byte 58: section headers of another size than 64 bytes")]
    HeaderSize,
    /// The section headers lie outside the file (`e_shoff`, `e_shnum`).
    #[error("byte 40: the section headers end behind the file")]
    Outside,
    /// The section with the names of sections (`e_shstrndx`) is not there, or is no string table.
    #[error("byte 62: names of sections in a section that is no string table")]
    Names,
}

/// Why a section is none that an eBPF object can have.
#[derive(Clone, Copy, Debug, PartialEq, Eq, Error)]
pub enum SectionFault {
    /// Its contents end behind the file.
    #[error("ends behind the file")]
    Outside,
    /// Its name begins behind the names of sections.
    #[error("has a name behind the names of sections")]
    Name,
    /// It has bytes of the file in common with the section of this lower number, the first such one.
    #[error("has bytes that section {0} has too")]
    Overlap(usize),
    /// The last byte of a string table is not 0, or it has none.
    #[error("a string table that does not end with a 0")]
    Unended,
    /// The table's size is no multiple of what an entry takes.
    #[error("a table whose last entry is cut")]
    Entries,
    /// The names of a symbol table are in a section that is not there, or is no string table.
    #[error("symbols with names in a section that is no string table")]
    Strings,
    /// Relocations with symbols of a section that is not the first symbol table.
    #[error("relocations with symbols of another section than the symbol table")]
    Symbols,
    /// Relocations of a section that is not there, or has no bytes.
    #[error("relocations of a section that has no bytes")]
    Target,
    /// Relocations with addends of their own, which eBPF objects do not have.
    #[error("relocations with addends")]
    Addends,
}

/// Why a symbol is none that an eBPF object can have.
#[derive(Clone, Copy, Debug, PartialEq, Eq, Error)]
pub enum SymbolFault {
    /// Its name begins behind the names of symbols.
    #[error("has a name behind the names of symbols")]
    Name,
    /// Its section is not there.
    #[error("is in a section that is not there")]
    Section,
    /// It ends behind its section.
    #[error("ends behind its section")]
    Outside,
    /// A function that isn't whole slots of 8 bytes, or not in a section of code.
    #[error("a function that is not whole instructions")]
    Function,
}

/// Why a relocation is none that an eBPF object can have.
#[derive(Clone, Copy, Debug, PartialEq, Eq, Error)]
pub enum RelocationFault {
    /// Its symbol is not there.
    #[error("names a symbol that is not there")]
    Symbol,
    /// No relocation of eBPF has its type.
    #[error("has a type that no relocation of eBPF has")]
    Type,
    /// The bytes that it changes end behind their section.
    #[error("changes bytes behind its section")]
    Outside,
}

/// Why bytes are no eBPF object: the first fault of the header, else of the sections, else of the symbols, else of the
/// relocations.
#[derive(Clone, Copy, Debug, PartialEq, Eq, Error)]
pub enum ObjectFault {
    /// The ELF header is another.
    #[error("ELF header: {0}")]
    Header(HeaderFault),
    /// No section is a symbol table.
    #[error("no symbol table")]
    NoSymbols,
    /// A section.
    #[error("section {section}: {fault}")]
    Section {
        /// Its number.
        section: usize,
        /// What is wrong with it.
        fault: SectionFault,
    },
    /// A symbol of the symbol table.
    #[error("symbol {symbol}: {fault}")]
    Symbol {
        /// Its number.
        symbol: usize,
        /// What is wrong with it.
        fault: SymbolFault,
    },
    /// A relocation.
    #[error("section {section}, relocation {number}: {fault}")]
    Relocation {
        /// The number of the section that has it.
        section: usize,
        /// Its number in that section.
        number: usize,
        /// What is wrong with it.
        fault: RelocationFault,
    },
}
