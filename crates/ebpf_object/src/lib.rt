//! Relocatable objects of eBPF, as `clang -target bpf -c` makes them: ELF files of 64 bits, little-endian, with sections, symbols
//! and relocations. Reading one asks for no memory: what it has is read where it stands in the file.
#![tactic(auto)]

mod changes;
mod entry_fault;
mod fault;
mod fields;
mod function;
mod header;
mod names;
mod object;
mod parts;
mod relocation;
mod search;
mod section;
mod section_fault;
mod symbol;

pub use fault::{HeaderFault, ObjectFault, RelocationFault, SectionFault, SymbolFault};
pub use function::Function;
pub use header::SectionTable;
pub use object::Object;
pub use relocation::{Relocation, RelocationKind};
pub use section::{Section, SectionKind};
pub use symbol::{Binding, Place, Symbol, SymbolKind};
