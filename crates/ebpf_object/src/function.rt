//! Functions.

ghost use Rattle.std.specs.Prelude.{◌≡◌, ◌<◌, ◌≤◌, ◌+◌, ◌*◌, length};
ghost use Rattle.ebpf_object.specs.Functions.{function_of, part_of};

use crate::symbol::{Place, Symbol, SymbolKind};

/// A function: a part of a section.
#[derive(Clone, Copy, Debug, PartialEq, Eq)]
pub struct Function {
    /// The number of the section.
    pub section: usize,
    /// The byte of the section at which it begins.
    pub offset: usize,
    /// How many slots of 8 bytes it has (RFC 9669, 3).
    pub slots: usize,
}

/// The function that a symbol stands for, where it stands for one of this object.
pub(crate) fn function_of(symbol: &Symbol) -> Option<Function>
    ensures { result ≡ function_of symbol.now }
{
    match (symbol.kind, symbol.place) {
        (SymbolKind::Function, Place::Section(section)) => Some(Function {
            section,
            offset: symbol.value,
            slots: symbol.size / 8,
        }),
        _ => None,
    }
}
