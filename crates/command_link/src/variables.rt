//! The names of variables that instructions have the addresses of.

use crate::source::symbol_name;
use ebpf_gather::Origin;
use ebpf_object::{Function, Object, Place, Symbol, SymbolKind};

/// The lower half of the number of an instruction at a byte of code, which is added to the address of its symbol.
fn added_at(code: &[u8], byte: usize) -> usize {
    let mut number = 0;
    for back in 0..4 {
        let place = byte.saturating_add(7 - back);
        let digit = match code.get(place) {
            Some(found) => usize::from(*found),
            None => 0,
        };
        number = (number << 8) | digit;
    }
    number
}

/// Is a symbol that of a variable which has this byte of a section?
fn has(symbol: &Symbol, section: usize, byte: usize) -> bool {
    symbol.kind == SymbolKind::Data
        && symbol.place == Place::Section(section)
        && symbol.value <= byte
        && byte - symbol.value < symbol.size
}

/// The name of the variable that has a byte of a section.
fn name_at<'a>(object: &Object<'a>, section: usize, byte: usize) -> Option<&'a str> {
    for number in 0..object.symbol_count() {
        if has(&object.symbol(number), section, byte) {
            return Some(symbol_name(object, number));
        }
    }
    None
}

/// The function of a symbol, if it is one.
fn function_of(object: &Object<'_>, symbol: usize) -> Option<Function> {
    if symbol < object.symbol_count() {
        object.function(symbol)
    } else {
        None
    }
}

/// The name of the variable whose address an instruction gives, as far as it has one.
pub(crate) fn variable_name<'a>(object: &Object<'a>, origin: Origin) -> Option<&'a str> {
    let function = function_of(object, origin.symbol)?;
    let byte = function
        .offset
        .saturating_add(origin.slot.saturating_mul(8));
    let (_, _, relocation) = object.change(function.section, byte)?;
    if relocation.symbol >= object.symbol_count() {
        return None;
    }
    let symbol = object.symbol(relocation.symbol);
    let Place::Section(section) = symbol.place else {
        return None;
    };
    if function.section >= object.section_count() {
        return None;
    }
    let code = object.contents(function.section);
    let at = symbol.value.saturating_add(added_at(code, byte));
    name_at(object, section, at)
}
