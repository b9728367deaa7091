//! The function that a program starts with.

ghost use Rattle.std.specs.Prelude.{ℕ, ◌≡◌, ◌<◌, IfOk, IfSome};
ghost use Rattle.ebpf_gather.specs.Functions.{first_global, global_at, named_at, named_function, only_function, other_global, second_global};
ghost use Rattle.ebpf_object.specs.Functions.{LiesIn};
ghost use Rattle.ebpf_object.specs.Sections.{section_at};
ghost use Rattle.ebpf_object.specs.Symbols.{symbol_at, symbol_count};

use crate::fault::StartFault;
use ebpf_object::{Binding, Function, Object};

/// The number of a symbol that stands for a global function, with the function.
fn global_at(object: &Object<'_>, number: usize) -> Option<(usize, Function)>
    requires { number < symbol_count (section_at object.now.bytes.now object.now.symbols) }
    ensures value { result ≡ global_at object.now.bytes.now object.now.symbols number }
    ensures inside { IfSome result (λ found. LiesIn object.now.bytes.now found.1) }
{
    match object.function(number) {
        Some(function) if object.symbol(number).binding == Binding::Global => Some((
            number, function,
        )),
        _ => None,
    }
}

/// The first global function, with the number of its symbol.
#[tactic(auto, using(crate::proofs::First::none_up_to))]
fn first_global(object: &Object<'_>) -> Option<(usize, Function)>
    ensures value { result ≡ first_global object.now.bytes.now object.now.symbols }
    ensures inside { IfSome result (λ found. LiesIn object.now.bytes.now found.1) }
{
    for number in 0..object.symbol_count() {
        if let Some(found) = global_at(object, number) {
            return Some(found);
        }
    }
    None
}

/// The same of symbols with another number than this one.
fn other_global(object: &Object<'_>, first: usize, number: usize) -> Option<usize>
    requires { number < symbol_count (section_at object.now.bytes.now object.now.symbols) }
    ensures { result ≡ other_global object.now.bytes.now object.now.symbols first number }
{
    match global_at(object, number) {
        Some(_) if number != first => Some(number),
        _ => None,
    }
}

/// The number of the first symbol but this one that stands for a global function.
#[tactic(auto, using(crate::proofs::First::none_up_to))]
fn second_global(object: &Object<'_>, first: usize) -> Option<usize>
    ensures { result ≡ second_global object.now.bytes.now object.now.symbols first }
{
    for number in 0..object.symbol_count() {
        if let Some(found) = other_global(object, first, number) {
            return Some(found);
        }
    }
    None
}

/// The function that a program starts with: the only one that can be seen from outside its object.
///
/// # Errors
///
/// No function can be seen, or more than one.
pub fn only_function(object: &Object<'_>) -> Result<Function, StartFault>
    ensures value { result ≡ only_function object.now.bytes.now object.now.symbols }
    ensures inside { IfOk result (λ function. LiesIn object.now.bytes.now function) }
{
    let Some((first, function)) = first_global(object) else {
        return Err(StartFault::NoFunction);
    };
    match second_global(object, first) {
        Some(second) => Err(StartFault::Several(first, second)),
        None => Ok(function),
    }
}

/// The function that the symbol with this number stands for, where that has this name.
fn named_at(object: &Object<'_>, name: &[u8], number: usize) -> Option<Function>
    requires { number < symbol_count (section_at object.now.bytes.now object.now.symbols) }
    ensures value { result ≡ named_at object.now.bytes.now object.now.symbols name.now number }
    ensures inside { IfSome result (λ function. LiesIn object.now.bytes.now function) }
{
    if object.symbol_name(number) == name {
        object.function(number)
    } else {
        None
    }
}

/// The function with this name: that of the first symbol, where several have the name. `None` where there is none.
#[tactic(auto, using(crate::proofs::First::none_up_to))]
pub fn named_function(object: &Object<'_>, name: &[u8]) -> Option<Function>
    ensures value { result ≡ named_function object.now.bytes.now object.now.symbols name.now }
    ensures inside { IfSome result (λ function. LiesIn object.now.bytes.now function) }
{
    for number in 0..object.symbol_count() {
        if let Some(function) = named_at(object, name, number) {
            return Some(function);
        }
    }
    None
}
