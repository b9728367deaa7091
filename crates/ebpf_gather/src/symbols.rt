//! Functions by their symbols.

ghost use Rattle.std.specs.Prelude.{◌≡◌, ◌<◌, ◌+◌, ◌*◌, IfSome};
ghost use Rattle.ebpf_gather.specs.Functions.{begins_at, function_at, function_numbered, led_to};
ghost use Rattle.ebpf_object.specs.Functions.{LiesIn};
ghost use Rattle.ebpf_object.specs.Sections.{section_at};
ghost use Rattle.ebpf_object.specs.Symbols.{symbol_at, symbol_count};

use ebpf_object::{Function, Object};

/// The byte to which a call leads that stands at a byte, or whose symbol does (RFC 9669, 4.3.1): the immediate counts slots, from the
/// one behind.
pub(crate) fn led_to(from: usize, immediate: i32) -> i128
    ensures { result ≡ led_to from immediate }
{
    from as i128 + 8 * (i128::from(immediate) + 1)
}

/// A function, where it begins at this byte of a section.
fn begins_at(function: Function, section: usize, byte: i128) -> bool
    ensures { result ≡ begins_at section byte function }
{
    function.section == section && function.offset as i128 == byte
}

/// The function that the symbol with this number stands for, where it begins at this byte of a section.
fn function_numbered(
    object: &Object<'_>,
    section: usize,
    byte: i128,
    number: usize,
) -> Option<Function>
    requires { number < symbol_count (section_at object.now.bytes.now object.now.symbols) }
    ensures value { result ≡ function_numbered object.now.bytes.now object.now.symbols section byte number }
    ensures inside { IfSome result (λ function. LiesIn object.now.bytes.now function) }
{
    match object.function(number) {
        Some(function) if begins_at(function, section, byte) => Some(function),
        _ => None,
    }
}

/// The function that begins at this byte of a section: that of the first symbol, where several stand for one.
#[tactic(auto, using(crate::proofs::First::none_up_to))]
pub(crate) fn function_at(object: &Object<'_>, section: usize, byte: i128) -> Option<Function>
    ensures value { result ≡ function_at object.now.bytes.now object.now.symbols section byte }
    ensures inside { IfSome result (λ function. LiesIn object.now.bytes.now function) }
{
    for number in 0..object.symbol_count() {
        if let Some(function) = function_numbered(object, section, byte, number) {
            return Some(function);
        }
    }
    None
}
