//! What changes a slot, and its fields.

ghost use Rattle.std.specs.Prelude.{◌≡◌, ◌<◌, ◌+◌, ◌*◌, IfSome, MatchOption};
ghost use Rattle.ebpf_gather.specs.References.{byte_of, change_of, wide_value};
ghost use Rattle.ebpf_object.specs.Functions.{LiesIn, IsFirstChange, NoChange};
ghost use Rattle.ebpf_object.specs.Objects.{section_count};
ghost use Rattle.ebpf_object.specs.Sections.{section_at};
ghost use Rattle.ebpf_object.specs.Symbols.{symbol_count};

use ebpf_object::{Function, Object, Relocation};
use instruction_set::Fields;

/// The byte of its section at which a slot of a function begins.
pub(crate) fn byte_of(object: &Object<'_>, function: Function, slot: usize) -> usize
    requires inside { LiesIn object.now.bytes.now function }
    requires there { slot < function.slots }
    ensures { result ≡ byte_of function slot }
{
    let _section = object.contents(function.section);
    function.offset + 8 * slot
}

/// The first relocation that changes what begins at this byte of a section.
pub(crate) fn change_of(object: &Object<'_>, section: usize, byte: usize) -> Option<Relocation>
    ensures value { result ≡ change_of object.now.bytes.now section byte }
    ensures symbol { IfSome result (λ r. r.symbol < symbol_count (section_at object.now.bytes.now object.now.symbols)) }
{
    match object.change(section, byte) {
        Some((_, _, relocation)) => Some(relocation),
        None => None,
    }
}

/// The number of a wide instruction: its lower half stands in the first slot, the upper one in the next (RFC 9669, 5.4).
pub(crate) fn wide_value(fields: &Fields, next: Option<Fields>) -> u64
    ensures { result ≡ wide_value fields.now next }
{
    let low = u64::from(fields.immediate.cast_unsigned());
    match next {
        None => low,
        Some(second) => low + 0x1_0000_0000 * u64::from(second.immediate.cast_unsigned()),
    }
}
