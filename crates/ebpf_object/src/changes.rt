//! What relocations change.

ghost use Rattle.std.specs.Prelude.{◌≡◌, ◌<◌, IfSome, MatchOption};
ghost use Rattle.ebpf_object.specs.First.{IsFirst, NoneHas};
ghost use Rattle.ebpf_object.specs.Functions.{IsFirstChange, NoChange, change_at, changes_in};
ghost use Rattle.ebpf_object.specs.Objects.{relocations_in, section_count};
ghost use Rattle.ebpf_object.specs.Sections.{section_at};
ghost use Rattle.ebpf_object.specs.Symbols.{symbol_count};

use crate::object::Object;
use crate::relocation::Relocation;

/// How many relocations a section has that are of this other section.
fn changes_in(object: &Object<'_>, section: usize, of: usize) -> usize
    requires { of < section_count object.now.bytes.now }
    ensures { result ≡ changes_in object.now.bytes.now section of }
{
    if object.section(of).info == section {
        object.relocation_count(of)
    } else {
        0
    }
}

/// The relocation with this number of a section of them, where what it changes begins at this byte.
fn change_at(object: &Object<'_>, byte: usize, of: usize, number: usize) -> Option<Relocation>
    requires there { of < section_count object.now.bytes.now }
    requires number { number < relocations_in object.now.bytes.now of }
    ensures value { result ≡ change_at object.now.bytes.now byte of number }
    ensures symbol { IfSome result (λ r. r.symbol < symbol_count (section_at object.now.bytes.now object.now.symbols)) }
{
    let relocation = object.relocation(of, number);
    if relocation.offset == byte {
        Some(relocation)
    } else {
        None
    }
}

/// The first relocation of a section of them that changes what begins at this byte of that section.
fn first_change_in(
    object: &Object<'_>,
    section: usize,
    byte: usize,
    of: usize,
) -> Option<(usize, Relocation)>
    requires { of < section_count object.now.bytes.now }
    ensures first { MatchOption result (NoneHas (change_at object.now.bytes.now byte of) (changes_in object.now.bytes.now section of))
        (λ found. IsFirst (change_at object.now.bytes.now byte of) (changes_in object.now.bytes.now section of) found.0 found.1) }
    ensures symbol { IfSome result (λ found. found.1.symbol < symbol_count (section_at object.now.bytes.now object.now.symbols)) }
{
    for number in 0..changes_in(object, section, of) {
        if let Some(relocation) = change_at(object, byte, of, number) {
            return Some((number, relocation));
        }
    }
    None
}

/// The first relocation that changes what begins at this byte of a section: the section that has it, its number there, and itself.
pub(crate) fn first_change(
    object: &Object<'_>,
    section: usize,
    byte: usize,
) -> Option<(usize, usize, Relocation)>
    ensures first { MatchOption result (NoChange object.now.bytes.now section byte (section_count object.now.bytes.now))
        (λ found. IsFirstChange object.now.bytes.now section byte found.0 found.1 found.2) }
    ensures symbol { IfSome result (λ found. found.2.symbol < symbol_count (section_at object.now.bytes.now object.now.symbols)) }
{
    for of in 0..object.section_count() {
        if let Some((number, relocation)) = first_change_in(object, section, byte, of) {
            return Some((of, number, relocation));
        }
    }
    None
}
