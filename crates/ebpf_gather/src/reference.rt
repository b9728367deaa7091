//! What a slot refers to.

ghost use Rattle.std.specs.Prelude.{◌≡◌, ◌<◌, IfOk};
ghost use Rattle.ebpf_gather.specs.References.{LiesWithin, address, addressed_by, called, called_by, changed, is_data, is_local_call, is_wide_number, reference_of, unchanged};
ghost use Rattle.ebpf_object.specs.Functions.{LiesIn};
ghost use Rattle.ebpf_object.specs.Objects.{section_count};
ghost use Rattle.ebpf_object.specs.Sections.{section_at};
ghost use Rattle.ebpf_object.specs.Symbols.{symbol_count};

use crate::fault::ReferenceFault;
use crate::lookup::{byte_of, change_of, wide_value};
use crate::symbols::{function_at, led_to};
use ebpf_decode::slot_at;
use ebpf_object::{Function, Object, Place, Relocation, RelocationKind, Section, SectionKind};
use instruction_set::Fields;
use instruction_set::codes::{CALL, IMM, JMP, LD};

/// The opcode of a call (RFC 9669, 4.3.1).
pub const CALL_OPCODE: u8 = 16 * CALL + JMP;

/// The source register's number in a call of a function (RFC 9669, 4.3.2).
pub const LOCAL_CALL: u8 = 1;

/// The opcode of the wide instruction (RFC 9669, 5.4).
pub const WIDE_OPCODE: u8 = 32 * IMM + 8 * 3 + LD;

/// What a slot refers to.
#[derive(Clone, Copy, Debug, PartialEq, Eq)]
pub enum Reference {
    /// Nothing of an object.
    Nothing,
    /// A function of the object, which it calls.
    Function(Function),
    /// Data, whose address it gives: this byte of the section with that number.
    Data {
        /// The number of the section.
        section: usize,
        /// The byte of the section: one that it has, or the one behind its last.
        byte: usize,
    },
    /// A function or data of another object: the number of its symbol.
    Missing(usize),
}

/// Has a section of this kind data?
fn is_data(kind: SectionKind) -> bool
    ensures { result ≡ is_data kind }
{
    matches!(kind, SectionKind::ProgramBits | SectionKind::NoBits)
}

/// The function that a call leads to.
fn called(object: &Object<'_>, section: usize, byte: i128) -> Result<Reference, ReferenceFault>
    ensures value { result ≡ called object.now.bytes.now object.now.symbols section byte }
    ensures inside { IfOk result (λ found. LiesWithin object.now.bytes.now found) }
{
    match function_at(object, section, byte) {
        Some(function) => Ok(Reference::Function(function)),
        None => Err(ReferenceFault::NoFunction),
    }
}

/// The data at an address: so many bytes behind a symbol.
fn address(
    section: Section,
    number: usize,
    value: usize,
    more: u64,
) -> Result<Reference, ReferenceFault>
    ensures { result ≡ address section number value more }
{
    if !is_data(section.kind) {
        return Err(ReferenceFault::NoData);
    }
    if section.flags % 2 != 0 {
        return Err(ReferenceFault::Writable);
    }
    if value > section.size || more > (section.size - value) as u64 {
        return Err(ReferenceFault::Outside);
    }
    Ok(Reference::Data {
        section: number,
        byte: value + more as usize,
    })
}

/// What a call refers to whose relocation has the symbol with this number.
fn called_by(
    object: &Object<'_>,
    symbol: usize,
    fields: &Fields,
) -> Result<Reference, ReferenceFault>
    requires { symbol < symbol_count (section_at object.now.bytes.now object.now.symbols) }
    ensures value { result ≡ called_by object.now.bytes.now object.now.symbols symbol fields.now.immediate }
    ensures inside { IfOk result (λ found. LiesWithin object.now.bytes.now found) }
{
    let told = object.symbol(symbol);
    match told.place {
        Place::Undefined => Ok(Reference::Missing(symbol)),
        Place::Reserved(_) => Err(ReferenceFault::Symbol),
        Place::Section(section) => called(object, section, led_to(told.value, fields.immediate)),
    }
}

/// What a wide instruction with this number refers to whose relocation has the symbol with that one.
fn addressed_by(object: &Object<'_>, symbol: usize, more: u64) -> Result<Reference, ReferenceFault>
    requires { symbol < symbol_count (section_at object.now.bytes.now object.now.symbols) }
    ensures value { result ≡ addressed_by object.now.bytes.now object.now.symbols symbol more }
    ensures inside { IfOk result (λ found. LiesWithin object.now.bytes.now found) }
{
    let told = object.symbol(symbol);
    match told.place {
        Place::Undefined => Ok(Reference::Missing(symbol)),
        Place::Reserved(_) => Err(ReferenceFault::Symbol),
        Place::Section(section) => address(object.section(section), section, told.value, more),
    }
}

/// What an instruction refers to that a relocation changes.
fn changed(
    object: &Object<'_>,
    fields: &Fields,
    next: Option<Fields>,
    relocation: Relocation,
) -> Result<Reference, ReferenceFault>
    requires { relocation.symbol < symbol_count (section_at object.now.bytes.now object.now.symbols) }
    ensures value { result ≡ changed object.now.bytes.now object.now.symbols fields.now next relocation }
    ensures inside { IfOk result (λ found. LiesWithin object.now.bytes.now found) }
{
    match relocation.kind {
        Some(RelocationKind::Call) if is_local_call(fields) => {
            called_by(object, relocation.symbol, fields)
        }
        Some(RelocationKind::WideImmediate) if is_wide_number(fields) => {
            addressed_by(object, relocation.symbol, wide_value(fields, next))
        }
        _ => Err(ReferenceFault::Relocation),
    }
}

/// Does it call a function of the program (RFC 9669, 4.3.2)?
fn is_local_call(fields: &Fields) -> bool
    ensures { result ≡ is_local_call fields.now }
{
    fields.opcode == CALL_OPCODE && fields.src == LOCAL_CALL
}

/// Is it a wide instruction that gives a number (RFC 9669, 5.4)?
fn is_wide_number(fields: &Fields) -> bool
    ensures { result ≡ is_wide_number fields.now }
{
    fields.opcode == WIDE_OPCODE && fields.src == 0
}

/// What an instruction at this byte of a section refers to that no relocation changes.
fn unchanged(
    object: &Object<'_>,
    section: usize,
    byte: usize,
    fields: &Fields,
) -> Result<Reference, ReferenceFault>
    ensures value { result ≡ unchanged object.now.bytes.now object.now.symbols section byte fields.now }
    ensures inside { IfOk result (λ found. LiesWithin object.now.bytes.now found) }
{
    if is_local_call(fields) {
        called(object, section, led_to(byte, fields.immediate))
    } else {
        Ok(Reference::Nothing)
    }
}

/// What a slot of a function refers to.
///
/// # Errors
///
/// A relocation that goes with no call and no wide instruction; a symbol that is in no section; a call that leads to no function; an
/// address of a section without data, of data that can be changed, or behind the section's end.
pub fn reference_of(
    object: &Object<'_>,
    function: Function,
    slot: usize,
) -> Result<Reference, ReferenceFault>
    requires inside { LiesIn object.now.bytes.now function }
    requires there { slot < function.slots }
    ensures value { result ≡ reference_of object.now.bytes.now object.now.symbols function slot }
    // A function that is called lies in a section that is there, and so does a byte.
    ensures found { IfOk result (λ found. LiesWithin object.now.bytes.now found) }
{
    let byte = byte_of(object, function, slot);
    let code = object.code(function);
    let Some(fields) = slot_at(code, slot) else {
        return Ok(Reference::Nothing);
    };
    match change_of(object, function.section, byte) {
        Some(relocation) => changed(object, &fields, slot_at(code, slot + 1), relocation),
        None => unchanged(object, function.section, byte, &fields),
    }
}
