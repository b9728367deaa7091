//! Addresses in constant data, as a table of texts has: relocations say where they are, and what of.

ghost use Rattle.std.specs.Prelude.{◌<◌};
ghost use Rattle.ebpf_object.specs.Objects.{section_count};

use crate::fault::{GatherFault, SlotProblem};
use crate::slots::{Found, Place, Use};
use crate::wanted::number_of;
use ebpf_inline::FunctionSlot;
use ebpf_object::{Object, Relocation, RelocationKind, SectionKind};
use instruction_set::{Instruction, Register, Size};
use program_interface::{MOST_SLOTS, STACK_BYTES};
use std::alloc::{AllocError, Global};

/// The bytes of an address.
const ADDRESS_BYTES: usize = 8;

/// A byte of a section of data, by the section's number in the program.
#[derive(Clone, Copy)]
struct DataByte {
    section: usize,
    byte: usize,
}

/// Data that has the address of other data.
#[derive(Clone, Copy)]
struct DataAddress {
    at: DataByte,
    to: DataByte,
}

/// The number that eight bytes of a section spell, the lowest first.
fn number_at(contents: &[u8], byte: usize) -> u64 {
    let mut number = 0;
    for back in 0..ADDRESS_BYTES {
        let place = byte.saturating_add(ADDRESS_BYTES - 1 - back);
        let digit = match contents.get(place) {
            Some(found) => u64::from(*found),
            None => 0,
        };
        number = (number << 8) | digit;
    }
    number
}

/// Has a section constant data?
fn is_constant(object: &Object<'_>, section: usize) -> bool
    requires { section < section_count object.now.bytes.now }
{
    let section = object.section(section);
    matches!(section.kind, SectionKind::ProgramBits | SectionKind::NoBits) && section.flags % 2 == 0
}

/// Has a section instructions (`SHF_EXECINSTR`)?
fn is_code(object: &Object<'_>, section: usize) -> bool
    requires { section < section_count object.now.bytes.now }
{
    object.section(section).flags / 4 % 2 != 0
}

/// The byte of which section of the object a relocation puts the address into a section's byte, if it is one of constant data.
fn addressed(
    object: &Object<'_>,
    section: usize,
    byte: usize,
    relocation: Relocation,
) -> Result<(usize, usize), SlotProblem>
    requires { section < section_count object.now.bytes.now }
{
    if relocation.kind != Some(RelocationKind::Address64) || byte % ADDRESS_BYTES != 0 {
        return Err(SlotProblem::OtherAddress);
    }
    if relocation.symbol >= object.symbol_count() {
        return Err(SlotProblem::OtherAddress);
    }
    let symbol = object.symbol(relocation.symbol);
    let ebpf_object::Place::Section(to) = symbol.place else {
        return Err(SlotProblem::OtherAddress);
    };
    if is_code(object, to) {
        return Err(SlotProblem::FunctionAddress);
    }
    if !is_constant(object, to) {
        return Err(SlotProblem::OtherAddress);
    }
    let more = number_at(object.contents(section), byte);
    let size = object.section(to).size;
    if symbol.value > size || more > (size - symbol.value) as u64 {
        return Err(SlotProblem::OtherAddress);
    }
    Ok((to, symbol.value + more as usize))
}

/// The fault of data that a slot refers to.
fn fault_of(by: Place, problem: SlotProblem) -> GatherFault {
    GatherFault::Slot {
        function: by.symbol,
        slot: by.slot,
        problem,
    }
}

/// The address that a byte of a section begins, if a relocation puts one there.
fn address_at(
    object: &Object<'_>,
    at: DataByte,
    section: usize,
    by: Place,
    found: &mut Found,
) -> Result<Option<DataAddress>, GatherFault>
    requires { section < section_count object.now.bytes.now }
{
    let Some((_, _, relocation)) = object.change(section, at.byte) else {
        return Ok(None);
    };
    let (to, byte) = match addressed(object, section, at.byte, relocation) {
        Ok(found) => found,
        Err(problem) => return Err(fault_of(by, problem)),
    };
    let number = number_of(&mut found.sections, to)?;
    found.note_use(object, number, byte, by)?;
    let to = DataByte {
        section: number,
        byte,
    };
    Ok(Some(DataAddress { at, to }))
}

/// Is there an address among these that is put at a byte?
fn is_there(all: &[DataAddress], at: DataByte) -> bool {
    all.iter().any(|address| address.at.section == at.section && address.at.byte == at.byte)
}

/// Adds the addresses that are in bytes which are used.
fn push_addresses(
    object: &Object<'_>,
    used: Use,
    found: &mut Found,
    all: &mut Vec<DataAddress>,
) -> Result<(), GatherFault> {
    let section = match found.sections.get(used.section) {
        Some(section) if *section < object.section_count() => *section,
        _ => return Ok(()),
    };
    let end = object.section(section).size.min(STACK_BYTES).min(used.end);
    for byte in used.first..end {
        let at = DataByte {
            section: used.section,
            byte,
        };
        if is_there(all, at) {
            continue;
        }
        if let Some(address) = address_at(object, at, section, used.by, found)? {
            all.extend_from_slice(&[address])?;
        }
    }
    Ok(())
}

/// Two slots that give a register an address of data.
fn given(dst: Register, of: DataByte) -> [FunctionSlot; 2] {
    let address = FunctionSlot::Address {
        dst,
        section: of.section,
        byte: of.byte,
    };
    [address, FunctionSlot::Inside]
}

/// Adds slots that put an address where it is to be.
fn push_stored(slots: &mut Vec<FunctionSlot>, address: DataAddress) -> Result<(), AllocError> {
    let (at, to) = (Register::from_number(5), Register::from_number(4));
    slots.extend_from_slice(&given(to, address.to))?;
    slots.extend_from_slice(&given(at, address.at))?;
    slots.extend_from_slice(&[FunctionSlot::Begins(Instruction::StoreRegister {
        size: Size::DoubleWord,
        dst: at,
        src: to,
        offset: 0,
    })])
}

/// Slots that put the addresses into constant data, in front of all others. Adds the sections that they are addresses of.
///
/// # Errors
///
/// Data has another address, of which the first slot tells that refers to its section.
pub(crate) fn stored_addresses(
    alloc: Global,
    object: &Object<'_>,
    found: &mut Found,
) -> Result<Vec<FunctionSlot>, GatherFault> {
    let mut all = Vec::new(alloc);
    for number in 0..MOST_SLOTS {
        let Some(used) = found.uses.get(number) else {
            break;
        };
        let used = *used;
        push_addresses(object, used, found, &mut all)?;
    }
    let mut slots = Vec::new(alloc);
    for address in &all {
        push_stored(&mut slots, *address)?;
    }
    Ok(slots)
}
