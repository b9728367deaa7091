//! Where the instructions of a program access memory.

ghost use Rattle.std.specs.Prelude.{◌≡◌};
ghost use Rattle.instruction_set.specs.Program.{instruction_at};
ghost use Rattle.accepted_programs.specs.Places.{offset_from as offset_at_distance, offset_into as offset_in_area, place_from as place_of_bytes, place_known, place_of as place_of_instruction};
ghost use Rattle.verifier.specs.steps.Rows.{held};

use crate::cells::moved;
use crate::rows::Row;
use accepted_programs::Facts;
use instruction_set::{Instruction, Program, Register};
use program_interface::{Area, BlockSize};
use program_meaning::Place;
use word_domain::{Domain, Offsets};

/// A distance as an offset in an area, if it is one.
#[inline]
fn offset_from(distance: i128) -> Option<u16>
    ensures { result ≡ offset_at_distance distance }
{
    if 0 <= distance && distance < 0x1_0000 {
        Some(distance as u16)
    } else {
        None
    }
}

/// How far into an area an offset leads, from an address of which this is known.
fn offset_into(area: Area, told: Option<Offsets>, offset: i16) -> Option<u16>
    ensures { result ≡ offset_in_area area told offset }
{
    let told = told?;
    if told.area.address() == area.address() && told.low == told.high {
        offset_from(moved(told.low, offset))
    } else {
        None
    }
}

/// The place of so many bytes at an offset from a register.
fn place_from<D: Domain>(
    block: BlockSize,
    facts: &Facts<D>,
    register: Register,
    offset: i16,
    size: u64,
) -> Option<Place>
    ensures { result ≡ place_of_bytes D.operations block facts.now register offset size }
{
    let address = facts.get(register);
    let area = address.access(block, offset, size)?;
    let offset = offset_into(area, address.offsets(), offset);
    Some(Place { area, offset })
}

/// The place of what an instruction loads, stores or emits.
fn place_of<D: Domain>(
    block: BlockSize,
    facts: &Facts<D>,
    instruction: &Instruction,
) -> Option<Place>
    ensures { result ≡ place_of_instruction D.operations block facts.now instruction.now }
{
    if instruction.is_emit() {
        let most = facts.get(Register::R2).bounds().high;
        return place_from(block, facts, Register::R1, 0, most);
    }
    let access = instruction.access()?;
    let size = u64::from(access.size);
    place_from(block, facts, access.base, access.offset, size)
}

/// The place of what a program loads, stores or emits at a slot of which this is known.
pub(crate) fn place_in<D: Domain>(
    program: &Program,
    block: BlockSize,
    slot: usize,
    row: &Row<D>,
) -> Option<Place>
    ensures { result ≡ place_known D.operations block (instruction_at program.now slot) (held row.now) }
{
    match (program.at(slot), row) {
        (Some(instruction), Some(facts)) => place_of(block, facts, instruction),
        _ => None,
    }
}
