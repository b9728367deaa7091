//! In which areas an address may be, where its distance isn't known, and which registers have the same word.

use crate::area_sets::{ANY_AREA, AreaSet, NO_AREA};
use crate::known::Known;
use crate::liveness::{Registers, bit, writes};
use crate::stack::{cell_of, is_touched};
use accepted_programs::CELLS;
use instruction_set::{Instruction, Operation, Register, Size, Source, Width};
use program_interface::REGISTERS;
use word_domain::{Domain, Offsets};

/// The areas in which each register's address may be.
pub(crate) type Areas = [AreaSet; REGISTERS];

/// And of each cell of the stack.
pub(crate) type CellAreas = [AreaSet; CELLS];

/// A register that another one was copied from, whether all of its word was, and how much was added to all of it.
#[derive(Clone, Copy, PartialEq, Eq)]
pub(crate) struct Twin {
    pub register: Register,
    pub is_whole: bool,
    pub more: i32,
}

/// The most that is added to a copy, either way.
const MOST_MORE: i64 = 1 << 20;

/// The same copy, to which a number more is added.
fn with_more(twin: Twin, number: i64) -> Option<Twin> {
    let more = i64::from(twin.more).wrapping_add(number);
    if twin.is_whole && more >= -MOST_MORE && more <= MOST_MORE {
        Some(Twin {
            more: more as i32,
            ..twin
        })
    } else {
        None
    }
}

/// The register that each was copied from, where both still have what they had then.
pub(crate) type Twins = [Option<Twin>; REGISTERS];

/// Adds what another way knows, of which the facts are still apart.
pub(crate) fn join_origins(known: &mut Known, other: &Known) {
    for j in 0..REGISTERS {
        let register = Register::from_number(j as u8);
        let areas = areas_in(known, register).with(areas_in(other, register));
        known.areas[j] = areas;
        if known.twins[j] != other.twins[j] {
            known.twins[j] = None;
        }
    }
    for j in 0..CELLS {
        let areas = known.cell_areas[j].with(other.cell_areas[j]);
        known.cell_areas[j] = areas;
    }
    known.scratch = known.scratch.with(other.scratch);
}

/// The least word that is an address.
const FIRST_ADDRESS: u64 = 0x1_0000_0000;

/// May a register have an address?
pub(crate) fn is_address(known: &Known, register: Register) -> bool {
    let fact = known.get(register);
    fact.offsets().is_some() || fact.bounds().high >= FIRST_ADDRESS
}

/// The areas in which a register's address may be.
pub(crate) fn areas_in(known: &Known, register: Register) -> AreaSet {
    let fact = known.get(register);
    match fact.offsets() {
        Some(told) => AreaSet::of(told.area),
        None if !is_address(known, register) => NO_AREA,
        None => known.areas[register.index()],
    }
}

/// The areas to which an access by a register may go: any, where it isn't known that the register has an address.
pub(crate) fn accessed_areas(known: &Known, register: Register) -> AreaSet {
    let areas = areas_in(known, register);
    if areas == NO_AREA { ANY_AREA } else { areas }
}

/// The areas of an operand's address.
fn areas_of_source(known: &Known, source: Source) -> AreaSet {
    match source {
        Source::Register(register) => areas_in(known, register),
        Source::Immediate(_) => NO_AREA,
    }
}

/// The areas of addresses in the cells of the stack that eight bytes at an offset from an address may touch.
fn areas_in_cells(known: &Known, told: Option<Offsets>, offset: i16) -> AreaSet {
    let mut areas = NO_AREA;
    for j in 0..CELLS {
        if is_touched(j, told, offset) {
            areas = areas.with(known.cell_areas[j]);
        }
    }
    areas
}

/// The areas of an address that is loaded.
fn areas_loaded(known: &Known, src: Register, offset: i16) -> AreaSet {
    let from = accessed_areas(known, src);
    let mut areas = NO_AREA;
    if from.stack {
        areas = areas_in_cells(known, known.get(src).offsets(), offset);
    }
    if from.scratch {
        areas = areas.with(known.scratch);
    }
    areas
}

/// The areas of the address that arithmetic of 64 bits gives.
fn areas_computed(operation: Operation, first: AreaSet, second: AreaSet) -> AreaSet {
    match operation {
        Operation::Move => second,
        Operation::Add | Operation::Or | Operation::And | Operation::Xor => first.with(second),
        Operation::Subtract if second == NO_AREA => first,
        Operation::Subtract => NO_AREA,
        _ if first == NO_AREA && second == NO_AREA => NO_AREA,
        _ => ANY_AREA,
    }
}

/// The areas of the address that an instruction gives.
fn areas_given(known: &Known, instruction: &Instruction) -> AreaSet {
    match *instruction {
        Instruction::Load {
            size: Size::DoubleWord,
            src,
            offset,
            ..
        } => areas_loaded(known, src, offset),
        Instruction::Arithmetic {
            width: Width::Bits64,
            operation,
            dst,
            source,
        } => {
            let (first, second) = (areas_in(known, dst), areas_of_source(known, source));
            areas_computed(operation, first, second)
        }
        _ => NO_AREA,
    }
}

/// The register that an instruction copies.
fn twin_given(known: &Known, instruction: &Instruction) -> Option<Twin> {
    let Instruction::Arithmetic {
        width,
        operation: Operation::Move,
        dst,
        source: Source::Register(register),
    } = *instruction
    else {
        return None;
    };
    if register == dst {
        return None;
    }
    let is_whole = width == Width::Bits64 || known.get(register).bounds().high < 0x1_0000_0000;
    let direct = Twin {
        register,
        is_whole,
        more: 0,
    };
    let earlier = known.twins[register.index()];
    match earlier {
        Some(earlier) if earlier.register != dst && (is_whole || earlier.more == 0) => Some(Twin {
            is_whole: earlier.is_whole && is_whole,
            ..earlier
        }),
        _ => Some(direct),
    }
}

/// The number that an instruction adds to a register, if it does nothing else.
fn added(known: &Known, instruction: &Instruction) -> Option<(Register, i64)> {
    let Instruction::Arithmetic {
        width,
        operation,
        dst,
        source: Source::Immediate(number),
    } = *instruction
    else {
        return None;
    };
    let number = match operation {
        Operation::Add => i64::from(number),
        Operation::Subtract => i64::from(number).wrapping_neg(),
        _ => return None,
    };
    let bounds = known.get(dst).bounds();
    let is_within = bounds.high < 0x8000_0000
        && (bounds.low.min(0x8000_0000) as i64).wrapping_add(number) >= 0;
    if width == Width::Bits64 || is_within {
        Some((dst, number))
    } else {
        None
    }
}

/// Notes that eight bytes at an offset from an address may have an address in these areas.
fn store_areas(known: &mut Known, dst: Register, offset: i16, areas: AreaSet) {
    let to = accessed_areas(known, dst);
    let told = known.get(dst).offsets();
    if to.scratch {
        known.scratch = known.scratch.with(areas);
    }
    if !to.stack {
        return;
    }
    let cell = cell_of(told, offset);
    for j in 0..CELLS {
        if cell == Some(j) {
            known.cell_areas[j] = areas;
        } else if is_touched(j, told, offset) {
            let joined = known.cell_areas[j].with(areas);
            known.cell_areas[j] = joined;
        }
    }
}

/// Notes what a store leaves where it may go.
fn note_store(known: &mut Known, instruction: &Instruction) {
    match *instruction {
        Instruction::StoreRegister {
            size: Size::DoubleWord,
            dst,
            src,
            offset,
        } => {
            let areas = areas_in(known, src);
            store_areas(known, dst, offset, areas);
        }
        Instruction::StoreImmediate {
            size: Size::DoubleWord,
            dst,
            offset,
            ..
        } => store_areas(known, dst, offset, NO_AREA),
        _ => {}
    }
}

/// Changes what is known of copies to what it is where a number is added to a register.
fn add_to_twins(known: &mut Known, dst: Register, number: i64) {
    for j in 0..REGISTERS {
        if let Some(twin) = known.twins[j] {
            if j == dst.index() {
                known.twins[j] = with_more(twin, number);
            } else if twin.register == dst {
                known.twins[j] = with_more(twin, number.wrapping_neg());
            }
        }
    }
}

/// Changes what is known of copies to what it is where registers are written, one of them by a copy.
fn write_twins(known: &mut Known, written: Registers, dst: Option<Register>, twin: Option<Twin>) {
    for j in 0..REGISTERS {
        if (written & bit(Register::from_number(j as u8))) != 0 {
            known.twins[j] = None;
        }
        if let Some(found) = known.twins[j] {
            if (written & bit(found.register)) != 0 {
                known.twins[j] = None;
            }
        }
    }
    if let Some(dst) = dst {
        known.twins[dst.index()] = twin;
    }
}

/// Changes what is known of areas and copies to what it is behind an instruction that isn't a jump.
pub(crate) fn step_origins(known: &mut Known, instruction: &Instruction) {
    note_store(known, instruction);
    let areas = areas_given(known, instruction);
    let twin = twin_given(known, instruction);
    let written = writes(instruction);
    for j in 0..REGISTERS {
        if (written & bit(Register::from_number(j as u8))) != 0 {
            known.areas[j] = NO_AREA;
        }
    }
    if let Some(dst) = instruction.destination() {
        known.areas[dst.index()] = areas;
    }
    match added(known, instruction) {
        Some((dst, number)) => add_to_twins(known, dst, number),
        None => write_twins(known, written, instruction.destination(), twin),
    }
}
