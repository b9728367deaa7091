//! What is known of the words of the stack.

use crate::known::Known;
use accepted_programs::{CELL_BYTES, CELLS};
use instruction_set::{Register, Size};
use interval_domain::Intervals;
use program_interface::{Area, STACK_BYTES};
use word_domain::{Domain, Offsets};

/// The cell that the eight bytes at this distance are.
fn cell_from(distance: i128) -> Option<usize> {
    if distance < 0 || distance >= STACK_BYTES as i128 {
        return None;
    }
    let byte = distance as usize;
    if byte % CELL_BYTES == 0 {
        Some(byte / CELL_BYTES)
    } else {
        None
    }
}

/// A distance from an area, an offset further.
fn moved(distance: i64, offset: i16) -> i128 {
    i128::from(distance) + i128::from(offset)
}

/// The cell at an offset from an address that is known alone.
pub(crate) fn cell_of(told: Option<Offsets>, offset: i16) -> Option<usize> {
    let told = told?;
    if matches!(told.area, Area::Stack) && told.low == told.high {
        cell_from(moved(told.low, offset))
    } else {
        None
    }
}

/// Has a cell a byte from one distance to another?
fn has_byte(cell: usize, first: i128, last: i128) -> bool {
    if cell >= CELLS {
        return false;
    }
    let start = (CELL_BYTES * cell) as i128;
    first <= start + 7 && start <= last
}

/// May eight bytes at an offset from an address have a byte of a cell?
pub(crate) fn is_touched(cell: usize, told: Option<Offsets>, offset: i16) -> bool {
    match told {
        Some(told) if !matches!(told.area, Area::Stack) => false,
        Some(told) => {
            let last = moved(told.high, offset).saturating_add(7);
            has_byte(cell, moved(told.low, offset), last)
        }
        None => true,
    }
}

/// Forgets the cells that have a byte from one distance to another.
fn forget(cells: &mut [Option<Intervals>; CELLS], first: i128, last: i128) {
    for j in 0..CELLS {
        if has_byte(j, first, last) {
            cells[j] = None;
        }
    }
}

/// What a store leaves known, of which a word may be.
pub(crate) fn store(
    known: &mut Known,
    size: Size,
    dst: Register,
    offset: i16,
    word: Option<Intervals>,
) {
    let told = known.get(dst).offsets();
    let (first, last) = match told {
        Some(told) if !matches!(told.area, Area::Stack) => return,
        Some(told) => (
            moved(told.low, offset),
            moved(told.high, offset)
                .saturating_add(i128::from(size.bytes()))
                .saturating_sub(1),
        ),
        None => (0, STACK_BYTES as i128),
    };
    forget(&mut known.facts.cells, first, last);
    if let Some(cell) = cell_of(told, offset) {
        if size == Size::DoubleWord && cell < CELLS {
            known.facts.cells[cell] = word;
        }
    }
}

/// What a load of eight bytes gives.
pub(crate) fn load(known: &Known, src: Register, offset: i16) -> Intervals {
    match cell_of(known.get(src).offsets(), offset) {
        Some(cell) if cell < CELLS => match known.facts.cells[cell] {
            Some(fact) => fact,
            None => Intervals::any(),
        },
        _ => Intervals::any(),
    }
}

/// What is known in a cell where ways meet.
fn join_cell(one: Option<Intervals>, other: Option<Intervals>) -> Option<Intervals> {
    match (one, other) {
        (Some(one), Some(other)) => Some(one.join(other)),
        _ => None,
    }
}

/// Joins what other cells are known to have into these.
pub(crate) fn join_cells(
    cells: &mut [Option<Intervals>; CELLS],
    others: &[Option<Intervals>; CELLS],
) {
    for j in 0..CELLS {
        let joined = join_cell(cells[j], others[j]);
        cells[j] = joined;
    }
}
