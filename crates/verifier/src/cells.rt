//! What is known of the words of the stack.

ghost use Rattle.std.specs.Prelude.{◌≡◌, ◌<◌, ◌^◌, ◌+ℤ◌, ◌-ℤ◌, ◌≤ℤ◌, ℤ, pos, negsuc};
ghost use Rattle.accepted_programs.specs.Cells.{cell_from as cell_at_distance, cell_of as cell_of_address, filled, forgotten, has_byte as cell_has_byte, is_stack as is_the_stack, join_cell as cell_join, joined_each, known_in, no_cells, overwritten};

use accepted_programs::{CELL_BYTES, CELLS};
use program_interface::{Area, STACK_BYTES};
use word_domain::{Domain, Offsets};

#[inline]
pub(crate) fn is_stack(area: Area) -> bool
    ensures { result ≡ is_the_stack area }
{
    matches!(area, Area::Stack)
}

/// The cell that the eight bytes from this distance on are.
fn cell_from(distance: i128) -> Option<usize>
    ensures { result ≡ cell_at_distance distance }
{
    if distance < 0 || distance >= STACK_BYTES as i128 {
        return None;
    }
    let byte = distance as usize;
    if byte % CELL_BYTES == 0 {
        Some(byte / CELL_BYTES)
    } else {
        None
    }
}

/// A distance from an area, an offset further.
#[inline]
pub(crate) fn moved(distance: i64, offset: i16) -> i128
    ensures value { result ≡ distance +ℤ offset }
    ensures low { negsuc (2 ^ 64) ≤ℤ result }
    ensures high { result ≤ℤ pos (2 ^ 64) }
{
    i128::from(distance) + i128::from(offset)
}

/// The cell that the eight bytes at an offset are, where the address is known to be one alone, of the stack.
pub(crate) fn cell_of(told: Option<Offsets>, offset: i16) -> Option<usize>
    ensures { result ≡ cell_of_address told offset }
{
    let told = told?;
    if is_stack(told.area) && told.low == told.high {
        cell_from(moved(told.low, offset))
    } else {
        None
    }
}

/// Does a cell have a byte from one distance to another?
#[inline]
fn has_byte(cell: usize, first: i128, last: i128) -> bool
    requires { cell < CELLS }
    ensures { result ≡ cell_has_byte cell first last }
{
    let start = (CELL_BYTES * cell) as i128;
    let last_of_cell = start + (CELL_BYTES as i128 - 1);
    first <= last_of_cell && start <= last
}

/// Forgets the cells that have a byte from one distance to another.
#[tactic(auto, using(crate::proofs::Stores::met_more, crate::proofs::Stores::left_more, crate::proofs::Stores::forgotten_all))]
fn forget<D: Domain>(cells: &mut [Option<D>; CELLS], first: i128, last: i128)
    ensures { cells.new ≡ forgotten first last 0 cells.old }
{
    for j in 0..CELLS {
        if has_byte(j, first, last) {
            cells[j] = None;
        }
    }
}

/// Forgets all cells.
fn forget_all<D: Domain>(cells: &mut [Option<D>; CELLS])
    ensures { cells.new ≡ no_cells }
{
    for j in 0..CELLS {
        cells[j] = None;
    }
}

/// From the first byte of so many to the last.
#[inline]
fn reach(size: u64) -> i128
    ensures { result ≡ pos size -ℤ pos 1 }
{
    i128::from(size) - 1
}

/// The last byte of an access, at the greatest distance.
#[inline]
fn last_byte(distance: i64, offset: i16, size: u64) -> i128
    ensures { result ≡ (distance +ℤ offset) +ℤ (pos size -ℤ pos 1) }
{
    moved(distance, offset) + reach(size)
}

/// Forgets what a store of so many bytes into the stack may change, through an address of which this is known.
fn overwrite<D: Domain>(
    cells: &mut [Option<D>; CELLS],
    told: Option<Offsets>,
    offset: i16,
    size: u64,
)
    ensures { cells.new ≡ overwritten told offset size cells.old }
{
    let Some(told) = told else {
        forget_all(cells);
        return;
    };
    if is_stack(told.area) {
        forget(
            cells,
            moved(told.low, offset),
            last_byte(told.high, offset, size),
        );
    } else {
        forget_all(cells);
    }
}

/// Stores into the stack, through an address of which this is known.
pub(crate) fn store_into<D: Domain>(
    cells: &mut [Option<D>; CELLS],
    told: Option<Offsets>,
    offset: i16,
    size: u64,
    word: Option<D>,
)
    ensures { cells.new ≡ filled (cell_of_address told offset) word cells.old (overwritten told offset size cells.old) }
{
    match (cell_of(told, offset), word) {
        (Some(cell), Some(word)) => cells[cell] = Some(word),
        _ => overwrite(cells, told, offset, size),
    }
}

/// What is known in a cell, if it is one.
pub(crate) fn known<D: Domain>(cells: &[Option<D>; CELLS], cell: Option<usize>) -> Option<D>
    ensures { result ≡ known_in cells.now cell }
{
    *cells.get(cell?)?
}

/// What is known where ways meet, if something is on both.
#[inline]
fn join_cell<D: Domain>(one: Option<D>, other: Option<D>) -> Option<D>
    ensures { result ≡ cell_join D.operations.join one other }
{
    match (one, other) {
        (Some(one), Some(other)) => Some(one.join(other)),
        _ => None,
    }
}

/// Joins what other cells are known to have into these.
pub(crate) fn join<D: Domain>(cells: &mut [Option<D>; CELLS], others: &[Option<D>; CELLS])
    ensures { cells.new ≡ joined_each (cell_join D.operations.join) cells.old others.now }
{
    for j in 0..CELLS {
        let joined = join_cell(cells[j], others[j]);
        cells[j] = joined;
    }
}
