//! The records in the blocks that a program appended.

ghost use Rattle.std.specs.Prelude.{◌<◌, length, IfSome};

use crate::answering::Plan;
use crate::cells::cell_of;
use crate::columns::Column;
use crate::ranges::part_with;
use crate::rows::Printed;
use byteorder::{ByteOrder, LittleEndian};
use program_interface::FRAME_LENGTH_BYTES;
use record_questions::ByteRange;
use std::alloc::AllocError;

/// Adds a row of each record in blocks that a program appended.
pub(crate) fn push_rows(
    columns: &[Column],
    plan: &Plan,
    bytes: &[u8],
    printing: &mut Printed,
) -> Result<(), AllocError> {
    let ranges = plan.compiled.question.emitted.as_slice();
    for block in bytes.chunks(plan.compiled.block.bytes() as usize) {
        push_rows_of_block(columns, ranges, block, printing)?;
    }
    Ok(())
}

/// Adds a row of each record in a block.
fn push_rows_of_block(
    columns: &[Column],
    ranges: &[ByteRange],
    block: &[u8],
    printing: &mut Printed,
) -> Result<(), AllocError> {
    let mut rest = block;
    while let Some((record, after)) = first_record(rest) {
        push_row(columns, ranges, record, printing)?;
        rest = after;
    }
    Ok(())
}

/// The record that bytes of an appended block begin with, and what comes after it; `None` where the rest of the block has none.
fn first_record(bytes: &[u8]) -> Option<(&[u8], &[u8])>
    ensures { IfSome result (λ found. length found.1.now < length bytes.now) }
{
    if bytes.len() < FRAME_LENGTH_BYTES {
        return None;
    }
    let length = usize::from(LittleEndian::read_u16(bytes));
    if length == 0 || bytes.len() - FRAME_LENGTH_BYTES < length {
        return None;
    }
    let (_, frame) = bytes.split_at(FRAME_LENGTH_BYTES);
    Some(frame.split_at(length))
}

/// Adds the row of a record, of which these ranges were emitted.
fn push_row(
    columns: &[Column],
    ranges: &[ByteRange],
    record: &[u8],
    printing: &mut Printed,
) -> Result<(), AllocError> {
    printing.begin_row()?;
    for (index, column) in columns.iter().enumerate() {
        let (from, bytes) = part_with(ranges, column.kind, record);
        printing.push_cell(index, column.name.as_str(), cell_of(column, from, bytes))?;
    }
    printing.end_row(record)
}
