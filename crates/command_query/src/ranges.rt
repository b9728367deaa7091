//! The bytes of records that are emitted.

use crate::columns::{Column, Kind};
use record_questions::ByteRange;
use std::alloc::{AllocError, Global};

/// The bytes of some columns, in the order of the record: columns that touch are in one range.
pub(crate) fn ranges_of(alloc: Global, columns: &[Column]) -> Result<Vec<ByteRange>, AllocError> {
    let mut ranges = Vec::new(alloc);
    let mut from = 0;
    for _column in columns {
        if let Some(first) = first_from(columns, from) {
            let end = end_from(columns, first);
            ranges.extend_from_slice(&[between(first, end)])?;
            from = end.saturating_add(1);
        }
    }
    Ok(ranges)
}

/// The bytes from the first of some columns to the end of the last; none where there is no column.
pub(crate) fn range_over(columns: &[Column]) -> Option<ByteRange> {
    let first = first_from(columns, 0)?;
    let mut end = 0;
    for column in columns {
        end = end.max(column.kind.end());
    }
    Some(between(first, end))
}

/// Of the bytes of a record that were emitted, those of the range that has a column, and the offset of the first of them.
pub(crate) fn part_with<'r>(ranges: &[ByteRange], kind: Kind, record: &'r [u8]) -> (u16, &'r [u8]) {
    let mut before = 0_usize;
    for range in ranges {
        let size = usize::from(range.size);
        let end = u32::from(range.offset) + u32::from(range.size);
        if range.offset <= kind.offset() && kind.end() <= end {
            let bytes = record.get(before..before.saturating_add(size));
            return (range.offset, bytes.unwrap_or(&[]));
        }
        before = before.saturating_add(size);
    }
    (0, &[])
}

/// The bytes from an offset to an end.
fn between(first: u16, end: u32) -> ByteRange {
    let size = end.saturating_sub(u32::from(first));
    ByteRange {
        offset: first,
        size: size.min(u32::from(u16::MAX)) as u16,
    }
}

/// The offset of the first column that begins at a byte or after it.
fn first_from(columns: &[Column], from: u32) -> Option<u16> {
    let mut first = None;
    for column in columns {
        let offset = column.kind.offset();
        let is_before = match first {
            Some(other) => offset < other,
            None => true,
        };
        if u32::from(offset) >= from && is_before {
            first = Some(offset);
        }
    }
    first
}

/// The end of the columns from an offset on of which each begins where those before it end, or before that.
fn end_from(columns: &[Column], first: u16) -> u32 {
    let mut end = u32::from(first);
    for _column in columns {
        let further = end_after(columns, first, end);
        if further == end {
            break;
        }
        end = further;
    }
    end
}

/// The end of those of these columns that begin no later than at an end.
fn end_after(columns: &[Column], first: u16, end: u32) -> u32 {
    let mut further = end;
    for column in columns {
        let offset = column.kind.offset();
        if first <= offset && u32::from(offset) <= further {
            further = further.max(column.kind.end());
        }
    }
    further
}
