//! Distances from an area.

use program_interface::Area;
use std::fmt;

/// The addresses from `low` to `high` bytes behind the first byte of an area, inside the area or not. In words
/// `block + 16` or `block + 0 to 255`; a range that begins before its area has both ends in full,
/// `block - 256 to block - 1`.
#[derive(Clone, Copy, Debug, PartialEq, Eq)]
pub struct Offsets {
    /// The area that the distances are counted from.
    pub area: Area,
    /// The least distance, in bytes.
    pub low: i64,
    /// The greatest distance, in bytes.
    pub high: i64,
}

impl fmt::Display for Offsets {
    fn fmt<W: fmt::Write>(&self, f: &mut fmt::Formatter<W>) -> fmt::Result {
        let Offsets { area, low, high } = *self;
        write_offset(f, area, low)?;
        if low == high {
            return Ok(());
        }
        f.write_str(" to ")?;
        if low < 0 {
            write_offset(f, area, high)
        } else {
            write!(f, "{high}")
        }
    }
}

fn write_offset<W: fmt::Write>(f: &mut fmt::Formatter<W>, area: Area, offset: i64) -> fmt::Result {
    let (area, distance) = (name(area), offset.unsigned_abs());
    let sign = if offset < 0 { '-' } else { '+' };
    write!(f, "{area} {sign} {distance}")
}

/// An area, as users are told of it.
fn name(area: Area) -> &'static str {
    match area {
        Area::Context => "context",
        Area::Block => "block",
        Area::Stack => "stack",
        Area::Scratch => "scratch",
    }
}
