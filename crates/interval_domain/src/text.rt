//! Facts as text.

use crate::fact::Fact;
use std::fmt;
use word_domain::{Bounds, Offsets};

/// A fact as text: `any word`, `7`, `0 to 255`, or the offsets of a pointer.
impl fmt::Display for Fact {
    fn fmt<W: fmt::Write>(&self, f: &mut fmt::Formatter<W>) -> fmt::Result {
        match *self {
            Fact::Words(bounds) => write_bounds(f, bounds),
            Fact::Pointer { area, low, high } => {
                let (low, high) = (i64::from(low), i64::from(high));
                let offsets = Offsets { area, low, high };
                write!(f, "{offsets}")
            }
        }
    }
}

fn write_bounds<W: fmt::Write>(f: &mut fmt::Formatter<W>, bounds: Bounds) -> fmt::Result {
    let Bounds { low, high } = bounds;
    if low == high {
        write!(f, "{low}")
    } else if bounds == Bounds::FULL {
        f.write_str("any word")
    } else {
        write!(f, "{low} to {high}")
    }
}
