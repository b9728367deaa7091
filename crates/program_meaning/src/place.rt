//! Places of memory that instructions access.

use program_interface::Area;

/// Where bytes lie that an instruction loads, stores or emits: all in one area, and how far into it, where that is known.
#[derive(Clone, Copy, Debug, PartialEq, Eq)]
pub struct Place {
    /// The area.
    pub area: Area,
    /// How many bytes behind the area's first byte the first of them is; `None` where that isn't known.
    pub offset: Option<u16>,
}
