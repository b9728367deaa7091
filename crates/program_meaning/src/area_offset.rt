//! Offsets in the areas of memory.

use program_interface::Area;

/// An offset in an area.
#[derive(Clone, Copy, Debug, PartialEq, Eq)]
pub struct AreaOffset {
    /// The area.
    pub area: Area,
    /// In bytes from its first.
    pub offset: usize,
}
