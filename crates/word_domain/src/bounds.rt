//! Bounds.

/// The lowest and the greatest of some numbers.
#[derive(Clone, Copy, Debug, PartialEq, Eq)]
pub struct Bounds {
    /// The lowest.
    pub low: u64,
    /// The greatest.
    pub high: u64,
}

impl Bounds {
    /// Every word.
    pub const FULL: Bounds = Bounds {
        low: 0,
        high: u64::MAX,
    };
}
