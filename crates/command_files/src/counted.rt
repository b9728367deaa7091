//! Numbers with what they count.

use std::fmt;

/// So many of something, whose name takes an `s` where they aren't one: `1 byte`, `2 bytes`.
#[derive(Clone, Copy)]
pub struct Counted(
    /// How many they are.
    pub u64,
    /// The name of one of them.
    pub &'static str,
);

impl fmt::Display for Counted {
    fn fmt<W: fmt::Write>(&self, f: &mut fmt::Formatter<W>) -> fmt::Result {
        let number = self.0;
        let name = self.1;
        let plural = if number == 1 { "" } else { "s" };
        write!(f, "{number} {name}{plural}")
    }
}
