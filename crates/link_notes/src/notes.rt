//! What a program was linked for, and its guards.

/// The place of a guard where the line in the source isn't known.
pub const UNKNOWN_PLACE: &str = "?";

/// What a program was linked for, and its guards.
#[derive(Debug, Drop)]
pub struct LinkNotes<'a> {
    /// The sum of the program's bytes ([`crate::program_sum`]), where it is told: another program has other notes.
    pub sum: Option<u32>,
    /// The bytes of a block.
    pub block: u32,
    /// The most bytes that may be emitted for a block, where the program was linked for such a limit.
    pub emit: Option<u32>,
    /// The profile that accepts the program.
    pub profile: u32,
    /// The byte of scratch from which on a guard that ends a run writes [`crate::ENDED_BYTES`] bytes; `None` where guards write
    /// nothing.
    pub guard_at: Option<u32>,
    /// The guards that may end a run.
    pub guards: Vec<GuardNote<'a>>,
}

/// A guard that may end a run.
#[derive(Clone, Copy, Debug)]
pub struct GuardNote<'a> {
    /// Its number, from 1 on.
    pub number: u32,
    /// Its slot in the program.
    pub slot: u32,
    /// The file of the source and the line, as `filter.c:12`, or [`UNKNOWN_PLACE`]. It has no blank.
    pub place: &'a str,
    /// What doesn't hold where the guard ends a run.
    pub text: &'a str,
}
