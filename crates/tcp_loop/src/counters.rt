//! What a loop has counted.

use crate::news::{Level, Lines, News};

/// What a loop has counted since it began. Counters stop at their largest number.
#[derive(Clone, Copy, Debug, PartialEq, Eq)]
pub struct Counters {
    /// Connections that got a place.
    pub taken: u64,
    /// Those that got none.
    pub refused: u64,
    /// Commands that were done.
    pub commands: u64,
    /// Turns that runs were given.
    pub turns: u64,
    /// Bytes that came.
    pub came: u64,
    /// Bytes that were sent.
    pub sent: u64,
    /// Commits that the disk was waited for.
    pub commits: u64,
    /// Rounds.
    pub rounds: u64,
}

impl Counters {
    pub(crate) fn new() -> Counters {
        Counters {
            taken: 0,
            refused: 0,
            commands: 0,
            turns: 0,
            came: 0,
            sent: 0,
            commits: 0,
            rounds: 0,
        }
    }
}

/// One more, or so many.
pub(crate) fn add(counter: &mut u64, more: u64) {
    *counter = counter.saturating_add(more);
}

/// Counts commands that were done.
pub(crate) fn note_commands(
    counters: &mut Counters,
    lines: &mut Lines,
    place: usize,
    commands: u64,
) {
    if commands > 0 {
        add(&mut counters.commands, commands);
        lines.tell(Level::Commands, News::Did { place, commands });
    }
}
