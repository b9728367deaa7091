//! Why a line of a command file is refused.

use text_lines::Excerpt;
use thiserror::Error;

/// Why a line is refused: what stands there, and what was expected.
#[derive(Clone, Copy, Debug, PartialEq, Eq, Error)]
pub enum LineFault {
    /// The line from its first byte over 127 on, which may stand in the comment.
    #[error("{0}: only ASCII text is expected")]
    NotAscii(Excerpt),
    /// The first word names no event. The line without its comment.
    #[error("{0}: no such event; submit, turn or fault is expected")]
    NoSuchEvent(Excerpt),
    /// `submit` has other words behind it than it takes. The line without its comment.
    #[error("{0}: submit is expected with a queue, an entry and, where there is any, data")]
    SubmitWords(Excerpt),
    /// `turn` has other words behind it than it takes. The line without its comment.
    #[error("{0}: turn is expected with a run alone")]
    TurnWords(Excerpt),
    /// `fault` has other words behind it than it takes. The line without its comment.
    #[error("{0}: fault is expected with a zone and a state")]
    FaultWords(Excerpt),
    /// The word that spells no queue.
    #[error("{0}: no queue; a number from 0 to 65535 is expected")]
    Queue(Excerpt),
    /// How many characters the entry has.
    #[error("an entry of {0} characters; 128 hexadecimal digits are expected")]
    EntryLength(usize),
    /// A character of the entry, and how many stand before it.
    #[error("character {} of the entry: {character:?}; a hexadecimal digit is expected", .before.saturating_add(1))]
    EntryDigit { character: char, before: usize },
    /// How many characters the data has.
    #[error("data of {0} characters; two hexadecimal digits for each byte are expected")]
    DataLength(usize),
    /// A character of the data, and how many stand before it.
    #[error("character {} of the data: {character:?}; a hexadecimal digit is expected", .before.saturating_add(1))]
    DataDigit { character: char, before: usize },
    /// The word that spells no run.
    #[error("{0}: no run; a number from 0 to 255 is expected")]
    Run(Excerpt),
    /// The word that spells no zone.
    #[error("{0}: no zone; a number from 0 to 4294967295 is expected")]
    Zone(Excerpt),
    /// The word that names no state to which a fault leads.
    #[error("{0}: no state of a fault; readonly or offline is expected")]
    State(Excerpt),
}
