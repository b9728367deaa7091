//! Why a question has no accepted program.

use accepted_programs::Refusal;
use program_interface::{MOST_SLOTS, SCRATCH_BYTES, STACK_BYTES};
use std::alloc::{AllocError, AllocFailed};
use thiserror::Error;

/// Why a question has no accepted program.
#[derive(Clone, Copy, Debug, PartialEq, Eq, Error)]
pub enum QuestionFault {
    /// The records end after the block.
    #[error("the records end at byte {end} of a block of {block}")]
    RecordsPassBlock {
        /// The byte of a block at which they end.
        end: u32,
        /// How many bytes a block has.
        block: u32,
    },
    /// The emitted bytes end after the record.
    #[error("the emitted bytes end at byte {end} of a record of {size}")]
    EmittedPassRecord {
        /// The byte of a record at which they end.
        end: u32,
        /// How many bytes a record has.
        size: u16,
    },
    /// Several ranges are emitted, and they have more bytes than the stack, where they are put together: so many, as far as 64 bits count.
    #[error("{0} emitted bytes in several ranges, and the stack has {STACK_BYTES}")]
    EmittedPassStack(u64),
    /// The tallies of all groups have more words than scratch: so many, as far as 64 bits count.
    #[error("{0} words of tallies, and scratch has {most}", most = SCRATCH_BYTES / 8)]
    TooManyTallies(usize),
    /// Something else of it can't be asked: it has no records, or records of no bytes, a field ends after its record, a number has more
    /// than 64 bits, fields of different signs are compared, bytes are compared with none, a range of no bytes is emitted, or the groups
    /// are none, by a signed field, or of values of 2^16 and more.
    #[error("no records or no bytes, or a field that passes its record, or can't be compared, grouped by or emitted so")]
    NoQuestion,
    /// A block whose records all match takes more bytes than the limit.
    #[error("a block whose records all match takes {needed} bytes, and the limit is {limit}")]
    OverLimit {
        /// How many bytes it takes, frame lengths counted.
        needed: u32,
        /// The limit that was asked for.
        limit: u32,
    },
    /// The code has more slots than a program can have: so many, as far as 64 bits count.
    #[error("{0} slots, and a program has {MOST_SLOTS} at most")]
    TooLong(u64),
    /// The verifier refuses the program, for the first refusal.
    #[error("slot {}: {}", .0.slot, .0.reason)]
    Refused(Refusal),
    /// There was no memory. It says nothing of the question.
    #[error("no memory")]
    Memory,
}

impl From<AllocError> for QuestionFault {
    ghost use Rattle.std.specs.Prelude.{◌≡◌};
    ghost use Rattle.question_compiler.specs.declared.fault.QuestionFault.TheVariants.{Memory};

    ghost from_gives = { λ error result. result ≡ Memory };

    fn from(_error: AllocError) -> QuestionFault {
        QuestionFault::Memory
    }
}

impl<T: Drop> From<AllocFailed<T>> for QuestionFault {
    ghost use Rattle.std.specs.Prelude.{◌≡◌};
    ghost use Rattle.question_compiler.specs.declared.fault.QuestionFault.TheVariants.{Memory};

    ghost from_gives = { λ error result. result ≡ Memory };

    fn from(_error: AllocFailed<T>) -> QuestionFault {
        QuestionFault::Memory
    }
}
