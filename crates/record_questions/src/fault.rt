//! Why a question has no code.

use program_interface::MOST_SLOTS;
use std::alloc::{AllocError, AllocFailed};
use thiserror::Error;

/// Why a question has no code.
#[derive(Clone, Copy, Debug, PartialEq, Eq, Error)]
pub enum CodeFault {
    /// The code has more slots than a program can have: so many, as far as 64 bits count.
    #[error("{0} slots, and a program has {MOST_SLOTS} at most")]
    TooLong(u64),
    /// There was no memory.
    #[error("no memory")]
    Memory,
}

impl From<AllocError> for CodeFault {
    ghost use Rattle.std.specs.Prelude.{◌≡◌};
    ghost use Rattle.record_questions.specs.declared.fault.CodeFault.TheVariants.{Memory};

    ghost from_gives = { λ error result. result ≡ Memory };

    fn from(_error: AllocError) -> CodeFault {
        CodeFault::Memory
    }
}

impl<T: Drop> From<AllocFailed<T>> for CodeFault {
    ghost use Rattle.std.specs.Prelude.{◌≡◌};
    ghost use Rattle.record_questions.specs.declared.fault.CodeFault.TheVariants.{Memory};

    ghost from_gives = { λ error result. result ≡ Memory };

    fn from(_error: AllocFailed<T>) -> CodeFault {
        CodeFault::Memory
    }
}
