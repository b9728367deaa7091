//! Why an instruction can't be done.

ghost use Rattle.std.specs.Prelude.{◌≡◌};
ghost use Rattle.program_meaning.specs.Cause.{cause_number};

use thiserror::Error;

/// Why an instruction can't be done, with the words that users are told. Where several causes hold, the one with the least
/// number is told (profile).
#[derive(Clone, Copy, Debug, PartialEq, Eq, Error)]
pub enum Cause {
    /// The next slot is outside the program.
    #[error("the next slot is outside the program")]
    NextOutside = 1,
    /// The next slot is a wide instruction's second.
    #[error("the next slot is a wide instruction's second")]
    NextInsideWide = 2,
    /// A write to R10, the read-only frame pointer (BPF ABI 1.0, Registers and calling convention).
    #[error("a write to R10")]
    WriteToFramePointer = 3,
    /// A load whose bytes aren't all in one area.
    #[error("a load outside")]
    LoadOutside = 4,
    /// A store whose bytes aren't all in one writable area.
    #[error("a store outside, or into the context or the block")]
    StoreOutside = 5,
    /// A helper other than emit.
    #[error("a helper other than 1")]
    UnknownHelper = 6,
    /// An emit of at least one byte whose bytes aren't all in one area.
    #[error("an emit from outside")]
    EmitOutside = 7,
    /// An emit of no bytes, or of a frame that takes the group over its limit.
    #[error("an emit of no bytes, or over the limit")]
    EmitLength = 8,
}

impl Cause {
    /// The cause's number, 1 to 8.
    pub fn number(self) -> u8
        ensures { result ≡ cause_number self }
    {
        self as u8
    }
}
