//! Why a question isn't read.

ghost use Rattle.std.specs.Prelude.{◌≡◌};
ghost use Rattle.question_words.specs.Fault.{located as located_at};
ghost use Rattle.question_words.specs.declared.fault.ReadFault.TheVariants.{Memory};

use crate::reading::MOST_BYTES;
use std::alloc::{AllocError, AllocFailed};
use thiserror::Error;

/// What is wrong at a place, and what is possible there.
#[derive(Clone, Copy, Debug, PartialEq, Eq, Error)]
pub enum FaultKind {
    /// No condition begins so.
    #[error("a field, `bytes@` and an offset, `!` or `(` is expected")]
    Condition,
    /// A number or `arg` is on the left of a comparison.
    #[error("a comparison begins with a field; a number or `arg` comes after ==, !=, <, <=, >, >= or in")]
    Left,
    /// The layout lacks the name.
    #[error("the layout has no field of this name; without a name a field is written as u32@8")]
    Name,
    /// What is before the `@` is no type.
    #[error("before the @ a type is expected: u8, u16, u32, u64, i8, i16, i32 or i64, or with be after it as in u32be")]
    Type,
    /// What is after the `@` is no offset.
    #[error("after the @ an offset is expected: a decimal number from 0 to 65535")]
    Offset,
    /// After a field there is no comparison.
    #[error("a comparison is expected: ==, !=, <, <=, >, >= or in")]
    Comparison,
    /// After `bytes@` and an offset there is neither `==` nor `!=`.
    #[error("bytes are compared by == or !=")]
    BytesComparison,
    /// No operand begins so.
    #[error("a number, `arg`, a field or a text in quotes is expected, or after `in` an opening brace")]
    Operand,
    /// After the first bound of a range there is neither `..` nor `..=`.
    #[error("after the first bound of a range `..` is expected, which leaves the second out, or `..=`, which has it")]
    Bound,
    /// After an element of a set there is neither a comma nor a brace.
    #[error("after an element of a set a comma or a closing brace is expected")]
    Element,
    /// A word that begins as a number isn't one.
    #[error("a number is decimal, with - before it where it is below zero, or hexadecimal after 0x, without -")]
    Number,
    /// No number of the field's type is compared.
    #[error("the number is beyond those of the field's type")]
    Range,
    /// One of two fields is signed.
    #[error("a field is compared with one that is signed as it is, or unsigned as it is")]
    Sign,
    /// Bytes aren't written so.
    #[error("bytes are expected: one or more, as two hexadecimal digits for each after 0x, or between quotes")]
    Bytes,
    /// A text has more or fewer bytes than the field that it is compared with.
    #[error("the text has another number of bytes than the field")]
    Length,
    /// After a quote there is no second.
    #[error("a second quote is missing")]
    Quote,
    /// After a condition there is something else.
    #[error("`&&`, `||`, `)` or the end is expected")]
    Joint,
    /// No parenthesis is open.
    #[error("no ( is open that this ) could close")]
    NotOpened,
    /// A parenthesis is open at the end.
    #[error("a ) is missing")]
    NotClosed,
    /// The text is too long.
    #[error("a question has at most {most} bytes", most = MOST_BYTES)]
    TooLong,
}

/// What is wrong with a question, and where: at the first word that can't go on as the text before it began.
#[derive(Clone, Copy, Debug, PartialEq, Eq, Error)]
#[error("column {column}: {kind}")]
pub struct WordFault {
    /// The column of the word's first byte, counted in bytes from 1; after the last byte where a word is missing,
    /// and 1 where the text is too long.
    pub column: usize,
    /// What is wrong there.
    pub kind: FaultKind,
}

/// Why a question isn't read.
#[derive(Clone, Copy, Debug, PartialEq, Eq, Error)]
pub enum ReadFault {
    /// Memory ran out.
    #[error("no memory")]
    Memory,
    /// It isn't a question.
    #[error(transparent)]
    Word(WordFault),
}

impl From<AllocError> for ReadFault {
    ghost from_gives = { λ _ e. e ≡ Memory };

    fn from(_error: AllocError) -> ReadFault {
        ReadFault::Memory
    }
}

impl<T: Drop> From<AllocFailed<T>> for ReadFault {
    ghost from_gives = { λ _ e. e ≡ Memory };

    fn from(_error: AllocFailed<T>) -> ReadFault {
        ReadFault::Memory
    }
}

/// The fault of this kind at a column.
pub(crate) fn fault(column: usize, kind: FaultKind) -> ReadFault
    ensures { result ≡ ReadFault.Word (record { column = column; kind = kind }) }
{
    ReadFault::Word(WordFault { column, kind })
}

/// What was read at a column, or its fault there.
pub(crate) fn located<T: Drop>(column: usize, reading: Result<T, FaultKind>) -> Result<T, ReadFault>
    ensures { result ≡ located_at column reading }
{
    match reading {
        Ok(value) => Ok(value),
        Err(kind) => Err(fault(column, kind)),
    }
}
