//! What is wrong with a line of a layout.

use question_words::{FaultKind, LineKind};
use std::alloc::AllocError;
use thiserror::Error;

/// What is wrong with a line of a layout, in a sentence that says what is possible there.
#[derive(Clone, Copy, Debug, PartialEq, Eq, Error)]
pub(crate) enum LayoutFault {
    /// A field comes before the line of the records.
    #[error("a layout begins with a line such as `records 64`, the bytes of a record")]
    NoRecords,
    /// The line of the records comes a second time.
    #[error("a layout has one line of `records`, its first")]
    RecordsTwice,
    /// The line of the records has other words.
    #[error("after `records` the bytes of a record are expected, then, if need be, `from` and how many bytes of a block come before the first record, and `count` and how many records of a block there are; each at most 65535")]
    Records,
    /// A record has no bytes, or a block no records.
    #[error("a record has 1 byte at least, and a block 1 record")]
    NoBytes,
    /// The name or the field isn't one.
    #[error("{0}")]
    Field(LineKind),
    /// Text or bytes have no number, or none of them.
    #[error("after `text` or `bytes` how many bytes there are is expected, from 1 to 65535, as in text16")]
    Length,
    /// Something comes after the field.
    #[error("nothing is expected after the offset; a comment begins with ;")]
    After,
    /// A field ends after its record.
    #[error("the field ends at byte {end}, and a record at {size}")]
    PassesRecord {
        /// The byte of a record at which the field ends.
        end: u32,
        /// How many bytes a record has.
        size: u16,
    },
    /// Want of memory. It says nothing of the line.
    #[error("no memory")]
    Memory,
}

impl LayoutFault {
    /// There is no type, or no offset.
    pub(crate) fn of(kind: FaultKind) -> LayoutFault {
        LayoutFault::Field(LineKind::Field(kind))
    }
}

impl From<AllocError> for LayoutFault {
    fn from(_error: AllocError) -> LayoutFault {
        LayoutFault::Memory
    }
}
