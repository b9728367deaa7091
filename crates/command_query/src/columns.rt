//! The columns of a layout, and their types.

ghost use Rattle.std.specs.Prelude.{◌≡◌, ◌≤◌};
ghost use Rattle.instruction_set.specs.Instruction.{size_of};

use instruction_set::Size;
use record_questions::{ByteOrder, Field, Sign};
use std::alloc::{AllocError, Global};

/// What a column has of each record.
#[derive(Clone, Copy, Debug, PartialEq, Eq)]
pub(crate) enum Kind {
    /// A number.
    Number(Field),
    /// So many bytes from an offset on, which are text.
    Text { offset: u16, size: u16 },
    /// So many bytes from an offset on.
    Bytes { offset: u16, size: u16 },
}

/// A named part of each record.
#[derive(Drop)]
pub(crate) struct Column {
    /// The name.
    pub(crate) name: String,
    /// What it has.
    pub(crate) kind: Kind,
}

impl Column {
    /// The same column again.
    pub(crate) fn copied(&self, alloc: Global) -> Result<Column, AllocError> {
        let name = String::from_str(alloc, self.name.as_str())?;
        Ok(Column {
            name,
            kind: self.kind,
        })
    }
}

/// How many bytes a number of this size has.
pub(crate) fn bytes_of(size: Size) -> u16
    ensures value { result ≡ size_of size }
    ensures some { 1 ≤ result }
    ensures few { result ≤ 8 }
{
    match size {
        Size::Byte => 1,
        Size::HalfWord => 2,
        Size::Word => 4,
        Size::DoubleWord => 8,
    }
}

impl Kind {
    /// The offset in a record.
    pub(crate) fn offset(self) -> u16 {
        match self {
            Kind::Number(field) => field.offset,
            Kind::Text { offset, .. } | Kind::Bytes { offset, .. } => offset,
        }
    }

    /// The byte of a record at which it ends.
    pub(crate) fn end(self) -> u32 {
        let size = match self {
            Kind::Number(field) => bytes_of(field.size),
            Kind::Text { size, .. } | Kind::Bytes { size, .. } => size,
        };
        u32::from(self.offset()) + u32::from(size)
    }
}

/// The letters of a type.
pub(crate) fn push_type(kind: Kind, out: &mut String) -> Result<(), AllocError> {
    match kind {
        Kind::Number(field) => {
            let letter = match field.sign {
                Sign::Unsigned => "u",
                Sign::Signed => "i",
            };
            let order = match field.order {
                ByteOrder::Little => "",
                ByteOrder::Big => "be",
            };
            let bits = bytes_of(field.size).saturating_mul(8);
            write!(out, "{letter}{bits}{order}")
        }
        Kind::Text { size, .. } => write!(out, "text{size}"),
        Kind::Bytes { size, .. } => write!(out, "bytes{size}"),
    }
}
