//! Relocations (gABI, chapter 4, Relocation; their types are those of eBPF).

ghost use Rattle.std.specs.Prelude.{◌≡◌, ◌+◌, ◌≤◌, ◌<◌, ◌^◌, length, IfSome};
ghost use Rattle.ebpf_object.specs.Relocations.{relocation_entry, relocation_kind, width};

use crate::fields::{double_word_at, word_at};

/// The bytes of an entry of a section of relocations.
pub const RELOCATION_BYTES: usize = 16;

/// What a relocation changes, and how (`ELF64_R_TYPE`).
#[derive(Clone, Copy, Debug, PartialEq, Eq)]
pub enum RelocationKind {
    /// The number of a wide instruction becomes the symbol's address (`R_BPF_64_64`).
    WideImmediate,
    /// 8 bytes become the symbol's address (`R_BPF_64_ABS64`).
    Address64,
    /// 4 bytes become the symbol's address (`R_BPF_64_ABS32`).
    Address32,
    /// 4 bytes become the symbol's address, which no loader looks at (`R_BPF_64_NODYLD32`).
    Unloaded32,
    /// A call comes to lead to the symbol (`R_BPF_64_32`).
    Call,
}

impl RelocationKind {
    /// The relocation with this number as its type, where eBPF has one.
    fn from_number(number: usize) -> Option<RelocationKind>
        ensures { result ≡ relocation_kind number }
    {
        match number {
            1 => Some(RelocationKind::WideImmediate),
            2 => Some(RelocationKind::Address64),
            3 => Some(RelocationKind::Address32),
            4 => Some(RelocationKind::Unloaded32),
            10 => Some(RelocationKind::Call),
            _ => None,
        }
    }

    /// The bytes of what it changes: of an instruction those of all its slots.
    pub fn width(self) -> usize
        ensures value { result ≡ width self }
        ensures few { result ≤ 16 }
    {
        match self {
            RelocationKind::WideImmediate => 16,
            RelocationKind::Address64 | RelocationKind::Call => 8,
            RelocationKind::Address32 | RelocationKind::Unloaded32 => 4,
        }
    }
}

/// A relocation.
#[derive(Clone, Copy, Debug, PartialEq, Eq)]
pub struct Relocation {
    /// The byte of the section at which what it changes begins (`r_offset`).
    pub offset: usize,
    /// What it changes, where eBPF has its type.
    pub kind: Option<RelocationKind>,
    /// The number of its symbol (`ELF64_R_SYM`).
    pub symbol: usize,
}

/// The relocation whose entry is at this byte.
pub(crate) fn relocation_entry(bytes: &[u8], at: usize) -> Relocation
    requires { at + RELOCATION_BYTES ≤ length bytes.now }
    ensures { result ≡ relocation_entry bytes.now at }
{
    Relocation {
        offset: double_word_at(bytes, at),
        kind: RelocationKind::from_number(word_at(bytes, at + 8)),
        symbol: word_at(bytes, at + 12),
    }
}
