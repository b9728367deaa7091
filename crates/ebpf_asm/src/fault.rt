//! What is wrong with a text.

ghost use Rattle.std.specs.Prelude.{◌≡◌};
ghost use Rattle.ebpf_asm.specs.declared.fault.AssembleFault.TheVariants.{Memory};

use program_interface::MOST_SLOTS;
use std::alloc::AllocError;
use thiserror::Error;

/// Why a line can't be assembled.
#[derive(Clone, Copy, Debug, PartialEq, Eq, Error)]
pub enum FaultKind {
    /// Its first word, or that behind its label, is no mnemonic.
    #[error("a mnemonic is expected as the first word, or behind the label")]
    UnknownMnemonic = 1,
    /// Its operands aren't those of its mnemonic.
    #[error("the mnemonic takes other operands")]
    Operand = 2,
    /// A number doesn't fit its field.
    #[error("a number is too small or too great for its field")]
    OutOfRange = 3,
    /// It jumps to a label that no line has.
    #[error("no line has the label that is jumped to")]
    UnknownLabel = 4,
    /// An earlier line has its label.
    #[error("an earlier line has the same label")]
    LabelTwice = 5,
    /// It jumps to a label farther away than its field can say (RFC 9669, 4.3).
    #[error("the label that is jumped to is too far away")]
    LabelTooFar = 6,
    /// Its instruction ends behind the last slot of a program (profile).
    #[error("the instruction ends behind slot {last}, the last that a program can have", last = MOST_SLOTS - 1)]
    TooLong = 7,
    /// A byte of it isn't ASCII.
    #[error("only ASCII text is expected")]
    NotAscii = 8,
}

impl FaultKind {
    ghost use Rattle.ebpf_asm.specs.Fault.{fault_number};

    /// The number by which users see it, 1 to 8.
    pub fn number(self) -> u8
        ensures { result ≡ fault_number self }
    {
        self as u8
    }
}

/// The line that is told, counted from 1, and why it can't be assembled: the lowest that has a fault by itself, or where
/// none has, the lowest that jumps amiss.
#[derive(Clone, Copy, Debug, PartialEq, Eq, Error)]
#[error("line {line}: {kind}")]
pub struct Fault {
    /// The line's number.
    pub line: usize,
    /// What is wrong with it.
    pub kind: FaultKind,
}

/// Why a text gave no bytes.
#[derive(Debug, Drop, Error)]
pub enum AssembleFault {
    /// Memory ran out.
    #[error("no memory")]
    Memory,
    /// A line can't be assembled.
    #[error(transparent)]
    Fault(Fault),
}

impl From<AllocError> for AssembleFault {
    ghost from_gives = { λ _ e. e ≡ Memory };

    fn from(_error: AllocError) -> AssembleFault {
        AssembleFault::Memory
    }
}
