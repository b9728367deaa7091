//! Why bytes are no program.

ghost use Rattle.std.specs.Prelude.{◌≡◌, ◌≤◌, ◌↔◌, IfSome, IsSome};
ghost use Rattle.ebpf_decode.specs.Fault.{fault_number};
ghost use Rattle.ebpf_decode.specs.declared.fault.DecodeFault.TheVariants.{Memory};

use program_interface::{MOST_SLOTS, REGISTERS};
use std::alloc::AllocError;
use thiserror::Error;

/// What is wrong with the bytes of a program, with the number by which users see it.
#[derive(Clone, Copy, Debug, PartialEq, Eq, Error)]
pub enum FaultKind {
    /// The bytes aren't whole slots of 8 bytes (RFC 9669, 3).
    #[error("the length is no multiple of 8 bytes")]
    Length = 20,
    /// There are no bytes.
    #[error("there is no instruction")]
    Empty = 21,
    /// There are more than [`MOST_SLOTS`] slots (profile).
    #[error("there are more than {most} slots", most = MOST_SLOTS)]
    TooLong = 22,
    /// The opcode names nothing (RFC 9669, 3.1).
    #[error("no instruction has this opcode")]
    Opcode = 23,
    /// A field that has the number of a register has one over 10 (RFC 9669, 3.1).
    #[error("there are the registers 0 to {last} alone", last = REGISTERS - 1)]
    Register = 24,
    /// A field that the instruction doesn't use isn't 0 (RFC 9669, 3.1), or of a wide instruction's second slot anything but
    /// the immediate (RFC 9669, 3.2).
    #[error("a field that the instruction does not use is not 0")]
    UnusedField = 25,
    /// A wide instruction is the last slot (RFC 9669, 3.2).
    #[error("a wide instruction lacks its second slot")]
    CutWide = 26,
    /// The offset or the immediate tells which operation of the opcode it is, and has a value that none has (RFC 9669, 4.1
    /// and 4.2).
    #[error("a field has a value that the instruction cannot have")]
    Value = 27,
    /// RFC 9669 has the opcode, and this profile leaves the instruction out.
    #[error("the instruction is left out here")]
    NotInProfile = 28,
}

impl FaultKind {
    /// The number by which users see it, 20 to 28.
    pub fn number(self) -> u8
        ensures { result ≡ fault_number self }
    {
        self as u8
    }

    /// The kind of fault with this number; `None` for one that no kind has.
    pub fn from_number(number: u8) -> Option<FaultKind>
        ensures numbered { IfSome result (λ kind. fault_number kind ≡ number) }
        ensures known { IsSome result ↔ ((20 ≤ number) × (number ≤ 28)) }
    {
        match number {
            20 => Some(FaultKind::Length),
            21 => Some(FaultKind::Empty),
            22 => Some(FaultKind::TooLong),
            23 => Some(FaultKind::Opcode),
            24 => Some(FaultKind::Register),
            25 => Some(FaultKind::UnusedField),
            26 => Some(FaultKind::CutWide),
            27 => Some(FaultKind::Value),
            28 => Some(FaultKind::NotInProfile),
            _ => None,
        }
    }
}

/// The first fault of the bytes of a program.
#[derive(Clone, Copy, Debug, PartialEq, Eq, Error)]
#[error("slot {slot}: {kind}")]
pub struct Fault {
    /// The first slot of the instruction that has the fault, counted from 0; 0 for a fault of the length.
    pub slot: usize,
    /// What is wrong there.
    pub kind: FaultKind,
}

/// Why [`decode`](crate::decode) gives no program.
#[derive(Debug, Drop, Error)]
pub enum DecodeFault {
    /// Memory ran out.
    #[error("no memory")]
    Memory,
    /// The bytes are no program.
    #[error(transparent)]
    Fault(Fault),
}

impl From<AllocError> for DecodeFault {
    ghost from_gives = { λ _ e. e ≡ Memory };

    fn from(_error: AllocError) -> DecodeFault {
        DecodeFault::Memory
    }
}
