//! What a verifier refuses.

ghost use Rattle.std.specs.Prelude.{◌≡◌, ◌≤◌, ◌↔◌, IfSome, IsSome};
ghost use Rattle.accepted_programs.specs.Accepted.{reason_number};

use thiserror::Error;

/// Why an instruction is refused, with the words that users are told. Where several reasons hold, the one with the least
/// number is told (profile).
#[derive(Clone, Copy, Debug, PartialEq, Eq, Error)]
pub enum Reason {
    /// A jump to a slot before the next one.
    #[error("a jump backward")]
    JumpBack = 1,
    /// A jump to a slot where no instruction begins: outside the program, or the second slot of
    /// a wide instruction.
    #[error("a jump to no instruction")]
    JumpOutside = 2,
    /// The program ends behind the instruction, which is no EXIT and no unconditional jump.
    #[error("a program that falls off")]
    FallsOff = 3,
    /// A write to R10, the read-only frame pointer (BPF ABI 1.0, Registers and calling convention).
    #[error("a write to R10")]
    WriteToFramePointer = 4,
    /// A load whose bytes may not all lie in one area.
    #[error("a load outside")]
    LoadOutside = 5,
    /// A store whose bytes may not all lie in one writable area.
    #[error("a store outside, or into the context or the block")]
    StoreOutside = 6,
    /// A helper other than emit.
    #[error("a helper other than 1")]
    UnknownHelper = 7,
    /// An emit from an address that may lie in no area, nor at the end of one.
    #[error("an emit from an unknown address")]
    EmitAddress = 8,
    /// An emit that may be of no bytes, or whose bytes may not all lie in the area.
    #[error("an emit of an unknown length")]
    EmitLength = 9,
    /// An emit that may take the group over its limit.
    #[error("an emit over the limit")]
    EmitLimit = 10,
}

impl Reason {
    /// The reason's number, 1 to 10.
    pub fn number(self) -> u8
        ensures { result ≡ reason_number self }
    {
        self as u8
    }

    /// The reason with this number; `None` for one that no reason has.
    pub fn from_number(number: u8) -> Option<Reason>
        ensures numbered { IfSome result (λ reason. reason_number reason ≡ number) }
        ensures known { IsSome result ↔ ((1 ≤ number) × (number ≤ 10)) }
    {
        match number {
            1 => Some(Reason::JumpBack),
            2 => Some(Reason::JumpOutside),
            3 => Some(Reason::FallsOff),
            4 => Some(Reason::WriteToFramePointer),
            5 => Some(Reason::LoadOutside),
            6 => Some(Reason::StoreOutside),
            7 => Some(Reason::UnknownHelper),
            8 => Some(Reason::EmitAddress),
            9 => Some(Reason::EmitLength),
            10 => Some(Reason::EmitLimit),
            _ => None,
        }
    }
}

/// An instruction that is refused, by its first slot, and why.
#[derive(Clone, Copy, Debug, PartialEq, Eq)]
pub struct Refusal {
    /// The first slot of the instruction.
    pub slot: usize,
    /// The least reason to refuse it.
    pub reason: Reason,
}
