//! Instructions.

ghost use Rattle.std.specs.Prelude.{◌≡◌, ◌<◌};
ghost use Rattle.instruction_set.specs.Instruction.{access_of, destination_register, distance_of, immediate_word, is_emit, target, writes};
ghost use Rattle.instruction_set.specs.Program.{slots_taken};

use crate::access::{Access, AccessKind};
use crate::operation::{
    Operation, Relation, SignExtension, SignedSize, Size, Swap, SwapSize, Width,
};
use crate::register::Register;
use program_interface::{EMIT, MOST_SLOTS};

/// The second operand of an arithmetic or a compare (RFC 9669, 4).
#[derive(Clone, Copy, Debug, PartialEq, Eq)]
pub enum Source {
    /// A number in the instruction, sign-extended where 64 bits are wanted.
    Immediate(i32),
    /// A register's word, or its low half.
    Register(Register),
}

/// An instruction, with the fields that it uses. Distances are in slots, from the slot after the
/// instruction's first; offsets are in bytes.
#[derive(Clone, Copy, Debug, PartialEq, Eq)]
pub enum Instruction {
    /// `dst = value`: the wide instruction, which takes two slots (RFC 9669, 5.4).
    LoadImmediate {
        dst: Register,
        value: u64,
    },
    /// `dst` = the bytes at `src + offset`, zero-extended (RFC 9669, 5.1).
    Load {
        size: Size,
        dst: Register,
        src: Register,
        offset: i16,
    },
    /// `dst` = the bytes at `src + offset`, sign-extended (RFC 9669, 5.2).
    LoadSigned {
        size: SignedSize,
        dst: Register,
        src: Register,
        offset: i16,
    },
    /// The bytes at `dst + offset` = the low bytes of `value` (RFC 9669, 5.1).
    StoreImmediate {
        size: Size,
        dst: Register,
        offset: i16,
        value: i32,
    },
    /// The bytes at `dst + offset` = the low bytes of `src` (RFC 9669, 5.1).
    StoreRegister {
        size: Size,
        dst: Register,
        src: Register,
        offset: i16,
    },
    /// `dst = dst operation source` (RFC 9669, 4.1).
    Arithmetic {
        width: Width,
        operation: Operation,
        dst: Register,
        source: Source,
    },
    /// `dst = -dst` (RFC 9669, 4.1).
    Negate {
        width: Width,
        dst: Register,
    },
    /// `dst` = the low bits of `src`, sign-extended (RFC 9669, 4.1).
    MoveSigned {
        extension: SignExtension,
        dst: Register,
        src: Register,
    },
    /// `dst` = its low bytes, in the order that `swap` tells (RFC 9669, 4.2).
    SwapBytes {
        swap: Swap,
        size: SwapSize,
        dst: Register,
    },
    /// A jump by a 16-bit distance (JA of class JMP; RFC 9669, 4.3).
    Jump {
        distance: i16,
    },
    /// A jump by a 32-bit distance (JA of class JMP32; RFC 9669, 4.3).
    JumpLong {
        distance: i32,
    },
    /// A jump where `dst relation source` holds (RFC 9669, 4.3).
    Branch {
        width: Width,
        relation: Relation,
        dst: Register,
        source: Source,
        distance: i16,
    },
    /// A call of the helper with this number (RFC 9669, 4.3.1).
    Call {
        helper: i32,
    },
    /// EXIT: the end of the block run (RFC 9669, 4.3).
    Exit,
}

impl Instruction {
    /// How many slots of 8 bytes the instruction takes: two where it is the wide one (RFC 9669, 3.2).
    #[inline(always)]
    pub fn slots(&self) -> usize
        ensures { result ≡ slots_taken self.now }
    {
        match *self {
            Instruction::LoadImmediate { .. } => 2,
            _ => 1,
        }
    }

    /// Is it a call of the helper that emits a record?
    #[inline(always)]
    pub fn is_emit(&self) -> bool
        ensures { result ≡ is_emit self.now }
    {
        match *self {
            Instruction::Call { helper } => helper == EMIT,
            _ => false,
        }
    }

    /// The memory that the instruction accesses by its own, and `None` where it neither loads nor stores. What a
    /// helper accesses isn't told.
    #[inline(always)]
    #[tactic(auto, using(crate::proofs::Sizes::small, crate::proofs::Sizes::signed_small))]
    pub fn access(&self) -> Option<Access>
        ensures { result ≡ access_of self.now }
    {
        let (kind, base, offset, size) = match *self {
            Instruction::Load {
                size,
                src,
                offset,
                ..
            } => (AccessKind::Load, src, offset, size.bytes()),
            Instruction::LoadSigned {
                size,
                src,
                offset,
                ..
            } => (AccessKind::Load, src, offset, size.bytes()),
            Instruction::StoreImmediate {
                size,
                dst,
                offset,
                ..
            }
            | Instruction::StoreRegister {
                size,
                dst,
                offset,
                ..
            } => (AccessKind::Store, dst, offset, size.bytes()),
            _ => return None,
        };
        Some(Access {
            kind,
            base,
            offset,
            size: size as u8,
        })
    }

    /// The register that the instruction writes: its destination, and `None` where it has none. A call, which has none,
    /// clears registers.
    #[inline(always)]
    pub fn destination(&self) -> Option<Register>
        ensures { result ≡ destination_register self.now }
    {
        match *self {
            Instruction::LoadImmediate { dst, .. }
            | Instruction::Load { dst, .. }
            | Instruction::LoadSigned { dst, .. }
            | Instruction::Arithmetic { dst, .. }
            | Instruction::Negate { dst, .. }
            | Instruction::MoveSigned { dst, .. }
            | Instruction::SwapBytes { dst, .. } => Some(dst),
            _ => None,
        }
    }

    /// Is this register the instruction's destination?
    #[inline(always)]
    pub fn writes(&self, register: Register) -> bool
        ensures { result ≡ writes self.now register }
    {
        self.destination() == Some(register)
    }

    /// The distance of a jump, in slots from the slot after it, and `None` where the instruction is
    /// no jump (RFC 9669, 4.3).
    #[inline(always)]
    pub fn distance(&self) -> Option<i32>
        ensures { result ≡ distance_of self.now }
    {
        match *self {
            Instruction::Jump { distance } => Some(i32::from(distance)),
            Instruction::JumpLong { distance } => Some(distance),
            Instruction::Branch { distance, .. } => Some(i32::from(distance)),
            _ => None,
        }
    }

    /// The slot that a jump at `slot` leads to by its distance, which may be outside the program.
    #[inline(always)]
    pub fn target(slot: usize, distance: i32) -> i64
        requires { slot < MOST_SLOTS }
        ensures { result ≡ target slot distance }
    {
        slot as i64 + 1 + i64::from(distance)
    }

    /// An instruction's immediate as a word: sign-extended to 64 bits, also for unsigned arithmetic
    /// (RFC 9669, 4.1) and for unsigned compares (RFC 9669, 4.3).
    #[inline(always)]
    pub fn immediate_word(immediate: i32) -> u64
        ensures { result ≡ immediate_word immediate }
    {
        i64::from(immediate).cast_unsigned()
    }
}
