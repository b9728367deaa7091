//! The numbers that tell an instruction: what its opcode is made of (classes, modes, and the codes of operations, relations and
//! sizes), the offset of an operation, and the immediate of a byte swap.

ghost use Rattle.std.specs.Prelude.{◌≡◌, ◌<◌};
ghost use Rattle.instruction_set.specs.Spelling.{arithmetic_class, extension_offset, extension_width, jump_class, kept_bits, operation_code, operation_offset, relation_code, signed_size_code, size_code, swap_opcode};
ghost use Rattle.instruction_set.specs.Codes.{extension_with, has_variants, operation_with, relation_with, signed_size_with, size_with, swap_size_with, swap_with, variant_with};

use crate::operation::{
    Operation, Relation, SignExtension, SignedSize, Size, Swap, SwapSize, Width,
};

/// The class of the wide instruction and of packet loads: the low three bits of an opcode (RFC 9669, 3.3).
pub const LD: u8 = 0;

/// The class of loads into a register (RFC 9669, 3.3).
pub const LDX: u8 = 1;

/// The class of stores of an immediate (RFC 9669, 3.3).
pub const ST: u8 = 2;

/// The class of stores of a register (RFC 9669, 3.3).
pub const STX: u8 = 3;

/// The class of 32-bit arithmetic (RFC 9669, 3.3).
pub const ALU: u8 = 4;

/// The class of 64-bit jumps, with calls and EXIT (RFC 9669, 3.3).
pub const JMP: u8 = 5;

/// The class of 32-bit jumps (RFC 9669, 3.3).
pub const JMP32: u8 = 6;

/// The class of 64-bit arithmetic (RFC 9669, 3.3).
pub const ALU64: u8 = 7;

/// The mode of the wide instruction: the high three bits of an opcode (RFC 9669, 5).
pub const IMM: u8 = 0;

/// The mode of a regular load or store (RFC 9669, 5.1).
pub const MEM: u8 = 3;

/// The mode of a sign-extending load (RFC 9669, 5.2).
pub const MEMSX: u8 = 4;

/// The code of a negation: the high four bits of an opcode (RFC 9669, 4.1).
pub const NEG: u8 = 0x8;

/// The code of a jump that is always taken: the high four bits of an opcode (RFC 9669, 4.3).
pub const JA: u8 = 0x0;

/// The code of a call (RFC 9669, 4.3.1).
pub const CALL: u8 = 0x8;

/// The code of EXIT (RFC 9669, 4.3).
pub const EXIT: u8 = 0x9;

impl Width {
    /// The class of arithmetic, ALU or ALU64: the low three bits of an opcode (RFC 9669, 3.3).
    pub fn arithmetic_class(self) -> u8
        ensures value { result ≡ arithmetic_class self }
        ensures bound { result < 8 }
    {
        match self {
            Width::Bits32 => ALU,
            Width::Bits64 => ALU64,
        }
    }

    /// The class of jumps, JMP32 or JMP: the low three bits of an opcode (RFC 9669, 3.3).
    pub fn jump_class(self) -> u8
        ensures value { result ≡ jump_class self }
        ensures bound { result < 8 }
    {
        match self {
            Width::Bits32 => JMP32,
            Width::Bits64 => JMP,
        }
    }
}

impl Size {
    /// Bits 3 and 4 of an opcode (RFC 9669, 5).
    pub fn code(self) -> u8
        ensures value { result ≡ size_code self }
        ensures bound { result < 4 }
    {
        match self {
            Size::Word => 0,
            Size::HalfWord => 1,
            Size::Byte => 2,
            Size::DoubleWord => 3,
        }
    }

    /// The size with this code, or `None` for any other (RFC 9669, 5).
    pub fn from_code(code: u8) -> Option<Size>
        ensures { result ≡ size_with code }
    {
        match code {
            0 => Some(Size::Word),
            1 => Some(Size::HalfWord),
            2 => Some(Size::Byte),
            3 => Some(Size::DoubleWord),
            _ => None,
        }
    }
}

impl SignedSize {
    /// Bits 3 and 4 of an opcode (RFC 9669, 5).
    pub fn code(self) -> u8
        ensures value { result ≡ signed_size_code self }
        ensures bound { result < 4 }
    {
        match self {
            SignedSize::Word => 0,
            SignedSize::HalfWord => 1,
            SignedSize::Byte => 2,
        }
    }

    /// The size of a sign-extending load with this code, or `None` for any other (RFC 9669, 5.2).
    pub fn from_code(code: u8) -> Option<SignedSize>
        ensures { result ≡ signed_size_with code }
    {
        match code {
            0 => Some(SignedSize::Word),
            1 => Some(SignedSize::HalfWord),
            2 => Some(SignedSize::Byte),
            _ => None,
        }
    }
}

impl Operation {
    /// The high four bits of an opcode (RFC 9669, 4.1).
    pub fn code(self) -> u8
        ensures value { result ≡ operation_code self }
        ensures bound { result < 16 }
    {
        match self {
            Operation::Add => 0x0,
            Operation::Subtract => 0x1,
            Operation::Multiply => 0x2,
            Operation::Divide | Operation::SignedDivide => 0x3,
            Operation::Or => 0x4,
            Operation::And => 0x5,
            Operation::LeftShift => 0x6,
            Operation::RightShift => 0x7,
            Operation::Modulo | Operation::SignedModulo => 0x9,
            Operation::Xor => 0xa,
            Operation::Move => 0xb,
            Operation::ArithmeticShift => 0xc,
        }
    }

    /// The operation of offset 0 with this code, or `None` if there is none (RFC 9669, 4.1).
    pub fn from_code(code: u8) -> Option<Operation>
        ensures { result ≡ operation_with code }
    {
        match code {
            0x0 => Some(Operation::Add),
            0x1 => Some(Operation::Subtract),
            0x2 => Some(Operation::Multiply),
            0x3 => Some(Operation::Divide),
            0x4 => Some(Operation::Or),
            0x5 => Some(Operation::And),
            0x6 => Some(Operation::LeftShift),
            0x7 => Some(Operation::RightShift),
            0x9 => Some(Operation::Modulo),
            0xa => Some(Operation::Xor),
            0xb => Some(Operation::Move),
            0xc => Some(Operation::ArithmeticShift),
            _ => None,
        }
    }

    /// The operation with the same code and this offset, or `None` if there is none (RFC 9669, 4.1).
    pub fn variant(self, offset: i16) -> Option<Operation>
        ensures { result ≡ variant_with self offset }
    {
        match offset {
            0 => Operation::from_code(self.code()),
            1 => match self {
                Operation::Divide | Operation::SignedDivide => Some(Operation::SignedDivide),
                Operation::Modulo | Operation::SignedModulo => Some(Operation::SignedModulo),
                _ => None,
            },
            _ => None,
        }
    }

    /// Do offsets tell several operations of its code (RFC 9669, 4.1)?
    pub fn has_variants(self) -> bool
        ensures { result ≡ has_variants self }
    {
        matches!(
            self,
            Operation::Divide
                | Operation::SignedDivide
                | Operation::Modulo
                | Operation::SignedModulo
                | Operation::Move
        )
    }

    /// The offset that tells the signed division and modulo (RFC 9669, 4.1).
    pub fn offset(self) -> i16
        ensures { result ≡ operation_offset self }
    {
        match self {
            Operation::SignedDivide | Operation::SignedModulo => 1,
            _ => 0,
        }
    }
}

impl SignExtension {
    /// The offset, which is the number of bits taken (RFC 9669, 4.1).
    pub fn offset(self) -> i16
        ensures { result ≡ extension_offset self }
    {
        match self {
            SignExtension::Bits8To32 | SignExtension::Bits8To64 => 8,
            SignExtension::Bits16To32 | SignExtension::Bits16To64 => 16,
            SignExtension::Bits32To64 => 32,
        }
    }

    /// The sign-extending move to this width that is a variant of an operation, by its offset, or `None` if there is none
    /// (RFC 9669, 4.1).
    pub fn variant(width: Width, operation: Operation, offset: i16) -> Option<SignExtension>
        ensures { result ≡ extension_with width operation offset }
    {
        match (operation, width, offset) {
            (Operation::Move, Width::Bits32, 8) => Some(SignExtension::Bits8To32),
            (Operation::Move, Width::Bits32, 16) => Some(SignExtension::Bits16To32),
            (Operation::Move, Width::Bits64, 8) => Some(SignExtension::Bits8To64),
            (Operation::Move, Width::Bits64, 16) => Some(SignExtension::Bits16To64),
            (Operation::Move, Width::Bits64, 32) => Some(SignExtension::Bits32To64),
            _ => None,
        }
    }

    /// The width that it extends to.
    pub fn width(self) -> Width
        ensures { result ≡ extension_width self }
    {
        match self {
            SignExtension::Bits8To32 | SignExtension::Bits16To32 => Width::Bits32,
            SignExtension::Bits8To64 | SignExtension::Bits16To64 | SignExtension::Bits32To64 => {
                Width::Bits64
            }
        }
    }
}

impl Swap {
    /// The opcode of a byte swap (RFC 9669, 4.2).
    pub fn opcode(self) -> u8
        ensures { result ≡ swap_opcode self }
    {
        match self {
            Swap::ToLittle => 0xd4,
            Swap::ToBig => 0xdc,
            Swap::Reverse => 0xd7,
        }
    }

    /// The byte swap with this opcode, or `None` for any other (RFC 9669, 4.2).
    pub fn from_opcode(opcode: u8) -> Option<Swap>
        ensures { result ≡ swap_with opcode }
    {
        match opcode {
            0xd4 => Some(Swap::ToLittle),
            0xdc => Some(Swap::ToBig),
            0xd7 => Some(Swap::Reverse),
            _ => None,
        }
    }
}

impl SwapSize {
    /// The immediate of a byte swap (RFC 9669, 4.2).
    pub fn bits(self) -> i32
        ensures { result ≡ kept_bits self }
    {
        match self {
            SwapSize::Bits16 => 16,
            SwapSize::Bits32 => 32,
            SwapSize::Bits64 => 64,
        }
    }

    /// The size that keeps this many bits, or `None` if no byte swap has it (RFC 9669, 4.2).
    pub fn from_bits(bits: i32) -> Option<SwapSize>
        ensures { result ≡ swap_size_with bits }
    {
        match bits {
            16 => Some(SwapSize::Bits16),
            32 => Some(SwapSize::Bits32),
            64 => Some(SwapSize::Bits64),
            _ => None,
        }
    }
}

impl Relation {
    /// The high four bits of an opcode (RFC 9669, 4.3).
    pub fn code(self) -> u8
        ensures value { result ≡ relation_code self }
        ensures bound { result < 16 }
    {
        match self {
            Relation::Equal => 0x1,
            Relation::Greater => 0x2,
            Relation::GreaterOrEqual => 0x3,
            Relation::AnyBitSet => 0x4,
            Relation::NotEqual => 0x5,
            Relation::SignedGreater => 0x6,
            Relation::SignedGreaterOrEqual => 0x7,
            Relation::Less => 0xa,
            Relation::LessOrEqual => 0xb,
            Relation::SignedLess => 0xc,
            Relation::SignedLessOrEqual => 0xd,
        }
    }

    /// The relation with this code, or `None` for any other (RFC 9669, 4.3).
    pub fn from_code(code: u8) -> Option<Relation>
        ensures { result ≡ relation_with code }
    {
        match code {
            0x1 => Some(Relation::Equal),
            0x2 => Some(Relation::Greater),
            0x3 => Some(Relation::GreaterOrEqual),
            0x4 => Some(Relation::AnyBitSet),
            0x5 => Some(Relation::NotEqual),
            0x6 => Some(Relation::SignedGreater),
            0x7 => Some(Relation::SignedGreaterOrEqual),
            0xa => Some(Relation::Less),
            0xb => Some(Relation::LessOrEqual),
            0xc => Some(Relation::SignedLess),
            0xd => Some(Relation::SignedLessOrEqual),
            _ => None,
        }
    }
}
