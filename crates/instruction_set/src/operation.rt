//! The operations, relations and sizes that instructions are made of.

ghost use Rattle.std.specs.Prelude.{◌≡◌};
ghost use Rattle.instruction_set.specs.Instruction.{signed_size_of, size_of};

/// The width of an arithmetic or a compare: classes ALU and JMP32, or ALU64 and JMP (RFC 9669, 4.1 and 4.3).
#[derive(Clone, Copy, Debug, PartialEq, Eq)]
pub enum Width {
    /// ALU and JMP32: the low 32 bits of each operand, and 0 in the upper half of what is made of them.
    Bits32,
    /// ALU64 and JMP: all bits of each operand.
    Bits64,
}

/// An arithmetic operation on the destination and a source (RFC 9669, 4.1).
#[derive(Clone, Copy, Debug, PartialEq, Eq)]
pub enum Operation {
    /// ADD: the sum, which wraps.
    Add,
    /// SUB: the difference, which wraps.
    Subtract,
    /// MUL: the product, which wraps.
    Multiply,
    /// DIV with offset 0: the quotient of unsigned numbers, and 0 where the source is 0.
    Divide,
    /// DIV with offset 1: the quotient of signed numbers, cut toward 0, and 0 where the source is 0.
    SignedDivide,
    /// OR: the bits that either operand has.
    Or,
    /// AND: the bits that both operands have.
    And,
    /// LSH: the destination shifted to the left, by the source modulo the number of bits.
    LeftShift,
    /// RSH: the destination shifted to the right by as many, with zeros from the left.
    RightShift,
    /// MOD with offset 0: the remainder of unsigned numbers, and the destination where the source is 0.
    Modulo,
    /// MOD with offset 1: the remainder that the signed quotient leaves, and the destination where the source is 0.
    SignedModulo,
    /// XOR: the bits that one operand has and the other has not.
    Xor,
    /// MOV with offset 0: the source.
    Move,
    /// ARSH: the destination shifted to the right, with its sign from the left.
    ArithmeticShift,
}

/// What a sign-extending move takes of its source, and the width that it extends it to (RFC 9669, 4.1).
#[derive(Clone, Copy, Debug, PartialEq, Eq)]
pub enum SignExtension {
    /// The low 8 bits, to 32; the upper half of the destination is 0.
    Bits8To32,
    /// The low 16 bits, to 32; the upper half of the destination is 0.
    Bits16To32,
    /// The low 8 bits, to 64.
    Bits8To64,
    /// The low 16 bits, to 64.
    Bits16To64,
    /// The low 32 bits, to 64.
    Bits32To64,
}

/// What a byte swap instruction makes of the low bytes of its register (RFC 9669, 4.2).
#[derive(Clone, Copy, Debug, PartialEq, Eq)]
pub enum Swap {
    /// From the machine's order to little-endian, which changes none of the bytes kept.
    ToLittle,
    /// From the machine's order to big-endian.
    ToBig,
    /// In the other order.
    Reverse,
}

/// How many low bits of its register a byte swap instruction keeps (RFC 9669, 4.2).
#[derive(Clone, Copy, Debug, PartialEq, Eq)]
pub enum SwapSize {
    /// The low 16.
    Bits16,
    /// The low 32.
    Bits32,
    /// All of them.
    Bits64,
}

/// The size of a memory access: 1, 2, 4 or 8 bytes (RFC 9669, 5.1).
#[derive(Clone, Copy, Debug, PartialEq, Eq)]
pub enum Size {
    /// B: 1 byte.
    Byte,
    /// H: 2 bytes.
    HalfWord,
    /// W: 4 bytes.
    Word,
    /// DW: 8 bytes.
    DoubleWord,
}

impl Size {
    /// The number of bytes in an access.
    #[inline(always)]
    pub fn bytes(self) -> u64
        ensures { result ≡ size_of self }
    {
        match self {
            Size::Byte => 1,
            Size::HalfWord => 2,
            Size::Word => 4,
            Size::DoubleWord => 8,
        }
    }
}

/// The size of a sign-extending load: 1, 2 or 4 bytes (RFC 9669, 5.2).
#[derive(Clone, Copy, Debug, PartialEq, Eq)]
pub enum SignedSize {
    /// B: 1 byte.
    Byte,
    /// H: 2 bytes.
    HalfWord,
    /// W: 4 bytes.
    Word,
}

impl SignedSize {
    /// The number of bytes in a sign-extending load.
    #[inline(always)]
    pub fn bytes(self) -> u64
        ensures { result ≡ signed_size_of self }
    {
        match self {
            SignedSize::Byte => 1,
            SignedSize::HalfWord => 2,
            SignedSize::Word => 4,
        }
    }
}

/// The relation that a conditional jump tests (RFC 9669, 4.3).
#[derive(Clone, Copy, Debug, PartialEq, Eq)]
pub enum Relation {
    /// JEQ: the destination is the source.
    Equal,
    /// JGT: the destination is greater, both unsigned.
    Greater,
    /// JGE: the destination is greater or the same, both unsigned.
    GreaterOrEqual,
    /// JSET: the bitwise AND of the two is not 0.
    AnyBitSet,
    /// JNE: the destination is not the source.
    NotEqual,
    /// JSGT: the destination is greater, both signed.
    SignedGreater,
    /// JSGE: the destination is greater or the same, both signed.
    SignedGreaterOrEqual,
    /// JLT: the destination is less, both unsigned.
    Less,
    /// JLE: the destination is less or the same, both unsigned.
    LessOrEqual,
    /// JSLT: the destination is less, both signed.
    SignedLess,
    /// JSLE: the destination is less or the same, both signed.
    SignedLessOrEqual,
}
