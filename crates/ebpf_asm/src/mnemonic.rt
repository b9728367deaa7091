//! Mnemonics: the one table of their texts.

ghost use Rattle.std.specs.Prelude.{◌≡◌, ◌++◌};
ghost use Rattle.std.specs.Str.{bytes_eq};
ghost use Rattle.ebpf_asm.specs.Mnemonic.{operation_name, relation_name, width_suffix, size_suffix, signed_size_suffix, extension_suffix, swap_name, swap_size_suffix, mnemonic_parts, mnemonic_text, mnemonic_named};

use instruction_set::{
    Operation, Relation, SignExtension, SignedSize, Size, Swap, SwapSize, Width,
};

/// What the first word of a statement says: an instruction but for its operands. Variants are named as those of `Instruction`.
#[derive(Clone, Copy)]
pub enum Mnemonic {
    LoadImmediate,
    Load(Size),
    LoadSigned(SignedSize),
    StoreImmediate(Size),
    StoreRegister(Size),
    Arithmetic(Width, Operation),
    Negate(Width),
    MoveSigned(SignExtension),
    SwapBytes(Swap, SwapSize),
    Jump,
    JumpLong,
    Branch(Width, Relation),
    Call,
    Exit,
}

/// Each mnemonic.
const MNEMONICS: [Mnemonic; 86] = [
    Mnemonic::Arithmetic(Width::Bits64, Operation::Add),
    Mnemonic::Arithmetic(Width::Bits64, Operation::Subtract),
    Mnemonic::Arithmetic(Width::Bits64, Operation::Multiply),
    Mnemonic::Arithmetic(Width::Bits64, Operation::Divide),
    Mnemonic::Arithmetic(Width::Bits64, Operation::SignedDivide),
    Mnemonic::Arithmetic(Width::Bits64, Operation::Or),
    Mnemonic::Arithmetic(Width::Bits64, Operation::And),
    Mnemonic::Arithmetic(Width::Bits64, Operation::LeftShift),
    Mnemonic::Arithmetic(Width::Bits64, Operation::RightShift),
    Mnemonic::Arithmetic(Width::Bits64, Operation::Modulo),
    Mnemonic::Arithmetic(Width::Bits64, Operation::SignedModulo),
    Mnemonic::Arithmetic(Width::Bits64, Operation::Xor),
    Mnemonic::Arithmetic(Width::Bits64, Operation::Move),
    Mnemonic::Arithmetic(Width::Bits64, Operation::ArithmeticShift),
    Mnemonic::Arithmetic(Width::Bits32, Operation::Add),
    Mnemonic::Arithmetic(Width::Bits32, Operation::Subtract),
    Mnemonic::Arithmetic(Width::Bits32, Operation::Multiply),
    Mnemonic::Arithmetic(Width::Bits32, Operation::Divide),
    Mnemonic::Arithmetic(Width::Bits32, Operation::SignedDivide),
    Mnemonic::Arithmetic(Width::Bits32, Operation::Or),
    Mnemonic::Arithmetic(Width::Bits32, Operation::And),
    Mnemonic::Arithmetic(Width::Bits32, Operation::LeftShift),
    Mnemonic::Arithmetic(Width::Bits32, Operation::RightShift),
    Mnemonic::Arithmetic(Width::Bits32, Operation::Modulo),
    Mnemonic::Arithmetic(Width::Bits32, Operation::SignedModulo),
    Mnemonic::Arithmetic(Width::Bits32, Operation::Xor),
    Mnemonic::Arithmetic(Width::Bits32, Operation::Move),
    Mnemonic::Arithmetic(Width::Bits32, Operation::ArithmeticShift),
    Mnemonic::Negate(Width::Bits64),
    Mnemonic::Negate(Width::Bits32),
    Mnemonic::MoveSigned(SignExtension::Bits8To64),
    Mnemonic::MoveSigned(SignExtension::Bits16To64),
    Mnemonic::MoveSigned(SignExtension::Bits32To64),
    Mnemonic::MoveSigned(SignExtension::Bits8To32),
    Mnemonic::MoveSigned(SignExtension::Bits16To32),
    Mnemonic::SwapBytes(Swap::ToLittle, SwapSize::Bits16),
    Mnemonic::SwapBytes(Swap::ToLittle, SwapSize::Bits32),
    Mnemonic::SwapBytes(Swap::ToLittle, SwapSize::Bits64),
    Mnemonic::SwapBytes(Swap::ToBig, SwapSize::Bits16),
    Mnemonic::SwapBytes(Swap::ToBig, SwapSize::Bits32),
    Mnemonic::SwapBytes(Swap::ToBig, SwapSize::Bits64),
    Mnemonic::SwapBytes(Swap::Reverse, SwapSize::Bits16),
    Mnemonic::SwapBytes(Swap::Reverse, SwapSize::Bits32),
    Mnemonic::SwapBytes(Swap::Reverse, SwapSize::Bits64),
    Mnemonic::Load(Size::Byte),
    Mnemonic::Load(Size::HalfWord),
    Mnemonic::Load(Size::Word),
    Mnemonic::Load(Size::DoubleWord),
    Mnemonic::LoadSigned(SignedSize::Byte),
    Mnemonic::LoadSigned(SignedSize::HalfWord),
    Mnemonic::LoadSigned(SignedSize::Word),
    Mnemonic::StoreImmediate(Size::Byte),
    Mnemonic::StoreImmediate(Size::HalfWord),
    Mnemonic::StoreImmediate(Size::Word),
    Mnemonic::StoreImmediate(Size::DoubleWord),
    Mnemonic::StoreRegister(Size::Byte),
    Mnemonic::StoreRegister(Size::HalfWord),
    Mnemonic::StoreRegister(Size::Word),
    Mnemonic::StoreRegister(Size::DoubleWord),
    Mnemonic::LoadImmediate,
    Mnemonic::Jump,
    Mnemonic::JumpLong,
    Mnemonic::Branch(Width::Bits64, Relation::Equal),
    Mnemonic::Branch(Width::Bits64, Relation::Greater),
    Mnemonic::Branch(Width::Bits64, Relation::GreaterOrEqual),
    Mnemonic::Branch(Width::Bits64, Relation::AnyBitSet),
    Mnemonic::Branch(Width::Bits64, Relation::NotEqual),
    Mnemonic::Branch(Width::Bits64, Relation::SignedGreater),
    Mnemonic::Branch(Width::Bits64, Relation::SignedGreaterOrEqual),
    Mnemonic::Branch(Width::Bits64, Relation::Less),
    Mnemonic::Branch(Width::Bits64, Relation::LessOrEqual),
    Mnemonic::Branch(Width::Bits64, Relation::SignedLess),
    Mnemonic::Branch(Width::Bits64, Relation::SignedLessOrEqual),
    Mnemonic::Branch(Width::Bits32, Relation::Equal),
    Mnemonic::Branch(Width::Bits32, Relation::Greater),
    Mnemonic::Branch(Width::Bits32, Relation::GreaterOrEqual),
    Mnemonic::Branch(Width::Bits32, Relation::AnyBitSet),
    Mnemonic::Branch(Width::Bits32, Relation::NotEqual),
    Mnemonic::Branch(Width::Bits32, Relation::SignedGreater),
    Mnemonic::Branch(Width::Bits32, Relation::SignedGreaterOrEqual),
    Mnemonic::Branch(Width::Bits32, Relation::Less),
    Mnemonic::Branch(Width::Bits32, Relation::LessOrEqual),
    Mnemonic::Branch(Width::Bits32, Relation::SignedLess),
    Mnemonic::Branch(Width::Bits32, Relation::SignedLessOrEqual),
    Mnemonic::Call,
    Mnemonic::Exit,
];

impl Mnemonic {
    /// The mnemonic that a word is.
    pub(crate) fn named(word: &[u8]) -> Option<Mnemonic>
        ensures { result ≡ mnemonic_named word.now }
    {
        MNEMONICS
            .iter()
            .copied()
            .find(|mnemonic| mnemonic.is_spelled(word))
    }

    fn is_spelled(self, word: &[u8]) -> bool
        ensures { result ≡ bytes_eq word.now (mnemonic_text self) }
    {
        let (front, back) = self.parts();
        is_joined(word, front, back)
    }

    /// Its text, in two parts: what it does, and of which size or width.
    pub(crate) fn parts(self) -> (&'static str, &'static str)
        ensures { (result.0.now, result.1.now) ≡ mnemonic_parts self }
    {
        match self {
            Mnemonic::LoadImmediate => ("lddw", ""),
            Mnemonic::Load(size) => ("ldx", size_suffix(size)),
            Mnemonic::LoadSigned(size) => ("ldxs", signed_size_suffix(size)),
            Mnemonic::StoreImmediate(size) => ("st", size_suffix(size)),
            Mnemonic::StoreRegister(size) => ("stx", size_suffix(size)),
            Mnemonic::Arithmetic(width, operation) => (
                operation_name(operation),
                width_suffix(width),
            ),
            Mnemonic::Negate(width) => ("neg", width_suffix(width)),
            Mnemonic::MoveSigned(extension) => ("movsx", extension_suffix(extension)),
            Mnemonic::SwapBytes(swap, size) => (swap_name(swap), swap_size_suffix(size)),
            Mnemonic::Jump => ("ja", ""),
            Mnemonic::JumpLong => ("jaw", ""),
            Mnemonic::Branch(width, relation) => (relation_name(relation), width_suffix(width)),
            Mnemonic::Call => ("call", ""),
            Mnemonic::Exit => ("exit", ""),
        }
    }
}

/// Is the word these two parts, one behind the other?
fn is_joined(word: &[u8], front: &str, back: &str) -> bool
    ensures { result ≡ bytes_eq word.now (front.now ++ back.now) }
{
    match word.strip_prefix(front.as_bytes()) {
        Some(rest) => rest == back.as_bytes(),
        None => false,
    }
}

fn operation_name(operation: Operation) -> &'static str
    ensures { result.now ≡ operation_name operation }
{
    match operation {
        Operation::Add => "add",
        Operation::Subtract => "sub",
        Operation::Multiply => "mul",
        Operation::Divide => "div",
        Operation::SignedDivide => "sdiv",
        Operation::Or => "or",
        Operation::And => "and",
        Operation::LeftShift => "lsh",
        Operation::RightShift => "rsh",
        Operation::Modulo => "mod",
        Operation::SignedModulo => "smod",
        Operation::Xor => "xor",
        Operation::Move => "mov",
        Operation::ArithmeticShift => "arsh",
    }
}

fn relation_name(relation: Relation) -> &'static str
    ensures { result.now ≡ relation_name relation }
{
    match relation {
        Relation::Equal => "jeq",
        Relation::Greater => "jgt",
        Relation::GreaterOrEqual => "jge",
        Relation::AnyBitSet => "jset",
        Relation::NotEqual => "jne",
        Relation::SignedGreater => "jsgt",
        Relation::SignedGreaterOrEqual => "jsge",
        Relation::Less => "jlt",
        Relation::LessOrEqual => "jle",
        Relation::SignedLess => "jslt",
        Relation::SignedLessOrEqual => "jsle",
    }
}

fn swap_name(swap: Swap) -> &'static str
    ensures { result.now ≡ swap_name swap }
{
    match swap {
        Swap::ToLittle => "le",
        Swap::ToBig => "be",
        Swap::Reverse => "swap",
    }
}

/// The 32-bit forms have a `w` at the end.
fn width_suffix(width: Width) -> &'static str
    ensures { result.now ≡ width_suffix width }
{
    match width {
        Width::Bits32 => "w",
        Width::Bits64 => "",
    }
}

fn size_suffix(size: Size) -> &'static str
    ensures { result.now ≡ size_suffix size }
{
    match size {
        Size::Byte => "b",
        Size::HalfWord => "h",
        Size::Word => "w",
        Size::DoubleWord => "dw",
    }
}

fn signed_size_suffix(size: SignedSize) -> &'static str
    ensures { result.now ≡ signed_size_suffix size }
{
    match size {
        SignedSize::Byte => "b",
        SignedSize::HalfWord => "h",
        SignedSize::Word => "w",
    }
}

fn extension_suffix(extension: SignExtension) -> &'static str
    ensures { result.now ≡ extension_suffix extension }
{
    match extension {
        SignExtension::Bits8To32 => "8w",
        SignExtension::Bits16To32 => "16w",
        SignExtension::Bits8To64 => "8",
        SignExtension::Bits16To64 => "16",
        SignExtension::Bits32To64 => "32",
    }
}

fn swap_size_suffix(size: SwapSize) -> &'static str
    ensures { result.now ≡ swap_size_suffix size }
{
    match size {
        SwapSize::Bits16 => "16",
        SwapSize::Bits32 => "32",
        SwapSize::Bits64 => "64",
    }
}
