//! One arithmetic instruction and one compare, on 64-bit words.

ghost use Rattle.std.specs.Prelude.{◌≡◌, ◌%◌, ◌^◌};
ghost use Rattle.program_meaning.specs.Word.{low_bits, result_of, reordered, extended, computed, relates, is_taken};

use instruction_set::{Operation, Relation, SignExtension, Swap, SwapSize, Width};

/// What an arithmetic instruction makes of its operands (RFC 9669, 4.1 and 4.2).
#[derive(Clone, Copy, Debug, PartialEq, Eq)]
pub enum Arithmetic {
    /// The destination, an operation and the source.
    Binary { width: Width, operation: Operation },
    /// The destination negated.
    Negate { width: Width },
    /// The low bits of the source, sign-extended.
    MoveSigned { extension: SignExtension },
    /// The low bytes of the destination, in the order that the swap tells.
    SwapBytes { swap: Swap, size: SwapSize },
}

/// The operations, on two operands of one unsigned type with this many bits.
macro_rules! operate {
    ($operation:expr, $x:expr, $y:expr, $bits:expr) => {
        match $operation {
            Operation::Add => $x.wrapping_add($y),
            Operation::Subtract => $x.wrapping_sub($y),
            Operation::Multiply => $x.wrapping_mul($y),
            Operation::Divide => if $y == 0 { 0 } else { $x / $y },
            Operation::SignedDivide => if $y == 0 {
                0
            } else {
                $x.cast_signed().wrapping_div($y.cast_signed()).cast_unsigned()
            },
            Operation::Or => $x | $y,
            Operation::And => $x & $y,
            Operation::LeftShift => $x.wrapping_shl(($y % $bits) as u32),
            Operation::RightShift => $x.wrapping_shr(($y % $bits) as u32),
            Operation::Modulo => if $y == 0 { $x } else { $x % $y },
            Operation::SignedModulo => if $y == 0 {
                $x
            } else {
                $x.cast_signed().wrapping_rem($y.cast_signed()).cast_unsigned()
            },
            Operation::Xor => $x ^ $y,
            Operation::Move => $y,
            Operation::ArithmeticShift => {
                ($x.cast_signed() >> (($y % $bits) as u32)).cast_unsigned()
            }
        }
    };
}

#[inline(always)]
fn operate64(operation: Operation, x: u64, y: u64) -> u64
    ensures { result ≡ result_of Width.Bits64 operation x y }
{
    operate!(operation, x, y, 64)
}

#[inline(always)]
fn operate32(operation: Operation, x: u32, y: u32) -> u32
    ensures { result ≡ result_of Width.Bits32 operation x y }
{
    operate!(operation, x, y, 32)
}

#[inline(always)]
fn low32(word: u64) -> u32
    ensures { result ≡ low_bits Width.Bits32 word }
{
    (word % 0x1_0000_0000) as u32
}

#[inline(always)]
fn low16(word: u64) -> u16
    ensures { result ≡ word % 2 ^ 16 }
{
    (word % 0x1_0000) as u16
}

#[inline(always)]
fn low8(word: u64) -> u8
    ensures { result ≡ word % 2 ^ 8 }
{
    (word % 0x100) as u8
}

/// The low bits of a word, sign-extended.
#[inline(always)]
pub fn extend(extension: SignExtension, word: u64) -> u64
    ensures { result ≡ extended extension word }
{
    match extension {
        SignExtension::Bits8To32 => {
            u64::from(i32::from(low8(word).cast_signed()).cast_unsigned())
        }
        SignExtension::Bits16To32 => {
            u64::from(i32::from(low16(word).cast_signed()).cast_unsigned())
        }
        SignExtension::Bits8To64 => i64::from(low8(word).cast_signed()).cast_unsigned(),
        SignExtension::Bits16To64 => i64::from(low16(word).cast_signed()).cast_unsigned(),
        SignExtension::Bits32To64 => i64::from(low32(word).cast_signed()).cast_unsigned(),
    }
}

#[inline(always)]
fn reorder(swap: Swap, size: SwapSize, word: u64) -> u64
    ensures { result ≡ reordered swap size word }
{
    match (swap, size) {
        (Swap::ToLittle, SwapSize::Bits16) => u64::from(low16(word)),
        (Swap::ToLittle, SwapSize::Bits32) => u64::from(low32(word)),
        (Swap::ToLittle, SwapSize::Bits64) => word,
        (_, SwapSize::Bits16) => u64::from(low16(word).swap_bytes()),
        (_, SwapSize::Bits32) => u64::from(low32(word).swap_bytes()),
        (_, SwapSize::Bits64) => word.swap_bytes(),
    }
}

/// The destination's word after an arithmetic instruction, where it was `x` and the source is `y`
/// (RFC 9669, 4.1 and 4.2).
#[inline(always)]
pub fn alu(arithmetic: Arithmetic, x: u64, y: u64) -> u64
    ensures { result ≡ computed arithmetic x y }
{
    match arithmetic {
        Arithmetic::Binary {
            width: Width::Bits32,
            operation,
        } => { u64::from(operate32(operation, low32(x), low32(y))) }
        Arithmetic::Binary {
            width: Width::Bits64,
            operation,
        } => operate64(operation, x, y),
        Arithmetic::Negate {
            width: Width::Bits32,
        } => u64::from(0u32.wrapping_sub(low32(x))),
        Arithmetic::Negate {
            width: Width::Bits64,
        } => 0u64.wrapping_sub(x),
        Arithmetic::MoveSigned { extension } => extend(extension, y),
        Arithmetic::SwapBytes { swap, size } => reorder(swap, size, x),
    }
}

/// Does a relation hold between two words, where `signed_x` and `signed_y` are their signed values?
#[inline(always)]
fn relate(relation: Relation, x: u64, y: u64, signed_x: i64, signed_y: i64) -> bool
    ensures { result ≡ relates relation x y signed_x signed_y }
{
    match relation {
        Relation::Equal => x == y,
        Relation::Greater => x > y,
        Relation::GreaterOrEqual => x >= y,
        Relation::AnyBitSet => x & y != 0,
        Relation::NotEqual => x != y,
        Relation::SignedGreater => signed_x > signed_y,
        Relation::SignedGreaterOrEqual => signed_x >= signed_y,
        Relation::Less => x < y,
        Relation::LessOrEqual => x <= y,
        Relation::SignedLess => signed_x < signed_y,
        Relation::SignedLessOrEqual => signed_x <= signed_y,
    }
}

/// Is a conditional jump taken, where the destination is `x` and the source is `y` (RFC 9669, 4.3)?
#[inline(always)]
pub fn is_taken(width: Width, relation: Relation, x: u64, y: u64) -> bool
    ensures { result ≡ is_taken width relation x y }
{
    match width {
        Width::Bits32 => {
            let (x, y) = (low32(x), low32(y));
            relate(
                relation,
                u64::from(x),
                u64::from(y),
                i64::from(x.cast_signed()),
                i64::from(y.cast_signed()),
            )
        }
        Width::Bits64 => relate(relation, x, y, x.cast_signed(), y.cast_signed()),
    }
}
