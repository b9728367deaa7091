//! Arithmetic on facts.

ghost use Rattle.std.specs.Prelude.{◌≡◌, ◌≤◌, ◌≤ℤ◌, ◌+ℤ◌, ◌-ℤ◌, IfSome};
ghost use Rattle.instruction_set.specs.Spelling.{extension_width};
ghost use Rattle.interval_domain.specs.Fact.{IsFact};
ghost use Rattle.interval_domain.specs.steps.Bounds.{IsRange};
ghost use Rattle.interval_domain.specs.Arithmetic.{signed_bounds, moved_on, moved_back, sum_of, difference_of, operand_of, combined_of, extended_of, swapped_of, are_known, estimated, alu_of};

use crate::fact::{Fact, is_single, pointer_between, single, words_of};
use crate::range::{combine, top};
use instruction_set::{Operation, SignExtension, SwapSize, Width};
use program_interface::Area;
use program_meaning::{Arithmetic, alu};
use word_domain::Bounds;

/// The bounds of words as signed numbers, where all have one sign.
fn as_signed(words: Bounds) -> Option<(i64, i64)>
    requires { words.low ≤ words.high }
    ensures value { result ≡ signed_bounds words }
    ensures ordered { IfSome result (λ by. by.0 ≤ℤ by.1) }
{
    if words.high < 1 << 63 || words.low >= 1 << 63 {
        Some((words.low.cast_signed(), words.high.cast_signed()))
    } else {
        None
    }
}

/// The sum of a pointer's distance and a number.
fn plus(distance: i32, number: i64) -> i128
    ensures { result ≡ distance +ℤ number }
{
    i128::from(distance) + i128::from(number)
}

/// The difference of a pointer's distance and a number.
fn minus(distance: i32, number: i64) -> i128
    ensures { result ≡ distance -ℤ number }
{
    i128::from(distance) - i128::from(number)
}

/// A pointer moved on by words, or every word where they have both signs.
fn move_on(area: Area, low: i32, high: i32, words: Bounds) -> Fact
    requires fact { IsFact (Fact.Pointer area low high) }
    requires words { words.low ≤ words.high }
    ensures value { result ≡ moved_on area low high (signed_bounds words) }
    ensures fact { IsFact result }
{
    match as_signed(words) {
        Some((least, most)) => pointer_between(area, plus(low, least), plus(high, most)),
        None => Fact::Words(Bounds::FULL),
    }
}

/// A pointer moved back by words, or every word where they have both signs.
fn move_back(area: Area, low: i32, high: i32, words: Bounds) -> Fact
    requires fact { IsFact (Fact.Pointer area low high) }
    requires words { words.low ≤ words.high }
    ensures value { result ≡ moved_back area low high (signed_bounds words) }
    ensures fact { IsFact result }
{
    match as_signed(words) {
        Some((least, most)) => pointer_between(area, minus(low, most), minus(high, least)),
        None => Fact::Words(Bounds::FULL),
    }
}

/// A 64-bit sum, which may be a pointer's.
fn add(dst: Fact, source: Fact) -> Fact
    requires dst { IsFact dst }
    requires source { IsFact source }
    ensures value { result ≡ sum_of dst source }
    ensures fact { IsFact result }
{
    match (dst, source) {
        (Fact::Words(words), Fact::Words(others)) => {
            Fact::Words(combine(Width::Bits64, Operation::Add, words, others))
        }
        (Fact::Pointer { area, low, high }, Fact::Words(words))
        | (Fact::Words(words), Fact::Pointer { area, low, high }) => {
            move_on(area, low, high, words)
        }
        _ => Fact::Words(Bounds::FULL),
    }
}

/// A 64-bit difference, which may be a pointer's.
fn subtract(dst: Fact, source: Fact) -> Fact
    requires dst { IsFact dst }
    requires source { IsFact source }
    ensures value { result ≡ difference_of dst source }
    ensures fact { IsFact result }
{
    match (dst, source) {
        (Fact::Words(words), Fact::Words(others)) => {
            Fact::Words(combine(Width::Bits64, Operation::Subtract, words, others))
        }
        (Fact::Pointer { area, low, high }, Fact::Words(words)) => {
            move_back(area, low, high, words)
        }
        _ => Fact::Words(Bounds::FULL),
    }
}

/// An operand of arithmetic: at 32 bits its low 32 bits, where they are known. A pointer counts as
/// every word.
fn operand(width: Width, fact: Fact) -> Bounds
    requires { IsFact fact }
    ensures value { result ≡ operand_of width fact }
    ensures range { IsRange width result }
{
    let words = words_of(fact);
    match width {
        Width::Bits32 if is_single(words) => single(words.low % 0x1_0000_0000),
        Width::Bits32 if words.high >= 0x1_0000_0000 => top(width),
        _ => words,
    }
}

/// An operation on two facts, of which not all are one word.
fn combine_facts(width: Width, operation: Operation, dst: Fact, source: Fact) -> Fact
    requires dst { IsFact dst }
    requires source { IsFact source }
    ensures value { result ≡ combined_of width operation dst source }
    ensures fact { IsFact result }
{
    match (width, operation) {
        (Width::Bits64, Operation::Add) => add(dst, source),
        (Width::Bits64, Operation::Subtract) => subtract(dst, source),
        (Width::Bits64, Operation::Move) => source,
        _ => Fact::Words(combine(
            width,
            operation,
            operand(width, dst),
            operand(width, source),
        )),
    }
}

/// A sign-extending move.
fn extend(extension: SignExtension, source: Fact) -> Bounds
    requires { IsFact source }
    ensures value { result ≡ extended_of extension (operand_of (extension_width extension) source) }
    ensures ordered { result.low ≤ result.high }
{
    let signed_from = match extension {
        SignExtension::Bits8To32 | SignExtension::Bits8To64 => 1 << 7,
        SignExtension::Bits16To32 | SignExtension::Bits16To64 => 1 << 15,
        SignExtension::Bits32To64 => 1 << 31,
    };
    let width = extension.width();
    let source = operand(width, source);
    if source.high < signed_from {
        source
    } else {
        top(width)
    }
}

/// A byte swap.
fn swap(size: SwapSize) -> Bounds
    ensures value { result ≡ swapped_of size }
    ensures ordered { result.low ≤ result.high }
{
    let high = match size {
        SwapSize::Bits16 => u64::from(u16::MAX),
        SwapSize::Bits32 => u64::from(u32::MAX),
        SwapSize::Bits64 => u64::MAX,
    };
    Bounds { low: 0, high }
}

/// Is each operand that the instruction takes one word?
fn are_all_known(arithmetic: Arithmetic, dst: Fact, source: Fact) -> bool
    requires dst { IsFact dst }
    requires source { IsFact source }
    ensures { result ≡ are_known arithmetic dst source }
{
    let dst = is_single(words_of(dst));
    let source = is_single(words_of(source));
    match arithmetic {
        Arithmetic::Binary {
            operation: Operation::Move,
            ..
        }
        | Arithmetic::MoveSigned { .. } => source,
        Arithmetic::Binary { .. } => dst && source,
        Arithmetic::Negate { .. } | Arithmetic::SwapBytes { .. } => dst,
    }
}

/// The destination after an arithmetic instruction, where not all operands are one word.
fn estimate(arithmetic: Arithmetic, dst: Fact, source: Fact) -> Fact
    requires dst { IsFact dst }
    requires source { IsFact source }
    ensures value { result ≡ estimated arithmetic dst source }
    ensures fact { IsFact result }
{
    match arithmetic {
        Arithmetic::Binary { width, operation } => combine_facts(width, operation, dst, source),
        Arithmetic::Negate { width } => Fact::Words(top(width)),
        Arithmetic::MoveSigned { extension } => Fact::Words(extend(extension, source)),
        Arithmetic::SwapBytes { size, .. } => Fact::Words(swap(size)),
    }
}

/// The destination after an arithmetic instruction.
pub fn arithmetic_on(arithmetic: Arithmetic, dst: Fact, source: Fact) -> Fact
    requires dst { IsFact dst }
    requires source { IsFact source }
    ensures value { result ≡ alu_of arithmetic dst source }
    ensures fact { IsFact result }
{
    if are_all_known(arithmetic, dst, source) {
        let (dst, source) = (words_of(dst), words_of(source));
        Fact::Words(single(alu(arithmetic, dst.low, source.low)))
    } else {
        estimate(arithmetic, dst, source)
    }
}
