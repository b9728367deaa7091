//! Arithmetic on words between bounds.

ghost use Rattle.std.specs.Prelude.{◌≡◌, ◌<◌, ◌+◌, nat_lt};
ghost use Rattle.program_meaning.specs.Word.{count};
ghost use Rattle.interval_domain.specs.Fact.{range};
ghost use Rattle.interval_domain.specs.Range.{number_count, top as top_of_width, half, sum, difference, product, quotient, remainder, shifted_left, shifted_right, combined};
ghost use Rattle.interval_domain.specs.steps.Bounds.{IsRange};

use crate::fact::{is_single, single};
use instruction_set::{Operation, Width};
use word_domain::Bounds;

/// The greatest number of a width.
fn greatest(width: Width) -> u64
    ensures { result + 1 ≡ number_count width }
{
    match width {
        Width::Bits32 => u64::from(u32::MAX),
        Width::Bits64 => u64::MAX,
    }
}

/// The numbers from 0 to this one.
fn up_to(high: u64) -> Bounds
    ensures { result ≡ range 0 high }
{
    Bounds { low: 0, high }
}

/// All numbers of a width.
pub fn top(width: Width) -> Bounds
    ensures value { result ≡ top_of_width width }
    ensures range { IsRange width result }
{
    up_to(greatest(width))
}

/// The count of a shift.
fn shift_count(width: Width, word: u64) -> u32
    ensures value { result ≡ count width word }
    ensures small { result < 64 }
{
    match width {
        Width::Bits32 => (word % 32) as u32,
        Width::Bits64 => (word % 64) as u32,
    }
}

/// A sum that may wrap, but then does for all operands.
fn add(width: Width, dst: Bounds, source: Bounds) -> Bounds
    requires dst { IsRange width dst }
    requires source { IsRange width source }
    ensures value { result ≡ sum width dst source }
    ensures range { IsRange width result }
{
    let number_count = u128::from(greatest(width)) + 1;
    let low = u128::from(dst.low) + u128::from(source.low);
    let high = u128::from(dst.high) + u128::from(source.high);
    if high < number_count {
        Bounds {
            low: low as u64,
            high: high as u64,
        }
    } else if number_count <= low {
        Bounds {
            low: (low - number_count) as u64,
            high: (high - number_count) as u64,
        }
    } else {
        top(width)
    }
}

/// A difference that may wrap, but then does for all operands.
fn subtract(width: Width, dst: Bounds, source: Bounds) -> Bounds
    requires dst { IsRange width dst }
    requires source { IsRange width source }
    ensures value { result ≡ difference width dst source }
    ensures range { IsRange width result }
{
    if source.high <= dst.low {
        Bounds {
            low: dst.low - source.high,
            high: dst.high - source.low,
        }
    } else if dst.high < source.low {
        let greatest = greatest(width);
        Bounds {
            low: greatest - (source.high - dst.low) + 1,
            high: greatest - (source.low - dst.high) + 1,
        }
    } else {
        top(width)
    }
}

/// A product, where none passes the width.
fn multiply(width: Width, dst: Bounds, source: Bounds) -> Bounds
    requires dst { IsRange width dst }
    requires source { IsRange width source }
    ensures value { result ≡ product width dst source }
    ensures range { IsRange width result }
{
    match dst.high.checked_mul(source.high) {
        Some(high) if high <= greatest(width) => Bounds {
            low: dst.low * source.low,
            high,
        },
        _ => top(width),
    }
}

/// A quotient, where a division by zero gives 0.
fn divide(width: Width, dst: Bounds, source: Bounds) -> Bounds
    requires dst { IsRange width dst }
    requires source { IsRange width source }
    ensures value { result ≡ quotient dst source }
    ensures range { IsRange width result }
{
    if source.high == 0 {
        single(0)
    } else if source.low >= 1 {
        Bounds {
            low: dst.low / source.high,
            high: dst.high / source.low,
        }
    } else {
        up_to(dst.high)
    }
}

/// A remainder, where a modulo by zero leaves the destination.
fn modulo(width: Width, dst: Bounds, source: Bounds) -> Bounds
    requires dst { IsRange width dst }
    requires source { IsRange width source }
    ensures value { result ≡ remainder dst source }
    ensures range { IsRange width result }
{
    if source.low >= 1 && dst.high < source.low {
        dst
    } else if source.low >= 1 {
        up_to(dst.high.min(source.high - 1))
    } else {
        up_to(dst.high)
    }
}

/// Is none of these numbers negative, as signed ones of the width?
fn is_unsigned(width: Width, bounds: Bounds) -> bool
    ensures { result ≡ nat_lt bounds.high (half width) }
{
    bounds.high <= greatest(width) / 2
}

/// A left shift by one count, where no number passes the width.
fn shift_left(width: Width, dst: Bounds, source: Bounds) -> Bounds
    requires dst { IsRange width dst }
    requires source { IsRange width source }
    ensures value { result ≡ shifted_left width dst source }
    ensures range { IsRange width result }
{
    if !is_single(source) {
        return top(width);
    }
    let count = shift_count(width, source.low);
    if dst.high <= greatest(width) >> count {
        Bounds {
            low: dst.low << count,
            high: dst.high << count,
        }
    } else {
        top(width)
    }
}

/// A right shift, which makes no number greater.
fn shift_right(width: Width, dst: Bounds, source: Bounds) -> Bounds
    requires dst { IsRange width dst }
    requires source { IsRange width source }
    ensures value { result ≡ shifted_right width dst source }
    ensures range { IsRange width result }
{
    if is_single(source) {
        let count = shift_count(width, source.low);
        Bounds {
            low: dst.low >> count,
            high: dst.high >> count,
        }
    } else {
        up_to(dst.high)
    }
}

/// An operation on numbers between bounds.
pub fn combine(width: Width, operation: Operation, dst: Bounds, source: Bounds) -> Bounds
    requires dst { IsRange width dst }
    requires source { IsRange width source }
    ensures value { result ≡ combined width operation dst source }
    ensures range { IsRange width result }
{
    let unsigned = is_unsigned(width, dst);
    let both_unsigned = unsigned && is_unsigned(width, source);
    match operation {
        Operation::Add => add(width, dst, source),
        Operation::Subtract => subtract(width, dst, source),
        Operation::Multiply => multiply(width, dst, source),
        Operation::Divide => divide(width, dst, source),
        Operation::SignedDivide if both_unsigned => divide(width, dst, source),
        Operation::And => up_to(dst.high.min(source.high)),
        Operation::LeftShift => shift_left(width, dst, source),
        Operation::RightShift => shift_right(width, dst, source),
        Operation::Modulo => modulo(width, dst, source),
        Operation::SignedModulo if both_unsigned => modulo(width, dst, source),
        Operation::Move => source,
        Operation::ArithmeticShift if unsigned => shift_right(width, dst, source),
        _ => top(width),
    }
}
