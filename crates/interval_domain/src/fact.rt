//! Facts with bounds.

ghost use Rattle.std.specs.Prelude.{◌≡◌, ◌≤◌, ◌≤ℤ◌, ◌+ℤ◌, int_le, pos};
ghost use Rattle.std.specs.Int.{int_min, int_max};
ghost use Rattle.interval_domain.specs.Fact.{IsFact, is_single as is_single_number, single as single_number, pointer_to, loaded_of, join_of, bounds_of, area_accessed, offsets_of, widened};

use instruction_set::Size;
use program_interface::{Area, BlockSize};
use word_domain::{Bounds, Offsets};

/// A fact about a word.
#[derive(Clone, Copy, Debug, PartialEq, Eq)]
pub enum Fact {
    /// The words between bounds.
    Words(Bounds),
    /// The words whose distance from the area's address, in bytes, is between bounds.
    Pointer { area: Area, low: i32, high: i32 },
}

/// How far from its area's address a pointer is known, either way.
const FARTHEST: i128 = 1 << 20;

/// The bounds of one word.
pub fn single(word: u64) -> Bounds
    ensures { result ≡ single_number word }
{
    Bounds {
        low: word,
        high: word,
    }
}

/// Is there one word alone between the bounds?
pub fn is_single(bounds: Bounds) -> bool
    ensures { result ≡ is_single_number bounds }
{
    bounds.low == bounds.high
}

/// The pointer with these bounds, or every word where one of them is more than 2^20 bytes from the area's address.
pub fn pointer_between(area: Area, low: i128, high: i128) -> Fact
    requires { low ≤ℤ high }
    ensures value { result ≡ pointer_to area low high }
    ensures fact { IsFact result }
{
    if -FARTHEST <= low && high <= FARTHEST {
        Fact::Pointer {
            area,
            low: low as i32,
            high: high as i32,
        }
    } else {
        Fact::Words(Bounds::FULL)
    }
}

/// What a zero-extended load gives.
pub fn load(size: Size) -> Fact
    ensures value { result ≡ loaded_of size }
    ensures fact { IsFact result }
{
    let high = match size {
        Size::Byte => u64::from(u8::MAX),
        Size::HalfWord => u64::from(u16::MAX),
        Size::Word => u64::from(u32::MAX),
        Size::DoubleWord => u64::MAX,
    };
    Fact::Words(Bounds { low: 0, high })
}

/// What belongs to either of two pointers into one area.
fn join_pointers(area: Area, low: i32, high: i32, other_low: i32, other_high: i32) -> Fact
    requires fact { IsFact (Fact.Pointer area low high) }
    requires other { IsFact (Fact.Pointer area other_low other_high) }
    ensures value { result ≡ Fact.Pointer area (int_min low other_low) (int_max high other_high) }
    ensures fact { IsFact result }
{
    Fact::Pointer {
        area,
        low: low.min(other_low),
        high: high.max(other_high),
    }
}

/// What belongs to either fact.
pub fn join(fact: Fact, other: Fact) -> Fact
    requires fact { IsFact fact }
    requires other { IsFact other }
    ensures value { result ≡ join_of fact other }
    ensures fact { IsFact result }
{
    match (fact, other) {
        (Fact::Words(bounds), Fact::Words(others)) => Fact::Words(Bounds {
            low: bounds.low.min(others.low),
            high: bounds.high.max(others.high),
        }),
        (
            Fact::Pointer { area, low, high },
            Fact::Pointer {
                area: other_area,
                low: other_low,
                high: other_high,
            },
        ) if area.address() == other_area.address() => {
            join_pointers(area, low, high, other_low, other_high)
        }
        _ => Fact::Words(Bounds::FULL),
    }
}

/// The bounds of a fact's words; a pointer counts as every word.
pub fn words_of(fact: Fact) -> Bounds
    requires { IsFact fact }
    ensures value { result ≡ bounds_of fact }
    ensures ordered { result.low ≤ result.high }
{
    match fact {
        Fact::Words(bounds) => bounds,
        Fact::Pointer { .. } => Bounds::FULL,
    }
}

/// Is the first byte at this offset at or after the area's first?
fn starts_inside(low: i32, offset: i16) -> bool
    ensures { result ≡ int_le (pos 0) (low +ℤ offset) }
{
    i64::from(low) + i64::from(offset) >= 0
}

/// The distance behind the last of the bytes at this offset.
fn end_of(high: i32, offset: i16, size: u64) -> i128
    ensures { result ≡ (high +ℤ offset) +ℤ pos size }
{
    i128::from(high) + i128::from(offset) + i128::from(size)
}

/// Is the last of the bytes at this offset at or before the area's last?
fn ends_inside(high: i32, offset: i16, size: u64, length: u64) -> bool
    ensures { result ≡ int_le ((high +ℤ offset) +ℤ pos size) (pos length) }
{
    end_of(high, offset, size) <= i128::from(length)
}

/// The area of a pointer, if it has all bytes of an access at this offset.
pub fn access(fact: Fact, block: BlockSize, offset: i16, size: u64) -> Option<Area>
    requires { IsFact fact }
    ensures { result ≡ area_accessed block fact offset size }
{
    let Fact::Pointer { area, low, high } = fact else {
        return None;
    };
    let length = area.length(block.bytes() as usize) as u64;
    if starts_inside(low, offset) && ends_inside(high, offset, size, length) {
        Some(area)
    } else {
        None
    }
}

/// The area and the distances of a pointer, none of words.
pub fn offsets(fact: Fact) -> Option<Offsets>
    ensures { result ≡ offsets_of fact }
{
    let Fact::Pointer { area, low, high } = fact else {
        return None;
    };
    Some(Offsets {
        area,
        low: i64::from(low),
        high: i64::from(high),
    })
}

/// The fact, or every word where its two bounds are different.
pub fn widen(fact: Fact) -> Fact
    requires { IsFact fact }
    ensures value { result ≡ widened fact }
    ensures fact { IsFact result }
{
    match fact {
        Fact::Words(bounds) if is_single(bounds) => fact,
        Fact::Pointer { low, high, .. } if low == high => fact,
        _ => Fact::Words(Bounds::FULL),
    }
}
