//! Where an address must lie in an area: bounds of its distance from the area's first byte.

ghost use Rattle.std.specs.Prelude.{ℕ, ℤ, option_and_then, ◌≡◌, ◌≤◌, ◌^◌, ◌≤ℤ◌, ◌+ℤ◌, pos};
ghost use Rattle.ebpf_link.specs.Bounds.{Compares, IsSmallLength, Narrows, by_register};
ghost use Rattle.instruction_set.specs.Instruction.{access_of};

use crate::guards::Need;
use instruction_set::{Access, Instruction, Register};
use program_interface::Area;

/// Where an address must lie, in bytes behind the first one of an area.
#[derive(Clone, Copy)]
pub(crate) struct Within {
    pub area: Area,
    pub low: i64,
    pub high: i64,
    /// What is told of it.
    pub need: Need,
}

impl Within {
    /// The bounds of the distance, as numbers to compare with.
    pub fn compared(self) -> (i32, i32)
        ensures { Compares self result.0 result.1 }
    {
        let low = clamped(lower_end(self));
        let high = clamped(upper_end(self));
        (low, high)
    }
}

/// Any place of an area, for so many bytes.
pub(crate) fn whole(area: Area, length: usize, bytes: usize) -> Within
    ensures area { result.area ≡ area }
    ensures low { result.low ≡ pos 0 }
    ensures high { IsSmallLength length result.high }
{
    Within {
        area,
        low: 0,
        high: small(length),
        need: Need::Inside {
            area,
            bytes,
            length,
        },
    }
}

/// The length of an area, which is small.
pub(crate) fn small(length: usize) -> i64
    ensures { IsSmallLength length result }
{
    if length < 0x10_0000 {
        length as i64
    } else {
        0x10_0000
    }
}

/// How many bytes are told of.
fn bytes_told(need: Need) -> usize {
    match need {
        Need::Inside { bytes, .. } => bytes,
        _ => 0,
    }
}

/// The lowest distance from which an access at an offset begins in an area.
fn lowest(offset: i16) -> i64
    ensures { (result +ℤ offset) ≡ pos 0 }
{
    0 - i64::from(offset)
}

/// The greatest from which it ends there.
fn greatest(offset: i16, size: u8, length: usize) -> i64
    ensures most { (result +ℤ offset +ℤ pos size) ≤ℤ pos length }
    ensures widest { length ≤ 2 ^ 20 → (result +ℤ offset +ℤ pos size) ≡ pos length }
{
    small(length) - i64::from(offset) - i64::from(size)
}

/// The lowest distance within bounds.
fn lower_end(within: Within) -> i64
    ensures { result ≡ within.low }
{
    within.low
}

/// The greatest.
fn upper_end(within: Within) -> i64
    ensures { result ≡ within.high }
{
    within.high
}

/// The offset of an access.
pub(crate) fn offset_of(access: Access) -> i16
    ensures { result ≡ access.offset }
{
    access.offset
}

/// A distance as a number to compare with: none is negative, or far.
fn clamped(distance: i64) -> i32
    ensures lower { pos 0 ≤ℤ distance → result ≤ℤ distance }
    ensures higher { distance ≤ℤ pos 100000 → distance ≤ℤ result }
    ensures greatest { (n : ℕ) → pos n ≤ℤ distance → n ≤ 100000 → pos n ≤ℤ result }
    ensures least { (n : ℕ) → distance ≤ℤ pos n → result ≤ℤ pos n }
{
    if distance < 0 {
        0
    } else if distance > 100_000 {
        100_000
    } else {
        distance as i32
    }
}

/// The greater of two numbers.
fn greater(one: i64, other: i64) -> i64
    ensures one { one ≤ℤ result }
    ensures other { other ≤ℤ result }
    ensures least { (bound : ℤ) → one ≤ℤ bound → other ≤ℤ bound → result ≤ℤ bound }
{
    if one < other { other } else { one }
}

/// The lesser of two numbers.
fn lesser(one: i64, other: i64) -> i64
    ensures one { result ≤ℤ one }
    ensures other { result ≤ℤ other }
    ensures greatest { (bound : ℤ) → bound ≤ℤ one → bound ≤ℤ other → bound ≤ℤ result }
{
    if one < other { one } else { other }
}

/// Where an access's base must point, besides that it did.
pub(crate) fn narrowed(within: Within, access: Access, length: usize) -> Within
    ensures { Narrows within access length result }
{
    let bytes = bytes_told(within.need);
    let size = access.size;
    let offset = offset_of(access);
    let lowest = lowest(offset);
    let greatest = greatest(offset, size, length);
    let low = greater(lower_end(within), lowest);
    let high = lesser(upper_end(within), greatest);
    Within {
        low,
        high,
        ..whole(within.area, length, bytes.max(usize::from(size)))
    }
}

/// An access, if it is by this register.
fn by_register(access: Access, base: Register) -> Option<Access>
    ensures { result ≡ by_register base access }
{
    if access.base == base {
        Some(access)
    } else {
        None
    }
}

/// The access by a register that an instruction makes, if it makes one.
pub(crate) fn access_by(instruction: &Instruction, base: Register) -> Option<Access>
    ensures { result ≡ option_and_then (by_register base) (access_of instruction.now) }
{
    match instruction.access() {
        Some(access) => by_register(access, base),
        None => None,
    }
}
