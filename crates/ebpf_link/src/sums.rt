//! Sums in place of ORs: clang makes an OR of an address whose low bits are zeros and an offset that has no others.

ghost use Rattle.std.specs.Prelude.{true, ◌≡◌, ◌≤ℤ◌, IfSome, pos};
ghost use Rattle.ebpf_link.specs.Sums.{AreSums, IsSumOf, sum_of};

use crate::known::{Known, source_fact};
use crate::visiting::mask_over;
use instruction_set::{Instruction, Operation, Width};
use interval_domain::{Fact, Intervals};
use word_domain::Domain;

/// The greatest number that is looked for below an address: what is aligned by more, clang doesn't know of.
const MOST_BELOW: u64 = 0xfff;

/// A distance that isn't negative.
fn distance_of(low: i32) -> u32
    requires { pos 0 ≤ℤ low }
    ensures { pos result ≡ low }
{
    low as u32
}

/// Have an address and a number no bit in common, as far as is known of them?
fn are_apart(address: Intervals, number: Intervals) -> bool
    ensures { result ≡ true → AreSums address number }
{
    let (Fact::Pointer { low, high, .. }, Fact::Words(bounds)) = (address.fact(), number.fact())
    else {
        return false;
    };
    if low != high || low < 0 || bounds.high > MOST_BELOW {
        return false;
    }
    distance_of(low) & mask_over(bounds.high) == 0
}

/// Has an OR of two words no bit of both, as far as is known of them?
fn are_operands_apart(first: Intervals, second: Intervals) -> bool
    ensures { result ≡ true → AreSums first second }
{
    if are_apart(first, second) {
        return true;
    }
    are_apart(second, first)
}

/// The same arithmetic, as a sum.
fn as_sum(instruction: Instruction) -> Instruction
    ensures { result ≡ sum_of instruction }
{
    match instruction {
        Instruction::Arithmetic {
            width,
            dst,
            source,
            ..
        } => Instruction::Arithmetic {
            width,
            operation: Operation::Add,
            dst,
            source,
        },
        other => other,
    }
}

/// A sum in place of an OR of an address and a number that have no bit in common.
pub(crate) fn sum_in_place(known: &Known, instruction: &Instruction) -> Option<Instruction>
    ensures { IfSome result (λ other. IsSumOf known.now.facts instruction.now other) }
{
    let Instruction::Arithmetic {
        width: Width::Bits64,
        operation: Operation::Or,
        dst,
        source,
    } = *instruction
    else {
        return None;
    };
    if are_operands_apart(known.get(dst), source_fact(known, source)) {
        Some(as_sum(*instruction))
    } else {
        None
    }
}
