//! Compares of which it is known how they come out, addresses among them.

ghost use Rattle.std.specs.Prelude.{◌≡◌, ◌≤◌, ◌^◌, ◌+ℤ◌, pos, IfSome, nat_le, nat_lt, not, ◌==◌};
ghost use Rattle.ebpf_link.specs.Deciding.{AreWordsOf, Decides, IsAnswer, NoneTakesWhatIsNoEdge};
ghost use Rattle.interval_domain.specs.declared.fact.Fact.TheVariants.{Pointer};
ghost use Rattle.instruction_set.specs.declared.operation.Width.TheVariants.{Bits64};
ghost use Rattle.program_interface.specs.Area.{address_of};
ghost use Rattle.program_meaning.specs.Word.{is_taken};

use crate::known::{Known, source_fact};
use instruction_set::{Instruction, Relation, Width};
use interval_domain::{Fact, Intervals};
use program_interface::Area;
use word_domain::{Bounds, Domain};

/// The word that is so far from an address.
fn moved(first: u64, distance: i32) -> u64
    requires above { 2 ^ 32 ≤ first }
    requires below { first ≤ 2 ^ 36 }
    ensures { pos result ≡ pos first +ℤ distance }
{
    (first as i64 + i64::from(distance)) as u64
}

/// The words from one distance to another from an area's address.
fn addresses(area: Area, low: i32, high: i32) -> Bounds
    ensures { AreWordsOf (Pointer area low high) result }
{
    let first = area.address();
    Bounds {
        low: moved(first, low),
        high: moved(first, high),
    }
}

/// The lowest and the greatest word that a fact has.
fn words(fact: Intervals) -> Bounds
    ensures { AreWordsOf fact result }
{
    match fact.fact() {
        Fact::Words(bounds) => bounds,
        Fact::Pointer { area, low, high } => addresses(area, low, high),
    }
}

/// Is each word of one less than each of the other? Or none?
fn less(one: Bounds, other: Bounds) -> Option<bool>
    ensures { IfSome result (λ answer. IsAnswer nat_lt one other answer) }
{
    if one.high < other.low {
        Some(true)
    } else if one.low >= other.high {
        Some(false)
    } else {
        None
    }
}

/// Is each word of one at least each of the other? Or none?
fn at_least(one: Bounds, other: Bounds) -> Option<bool>
    ensures { IfSome result (λ answer. IsAnswer (λ x y. nat_le y x) one other answer) }
{
    if one.low >= other.high {
        Some(true)
    } else if one.high < other.low {
        Some(false)
    } else {
        None
    }
}

/// Are both the same word? Or surely not?
fn same(one: Bounds, other: Bounds) -> Option<bool>
    ensures { IfSome result (λ answer. IsAnswer (λ x y. x == y) one other answer) }
{
    if one.high < other.low || other.high < one.low {
        Some(false)
    } else if one.low == one.high && other.low == other.high && one.low == other.low {
        Some(true)
    } else {
        None
    }
}

/// Are they different words? Or surely not?
fn different(one: Bounds, other: Bounds) -> Option<bool>
    ensures { IfSome result (λ answer. IsAnswer (λ x y. not (x == y)) one other answer) }
{
    match same(one, other) {
        Some(answer) => Some(!answer),
        None => None,
    }
}

/// How a compare of words within these bounds comes out, if that is the same for all of them.
fn answer(relation: Relation, first: Bounds, second: Bounds) -> Option<bool>
    ensures { IfSome result (λ answer. IsAnswer (is_taken Bits64 relation) first second answer) }
{
    match relation {
        Relation::Equal => same(first, second),
        Relation::NotEqual => different(first, second),
        Relation::Less => less(first, second),
        Relation::GreaterOrEqual => at_least(first, second),
        Relation::Greater => less(second, first),
        Relation::LessOrEqual => at_least(second, first),
        _ => None,
    }
}

/// Is a fact that of an address?
fn is_address(fact: Intervals) -> bool {
    matches!(fact.fact(), Fact::Pointer { .. })
}

/// How a compare of words of 64 bits comes out, where one is an address.
pub(crate) fn decided(known: &Known, branch: &Instruction) -> Option<bool>
    ensures { IfSome result (λ answer. Decides known.now.facts branch.now answer) }
{
    let Instruction::Branch {
        width: Width::Bits64,
        relation,
        dst,
        source,
        ..
    } = *branch
    else {
        return None;
    };
    let (first, second) = (known.get(dst), source_fact(known, source));
    if !is_address(first) && !is_address(second) {
        return None;
    }
    answer(relation, words(first), words(second))
}

/// Where a verifier's rules have no edge of a compare of registers, no words that they are known to have take it.
pub(crate) fn none_takes_what_is_no_edge()
    ensures { NoneTakesWhatIsNoEdge }
{
    Intervals::sound();
}
