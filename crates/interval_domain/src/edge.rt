//! What an edge of a compare tells of its operands.

ghost use Rattle.std.specs.Prelude.{◌≡◌, ◌≤◌, ◌&&◌, IfSome, false};
ghost use Rattle.interval_domain.specs.Fact.{IsFact, is_single as is_single_number};
ghost use Rattle.interval_domain.specs.Edge.{FactPair, edge_of, equal, without, different, less, at_most, exchanged, narrowed, fits, refine_words, refine_of};
ghost use Rattle.interval_domain.specs.steps.Bounds.{OrderedPair};

use crate::fact::{Fact, is_single};
use instruction_set::{Relation, Width};
use program_meaning::is_taken;
use word_domain::Bounds;

/// Both bounds, if there is a number within each.
fn edge(dst: Bounds, source: Bounds) -> Option<(Bounds, Bounds)>
    ensures value { result ≡ edge_of dst source }
    ensures ordered { IfSome result OrderedPair }
{
    if dst.high < dst.low || source.high < source.low {
        None
    } else {
        Some((dst, source))
    }
}

/// The bounds of both operands where destination and source are equal, or `None` where they can't be.
fn keep_equal(dst: Bounds, source: Bounds) -> Option<(Bounds, Bounds)>
    ensures value { result ≡ equal dst source }
    ensures ordered { IfSome result OrderedPair }
{
    let both = Bounds {
        low: dst.low.max(source.low),
        high: dst.high.min(source.high),
    };
    edge(both, both)
}

/// Bounds without a number where it is one of the two.
fn remove(number: u64, bounds: Bounds) -> Bounds
    requires ordered { bounds.low ≤ bounds.high }
    requires several { is_single_number bounds ≡ false }
    ensures { result ≡ without number bounds }
{
    Bounds {
        low: if bounds.low == number {
            number + 1
        } else {
            bounds.low
        },
        high: if bounds.high == number {
            number - 1
        } else {
            bounds.high
        },
    }
}

/// The bounds of both operands where destination and source differ, or `None` where they can't.
fn keep_different(dst: Bounds, source: Bounds) -> Option<(Bounds, Bounds)>
    requires dst { dst.low ≤ dst.high }
    requires source { source.low ≤ source.high }
    requires several { (is_single_number dst && is_single_number source) ≡ false }
    ensures value { result ≡ different dst source }
    ensures ordered { IfSome result OrderedPair }
{
    if is_single(source) {
        edge(remove(source.low, dst), source)
    } else if is_single(dst) {
        edge(dst, remove(dst.low, source))
    } else {
        Some((dst, source))
    }
}

/// The bounds of both operands where the destination is less than the source, or `None` where it can't be.
fn keep_less(dst: Bounds, source: Bounds) -> Option<(Bounds, Bounds)>
    requires dst { dst.low ≤ dst.high }
    requires source { source.low ≤ source.high }
    ensures value { result ≡ less dst source }
    ensures ordered { IfSome result OrderedPair }
{
    if dst.low >= source.high {
        return None;
    }
    let below = Bounds {
        low: dst.low,
        high: dst.high.min(source.high - 1),
    };
    let above = Bounds {
        low: source.low.max(dst.low + 1),
        high: source.high,
    };
    Some((below, above))
}

/// The bounds of both operands where the destination is at most the source, or `None` where it can't be.
fn keep_at_most(dst: Bounds, source: Bounds) -> Option<(Bounds, Bounds)>
    ensures value { result ≡ at_most dst source }
    ensures ordered { IfSome result OrderedPair }
{
    let below = Bounds {
        low: dst.low,
        high: dst.high.min(source.high),
    };
    let above = Bounds {
        low: source.low.max(dst.low),
        high: source.high,
    };
    edge(below, above)
}

/// Both, in the other order.
fn exchange(both: Option<(Bounds, Bounds)>) -> Option<(Bounds, Bounds)>
    requires ordered { IfSome both OrderedPair }
    ensures value { result ≡ exchanged both }
    ensures ordered { IfSome result OrderedPair }
{
    match both {
        Some((first, second)) => Some((second, first)),
        None => None,
    }
}

/// The bounds of destination and source along an edge of a compare.
fn narrow(relation: Relation, taken: bool, dst: Bounds, source: Bounds) -> Option<(Bounds, Bounds)>
    requires dst { dst.low ≤ dst.high }
    requires source { source.low ≤ source.high }
    requires several { (is_single_number dst && is_single_number source) ≡ false }
    ensures value { result ≡ narrowed relation taken dst source }
    ensures ordered { IfSome result OrderedPair }
{
    match (relation, taken) {
        (Relation::Equal, true) | (Relation::NotEqual, false) => keep_equal(dst, source),
        (Relation::Equal, false) | (Relation::NotEqual, true) => keep_different(dst, source),
        (Relation::Less, true) | (Relation::GreaterOrEqual, false) => keep_less(dst, source),
        (Relation::LessOrEqual, true) | (Relation::Greater, false) => keep_at_most(dst, source),
        (Relation::Greater, true) | (Relation::LessOrEqual, false) => {
            exchange(keep_less(source, dst))
        }
        (Relation::GreaterOrEqual, true) | (Relation::Less, false) => {
            exchange(keep_at_most(source, dst))
        }
        _ => Some((dst, source)),
    }
}

/// Is each word its own low bits?
fn fits_width(width: Width, bounds: Bounds) -> bool
    ensures { result ≡ fits width bounds }
{
    match width {
        Width::Bits32 => bounds.high < 0x1_0000_0000,
        Width::Bits64 => true,
    }
}

/// The facts of destination and source along an edge of a compare of words.
fn refine_bounds(
    width: Width,
    relation: Relation,
    taken: bool,
    dst: Bounds,
    source: Bounds,
    same: bool,
) -> Option<(Fact, Fact)>
    requires dst { dst.low ≤ dst.high }
    requires source { source.low ≤ source.high }
    ensures value { result ≡ refine_words width relation taken dst source same }
    ensures facts { IfSome result FactPair }
{
    if is_single(dst) && is_single(source) {
        if is_taken(width, relation, dst.low, source.low) == taken {
            return Some((Fact::Words(dst), Fact::Words(source)));
        }
        return None;
    }
    if same || !fits_width(width, dst) || !fits_width(width, source) {
        return Some((Fact::Words(dst), Fact::Words(source)));
    }
    let (dst, source) = narrow(relation, taken, dst, source)?;
    Some((Fact::Words(dst), Fact::Words(source)))
}

/// The facts of destination and source along an edge of a compare, the one that is taken or the
/// other; `same` says that both are one register.
pub fn refine(
    width: Width,
    relation: Relation,
    taken: bool,
    dst: Fact,
    source: Fact,
    same: bool,
) -> Option<(Fact, Fact)>
    requires dst { IsFact dst }
    requires source { IsFact source }
    ensures value { result ≡ refine_of width relation taken dst source same }
    ensures facts { IfSome result FactPair }
{
    match (dst, source) {
        (Fact::Words(words), Fact::Words(others)) => {
            refine_bounds(width, relation, taken, words, others, same)
        }
        _ => Some((dst, source)),
    }
}
