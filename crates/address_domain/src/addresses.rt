//! The domain of addresses.

ghost use Rattle.std.specs.Prelude.{◌≡◌, ◌≤◌, ◌-ℤ◌, ◌≤ℤ◌, IfSome, option_map, pos};
ghost use Rattle.program_interface.specs.Area.{address_of};
ghost use Rattle.interval_domain.specs.Edge.{FactPair};
ghost use Rattle.interval_domain.specs.Fact.{IsFact, farthest};
ghost use Rattle.address_domain.specs.Addresses.{address_at as address_at_distance, addresses, as_words as fact_as_words, both_narrowed as facts_both_narrowed, narrowed_to as fact_narrowed_to, pointer_or as pointer_or_words, words_of as words_of_fact};

use instruction_set::{Relation, SignedSize, Size, Width};
use interval_domain::{Fact, Intervals};
use program_interface::{Area, BlockSize};
use program_meaning::Arithmetic;
use std::marker::Model;
use word_domain::{Bounds, Domain, Offsets};

/// The words between two bounds, or the addresses between two distances from an area's, which are words too: so two addresses are
/// compared, and added to and subtracted from each other, as words are. What the operations give is exactly as written, and sound.
#[derive(Clone, Copy, Debug, PartialEq, Eq)]
pub struct Addresses {
    fact: Intervals,
}

impl Model for Addresses {
    ghost use Rattle.interval_domain.specs.Fact.{IsFact};
    ghost use Rattle.interval_domain.specs.declared.fact.Fact.{Fact};

    ghost Value = { Fact };

    ghost view = { λ a. a.fact };

    ghost invariant = { λ a. IsFact a.fact };

    ghost inverse = { λ f. record { fact = f } };
}

/// The address at a distance from an area's.
fn address_at(area: Area, distance: i32) -> u64
    ensures { result ≡ address_at_distance area distance }
{
    (area.address() as i64 + i64::from(distance)).unsigned_abs()
}

/// The bounds of a fact's words: of a pointer the addresses at its distances.
#[tactic(auto, using(crate::proofs::WordFacts::in_order))]
fn words_of(fact: Fact) -> Bounds
    requires { IsFact fact }
    ensures value { result ≡ words_of_fact fact }
    ensures ordered { result.low ≤ result.high }
{
    match fact {
        Fact::Words(bounds) => bounds,
        Fact::Pointer { area, low, high } => Bounds {
            low: address_at(area, low),
            high: address_at(area, high),
        },
    }
}

/// A fact as one about words alone.
fn as_words(fact: Intervals) -> Intervals
    ensures { result ≡ fact_as_words fact }
{
    Intervals::of(Fact::Words(words_of(fact.fact())))
}

/// A pointer where there is one, else words.
fn pointer_or(fact: Intervals, words: Intervals) -> Intervals
    ensures { result ≡ pointer_or_words fact words }
{
    match fact.fact() {
        Fact::Pointer { .. } => fact,
        Fact::Words(_) => words,
    }
}

/// How far an address is from an area's.
fn distance(area: Area, address: u64) -> i32
    requires low { (pos 0 -ℤ farthest) ≤ℤ (pos address -ℤ pos (address_of area)) }
    requires high { (pos address -ℤ pos (address_of area)) ≤ℤ farthest }
    ensures { result ≡ pos address -ℤ pos (address_of area) }
{
    (i128::from(address) - i128::from(area.address())) as i32
}

/// A pointer with these words, which are near its area's address.
fn pointer_at(area: Area, bounds: Bounds) -> Intervals
    requires { IsFact (Fact.Pointer area (pos bounds.low -ℤ pos (address_of area)) (pos bounds.high -ℤ pos (address_of area))) }
    ensures { result ≡ Fact.Pointer area (pos bounds.low -ℤ pos (address_of area)) (pos bounds.high -ℤ pos (address_of area)) }
{
    Intervals::of(Fact::Pointer {
        area,
        low: distance(area, bounds.low),
        high: distance(area, bounds.high),
    })
}

/// A fact with these words: a pointer stays one into its area.
fn narrowed_to(fact: Intervals, words: Intervals) -> Intervals
    requires { IsFact (fact_narrowed_to fact words) }
    ensures { result ≡ fact_narrowed_to fact words }
{
    match (fact.fact(), words.fact()) {
        (Fact::Pointer { area, .. }, Fact::Words(bounds)) => pointer_at(area, bounds),
        _ => words,
    }
}

/// Both facts with the words of two others, if there are two.
fn both_narrowed(
    dst: Intervals,
    source: Intervals,
    told: Option<(Intervals, Intervals)>,
) -> Option<(Intervals, Intervals)>
    requires { IfSome (option_map (facts_both_narrowed dst source) told) FactPair }
    ensures { result ≡ option_map (facts_both_narrowed dst source) told }
{
    let (first, second) = told?;
    Some((narrowed_to(dst, first), narrowed_to(source, second)))
}

/// What an edge of a compare tells of two facts, as of the words that they are.
#[tactic(auto, using(crate::proofs::Proved::edges_keep))]
fn refined(
    width: Width,
    relation: Relation,
    taken: bool,
    dst: Intervals,
    source: Intervals,
    same: bool,
) -> Option<(Intervals, Intervals)>
    ensures { result ≡ addresses.refine width relation taken dst source same }
{
    let (first, second) = (as_words(dst), as_words(source));
    let told = Intervals::refine(width, relation, taken, first, second, same);
    both_narrowed(dst, source, told)
}

impl Domain for Addresses {
    ghost use Rattle.interval_domain.specs.Fact.{ContainsWord, IsFact};
    ghost use Rattle.address_domain.specs.Addresses.{addresses};

    ghost is_fact = { IsFact };

    ghost contains = { ContainsWord };

    ghost operations = { addresses };

    fn fact_fits() {}

    #[tactic(auto, using(crate::proofs::Proved::addresses_sound))]
    fn sound() {}

    fn constant(word: u64) -> Addresses {
        Addresses {
            fact: Intervals::constant(word),
        }
    }

    fn any() -> Addresses {
        Addresses {
            fact: Intervals::any(),
        }
    }

    fn pointer(area: Area, offset: u32) -> Addresses {
        Addresses {
            fact: Intervals::pointer(area, offset),
        }
    }

    fn loaded(size: Size) -> Addresses {
        Addresses {
            fact: Intervals::loaded(size),
        }
    }

    fn loaded_signed(size: SignedSize) -> Addresses {
        Addresses {
            fact: Intervals::loaded_signed(size),
        }
    }

    fn join(self, other: Addresses) -> Addresses {
        let pointer = self.fact.join(other.fact);
        let words = as_words(self.fact).join(as_words(other.fact));
        Addresses {
            fact: pointer_or(pointer, words),
        }
    }

    fn alu(arithmetic: Arithmetic, dst: Addresses, source: Addresses) -> Addresses {
        let pointer = Intervals::alu(arithmetic, dst.fact, source.fact);
        let words = Intervals::alu(arithmetic, as_words(dst.fact), as_words(source.fact));
        Addresses {
            fact: pointer_or(pointer, words),
        }
    }

    fn refine(
        width: Width,
        relation: Relation,
        taken: bool,
        dst: Addresses,
        source: Addresses,
        same: bool,
    ) -> Option<(Addresses, Addresses)> {
        let (dst, source) = refined(width, relation, taken, dst.fact, source.fact, same)?;
        Some((Addresses { fact: dst }, Addresses { fact: source }))
    }

    fn access(self, block: BlockSize, offset: i16, size: u64) -> Option<Area> {
        self.fact.access(block, offset, size)
    }

    fn bounds(self) -> Bounds {
        words_of(self.fact.fact())
    }

    fn offsets(self) -> Option<Offsets> {
        self.fact.offsets()
    }

    #[inline]
    fn tracks_sums() -> bool {
        true
    }
}
