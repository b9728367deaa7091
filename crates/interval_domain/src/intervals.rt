//! The domain of intervals.

ghost use Rattle.std.specs.Prelude.{◌≡◌};

use crate::arithmetic::arithmetic_on;
use crate::edge::refine;
use crate::fact::{Fact, access, join, load, offsets, pointer_between, single, words_of};
use instruction_set::{Relation, SignedSize, Size, Width};
use program_interface::{Area, BlockSize};
use program_meaning::Arithmetic;
use std::marker::Model;
use word_domain::{Bounds, Domain, Offsets};

/// The words between two bounds, or the addresses between two distances from an area's. What the operations give is
/// exactly as written, and sound.
#[derive(Clone, Copy, Debug, PartialEq, Eq)]
pub struct Intervals {
    fact: Fact,
}

impl Model for Intervals {
    ghost use Rattle.interval_domain.specs.Fact.{IsFact};
    ghost use Rattle.interval_domain.specs.declared.fact.Fact.{Fact};

    ghost Value = { Fact };

    ghost view = { λ i. i.fact };

    ghost invariant = { λ i. IsFact i.fact };

    ghost inverse = { λ f. record { fact = f } };
}

impl Intervals {
    ghost use Rattle.interval_domain.specs.Fact.{IsFact};

    /// What a fact tells, whose bounds are in order, and near its area's address where it is a pointer.
    pub fn of(fact: Fact) -> Intervals
        requires { IsFact fact }
        ensures { result ≡ fact }
    {
        Intervals { fact }
    }

    /// The fact.
    pub fn fact(self) -> Fact
        ensures { result ≡ self }
    {
        let Intervals { fact } = self;
        fact
    }
}

impl Domain for Intervals {
    ghost use Rattle.interval_domain.specs.Fact.{ContainsWord, IsFact};
    ghost use Rattle.interval_domain.specs.Intervals.{intervals};

    ghost is_fact = { IsFact };

    ghost contains = { ContainsWord };

    ghost operations = { intervals };

    fn fact_fits() {}

    #[tactic(auto, using(crate::proofs::Proved::intervals_sound))]
    fn sound() {}

    fn constant(word: u64) -> Intervals {
        Intervals {
            fact: Fact::Words(single(word)),
        }
    }

    fn any() -> Intervals {
        Intervals {
            fact: Fact::Words(Bounds::FULL),
        }
    }

    fn pointer(area: Area, offset: u32) -> Intervals {
        Intervals {
            fact: pointer_between(area, i128::from(offset), i128::from(offset)),
        }
    }

    fn loaded(size: Size) -> Intervals {
        Intervals { fact: load(size) }
    }

    fn loaded_signed(_size: SignedSize) -> Intervals {
        Intervals::any()
    }

    fn join(self, other: Intervals) -> Intervals {
        Intervals {
            fact: join(self.fact, other.fact),
        }
    }

    fn alu(arithmetic: Arithmetic, dst: Intervals, source: Intervals) -> Intervals {
        Intervals {
            fact: arithmetic_on(arithmetic, dst.fact, source.fact),
        }
    }

    fn refine(
        width: Width,
        relation: Relation,
        taken: bool,
        dst: Intervals,
        source: Intervals,
        same: bool,
    ) -> Option<(Intervals, Intervals)> {
        let (dst, source) = refine(width, relation, taken, dst.fact, source.fact, same)?;
        Some((Intervals { fact: dst }, Intervals { fact: source }))
    }

    fn access(self, block: BlockSize, offset: i16, size: u64) -> Option<Area> {
        access(self.fact, block, offset, size)
    }

    fn bounds(self) -> Bounds {
        words_of(self.fact)
    }

    fn offsets(self) -> Option<Offsets> {
        offsets(self.fact)
    }

    #[inline]
    fn tracks_sums() -> bool {
        false
    }
}
