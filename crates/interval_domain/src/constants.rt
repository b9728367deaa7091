//! The domain of constants.

use crate::arithmetic::arithmetic_on;
use crate::edge::refine;
use crate::fact::{Fact, access, join, load, offsets, pointer_between, single, widen, words_of};
use instruction_set::{Relation, SignedSize, Size, Width};
use program_interface::{Area, BlockSize};
use program_meaning::Arithmetic;
use std::marker::Model;
use word_domain::{Bounds, Domain, Offsets};

/// A word that is known, an address at a known distance from an area's, or any word. What the operations give is
/// exactly as written, and sound.
#[derive(Clone, Copy, Debug, PartialEq, Eq)]
pub struct Constants {
    fact: Fact,
}

impl Model for Constants {
    ghost use Rattle.interval_domain.specs.Fact.{IsFact};
    ghost use Rattle.interval_domain.specs.declared.fact.Fact.{Fact};

    ghost Value = { Fact };

    ghost view = { λ i. i.fact };

    ghost invariant = { λ i. IsFact i.fact };

    ghost inverse = { λ f. record { fact = f } };
}

impl Domain for Constants {
    ghost use Rattle.interval_domain.specs.Fact.{ContainsWord, IsFact};
    ghost use Rattle.interval_domain.specs.Constants.{constants};

    ghost is_fact = { IsFact };

    ghost contains = { ContainsWord };

    ghost operations = { constants };

    fn fact_fits() {}

    #[tactic(auto, using(crate::proofs::Proved::constants_sound))]
    fn sound() {}

    fn constant(word: u64) -> Constants {
        Constants {
            fact: Fact::Words(single(word)),
        }
    }

    fn any() -> Constants {
        Constants {
            fact: Fact::Words(Bounds::FULL),
        }
    }

    fn pointer(area: Area, offset: u32) -> Constants {
        Constants {
            fact: pointer_between(area, i128::from(offset), i128::from(offset)),
        }
    }

    fn loaded(size: Size) -> Constants {
        Constants {
            fact: widen(load(size)),
        }
    }

    fn loaded_signed(_size: SignedSize) -> Constants {
        Constants::any()
    }

    fn join(self, other: Constants) -> Constants {
        Constants {
            fact: widen(join(self.fact, other.fact)),
        }
    }

    fn alu(arithmetic: Arithmetic, dst: Constants, source: Constants) -> Constants {
        Constants {
            fact: widen(arithmetic_on(arithmetic, dst.fact, source.fact)),
        }
    }

    fn refine(
        width: Width,
        relation: Relation,
        taken: bool,
        dst: Constants,
        source: Constants,
        same: bool,
    ) -> Option<(Constants, Constants)> {
        let (dst, source) = refine(width, relation, taken, dst.fact, source.fact, same)?;
        Some((
            Constants { fact: widen(dst) },
            Constants {
                fact: widen(source),
            },
        ))
    }

    fn access(self, block: BlockSize, offset: i16, size: u64) -> Option<Area> {
        access(self.fact, block, offset, size)
    }

    fn bounds(self) -> Bounds {
        words_of(self.fact)
    }

    fn offsets(self) -> Option<Offsets> {
        offsets(self.fact)
    }

    #[inline]
    fn tracks_sums() -> bool {
        false
    }
}
