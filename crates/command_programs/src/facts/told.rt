//! What users are told of a word.

use interval_domain::Fact;
use std::fmt;
use word_domain::{Bounds, Domain, Offsets};

/// What users are told of a word, of which a domain may know more: `block + 16`, `7`, `0 to 255` or `any word`.
#[derive(Clone, Copy, PartialEq, Eq)]
pub enum Told {
    /// It is an address so far from an area's.
    Address(Offsets),
    /// It lies between bounds.
    Words(Bounds),
}

impl Told {
    /// What is told of the words of a fact.
    pub fn of<D: Domain>(fact: D) -> Told {
        match fact.offsets() {
            Some(offsets) => Told::Address(offsets),
            None => Told::Words(fact.bounds()),
        }
    }

    /// Is it every word?
    pub(crate) fn is_any(self) -> bool {
        self == Told::Words(Bounds::FULL)
    }
}

impl fmt::Display for Told {
    fn fmt<W: fmt::Write>(&self, f: &mut fmt::Formatter<W>) -> fmt::Result {
        match *self {
            Told::Address(offsets) => write!(f, "{offsets}"),
            Told::Words(bounds) => {
                let words = Fact::Words(bounds);
                write!(f, "{words}")
            }
        }
    }
}
