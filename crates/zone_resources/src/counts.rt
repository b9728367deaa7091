//! How many zones hold resources.

ghost use Rattle.std.specs.Prelude.{◌≡◌, ◌≤◌, ◌<◌, ◌+◌, ◌-◌, ◌^◌};
ghost use Rattle.zone_resources.specs.Counts.{counts_of, one_if, CountsOne, MovesOne};

use zone_state::{Zone, ZoneState};

/// How many zones hold an open resource, and how many hold an active one (ZNS 1.1,
/// 2.1.1).
#[derive(Clone, Copy, Debug, PartialEq, Eq)]
pub struct Counts {
    /// The zones that are open, implicitly or explicitly.
    pub opened: usize,
    /// The zones that are open or Closed.
    pub active: usize,
}

impl Counts {
    /// The counts of these zones: just those that are open, and just those that are open or Closed.
    pub fn of(zones: &[Zone]) -> Counts
        ensures { result ≡ counts_of zones.now }
    {
        Counts {
            opened: zones.iter().filter(|zone| zone.state().is_open()).count(),
            active: zones.iter().filter(|zone| zone.state().is_active()).count(),
        }
    }

    /// Counts that a zone which was counted in the state `from` has come into the state `to`: the counts of zones
    /// become those of the same zones with that one changed.
    #[tactic(auto, using(crate::proofs::CountLemmas::moving))]
    pub fn moved(&mut self, from: ZoneState, to: ZoneState)
        requires { CountsOne self.old from }
        ensures { MovesOne self.old self.new from to }
    {
        self.opened = recount(self.opened, from.is_open(), to.is_open());
        self.active = recount(self.active, from.is_active(), to.is_active());
    }
}

/// A count of zones, once a zone that it counted if `was` is to be counted if `is`.
fn recount(count: usize, was: bool, is: bool) -> usize
    requires counted { one_if was ≤ count }
    requires fits { (count - one_if was) + one_if is < 2 ^ 64 }
    ensures { result ≡ (count - one_if was) + one_if is }
{
    count - usize::from(was) + usize::from(is)
}
