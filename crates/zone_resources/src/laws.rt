//! Laws of the definitions that the contracts of this crate cite. Each function does nothing: what
//! it ensures is the law.

ghost use Rattle.zone_resources.specs.Admission.{AdmissionKeepsLimits, ClosesTheLowest, IdleHoldsNoMore, ReleaseKeepsLimits};
ghost use Rattle.zone_resources.specs.Counts.{CountsAreFew};
ghost use Rattle.zone_resources.specs.Holds.{HoldsRefuse};
ghost use Rattle.zone_resources.specs.Numbers.{RunsAreEight};

/// There are no more open zones than active ones, and no more of these than zones.
pub fn counts_are_few()
    ensures { CountsAreFew }
{}

/// The zone that gives way is implicitly opened and no run's destination, and is the lowest such; where none can give
/// way there is no such zone.
pub fn closes_the_lowest()
    ensures { ClosesTheLowest }
{}

/// Zones within their limits stay so where one gives way and another, admitted, changes its state.
pub fn admission_keeps_limits()
    ensures { AdmissionKeepsLimits }
{}

/// Zones within their limits stay so where one of them comes into a state that holds no more than the
/// one that it was in.
pub fn release_keeps_limits()
    ensures { ReleaseKeepsLimits }
{}

/// A state that is neither open nor Closed holds no more than any other.
pub fn idle_holds_no_more()
    ensures { IdleHoldsNoMore }
{}

/// A destination of a run refuses every action, a zone that is only a source Reset and Offline and no other, and a
/// zone that no run uses none. Where no run is, no zone is used.
pub fn holds_refuse()
    ensures { HoldsRefuse }
{}

/// Eight runs can be active at one time (profile).
pub fn runs_are_eight()
    ensures { RunsAreEight }
{}
