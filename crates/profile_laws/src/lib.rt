//! A law of how the profiles' verifiers compare. Its function does nothing: what it ensures is the law.
#![tactic(auto)]

ghost use Rattle.address_domain.specs.Addresses.{addresses};
ghost use Rattle.interval_domain.specs.Intervals.{intervals};
ghost use Rattle.profile_laws.specs.Laws.{AcceptsWhatIsAccepted};

use accepted_programs::laws;
use interval_domain::Intervals;

/// Whatever a verifier accepts over intervals, profile 2, it accepts over addresses, profile 3: for each program, block
/// length and limit.
pub fn addresses_accept_what_intervals_accept()
    ensures { AcceptsWhatIsAccepted addresses intervals }
{
    laws::accepted_fails_nowhere::<Intervals>();
    laws::judges_without_sums::<Intervals>();
}
