//! Laws of devices that are restored. Each function does nothing: what it ensures is the law.

ghost use Rattle.device_meaning.specs.Judging.{judge_by};
ghost use Rattle.runner.specs.Restored.{OneIsRestored, RestoredMayBegin};

use device_meaning::laws::domains_judge_soundly;
use word_domain::Domain;

/// What was kept of programs and runs tells one state, and a device may begin in it.
pub fn restored_may_begin<D: Domain>()
    ensures one { OneIsRestored (judge_by D.operations) }
    ensures begins { RestoredMayBegin (judge_by D.operations) }
{
    domains_judge_soundly::<D>();
}
