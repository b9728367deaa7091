//! How a command ended that the device has completed.

ghost use Rattle.std.specs.Prelude.{◌≡◌};
ghost use Rattle.tcp_device.specs.Outcome.{outcome_in};

use device_events::CompletionEntry;
use tcp_connection::Outcome;

/// What a host is told of a completion: its status, and Dwords 0 and 1.
#[tactic(auto, using(crate::proofs::Told::outcome_told))]
pub(crate) fn outcome_in(entry: &CompletionEntry) -> Outcome
    ensures { result ≡ outcome_in entry.now }
{
    let completion = entry.completion();
    Outcome {
        status: completion.status,
        dw0: completion.dw0,
        dw1: completion.dw1,
    }
}
