//! Events that are done, and the turns after them.

ghost use Rattle.std.specs.Prelude.{◌≡◌, ◌≤◌, ◌<◌, ◌+◌, ◌^◌, length, true, false, IfOk, OnOk, OnErr};
ghost use Rattle.common_definitions.specs.Failures.{CountsFailure};
ghost use Rattle.device_meaning.specs.Judging.{judge_by};
ghost use Rattle.device_meaning.specs.Events.{HasServed};
ghost use Rattle.device_meaning.specs.JoinedEvents.{HasServedAndDrained};
ghost use Rattle.command_exec.specs.Executed.{HasBegun, HasServedAsked, HasServedFirst};
ghost use Rattle.command_exec.specs.Refused.{NoneRefused};
ghost use Rattle.command_exec.specs.steps.Serving.{Goes};
ghost use Rattle.command_exec.specs.steps.Tallied.{Watches, none_tallied};

use crate::watched::Watched;
use device_events::{Event, Out};
use runner::{Device, Stopped};
use word_domain::Domain;
use zns_commands::MOST_TRANSFER;

/// Does the events, and then gives turns until no run is left. Where it is to stop at the first refused command, it does no later event,
/// and gives no turn then.
pub(crate) fn serve_and_drain<D: Domain, P: Out>(
    device: &mut Device<D>,
    events: &[Event],
    stops: bool,
    output: &mut [u8],
    replies: &mut Watched<P>,
) -> Result<(), Stopped>
    requires room { MOST_TRANSFER ≤ length output.old }
    requires counts { P.refusals replies.old.out + 1 < 2 ^ 64 }
    requires new { replies.old.tally ≡ none_tallied }
    ensures goes { Goes (Watches P.took replies.old replies.new) }
    ensures count { CountsFailure (P.refusals replies.old.out) (P.refusals replies.new.out) result }
    ensures done { OnOk result (HasServedAsked (judge_by D.operations) stops
        events.now device.old device.new (Watches P.took replies.old replies.new)) }
    ensures stopped { OnErr result (HasBegun (judge_by D.operations) events.now device.old device.new) }
{
    if stops {
        serve_and_stop(device, events, output, replies)
    } else {
        serve_to_end(device, events, output, replies)
    }
}

/// Does the events, and then gives turns until no run is left.
fn serve_to_end<D: Domain, P: Out>(
    device: &mut Device<D>,
    events: &[Event],
    output: &mut [u8],
    replies: &mut Watched<P>,
) -> Result<(), Stopped>
    requires room { MOST_TRANSFER ≤ length output.old }
    requires counts { P.refusals replies.old.out + 1 < 2 ^ 64 }
    ensures goes { Goes (Watches P.took replies.old replies.new) }
    ensures count { CountsFailure (P.refusals replies.old.out) (P.refusals replies.new.out) result }
    ensures done { OnOk result (HasServedAndDrained (judge_by D.operations)
        events.now device.old device.new (Watches P.took replies.old replies.new)) }
    ensures stopped { OnErr result (HasBegun (judge_by D.operations) events.now device.old device.new) }
{
    device.serve(events, output, replies)?;
    device.drain(output, replies)
}

/// Does the events, and gives turns until no run is left, unless a command is refused: it does no later event then, and gives no turn.
fn serve_and_stop<D: Domain, P: Out>(
    device: &mut Device<D>,
    events: &[Event],
    output: &mut [u8],
    replies: &mut Watched<P>,
) -> Result<(), Stopped>
    requires room { MOST_TRANSFER ≤ length output.old }
    requires counts { P.refusals replies.old.out + 1 < 2 ^ 64 }
    requires new { replies.old.tally ≡ none_tallied }
    ensures goes { Goes (Watches P.took replies.old replies.new) }
    ensures count { CountsFailure (P.refusals replies.old.out) (P.refusals replies.new.out) result }
    ensures done { OnOk result (HasServedAsked (judge_by D.operations) true
        events.now device.old device.new (Watches P.took replies.old replies.new)) }
    ensures stopped { OnErr result (HasBegun (judge_by D.operations) events.now device.old device.new) }
{
    if serve_to_refusal(device, events, output, replies)? {
        return Ok(());
    }
    device.drain(output, replies)
}

/// Does the events up to the first refused command, and says whether there was one.
fn serve_to_refusal<D: Domain, P: Out>(
    device: &mut Device<D>,
    events: &[Event],
    output: &mut [u8],
    replies: &mut Watched<P>,
) -> Result<bool, Stopped>
    requires room { MOST_TRANSFER ≤ length output.old }
    requires counts { P.refusals replies.old.out + 1 < 2 ^ 64 }
    requires new { replies.old.tally ≡ none_tallied }
    ensures goes { Goes (Watches P.took replies.old replies.new) }
    ensures count { CountsFailure (P.refusals replies.old.out) (P.refusals replies.new.out) result }
    ensures refused { IfOk result (λ refused. refused ≡ true
        → HasServedFirst (judge_by D.operations) events.now device.old device.new (Watches P.took replies.old replies.new)) }
    ensures all { IfOk result (λ refused. refused ≡ false → HasServed (judge_by D.operations)
        events.now device.old device.new (λ given. Watches P.took replies.old replies.new given × NoneRefused given)) }
    ensures stopped { OnErr result (HasBegun (judge_by D.operations) events.now device.old device.new) }
{
    for index in 0..events.len() {
        device.serve(&events[index..index + 1], output, replies)?;
        if replies.tally().first.is_some() {
            return Ok(true);
        }
    }
    Ok(false)
}
