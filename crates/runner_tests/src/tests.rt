//! A device that serves events of a run and is drained, which programs and runs it refuses, and runs, turn by turn.

ghost use Rattle.std.proofs.Common.{◌∙◌, ap, append_assoc, rules};
ghost use Rattle.std.specs.Prelude.{◌≡◌, ◌≤◌, ◌++◌, length, map};

use runner::{Event, NotTaken, Out, Reply};
use scenes::{FOUR_ZONES, device_of};
use std::alloc::Global;
use std::process::Abort;
use std::test::Fail;
use steps::Expected::{Done, DoneWith, Pending};
use steps::{Case, Step, bytes_of};
use test_inputs::programs::MATCHING;
use zns_commands::MOST_TRANSFER;
use zone_state::Action;

mod admitting;
mod loading;
mod running;
mod scenes;
mod steps;

/// Room for the data of a reply.
fn room(rt: &impl Abort, alloc: Global) -> Vec<u8>
    ensures { MOST_TRANSFER ≤ length result.items }
{
    vec![in alloc; 0; MOST_TRANSFER].expect(rt, "memory")
}

/// Keeps replies, and refuses those that it has no memory for.
#[derive(Drop)]
struct Kept {
    alloc: Global,
    replies: Vec<(Reply, Vec<u8>)>,
    refusals: u64,
}

impl Kept {
    fn new(alloc: Global) -> Kept
        ensures { result.refusals ≡ 0 }
    {
        Kept {
            alloc,
            replies: Vec::new(alloc),
            refusals: 0,
        }
    }
}

impl Out for Kept {
    ghost took = { λ old new replies. map (λ kept. record { reply = kept.0; bytes = kept.1.items }) new.replies.items
        ≡ map (λ kept. record { reply = kept.0; bytes = kept.1.items }) old.replies.items ++ replies };

    ghost refusals = { λ kept. kept.refusals };

    ghost takes_none = { Prim.search rules };

    ghost joins = { λ _ _ _ first later early late. late ∙ ap (λ xs. xs ++ later) early ∙ append_assoc _ first later };

    fn take(&mut self, reply: Reply, bytes: &[u8]) -> Result<(), NotTaken> {
        if let Ok(bytes) = Vec::from_slice(self.alloc, bytes) {
            if self.replies.push((reply, bytes)).is_ok() {
                return Ok(());
            }
        }
        self.refusals += 1;
        Err(NotTaken)
    }

    fn refusals(&self) -> u64 {
        self.refusals
    }
}

/// Events of a run, and what is replied to each.
const SERVED: &[Case] = &[
    (Step::Append(1, 0, "07*1024"), Done(1)),
    (Step::Send(2, 8, Action::Open), Done(2)),
    (Step::Load(3, 0, 10, MATCHING), Done(3)),
    (Step::Run(4, 0, 2, 8), Pending(0)),
    (Step::Read(5, 1, 1, "07*512"), Done(5)),
];

/// The turns that are left.
const DRAINED: &[Case] = &[
    (Step::Turns(0, 1), Pending(0)),
    (Step::Turns(0, 1), DoneWith(4, 2, 1)),
];

/// What happens in these steps.
fn events_of(alloc: Global, steps: &[Case]) -> Result<Vec<Event>, Fail> {
    let mut events = Vec::new(alloc);
    for (step, _) in steps {
        events.push(step.event(alloc)?)?;
    }
    Ok(events)
}

/// Compares the replies that were kept, and their data, with those of steps.
fn check_kept(rt: &impl Abort, alloc: Global, out: &Kept, steps: &[Case]) -> Result<(), Fail> {
    assert_eq!(rt; out.replies.len(), steps.len());
    for (case, kept) in steps.iter().zip(out.replies.iter()) {
        let gives = bytes_of(alloc, case.0.gives())?;
        assert_eq!(rt; kept.0, case.1.reply(gives.len()));
        assert_eq!(rt; kept.1.as_slice(), gives.as_slice());
    }
    Ok(())
}

#[test]
fn replies_are_handed_out_with_their_data(rt: HostRuntime) -> Result<(), Fail> {
    let alloc = rt.alloc();
    let mut device = device_of(alloc, FOUR_ZONES)?;
    let mut room = room(&rt, alloc);
    let output = room.as_mut_slice();
    let mut served = Kept::new(alloc);
    device.serve(&events_of(alloc, SERVED)?, output, &mut served)?;
    check_kept(&rt, alloc, &served, SERVED)?;
    let mut drained = Kept::new(alloc);
    device.drain(output, &mut drained)?;
    check_kept(&rt, alloc, &drained, DRAINED)
}
