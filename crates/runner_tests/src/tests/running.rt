//! Runs, turn by turn, and what happens to their zones between two turns.

use super::scenes::{FOUR_ZONES, Scene, TWO_LONG_ZONES, play};
use super::steps::Expected::{Done, DoneWith, FaultRefused, Pending, Refused};
use super::steps::{Case, Step};
use nvme_entry::Status;
use std::test::Fail;
use test_inputs::programs::MATCHING;
use zns_commands::FaultState;
use zone_state::Action;

const PACKED: &[Case] = &[
    (Step::Append(1, 0, "07*26624"), Done(1)),
    (Step::Send(1, 64, Action::Open), Done(1)),
    (Step::Load(1, 0, 10, MATCHING), Done(1)),
    (Step::Run(2, 0, 52, 64), Pending(0)),
    // 51 groups of 10 bytes fit into a block of 512.
    (Step::Turns(0, 51), Pending(0)),
    // So nothing is appended yet: a block that isn't written reads as zeros.
    (Step::Read(3, 64, 1, "00*512"), Done(3)),
    // 52 records in 2 blocks.
    (Step::Turns(0, 1), DoneWith(2, 52, 2)),
    (
        Step::Read(
            4,
            64,
            2,
            "08000707070707070707*51 00*2 08000707070707070707 00*502",
        ),
        Done(4),
    ),
];

/// A run from zone 0 to zone 1, and one from zone 1 to zone 2, in turn.
const IN_TURN: &[Case] = &[
    (Step::Append(1, 0, "07*1024"), Done(1)),
    (Step::Send(1, 0, Action::Close), Done(1)),
    (Step::Append(1, 8, "07*1024"), DoneWith(1, 8, 0)),
    (Step::Send(1, 16, Action::Open), Done(1)),
    (Step::Load(1, 0, 10, MATCHING), Done(1)),
    (Step::Run(2, 0, 2, 8), Pending(0)),
    (Step::Run(3, 8, 2, 16), Pending(1)),
    (Step::Turns(0, 1), Pending(0)),
    (Step::Turns(1, 1), Pending(1)),
    (Step::Turns(0, 1), DoneWith(2, 2, 1)),
    (Step::Turns(1, 1), DoneWith(3, 2, 1)),
    APPENDED_BY_FIRST,
    APPENDED_BY_SECOND,
];

/// The same runs, the second before the first.
const ONE_BY_ONE: &[Case] = &[
    (Step::Append(1, 0, "07*1024"), Done(1)),
    (Step::Send(1, 0, Action::Close), Done(1)),
    (Step::Append(1, 8, "07*1024"), DoneWith(1, 8, 0)),
    (Step::Send(1, 16, Action::Open), Done(1)),
    (Step::Load(1, 0, 10, MATCHING), Done(1)),
    (Step::Run(2, 0, 2, 8), Pending(0)),
    (Step::Run(3, 8, 2, 16), Pending(1)),
    (Step::Turns(1, 1), Pending(1)),
    (Step::Turns(1, 1), DoneWith(3, 2, 1)),
    (Step::Turns(0, 1), Pending(0)),
    (Step::Turns(0, 1), DoneWith(2, 2, 1)),
    APPENDED_BY_FIRST,
    APPENDED_BY_SECOND,
];

const APPENDED_BY_FIRST: Case = (
    Step::Read(4, 10, 1, "08000707070707070707*2 00*492"),
    Done(4),
);

const APPENDED_BY_SECOND: Case = (
    Step::Read(5, 16, 1, "08000707070707070707*2 00*492"),
    Done(5),
);

/// A run from zone 0 to zone 1 after the first of its two turns.
const BETWEEN: &[Case] = &[
    (Step::Append(1, 0, "07*1024"), Done(1)),
    (Step::Append(1, 8, "02*512"), DoneWith(1, 8, 0)),
    (Step::Load(1, 0, 10, MATCHING), Done(1)),
    (Step::Run(2, 0, 2, 8), Pending(0)),
    (Step::Turns(0, 1), Pending(0)),
    // Its source.
    (
        Step::Send(3, 0, Action::Reset),
        Refused(3, Status::ZONE_HELD),
    ),
    (Step::Fault(0, FaultState::ReadOnly), FaultRefused),
    // Its destination.
    (Step::Append(4, 8, "01*512"), Refused(4, Status::ZONE_HELD)),
    (Step::Read(7, 8, 1, "02*512"), Done(7)),
    // A third zone is opened: zone 0 gives way, and not the destination.
    (Step::Write(8, 24, "01*512"), Done(8)),
    (Step::Turns(0, 1), DoneWith(2, 2, 1)),
    // Nothing is held any more.
    (Step::Send(9, 0, Action::Reset), Done(9)),
];

const SCENES: &[Scene] = &[
    Scene {
        name: "groups are packed into blocks",
        shape: TWO_LONG_ZONES,
        steps: PACKED,
        left: "implicit 52, explicit 2",
    },
    Scene {
        name: "turns of two runs, in turn",
        shape: FOUR_ZONES,
        steps: IN_TURN,
        left: "closed 2, implicit 3, explicit 1, empty 0",
    },
    Scene {
        name: "turns of two runs, the second before the first",
        shape: FOUR_ZONES,
        steps: ONE_BY_ONE,
        left: "closed 2, implicit 3, explicit 1, empty 0",
    },
    Scene {
        name: "commands and faults between two turns",
        shape: FOUR_ZONES,
        steps: BETWEEN,
        left: "empty 0, implicit 2, empty 0, implicit 1",
    },
];

#[test]
fn running(rt: HostRuntime) -> Result<(), Fail> {
    play(&rt, rt.alloc(), SCENES)
}
