//! Which runs are admitted.

use super::scenes::{FOUR_ZONES, Scene, TWELVE_ZONES, play};
use super::steps::Expected::{Done, FaultTaken, Idle, Pending, Refused};
use super::steps::{Case, Step};
use nvme_entry::Status;
use std::test::Fail;
use test_inputs::programs::{MATCHING, RETURNING};
use zns_commands::FaultState;
use zone_state::Action;

/// A row for each status, in the order in which they are tested, and Runs that deserve two of them.
const REFUSED: &[Case] = &[
    (Step::Append(1, 0, "07*1536"), Done(1)),
    (Step::Send(1, 8, Action::Open), Done(1)),
    (Step::Fault(2, FaultState::Offline), FaultTaken),
    (Step::Load(1, 0, 10, MATCHING), Done(1)),
    // A Run takes no bytes.
    (
        Step::Entry(2, 0xc0, 0, [0, 0], 8, "00"),
        Refused(2, Status::INVALID_FIELD_IN_COMMAND),
    ),
    // Slot 1 has no program, which comes before the addresses.
    (
        Step::Entry(2, 0xc0, 99, [0x1_0000, 0], 8, ""),
        Refused(2, Status::NO_SUCH_PROGRAM),
    ),
    // There are 32 blocks. The source's address comes before the destination's zone.
    (Step::Run(2, 31, 2, 8), Refused(2, Status::LBA_OUT_OF_RANGE)),
    (
        Step::Run(2, 0xffff_ffff_ffff_ffff, 65536, 8),
        Refused(2, Status::LBA_OUT_OF_RANGE),
    ),
    (
        Step::Run(2, 0, 1, 0xffff_ffff_ffff_ffff),
        Refused(2, Status::LBA_OUT_OF_RANGE),
    ),
    (Step::Run(2, 32, 1, 9), Refused(2, Status::LBA_OUT_OF_RANGE)),
    // Block 9 is not the lowest of its zone.
    (
        Step::Run(2, 0, 1, 9),
        Refused(2, Status::INVALID_FIELD_IN_COMMAND),
    ),
    // A run from a zone to itself.
    (
        Step::Run(2, 8, 1, 8),
        Refused(2, Status::SOURCE_IS_DESTINATION),
    ),
    // Blocks 22 to 24 leave the zone that is Offline.
    (
        Step::Run(2, 22, 3, 8),
        Refused(2, Status::ZONE_BOUNDARY_ERROR),
    ),
    (Step::Run(2, 16, 1, 8), Refused(2, Status::ZONE_IS_OFFLINE)),
    // Block 3 isn't written, which comes before the state of zone 3.
    (
        Step::Run(2, 0, 4, 24),
        Refused(2, Status::SOURCE_NOT_WRITTEN),
    ),
    // Zone 3 isn't open.
    (
        Step::Run(2, 0, 3, 24),
        Refused(2, Status::DESTINATION_NOT_OPEN),
    ),
    // None of these is active.
    (Step::Turns(0, 1), Idle),
    (Step::Turns(255, 1), Idle),
];

const EIGHT: &[Case] = &[
    (Step::Append(1, 0, "00*4096"), Done(1)),
    (Step::Send(1, 8, Action::Open), Done(1)),
    (Step::Send(1, 16, Action::Open), Done(1)),
    (Step::Send(1, 24, Action::Open), Done(1)),
    (Step::Send(1, 32, Action::Open), Done(1)),
    (Step::Send(1, 40, Action::Open), Done(1)),
    (Step::Send(1, 48, Action::Open), Done(1)),
    (Step::Send(1, 56, Action::Open), Done(1)),
    (Step::Send(1, 64, Action::Open), Done(1)),
    (Step::Send(1, 72, Action::Open), Done(1)),
    (Step::Load(1, 0, 0, RETURNING), Done(1)),
    (Step::Run(2, 0, 1, 8), Pending(0)),
    (Step::Run(3, 0, 1, 16), Pending(1)),
    (Step::Run(4, 0, 1, 24), Pending(2)),
    (Step::Run(5, 0, 1, 32), Pending(3)),
    (Step::Run(6, 0, 1, 40), Pending(4)),
    (Step::Run(7, 0, 1, 48), Pending(5)),
    (Step::Run(8, 0, 1, 56), Pending(6)),
    (Step::Run(9, 0, 1, 64), Pending(7)),
    // None is free; what is wrong with the addresses comes first.
    (Step::Run(11, 0, 1, 72), Refused(11, Status::NO_RUN_FREE)),
    (
        Step::Run(11, 0, 1, 96),
        Refused(11, Status::LBA_OUT_OF_RANGE),
    ),
    (Step::Turns(2, 1), Done(4)),
    // Zone 1 is the destination of another run.
    (Step::Run(11, 0, 1, 8), Refused(11, Status::ZONE_HELD)),
    (Step::Run(12, 0, 1, 72), Pending(2)),
];

const SCENES: &[Scene] = &[
    Scene {
        name: "runs that are refused",
        shape: FOUR_ZONES,
        steps: REFUSED,
        left: "implicit 3, explicit 0, offline 0, empty 0",
    },
    Scene {
        name: "eight runs are active",
        shape: TWELVE_ZONES,
        steps: EIGHT,
        left: "full 8, explicit 0, explicit 0, explicit 0, explicit 0, explicit 0, \
             explicit 0, explicit 0, explicit 0, explicit 0, empty 0, empty 0",
    },
];

#[test]
fn admitting(rt: HostRuntime) -> Result<(), Fail> {
    play(&rt, rt.alloc(), SCENES)
}
