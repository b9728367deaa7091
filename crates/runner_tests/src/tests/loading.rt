//! Programs that are loaded into slots.

use super::scenes::{FOUR_ZONES, Scene, play};
use super::steps::Expected::{Done, Pending, ProgramRefused, Refused};
use super::steps::{Case, Step};
use nvme_entry::Status;
use std::test::Fail;
use test_inputs::programs::{GROWING, MATCHING, RETURNING, Text};
use zone_state::Action;

const ACCEPTED: &[Case] = &[
    (Step::Load(1, 0, 0, RETURNING), Done(1)),
    // The limit may be a whole block.
    (Step::Load(2, 7, 512, RETURNING), Done(2)),
    // It emits 8 bytes, which are 10 with their length.
    (Step::Load(3, 0, 10, MATCHING), Done(3)),
    // A length from the block, of 1 to 8 bytes.
    (Step::Load(4, 1, 10, GROWING), Done(4)),
];

/// What refuses a program, the slot of an instruction and a number, in Dwords 0 and 1; and fields that are refused.
const REFUSED: &[Case] = &[
    // Half of a wide instruction.
    (
        Step::Entry(8, 0xc1, 0, [8, 0], 0, "1801000000000000"),
        ProgramRefused(8, 0, 26),
    ),
    // No bytes.
    (Step::Load(8, 0, 0, ""), ProgramRefused(8, 0, 21)),
    // 4097 slots.
    (
        Step::Entry(8, 0xc1, 0, [32776, 0], 0, "b700000000000000*4097"),
        ProgramRefused(8, 0, 22),
    ),
    // A block that begins with 9 leads to a load from 0.
    (
        Step::Load(
            8,
            0,
            512,
            "\
ldxb r6, [r2+0]\njeq r6, 9, +5\nmov r1, r2\nmov r2, 510\ncall 1\nmov r0, 0\nexit\nldxdw r0, [r0+0]\n\
exit",
        ),
        ProgramRefused(8, 7, 5),
    ),
    // A jump into a wide instruction, and a program without an end.
    (
        Step::Load(8, 0, 0, "ja +1\nlddw r1, 0\nexit"),
        ProgramRefused(8, 0, 2),
    ),
    (Step::Load(8, 0, 0, "mov r0, 0"), ProgramRefused(8, 0, 3)),
    // A loop.
    (Step::Load(8, 0, 0, "ja -1\nexit"), ProgramRefused(8, 0, 1)),
    // One byte more than the limit.
    (Step::Load(8, 0, 9, MATCHING), ProgramRefused(8, 4, 10)),
    // 16 bytes are told, and 8 stand beside the entry.
    (
        Step::Entry(8, 0xc1, 0, [16, 0], 0, "b700000000000000"),
        Refused(8, Status::INVALID_FIELD_IN_COMMAND),
    ),
    // The limit is over the block's size.
    (
        Step::Load(8, 0, 513, RETURNING),
        Refused(8, Status::INVALID_FIELD_IN_COMMAND),
    ),
    // A Result takes no bytes.
    (
        Step::Entry(8, 0xc2, 0, [0, 0], 0, "00"),
        Refused(8, Status::INVALID_FIELD_IN_COMMAND),
    ),
    // Nothing of this is in the slot.
    (Step::Result(8, 0, ""), Refused(8, Status::NO_SUCH_PROGRAM)),
    (Step::Run(8, 0, 1, 8), Refused(8, Status::NO_SUCH_PROGRAM)),
];

/// Adds a block's first byte to a sum in scratch.
const ADDING: Text =
    "ldxb r4, [r2+0]\nldxdw r5, [r3+0]\nadd r5, r4\nstxdw [r3+0], r5\nmov r0, 0\nexit";

const RESULTS: &[Case] = &[
    (Step::Append(1, 0, "28*512 02*512"), Done(1)),
    (Step::Send(1, 8, Action::Open), Done(1)),
    (Step::Load(1, 0, 0, ADDING), Done(1)),
    // No run has ended yet.
    (Step::Result(2, 0, "00*1024"), Done(2)),
    (Step::Run(3, 0, 2, 8), Pending(0)),
    (Step::Turns(0, 1), Pending(0)),
    // Nor has this one.
    (Step::Result(4, 0, "00*1024"), Done(4)),
    // A run uses the slot, whatever is to be loaded.
    (
        Step::Load(5, 0, 0, RETURNING),
        Refused(5, Status::PROGRAM_IN_USE),
    ),
    (Step::Load(6, 0, 0, ""), Refused(6, Status::PROGRAM_IN_USE)),
    (Step::Turns(0, 1), Done(3)),
    // 40 and 2.
    (Step::Result(7, 0, "2a 00*1023"), Done(7)),
    // A Load that is refused leaves the result.
    (Step::Load(8, 0, 0, ""), ProgramRefused(8, 0, 21)),
    (Step::Result(9, 0, "2a 00*1023"), Done(9)),
    // One that isn't refused doesn't.
    (Step::Load(10, 0, 0, ADDING), Done(10)),
    (Step::Result(11, 0, "00*1024"), Done(11)),
];

const SCENES: &[Scene] = &[
    Scene {
        name: "programs that are accepted",
        shape: FOUR_ZONES,
        steps: ACCEPTED,
        left: "empty 0, empty 0, empty 0, empty 0",
    },
    Scene {
        name: "programs and fields that are refused",
        shape: FOUR_ZONES,
        steps: REFUSED,
        left: "empty 0, empty 0, empty 0, empty 0",
    },
    Scene {
        name: "results and slots in use",
        shape: FOUR_ZONES,
        steps: RESULTS,
        left: "implicit 2, explicit 0, empty 0, empty 0",
    },
];

#[test]
fn loading(rt: HostRuntime) -> Result<(), Fail> {
    play(&rt, rt.alloc(), SCENES)
}
