//! The command Result, which gives the scratch bytes that a run left.

ghost use Rattle.std.specs.Prelude.{◌≡◌, ◌≤◌, drop, length};
ghost use Rattle.runner.specs.steps.Answered.{GivesResult};

use crate::device_state::DeviceState;
use nvme_entry::{ProgramSlot, Status, put_front};
use program_interface::SCRATCH_BYTES;
use word_domain::Domain;
use zns_commands::{Answer, check_transfer};

/// Gives the result of a slot's program.
pub fn give_result<D: Domain>(
    state: &DeviceState<D>,
    slot: ProgramSlot,
    input: &[u8],
    output: &mut [u8],
) -> Answer
    requires { SCRATCH_BYTES ≤ length output.old }
    ensures gives { GivesResult slot input.now state.now result output.new }
    ensures rest { drop result.length output.new ≡ drop result.length output.old }
    ensures within { result.length ≤ length output.new }
{
    if let Err(status) = check_transfer(0, 0, input) {
        return Answer::refused(status);
    }
    match &state.slots[slot.index()] {
        None => Answer::refused(Status::NO_SUCH_PROGRAM),
        Some(loaded) => {
            put_front(output, &loaded.result);
            Answer::success(0, SCRATCH_BYTES)
        }
    }
}
