//! How commands end that the target executes.

ghost use Rattle.std.specs.Prelude.{◌≡◌};
ghost use Rattle.tcp_target.specs.Connected.{refusal};
ghost use Rattle.tcp_target.specs.Commands.{set_outcome, value_outcome};

use tcp_connection::Outcome;
use zone_state::{Status, StatusType};

/// The command may not come now: before Connect, or another Connect behind it (NVMe Base 2.0, 3.3.3.2).
pub const COMMAND_SEQUENCE_ERROR: Status = Status {
    kind: StatusType::Generic,
    code: 0x0C,
};

/// A refusal.
pub(crate) fn refusal(status: Status) -> Outcome
    ensures { result ≡ refusal status }
{
    Outcome {
        status,
        dw0: 0,
        dw1: 0,
    }
}

/// How a Property Get ends: the value is in Dwords 0 and 1.
pub(crate) fn value_outcome(value: Result<u64, Status>) -> Outcome
    ensures { result ≡ value_outcome value }
{
    match value {
        Ok(value) => Outcome {
            status: Status::SUCCESS,
            dw0: (value % 0x1_0000_0000) as u32,
            dw1: (value / 0x1_0000_0000) as u32,
        },
        Err(status) => refusal(status),
    }
}

/// How a Property Set ends.
pub(crate) fn set_outcome(done: Result<(), Status>) -> Outcome
    ensures { result ≡ set_outcome done }
{
    match done {
        Ok(()) => refusal(Status::SUCCESS),
        Err(status) => refusal(status),
    }
}
