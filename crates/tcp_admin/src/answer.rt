//! What a command comes to.

ghost use Rattle.std.specs.Prelude.{◌≡◌};
ghost use Rattle.common_definitions.specs.Checks.{unless_failed};
ghost use Rattle.tcp_admin.specs.Answers.{refused, succeeded, told};
ghost use Rattle.tcp_admin.specs.Transfers.{has_length};

use crate::status::DATA_SGL_LENGTH_INVALID;
use tcp_connection::Outcome;
use tcp_pdus::{ENTRY_BYTES, SglDescriptor};
use zone_state::Status;

/// What an admin command comes to.
#[derive(Clone, Copy, Debug, PartialEq, Eq)]
pub enum Answer {
    /// It is completed.
    Completed {
        /// How it ended.
        outcome: Outcome,
    },
    /// It is an Asynchronous Event Request, which is kept, and has no completion.
    Kept,
}

impl Answer {
    /// It succeeded, with this Dword 0.
    pub(crate) fn succeeded(dw0: u32) -> Answer
        ensures { result ≡ succeeded dw0 }
    {
        Answer::Completed {
            outcome: Outcome {
                status: Status::SUCCESS,
                dw0,
                dw1: 0,
            },
        }
    }

    /// It was refused.
    pub(crate) fn refused(status: Status) -> Answer
        ensures { result ≡ refused status }
    {
        Answer::Completed {
            outcome: Outcome {
                status,
                dw0: 0,
                dw1: 0,
            },
        }
    }

    /// It succeeded, with this Dword 0, or was refused.
    pub(crate) fn told(dw0: Result<u32, Status>) -> Answer
        ensures { result ≡ told dw0 }
    {
        match dw0 {
            Ok(dw0) => Answer::succeeded(dw0),
            Err(status) => Answer::refused(status),
        }
    }
}

/// Checks that the SGL descriptor's length is that of the data that the command gives.
///
/// # Errors
///
/// Data SGL Length Invalid.
pub(crate) fn check_length(entry: &[u8; ENTRY_BYTES], size: usize) -> Result<(), Status>
    ensures { result ≡ unless_failed (has_length entry.now size) tt }
{
    if SglDescriptor::read(entry).length as usize == size {
        Ok(())
    } else {
        Err(DATA_SGL_LENGTH_INVALID)
    }
}
