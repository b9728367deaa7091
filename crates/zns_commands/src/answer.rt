//! What a command answers.

ghost use Rattle.std.specs.Prelude.{◌≡◌};
ghost use Rattle.zns_commands.specs.Answer.{answer_without_data, refused_answer, success_answer};

use nvme_entry::Status;

/// The answer to a command: what its completion says, and how many bytes of data it gives.
#[derive(Clone, Copy, Debug, PartialEq, Eq)]
pub struct Answer {
    /// The completion's status (NVMe Base 2.0, 3.3.3.2).
    pub status: Status,
    /// Dword 0 of the completion.
    pub dw0: u32,
    /// Dword 1 of the completion.
    pub dw1: u32,
    /// How many bytes of data the command gives.
    pub length: usize,
}

impl Answer {
    /// The answer of a command that is refused: no data, and both dwords 0.
    pub fn refused(status: Status) -> Answer
        ensures { result ≡ refused_answer status }
    {
        Answer {
            status,
            dw0: 0,
            dw1: 0,
            length: 0,
        }
    }

    /// The answer of a command that succeeds: a number in both dwords, the low one first, and so
    /// many bytes of data.
    pub fn success(number: u64, length: usize) -> Answer
        ensures { result ≡ success_answer number length }
    {
        Answer {
            status: Status::SUCCESS,
            dw0: (number % 0x1_0000_0000) as u32,
            dw1: (number / 0x1_0000_0000) as u32,
            length,
        }
    }

    /// The answer of a command without data, which gives a number or is refused.
    pub(crate) fn without_data(done: Result<u64, Status>) -> Answer
        ensures value { result ≡ answer_without_data done }
        ensures no_data { result.length ≡ 0 }
    {
        match done {
            Ok(number) => Answer::success(number, 0),
            Err(status) => Answer::refused(status),
        }
    }
}
