//! The completion of a command, as a reply.

ghost use Rattle.std.specs.Prelude.{◌≡◌};
ghost use Rattle.runner.specs.steps.Answered.{complete_reply};

use device_events::{CompletionEntry, Reply};
use nvme_entry::Completion;
use zns_commands::Answer;

/// The completion of an entry, with the answer's status and dwords: at once, or of a run at its last turn.
pub fn complete(queue: u16, cid: u16, answer: Answer) -> Reply
    ensures { result ≡ complete_reply queue cid answer }
{
    let completion = Completion {
        dw0: answer.dw0,
        dw1: answer.dw1,
        queue,
        cid,
        status: answer.status,
    };
    Reply::Complete {
        queue,
        entry: CompletionEntry::new(completion),
        length: answer.length,
    }
}
