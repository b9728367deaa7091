//! Submissions as lines of a command file.

ghost use Rattle.std.specs.Prelude.{◌≡◌, ◌++◌, [], ◌∷◌, IfOk, OnOk};
ghost use Rattle.device_events.specs.ToldEvents.{Submitted};
ghost use Rattle.event_text.specs.Submission.{submission_text, Tells};

use crate::lines::{push_data, push_hex};
use std::alloc::{AllocError, Global};

/// The line of a command file that tells of a submission: a queue, an entry and the data beside it. It is one line,
/// with its end, and is read back as that submission.
///
/// # Errors
///
/// No memory for the line.
pub fn submission_line(
    alloc: Global,
    queue: u16,
    entry: &[u8; 64],
    input: &[u8],
) -> Result<Vec<u8>, AllocError>
    ensures text { IfOk result (λ line. line.items ≡ submission_text queue entry.now input.now ++ 10 ∷ []) }
    ensures told { OnOk result (Tells (submission_text queue entry.now input.now) (Submitted queue entry.now input.now)) }
{
    let mut line = format!(in alloc; "submit {queue} ")?.into_bytes();
    push_hex(&mut line, entry)?;
    push_data(&mut line, input)?;
    line.push(b'\n')?;
    Ok(line)
}
