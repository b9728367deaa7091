//! Replies in words as they come, each beside the entry that it answers.

use crate::completion_words::{push_answer, push_unnamed};
use crate::explain::{Form, completion_from, push_other, push_unknown};
use crate::worded_command::push_command;
use device_events::Reply;
use nvme_entry::{Completion, Entry};
use std::alloc::AllocError;

/// Adds what a reply with these bytes of data says, on lines of their own, as `explain` does: of a completion with the command of the entry
/// that it answers, where that is known.
///
/// # Errors
///
/// Want of memory.
pub fn push_reply_words(
    reply: &Reply,
    data: &[u8],
    answered: Option<&[u8; 64]>,
    out: &mut String,
) -> Result<(), AllocError> {
    let Reply::Complete { queue, entry, .. } = reply else {
        return push_other(reply, Form::Words, out);
    };
    match completion_from(*queue, entry) {
        Some(completion) => push_completion(&completion, data, answered, out),
        None => push_unknown(*queue, Form::Words, out),
    }
}

/// Adds what a completion and its data say.
fn push_completion(
    completion: &Completion,
    data: &[u8],
    answered: Option<&[u8; 64]>,
    out: &mut String,
) -> Result<(), AllocError> {
    let queue = completion.queue;
    let cid = completion.cid;
    write!(out, "queue {queue}, command {cid}: ")?;
    let Some(entry) = answered else {
        return push_unnamed(completion, data, out);
    };
    match Entry::decode(entry) {
        Ok(command) => {
            push_command(&command, out)?;
            out.push_str(": ")?;
            push_answer(completion, data, &command, out)
        }
        Err(_) => {
            out.push_str("an entry that is no command: ")?;
            push_unnamed(completion, data, out)
        }
    }
}
