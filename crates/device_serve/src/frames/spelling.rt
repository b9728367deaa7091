//! Replies as frames of an answer.

ghost use Rattle.std.specs.Prelude.{◌≡◌, ◌≤◌, ◌++◌, length, OnErr, OnOk};
ghost use Rattle.nvme_entry.specs.declared.command.TheConstants.{MOST_TRANSFER};
ghost use Rattle.event_frames.specs.Frames.{frame_of, reply_frame};

use crate::draining::Spells;
use event_frames::push_reply;
use nvme_entry::MOST_TRANSFER;
use runner::Reply;
use std::alloc::AllocError;

/// Spells each reply as a frame.
#[derive(Clone, Copy)]
pub(crate) struct AsFrames;

impl Spells for AsFrames {
    ghost spelled = { reply_frame };

    fn add(&mut self, answer: &mut Vec<u8>, reply: Reply, bytes: &[u8]) -> Result<(), AllocError> {
        add_frame(answer, reply, bytes)
    }
}

/// Adds the frame of a reply with its data to an answer, whole or not at all.
///
/// # Errors
///
/// No memory. Then the answer is as it was.
pub(crate) fn add_frame(answer: &mut Vec<u8>, reply: Reply, bytes: &[u8]) -> Result<(), AllocError>
    requires few { length bytes.now ≤ MOST_TRANSFER }
    ensures added { OnOk result (answer.new.items ≡ answer.old.items ++ frame_of reply bytes.now) }
    ensures unanswered { OnErr result (answer.new.items ≡ answer.old.items) }
{
    let before = answer.len();
    let result = push_reply(answer, reply, bytes);
    if result.is_err() {
        answer.truncate(before);
    }
    result
}
