//! Replies as lines of an answer.

ghost use Rattle.std.specs.Prelude.{◌≡◌, ◌++◌, IfOk};
ghost use Rattle.event_text.specs.Lines.{reply_line};

use crate::draining::Spells;
use event_text::push_line;
use nvme_entry::MOST_TRANSFER;
use runner::Reply;
use std::alloc::{AllocError, Global};

/// The most bytes in a line: `cpl 65535 `, the completion, a space, the data and the line's end.
const LINE_BYTES: usize = 10 + 32 + 1 + 2 * MOST_TRANSFER + 1;

/// Spells each reply as a line, which is made before any of it is added to the answer.
#[derive(Drop)]
pub(crate) struct LineSpelling {
    line: Vec<u8>,
}

impl LineSpelling {
    /// Room for the longest line.
    ///
    /// # Errors
    ///
    /// No memory.
    pub(crate) fn new(alloc: Global) -> Result<LineSpelling, AllocError> {
        let line = Vec::with_capacity(alloc, LINE_BYTES)?;
        Ok(LineSpelling { line })
    }
}

impl Spells for LineSpelling {
    ghost spelled = { reply_line };

    fn add(&mut self, answer: &mut Vec<u8>, reply: Reply, bytes: &[u8]) -> Result<(), AllocError> {
        self.line.clear();
        match push_line(&mut self.line, reply, bytes) {
            Ok(()) => answer.extend_from_slice(self.line.as_slice()),
            Err(_) => Err(AllocError),
        }
    }
}
