//! Completions, each paired with a submission of a command file.

ghost use Rattle.std.specs.Prelude.{IfOk};
ghost use Rattle.command_explain.specs.steps.Pairing.{Begins, Pairs, identity_of};

use crate::submissions::{Identity, Submission};
use crate::uses::{Doubt, Uses};
use crate::waiting::Waiting;
use event_text::ToldReply;
use nvme_entry::Completion;
use std::alloc::{AllocError, Global};
use std::fmt;

/// How the completions that were printed are paired with the submissions of the command file with this name.
#[derive(Drop)]
pub(crate) struct Pairing<'a> {
    path: &'a str,
    waiting: Waiting,
    uses: Uses,
}

/// The submission that a completion is taken to answer.
#[derive(Clone, Copy)]
pub(crate) struct Paired<'a> {
    /// The name of its command file.
    pub(crate) path: &'a str,
    pub(crate) submission: Submission,
    /// Why another one may be answered.
    pub(crate) doubt: Option<Doubt>,
}

impl<'a> Pairing<'a> {
    /// Of the submissions of this command file none has its completion yet.
    ///
    /// # Errors
    ///
    /// Want of memory.
    pub(crate) fn new(
        alloc: Global,
        path: &'a str,
        submissions: &[Submission],
        replies: &[ToldReply],
    ) -> Result<Pairing<'a>, AllocError>
        ensures { IfOk result (Begins submissions.now replies.now) }
    {
        Ok(Pairing {
            path,
            waiting: Waiting::new(alloc, submissions)?,
            uses: Uses::new(alloc, submissions, replies)?,
        })
    }

    /// The name of the command file.
    pub(crate) fn path(&self) -> &'a str {
        self.path
    }

    /// The submission that a completion is taken to answer, which waits no longer; `None` where none waits that has its queue and
    /// its command identifier.
    pub(crate) fn pair(&mut self, completion: &Completion) -> Option<Paired<'a>>
        ensures { Pairs (identity_of completion.now) self.old self.new result }
    {
        let identity = Identity {
            queue: completion.queue,
            cid: completion.cid,
        };
        let submission = self.waiting.complete(identity)?;
        Some(Paired {
            path: self.path,
            submission,
            doubt: self.uses.doubt(identity),
        })
    }
}
