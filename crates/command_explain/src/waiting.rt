//! The submissions of a command file that wait for their completions.

ghost use Rattle.std.specs.Prelude.{◌≡◌, IfOk, position};
ghost use Rattle.command_explain.specs.steps.Submissions.{same_identity};
ghost use Rattle.command_explain.specs.steps.Waiting.{TakesFirst};

use crate::submissions::{Identity, Submission};
use std::alloc::{AllocError, Global};
use std::collections::VecDeque;

/// The submissions that wait for their completions, in order.
#[derive(Drop)]
pub(crate) struct Waiting {
    submissions: VecDeque<Submission>,
}

impl Waiting {
    /// All of a command file: none has its completion yet.
    ///
    /// # Errors
    ///
    /// Want of memory.
    pub(crate) fn new(alloc: Global, all: &[Submission]) -> Result<Waiting, AllocError>
        ensures { IfOk result (λ waiting. waiting.submissions.items ≡ all.now) }
    {
        let mut submissions = VecDeque::new(alloc);
        for submission in all {
            submissions.push_back(*submission)?;
        }
        Ok(Waiting { submissions })
    }

    /// The first that waits with this identity, which is its queue and its identifier. It waits no longer; where none
    /// has the identity, all wait on.
    pub(crate) fn complete(&mut self, identity: Identity) -> Option<Submission>
        ensures { TakesFirst identity self.old.submissions.items self.new.submissions.items result }
    {
        let at = self.index(identity)?;
        let submission = self.submissions.remove(at)?;
        Some(submission)
    }

    /// The index of the first that waits with this identity.
    fn index(&self, identity: Identity) -> Option<usize>
        ensures { result ≡ position (λ submission. same_identity submission.identity identity) self.now.submissions.items }
    {
        self.submissions
            .iter()
            .position(|submission| submission.identity == identity)
    }
}
