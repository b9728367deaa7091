//! How often a queue and a command identifier are used, by which it is judged whether a completion can be that of another submission.

ghost use Rattle.std.specs.Prelude.{◌≡◌, unwrap_or, map, IfOk};
ghost use Rattle.std.specs.List.{filter_map};
ghost use Rattle.std.specs.HashMap.{get};
ghost use Rattle.command_explain.specs.declared.submissions.Identity.{Identity};
ghost use Rattle.command_explain.specs.steps.Submissions.{same_identity};
ghost use Rattle.command_explain.specs.steps.Uses.{AreCounted, completion_in, completion_of, count_of, doubt_at, ends_in_run, identity_in, run_in};

use crate::submissions::{Identity, Submission, is_run};
use device_events::Reply;
use event_text::{Told, ToldReply};
use std::alloc::{AllocError, Global};
use std::collections::HashMap;

/// How often each identity is used by a command file and the lines that `exec` printed of it.
#[derive(Drop)]
pub(crate) struct Uses {
    /// The submissions.
    submissions: HashMap<Identity, u64>,
    /// The Runs among them.
    runs: HashMap<Identity, u64>,
    /// Is the last submission a Run?
    ends_in_run: HashMap<Identity, bool>,
    /// The completions.
    completions: HashMap<Identity, u64>,
}

/// Why a completion may be that of another submission with its queue and identifier.
#[derive(Clone, Copy)]
pub(crate) enum Doubt {
    /// There are not as many completions with them as submissions.
    Counts { submissions: u64, completions: u64 },
    /// Of so many submissions one stands behind a Run, whose completion may come later.
    BehindRun { submissions: u64 },
}

impl Uses {
    /// Those of the submissions of a command file and of replies.
    ///
    /// # Errors
    ///
    /// Want of memory.
    pub(crate) fn new(
        alloc: Global,
        submissions: &[Submission],
        replies: &[ToldReply],
    ) -> Result<Uses, AllocError>
        ensures { IfOk result (AreCounted submissions.now replies.now) }
    {
        let identities = identities(alloc, submissions)?;
        let runs = runs(alloc, submissions)?;
        let completions = completions(alloc, replies)?;
        Ok(Uses {
            submissions: tally(alloc, identities.as_slice())?,
            runs: tally(alloc, runs.as_slice())?,
            ends_in_run: ends_in_run(alloc, submissions)?,
            completions: tally(alloc, completions.as_slice())?,
        })
    }

    /// Why a completion with this identity may be that of another submission than the one whose turn it is; `None` where it
    /// can't be.
    pub(crate) fn doubt(&self, identity: Identity) -> Option<Doubt>
        ensures { result ≡ doubt_at identity self.now }
    {
        let submissions = self.submissions.get(&identity).copied().unwrap_or(0);
        let completions = self.completions.get(&identity).copied().unwrap_or(0);
        let runs = self.runs.get(&identity).copied().unwrap_or(0);
        let last = self.ends_in_run.get(&identity).copied().unwrap_or(false);
        if submissions != completions {
            return Some(Doubt::Counts {
                submissions,
                completions,
            });
        }
        if runs > u64::from(last) {
            return Some(Doubt::BehindRun { submissions });
        }
        None
    }
}

/// How often each identity stands in a list.
fn tally(alloc: Global, all: &[Identity]) -> Result<HashMap<Identity, u64>, AllocError>
    ensures { IfOk result (λ counts. (identity : Identity)
        → unwrap_or (get same_identity counts identity) 0 ≡ count_of identity all.now) }
{
    let mut counts = HashMap::new(alloc);
    for identity in all {
        *counts.entry(*identity)?.or_insert(0) += 1;
    }
    Ok(counts)
}

/// The identities of submissions.
fn identities(alloc: Global, submissions: &[Submission]) -> Result<Vec<Identity>, AllocError>
    ensures { IfOk result (λ identities. identities.items ≡ map (λ submission. submission.identity) submissions.now) }
{
    submissions
        .iter()
        .map(|submission| submission.identity)
        .collect(alloc)
}

/// Those of the Runs among them.
fn runs(alloc: Global, submissions: &[Submission]) -> Result<Vec<Identity>, AllocError>
    ensures { IfOk result (λ identities. identities.items ≡ filter_map run_in submissions.now) }
{
    submissions
        .iter()
        .filter_map(|submission| run_in(submission))
        .collect(alloc)
}

/// The identity of a submission that is a Run.
fn run_in(submission: &Submission) -> Option<Identity>
    ensures { result ≡ run_in submission.now }
{
    if is_run(&submission.entry) {
        Some(submission.identity)
    } else {
        None
    }
}

/// The identities of the completions among replies.
fn completions(alloc: Global, replies: &[ToldReply]) -> Result<Vec<Identity>, AllocError>
    ensures { IfOk result (λ identities. identities.items ≡ filter_map completion_in replies.now) }
{
    replies
        .iter()
        .filter_map(|told| completion_in(told))
        .collect(alloc)
}

/// The identity of a reply that is a completion, whose bytes 12 and 13 have the command identifier (NVMe Base 2.0, 3.3.3.2).
fn completion_in(told: &ToldReply) -> Option<Identity>
    ensures { result ≡ completion_in told.now }
{
    match &told.told {
        Told::Reply(reply) => completion_of(reply),
        Told::Unknown { queue, entry, .. } => Some(identity_in(*queue, entry)),
    }
}

/// The identity of a reply that is a completion.
fn completion_of(reply: &Reply) -> Option<Identity>
    ensures { result ≡ completion_of reply.now }
{
    match reply {
        Reply::Complete { queue, entry, .. } => Some(identity_in(*queue, &entry.bytes())),
        Reply::Pending { .. } | Reply::Idle | Reply::FaultTaken | Reply::FaultRefused => None,
    }
}

/// The identity that the bytes of a completion tell.
fn identity_in(queue: u16, entry: &[u8; 16]) -> Identity
    ensures { result ≡ identity_in queue entry.now }
{
    Identity {
        queue,
        cid: u16::from(entry[12]) + 0x100 * u16::from(entry[13]),
    }
}

/// Of each identity, is the last submission that has it a Run?
fn ends_in_run(
    alloc: Global,
    submissions: &[Submission],
) -> Result<HashMap<Identity, bool>, AllocError>
    ensures { IfOk result (λ ends. (identity : Identity) → get same_identity ends identity ≡ ends_in_run identity submissions.now) }
{
    let mut ends = HashMap::new(alloc);
    for submission in submissions {
        ends.insert(submission.identity, is_run(&submission.entry))?;
    }
    Ok(ends)
}
