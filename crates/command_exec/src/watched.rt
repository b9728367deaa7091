//! Replies that are handed on, and which of them are refusals.

ghost use Rattle.std.specs.Prelude.{◌≡◌};
ghost use Rattle.std.proofs.Common.{◌∙◌, ap, refl, sym};
ghost use Rattle.std.proofs.lemmas.List.Sums.{fold-append};
ghost use Rattle.command_exec.specs.Refused.{is_refusal, tells_refusal};
ghost use Rattle.command_exec.specs.steps.Tallied.{Watches, none_tallied, noted, tallied};

use device_events::{NotTaken, Out, Reply};

/// Replies that were taken, counted, and the refusals among them.
#[derive(Clone, Copy, Debug, PartialEq, Eq)]
pub(crate) struct Tally {
    /// How many replies there were.
    pub(crate) taken: usize,
    /// How many of them are refusals.
    pub(crate) refused: u64,
    /// How many were taken before the first refusal.
    pub(crate) first: Option<usize>,
}

impl Tally {
    /// No reply was taken yet.
    const NONE: Tally = Tally {
        taken: 0,
        refused: 0,
        first: None,
    };

    /// With one reply more, which is a refusal or isn't.
    fn with(self, refused: bool) -> Tally
        ensures { result ≡ noted refused self }
    {
        let taken = self.taken.saturating_add(1);
        if refused {
            Tally {
                taken,
                refused: self.refused.saturating_add(1),
                first: self.first.or(Some(self.taken)),
            }
        } else {
            Tally {
                taken,
                refused: self.refused,
                first: self.first,
            }
        }
    }
}

/// Hands replies on, and counts the completions of refused commands among them.
#[derive(Drop)]
pub(crate) struct Watched<T> {
    out: T,
    tally: Tally,
}

impl<T: Out> Watched<T> {
    /// What hands replies on to this, of which there were none yet.
    pub(crate) fn new(out: T) -> Watched<T>
        ensures out { result.out ≡ out }
        ensures none { result.tally ≡ none_tallied }
    {
        Watched {
            out,
            tally: Tally::NONE,
        }
    }

    /// What the replies are handed on to.
    pub(crate) fn into_out(self) -> T
        ensures { result ≡ self.out }
    {
        let Watched { out, .. } = self;
        out
    }

    /// The replies that were handed on, counted.
    pub(crate) fn tally(&self) -> Tally
        ensures { result ≡ self.now.tally }
    {
        self.tally
    }
}

impl<T: Out> Out for Watched<T> {
    ghost took = { λ old new replies. Watches T.took old new replies };

    ghost refusals = { λ watched. T.refusals watched.out };

    ghost takes_none = { λ watched. (T.takes_none watched.out, refl) };

    ghost joins = { λ a b c first later early late. (
      T.joins a.out b.out c.out first later early.0 late.0,
      late.1 ∙ ap (λ tally. tallied tally later) early.1
          ∙ sym (fold-append (λ counted given. noted (is_refusal given) counted) a.tally first later),
    ) };

    fn take(&mut self, reply: Reply, bytes: &[u8]) -> Result<(), NotTaken> {
        let refused = is_refusal(&reply);
        self.out.take(reply, bytes)?;
        self.tally = self.tally.with(refused);
        Ok(())
    }

    fn refusals(&self) -> u64 {
        self.out.refusals()
    }
}

/// Is a reply the completion of a refused command?
fn is_refusal(reply: &Reply) -> bool
    ensures { result ≡ tells_refusal reply.now }
{
    match reply {
        Reply::Complete { entry, .. } => !entry.is_success(),
        Reply::Pending { .. } | Reply::Idle | Reply::FaultTaken | Reply::FaultRefused => false,
    }
}
