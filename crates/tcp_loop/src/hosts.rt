//! What is known of hosts.

ghost use Rattle.std.specs.Prelude.{◌≡◌, ◌≢◌, ◌<◌, ◌&&◌, ◌||◌, ℕ, false, not};
ghost use Rattle.tcp_loop.specs.Rounds.{flag, may_accept, may_read, may_write};

use crate::operation::{Answer, PLACES, Ready};

/// What is known of hosts and their connections.
#[derive(Clone, Copy)]
pub(crate) struct Hosts {
    /// Whether a connection is there.
    pub(crate) there: [bool; PLACES],
    /// Whether it takes no bytes for now.
    pub(crate) full: [bool; PLACES],
    /// Whether it is over, and is to be closed.
    pub(crate) lost: [bool; PLACES],
    /// What happened where it was waited for.
    pub(crate) ready: Ready,
    /// Whether hosts are waited for that want to connect: not while there is no room for more.
    pub(crate) accepts: bool,
    /// Whether a signal came to end.
    pub(crate) ends: bool,
}

impl Hosts {
    /// None is there.
    pub(crate) fn new() -> Hosts
        ensures { (place : ℕ) → place < 40 → flag place result.there ≡ false }
    {
        Hosts {
            there: none(),
            full: none(),
            lost: none(),
            ready: nothing(),
            accepts: true,
            ends: false,
        }
    }
}

/// Nothing happened.
fn nothing() -> Ready
    ensures reads { (place : ℕ) → place < 40 → flag place result.reads ≡ false }
    ensures writes { (place : ℕ) → place < 40 → flag place result.writes ≡ false }
    ensures accepts { result.accepts ≡ false }
{
    Ready {
        reads: none(),
        writes: none(),
        accepts: false,
        signals: false,
    }
}

/// What happened where it was waited for.
pub(crate) fn ready_of(answer: Answer) -> Ready
    ensures reads { (place : ℕ) → place < 40 → flag place result.reads ≡ may_read place answer }
    ensures writes { (place : ℕ) → place < 40 → flag place result.writes ≡ may_write place answer }
    ensures accepts { result.accepts ≡ may_accept answer }
{
    match answer {
        Answer::Happened { ready } => ready,
        Answer::Done => nothing(),
        Answer::Came => nothing(),
        Answer::Taken { .. } => nothing(),
        Answer::Again => nothing(),
        Answer::NoRoom => nothing(),
        Answer::Failed => nothing(),
        Answer::Time { .. } => nothing(),
        Answer::Signal { .. } => nothing(),
    }
}

/// No place's flag is set.
pub(crate) fn none() -> [bool; PLACES]
    ensures { (place : ℕ) → place < 40 → flag place result ≡ false }
{
    [false; PLACES]
}

/// Is a place's flag set?
pub(crate) fn is_set(flags: &[bool; PLACES], place: usize) -> bool
    requires { place < PLACES }
    ensures { result ≡ flag place flags.now }
{
    flags[place]
}

/// Sets a place's flag, or clears it.
pub(crate) fn set(flags: &mut [bool; PLACES], place: usize, to: bool)
    requires { place < PLACES }
    ensures here { flag place flags.new ≡ to }
    ensures others { (other : ℕ) → other ≢ place → flag other flags.new ≡ flag other flags.old }
{
    flags[place] = to;
}

/// Sets a place's flag where so, and leaves it as it is else.
pub(crate) fn mark(flags: &mut [bool; PLACES], place: usize, is_so: bool)
    requires { place < PLACES }
    ensures here { flag place flags.new ≡ (flag place flags.old || is_so) }
    ensures others { (other : ℕ) → other ≢ place → flag other flags.new ≡ flag other flags.old }
{
    if is_so {
        set(flags, place, true);
    }
}

/// One, or the other?
pub(crate) fn either(one: bool, other: bool) -> bool
    ensures { result ≡ (one || other) }
{
    one || other
}

/// Which connections still take no bytes, where these do.
pub(crate) fn still_full(full: &[bool; PLACES], ready: &[bool; PLACES]) -> [bool; PLACES]
    ensures { (place : ℕ) → place < 40 → flag place result ≡ (flag place full.now && not (flag place ready.now)) }
{
    let mut still = none();
    for place in 0..PLACES {
        set(
            &mut still,
            place,
            is_set(full, place) && !is_set(ready, place),
        );
    }
    still
}
