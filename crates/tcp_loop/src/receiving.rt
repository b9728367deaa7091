//! What is done with bytes that came.

ghost use Rattle.std.specs.Prelude.{◌≡◌, ◌≤◌, ◌<◌, drop, false, length, true};
ghost use Rattle.tcp_loop.specs.Holding.{Attends, Takes};
ghost use Rattle.tcp_loop.specs.Keeping.{KeptState};
ghost use Rattle.tcp_loop.specs.Orderly.{HasGrown, IsOrderly};

use crate::operation::PLACES;
use crate::target::KeptTarget;

/// How many commands of a connection are done in a round, at most: others have their turn then.
const MOST_COMMANDS: usize = 1024;

/// What was done with bytes that came on a connection.
#[derive(Clone, Copy)]
pub struct Advanced {
    /// How many of them were taken.
    pub taken: usize,
    /// How many commands were done.
    pub commands: u64,
    /// Whether something happened the last time, so that more may.
    pub goes_on: bool,
    /// Whether memory was wanting.
    pub failed: bool,
}

/// Nothing.
const NOTHING: Advanced = Advanced {
    taken: 0,
    commands: 0,
    goes_on: true,
    failed: false,
};

impl Advanced {
    /// Was something done?
    pub fn is_something(self) -> bool {
        self.taken > 0 || self.commands > 0
    }
}

/// Hands on bytes that came on a connection, and has commands done.
pub fn advance<T: KeptTarget>(target: &mut T, number: usize, piece: &[u8]) -> Advanced
    requires { number < PLACES }
    ensures within { result.taken ≤ length piece.now }
    ensures takes { Takes T.means number piece.now result.taken (T.at target.old) (T.at target.new) }
    ensures attends { result.failed ≡ false → Attends T.means number piece.now 0 result.taken (T.at target.old) (T.at target.new) }
    ensures grows { (o : IsOrderly T.means T.free) → HasGrown T.means T.free o (T.at target.old).state (T.at target.new).state }
{
    let mut done = advance_once(target, number, piece, NOTHING);
    for _ in 1..MOST_COMMANDS {
        if !done.goes_on {
            return done;
        }
        done = advance_once(target, number, piece, done);
    }
    done
}

/// Hands on those after the ones that were taken, up to the end of a PDU, and has a command done.
fn advance_once<T: KeptTarget>(
    target: &mut T,
    number: usize,
    piece: &[u8],
    done: Advanced,
) -> Advanced
    requires number { number < PLACES }
    requires within { done.taken ≤ length piece.now }
    ensures within { result.taken ≤ length piece.now }
    ensures takes { (begun : KeptState T.State) → Takes T.means number piece.now done.taken begun (T.at target.old)
        → Takes T.means number piece.now result.taken begun (T.at target.new) }
    ensures attends { result.failed ≡ false
        → Attends T.means number piece.now done.taken result.taken (T.at target.old) (T.at target.new) }
    ensures well { result.goes_on ≡ true → result.failed ≡ false }
    ensures grows { (o : IsOrderly T.means T.free) → HasGrown T.means T.free o (T.at target.old).state (T.at target.new).state }
{
    let count = target.receive(number, &piece[done.taken..]);
    let taken = done.taken + count;
    match target.serve(number) {
        Ok(served) => Advanced {
            taken,
            commands: done.commands.saturating_add(u64::from(served)),
            goes_on: served || count > 0,
            failed: false,
        },
        Err(_) => Advanced {
            taken,
            commands: done.commands,
            goes_on: false,
            failed: true,
        },
    }
}
