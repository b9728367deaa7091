//! What takes the replies of a device.

ghost use Rattle.std.specs.Prelude.{◌≡◌, ◌+◌, ◌<◌, ◌^◌, ℕ, List, [], ◌∷◌, OnOk, OnErr};
ghost use Rattle.device_events.specs.Replies.{ReplyWithData, Joins};
ghost use Rattle.common_definitions.specs.Failures.{CountsFailure};

use crate::reply::Reply;

/// A reply wasn't taken.
#[derive(Clone, Copy, Debug, PartialEq, Eq)]
pub struct NotTaken;

/// Takes replies with their data, in order, and counts those that it refuses.
pub trait Out {
    /// From the first state to the second it took these replies, in order, and no other. Where it
    /// doesn't tell which it took, this holds of any.
    ghost took: { Self → Self → List ReplyWithData → Type 0 };

    /// How many replies it refused.
    ghost refusals: { Self → ℕ };

    /// Takes a reply with the bytes of its data, this one and no other. One that it refuses is counted, and isn't
    /// taken.
    ///
    /// # Errors
    ///
    /// [`NotTaken`] where the reply is refused, which is counted; it isn't taken then.
    fn take(&mut self, reply: Reply, bytes: &[u8]) -> Result<(), NotTaken>
        requires { refusals self.old + 1 < 2 ^ 64 }
        ensures ok { OnOk result (took self.old self.new (record { reply = reply; bytes = bytes.now } ∷ [])) }
        ensures err { OnErr result (took self.old self.new []) }
        ensures count { CountsFailure (refusals self.old) (refusals self.new) result };

    /// How many replies it refused.
    fn refusals(&self) -> u64
        ensures { result ≡ refusals self.now };

    /// As long as nothing happens to it, it takes none.
    ghost takes_none: { (out : Self) → took out out [] };

    /// What it takes in two parts it takes in order.
    ghost joins: { Joins took };
}
