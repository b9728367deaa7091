//! The bytes that go out on a connection: those that were sent, and behind them those that are to be sent. What was sent is forgotten by
//! a count, so that no byte is moved for it.

ghost use Rattle.std.specs.Prelude.{◌≡◌, ◌≤◌, ◌+◌, [], drop, length};
ghost use Rattle.tcp_target.specs.steps.Room.{HasRoom, HasRoomFor};

use crate::place::MOST_KEPT;

/// The most bytes that were sent and are kept all the same, with those that are to be sent. It is twice [`MOST_KEPT`], so that bytes
/// which are moved to the front are fewer than those that were sent since.
pub(crate) const MOST_HELD: usize = 794_624;

/// Makes room behind them for so many bytes, where there is none: those that are to be sent are moved to the front.
pub(crate) fn make_room(outgoing: &mut Vec<u8>, sent: &mut usize, size: usize)
    requires room { HasRoom outgoing.old sent.old }
    requires few { length (drop sent.old outgoing.old.items) + size ≤ MOST_KEPT }
    ensures same { drop sent.new outgoing.new.items ≡ drop sent.old outgoing.old.items }
    ensures room { HasRoomFor size outgoing.new sent.new }
{
    if MOST_HELD - size < outgoing.len() {
        let unsent = outgoing.len() - *sent;
        outgoing.copy_within(*sent.., 0);
        outgoing.truncate(unsent);
        *sent = 0;
    }
}

/// Forgets the first bytes of those that are to be sent.
pub(crate) fn forget(outgoing: &mut Vec<u8>, sent: &mut usize, count: usize)
    requires room { HasRoom outgoing.old sent.old }
    requires within { count ≤ length (drop sent.old outgoing.old.items) }
    ensures rest { drop sent.new outgoing.new.items ≡ drop count (drop sent.old outgoing.old.items) }
    ensures room { HasRoom outgoing.new sent.new }
{
    *sent += count;
    if *sent == outgoing.len() {
        clear(outgoing, sent);
    }
}

/// Forgets all of them.
pub(crate) fn clear(outgoing: &mut Vec<u8>, sent: &mut usize)
    requires { HasRoom outgoing.old sent.old }
    ensures none { drop sent.new outgoing.new.items ≡ [] }
    ensures room { HasRoom outgoing.new sent.new }
{
    outgoing.clear();
    *sent = 0;
}
