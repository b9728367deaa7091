//! What happens to a served target beside its commands.

ghost use Rattle.std.specs.Prelude.{◌≡◌, ◌≤◌, ◌<◌, IfSome, length};
ghost use Rattle.tcp_target.specs.Queues.{free_number, place_at};
ghost use Rattle.tcp_target.specs.Events.{count_of};
ghost use Rattle.tcp_device.specs.Deeds.{Closed, Does, Opened, Received, Sent, Ticked};

use crate::served::ServedTarget;
use tcp_target::MOST_CONNECTIONS;

impl ServedTarget {
    /// Begins a connection, and gives its number: the lowest that no connection has, and under which the device has no command of
    /// the one before. `None` where there is none.
    pub fn open(&mut self) -> Option<usize>
        ensures number { result ≡ free_number self.old.target.queues }
        ensures state { Does Opened self.old self.new }
        ensures within { IfSome result (λ number. number < MOST_CONNECTIONS) }
    {
        self.target.open()
    }

    /// Takes bytes that came on a connection, up to the end of a PDU, and gives how many they are: none while too much is to be sent,
    /// or a command is ready, which is to be served first.
    pub fn receive(&mut self, number: usize, piece: &[u8]) -> usize
        requires { number < MOST_CONNECTIONS }
        ensures state { Does (Received number piece.now) self.old self.new }
        ensures count { result ≡ count_of number piece.now self.old.target }
        ensures within { result ≤ length piece.now }
    {
        self.target.receive(number, piece)
    }

    /// Forgets the first bytes of what is to be sent on a connection, which were sent.
    pub fn sent(&mut self, number: usize, count: usize)
        requires number { number < MOST_CONNECTIONS }
        requires count { count ≤ length (place_at number self.old.target.queues).unsent }
        ensures { Does (Sent number count) self.old self.new }
    {
        self.target.sent(number, count);
    }

    /// Says that a connection is closed, by whomever. Runs of its commands go on, and their completions are dropped; no other
    /// connection gets its number until the device has none of its commands.
    pub fn close(&mut self, number: usize)
        requires { number < MOST_CONNECTIONS }
        ensures { Does (Closed number) self.old self.new }
    {
        self.target.close(number);
    }

    /// Says that so many milliseconds went by, the last of which end now. What came and what was taken until then is to be said before.
    pub fn tick(&mut self, milliseconds: u32)
        ensures { Does (Ticked milliseconds) self.old self.new }
    {
        self.target.tick(milliseconds);
    }
}
