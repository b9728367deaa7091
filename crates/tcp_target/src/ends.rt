//! How connections and controllers end.

ghost use Rattle.std.specs.Prelude.{◌≡◌, ◌<◌};
ghost use Rattle.tcp_target.specs.Ends.{closed_at, is_cut_off, readied_at};

use crate::queues::Queues;
use crate::role::{MOST_CONNECTIONS, Role};

impl Queues {
    /// Says that a connection is closed. What the device still has of it is dropped once it is done, and until then no other
    /// connection gets the number. A controller ends with the connection of its admin queue, and not with an I/O queue's.
    pub fn close(&mut self, number: usize)
        requires { number < MOST_CONNECTIONS }
        ensures { self.new ≡ closed_at number self.old }
    {
        self.places[number].close();
        self.associations.leave(number);
    }

    /// Says whether a controller is ready. Where it isn't, the connections of its I/O queues are cut off.
    pub fn set_ready(&mut self, id: u16, is_ready: bool)
        ensures { self.new ≡ readied_at id is_ready self.old }
    {
        self.associations.set_ready(id, is_ready);
    }

    /// Is a connection cut off? Then it is to be closed at once, whatever is to be sent.
    pub fn is_cut_off(&self, number: usize) -> bool
        ensures { result ≡ is_cut_off number self.now }
    {
        matches!(self.associations.role(number), Role::Ended)
    }
}
