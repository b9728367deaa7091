//! Whether there is something to do on a connection.

ghost use Rattle.std.specs.Prelude.{◌≡◌, ◌<◌};
ghost use Rattle.tcp_target.specs.Ready.{is_ready};

use crate::role::MOST_CONNECTIONS;
use crate::target::Target;

impl Target {
    /// Is a command ready on a connection that isn't cut off? Then [`Target::serve`] executes it, or it goes to the device.
    pub fn is_ready(&self, number: usize) -> bool
        requires { number < MOST_CONNECTIONS }
        ensures { result ≡ is_ready number self.now }
    {
        self.connection(number).ready().is_some() && !self.queues.is_cut_off(number)
    }
}
