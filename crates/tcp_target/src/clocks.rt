//! How long ago something happened on connections and of controllers.

ghost use Rattle.std.specs.Prelude.{◌≡◌};
ghost use Rattle.tcp_target.specs.Clocks.{is_past, later, later_connection, later_controller, started_connection, started_controller};

/// The milliseconds of the ticks that began after something happened; `None` until the first of them.
pub(crate) type Clock = Option<u64>;

/// The clock after a tick of so many milliseconds. What happened may have happened within the first tick, which starts the clock.
fn later(clock: Clock, milliseconds: u32) -> Clock
    ensures { result ≡ later milliseconds clock }
{
    match clock {
        Some(counted) => Some(counted.saturating_add(u64::from(milliseconds))),
        None => Some(0),
    }
}

/// Has it counted so many milliseconds?
pub(crate) fn is_past(clock: Clock, limit: u64) -> bool
    ensures { result ≡ is_past limit clock }
{
    match clock {
        Some(counted) => limit <= counted,
        None => false,
    }
}

/// The clocks of a connection.
#[derive(Clone, Copy)]
pub struct ConnectionClock {
    /// Since it began.
    pub(crate) begun: Clock,
    /// Since bytes were taken of those that are to be sent, or there were none.
    pub(crate) taken: Clock,
}

impl ConnectionClock {
    /// Those of a connection that begins.
    pub(crate) fn new() -> ConnectionClock
        ensures { result ≡ started_connection }
    {
        ConnectionClock {
            begun: None,
            taken: None,
        }
    }

    /// What a tick makes of them, where something is to be sent or not.
    pub(crate) fn later(self, milliseconds: u32, waits: bool) -> ConnectionClock
        ensures { result ≡ later_connection milliseconds waits self }
    {
        ConnectionClock {
            begun: later(self.begun, milliseconds),
            taken: if waits {
                later(self.taken, milliseconds)
            } else {
                None
            },
        }
    }
}

/// The clocks of a controller.
#[derive(Clone, Copy)]
pub struct ControllerClock {
    /// Since bytes came on its admin queue.
    pub(crate) admin: Clock,
    /// Since bytes came on any of its queues.
    pub(crate) queues: Clock,
}

impl ControllerClock {
    /// Those of a controller of whose host something has come on its admin queue.
    pub(crate) fn new() -> ControllerClock
        ensures { result ≡ started_controller }
    {
        ControllerClock {
            admin: None,
            queues: None,
        }
    }

    /// What a tick makes of them.
    pub(crate) fn later(self, milliseconds: u32) -> ControllerClock
        ensures { result ≡ later_controller milliseconds self }
    {
        ControllerClock {
            admin: later(self.admin, milliseconds),
            queues: later(self.queues, milliseconds),
        }
    }
}
