//! Controllers.

ghost use Rattle.std.specs.Prelude.{◌≡◌};
ghost use Rattle.tcp_admin.specs.Properties.{begun, is_just_ready};

/// CSTS, the status of a controller (NVMe Base 2.0, 3.1.3.6).
#[derive(Clone, Copy, Debug, PartialEq, Eq)]
pub struct ControllerStatus {
    /// RDY: it executes commands.
    pub(crate) is_ready: bool,
    /// CFS: it couldn't be enabled as the host wants it.
    pub(crate) is_fatal: bool,
    /// SHST: it was shut down.
    pub(crate) is_shut_down: bool,
}

impl ControllerStatus {
    /// Is it just ready?
    pub(crate) fn is_just_ready(self) -> bool
        ensures { result ≡ is_just_ready self }
    {
        self.is_ready && !self.is_fatal && !self.is_shut_down
    }
}

/// A controller, which an association of a host and the target has: its properties that change, and what its features are set to.
#[derive(Clone, Copy, Debug, PartialEq, Eq)]
pub struct Controller {
    /// CNTLID.
    pub(crate) id: u16,
    /// CC, the controller configuration.
    pub(crate) configuration: u32,
    pub(crate) status: ControllerStatus,
    /// KATO, the Keep Alive Timeout in milliseconds.
    pub(crate) keep_alive: u32,
    /// What Asynchronous Event Configuration is set to.
    pub(crate) event_configuration: u32,
    /// How many Asynchronous Event Requests are kept.
    pub(crate) event_requests: u8,
}

impl Controller {
    /// A controller that isn't enabled, with its identifier, CNTLID, and the Keep Alive Timeout of Connect, KATO, in milliseconds.
    pub fn new(id: u16, keep_alive: u32) -> Controller
        ensures { result ≡ begun id keep_alive }
    {
        Controller {
            id,
            configuration: 0,
            status: ControllerStatus {
                is_ready: false,
                is_fatal: false,
                is_shut_down: false,
            },
            keep_alive,
            event_configuration: 0,
            event_requests: 0,
        }
    }

    /// Its identifier, CNTLID.
    pub fn id(&self) -> u16
        ensures { result ≡ self.now.id }
    {
        self.id
    }

    /// KATO, the Keep Alive Timeout in milliseconds, as Connect or a Set Features left it; 0 is none.
    pub fn keep_alive(&self) -> u32
        ensures { result ≡ self.now.keep_alive }
    {
        self.keep_alive
    }

    /// How many Asynchronous Event Requests are kept, at most four.
    pub fn event_requests(&self) -> u8
        ensures { result ≡ self.now.event_requests }
    {
        self.event_requests
    }

    /// Is it ready: enabled, and neither failed nor shut down? Else it has no I/O queues.
    pub fn is_ready(&self) -> bool
        ensures { result ≡ is_just_ready self.now.status }
    {
        self.status.is_just_ready()
    }
}
