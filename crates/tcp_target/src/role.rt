//! What a connection is for.

ghost use Rattle.std.specs.Prelude.{◌≡◌, map};
ghost use Rattle.tcp_target.specs.Roles.{is_queue_of, role_of, without, without_io};

use crate::connected::Connected;

/// The most connections at a time (profile): four controllers with an admin queue and 8 I/O queues, and some that begin.
pub const MOST_CONNECTIONS: usize = 40;

/// What a connection is for: the queue that it has.
#[derive(Clone, Copy, Debug, PartialEq, Eq)]
pub enum Role {
    /// No Connect has succeeded on it, or there is none.
    Unconnected,
    /// The admin queue of a controller.
    Admin {
        /// The controller's identifier.
        controller: u16,
    },
    /// An I/O queue of a controller.
    Io {
        /// The controller's identifier.
        controller: u16,
        /// The queue's identifier.
        queue: u16,
    },
    /// It had a queue, whose controller has ended or isn't ready any more: the connection is to be closed.
    Ended,
}

impl Role {
    /// The role that a Connect gives.
    pub(crate) fn of(connected: Connected) -> Role
        ensures { result ≡ role_of connected }
    {
        if connected.queue.id == 0 {
            Role::Admin {
                controller: connected.controller,
            }
        } else {
            Role::Io {
                controller: connected.controller,
                queue: connected.queue.id,
            }
        }
    }

    /// Is it this I/O queue of this controller?
    pub(crate) fn is_queue_of(self, id: u16, wanted: u16) -> bool
        ensures { result ≡ is_queue_of id wanted self }
    {
        match self {
            Role::Io { controller, queue } => controller == id && queue == wanted,
            Role::Unconnected | Role::Admin { .. } | Role::Ended => false,
        }
    }

    /// The role once the controller isn't ready any more: its I/O queues end.
    fn without_io(self, id: u16) -> Role
        ensures { result ≡ without_io id self }
    {
        match self {
            Role::Io {
                controller,
                queue: _,
            } if controller == id => Role::Ended,
            Role::Unconnected | Role::Admin { .. } | Role::Io { .. } | Role::Ended => self,
        }
    }

    /// The role once the controller has ended: its admin queue ends too.
    fn without(self, id: u16) -> Role
        ensures { result ≡ without id self }
    {
        match self {
            Role::Admin { controller } if controller == id => Role::Ended,
            Role::Unconnected | Role::Admin { .. } | Role::Io { .. } | Role::Ended => {
                self.without_io(id)
            }
        }
    }
}

/// What connections are for once a controller isn't ready any more.
pub(crate) fn without_queues(roles: &[Role; MOST_CONNECTIONS], id: u16) -> [Role; MOST_CONNECTIONS]
    ensures { result ≡ map (λ role. without_io id role) roles.now }
{
    let mut kept = [Role::Unconnected; MOST_CONNECTIONS];
    for (number, role) in roles.iter().enumerate() {
        kept[number] = role.without_io(id);
    }
    kept
}

/// What connections are for once a controller has ended.
pub(crate) fn without_controller(
    roles: &[Role; MOST_CONNECTIONS],
    id: u16,
) -> [Role; MOST_CONNECTIONS]
    ensures { result ≡ map (λ role. without id role) roles.now }
{
    let mut kept = [Role::Unconnected; MOST_CONNECTIONS];
    for (number, role) in roles.iter().enumerate() {
        kept[number] = role.without(id);
    }
    kept
}
