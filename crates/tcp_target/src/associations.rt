//! Associations.

ghost use Rattle.std.specs.Prelude.{◌≡◌, ◌<◌};
ghost use Rattle.tcp_target.specs.Associations.{controllers_with, ended, is_live, left, no_associations, readied, role_at};

use crate::role::{MOST_CONNECTIONS, Role, without_controller, without_queues};
use crate::table::{Association, PLACES, is_ready, put, with_id};

/// Which controllers there are, and what each connection is for. Connections go by their numbers, controllers by their identifiers.
#[derive(Clone, Copy)]
pub struct Associations {
    /// The controllers, by their identifiers.
    pub(crate) controllers: [Option<Association>; PLACES],
    /// What the connections are for, by their numbers.
    pub(crate) roles: [Role; MOST_CONNECTIONS],
}

impl Associations {
    /// None.
    pub fn new() -> Associations
        ensures { result ≡ no_associations }
    {
        Associations {
            controllers: [None; PLACES],
            roles: [Role::Unconnected; MOST_CONNECTIONS],
        }
    }

    /// What the connection with this number is for.
    pub fn role(&self, number: usize) -> Role
        ensures { result ≡ role_at number self.now }
    {
        match self.roles.get(number) {
            Some(role) => *role,
            None => Role::Unconnected,
        }
    }

    /// Has the connection an I/O queue of a controller that is ready?
    pub fn is_live(&self, number: usize) -> bool
        ensures { result ≡ is_live number self.now }
    {
        match self.role(number) {
            Role::Io {
                controller,
                queue: _,
            } => is_ready(&self.controllers, controller),
            Role::Unconnected | Role::Admin { .. } | Role::Ended => false,
        }
    }

    /// Says whether a controller is ready. Where it isn't, its I/O queues end.
    pub fn set_ready(&mut self, id: u16, is_ready: bool)
        ensures { self.new ≡ readied id is_ready self.old }
    {
        self.set_status(id, is_ready);
        if !is_ready {
            self.roles = without_queues(&self.roles, id);
        }
    }

    /// Says whether a controller is ready.
    fn set_status(&mut self, id: u16, is_ready: bool)
        ensures { self.new ≡ record self.old { controllers = controllers_with id is_ready self.old.controllers } }
    {
        if let Some(association) = with_id(&self.controllers, id) {
            let changed = Association {
                host: association.host,
                is_ready,
            };
            put(&mut self.controllers, id, Some(changed));
        }
    }

    /// Ends a controller, and its queues with it.
    pub fn end(&mut self, id: u16)
        ensures { self.new ≡ ended id self.old }
    {
        put(&mut self.controllers, id, None);
        self.roles = without_controller(&self.roles, id);
    }

    /// Forgets what a connection was for, once that has ended. A controller ends with its admin queue's connection, and not with an
    /// I/O queue's.
    pub fn leave(&mut self, number: usize)
        requires { number < MOST_CONNECTIONS }
        ensures { self.new ≡ left number self.old }
    {
        if let Role::Admin { controller } = self.role(number) {
            self.end(controller);
        }
        self.roles[number] = Role::Unconnected;
    }
}
