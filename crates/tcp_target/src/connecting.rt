//! Commands before Connect, and Connect.

ghost use Rattle.std.specs.Prelude.{◌≡◌, ◌<◌, IsTrue, is_some};
ghost use Rattle.tcp_target.specs.ConnectRequest.{request_in};
ghost use Rattle.tcp_target.specs.Places.{ready_at};
ghost use Rattle.tcp_target.specs.Queues.{place_at};
ghost use Rattle.tcp_target.specs.Commands.{connected_with, is_connect, served_unconnected, with_made};

use crate::connect_request::ConnectRequest;
use crate::connected::Connected;
use crate::outcomes::COMMAND_SEQUENCE_ERROR;
use crate::queue_commands::is_fabrics;
use crate::role::MOST_CONNECTIONS;
use crate::target::Target;
use tcp_admin::Controller;
use tcp_connection::Outcome;
use tcp_pdus::{ENTRY_BYTES, identifier};

/// Is it a Connect?
fn is_connect(entry: &[u8; ENTRY_BYTES]) -> bool
    ensures { result ≡ is_connect entry.now }
{
    is_fabrics(entry) && entry[4] == 0x01
}

impl Target {
    /// Executes the command that is ready on a connection without a queue: a Connect.
    pub(crate) fn serve_unconnected(&mut self, number: usize, entry: &[u8; ENTRY_BYTES])
        requires number { number < MOST_CONNECTIONS }
        requires ready { IsTrue (is_some (ready_at (place_at number self.old.queues))) }
        ensures { self.new ≡ served_unconnected number entry.now self.old }
    {
        if is_connect(entry) {
            self.connect(number, entry);
        } else {
            self.refuse(number, entry, COMMAND_SEQUENCE_ERROR);
        }
    }

    /// Executes a Connect.
    fn connect(&mut self, number: usize, entry: &[u8; ENTRY_BYTES])
        requires number { number < MOST_CONNECTIONS }
        requires ready { IsTrue (is_some (ready_at (place_at number self.old.queues))) }
        ensures { self.new ≡ connected_with number entry.now (request_in entry.now) self.old }
    {
        let request = ConnectRequest::read(entry);
        self.connect_as(number, entry, request);
    }

    /// Executes a Connect that asks for this.
    fn connect_as(&mut self, number: usize, entry: &[u8; ENTRY_BYTES], request: ConnectRequest)
        requires number { number < MOST_CONNECTIONS }
        requires ready { IsTrue (is_some (ready_at (place_at number self.old.queues))) }
        ensures { self.new ≡ connected_with number entry.now request self.old }
    {
        let nqn = self.subsystem.nqn.as_bytes();
        let answer = self.queues.connect(number, identifier(entry), request, nqn);
        self.make(request, answer);
    }

    /// Makes the controller of an admin queue that is connected; of an I/O queue the controller's host was heard.
    fn make(&mut self, request: ConnectRequest, answer: Result<Connected, Outcome>)
        ensures { self.new ≡ with_made request answer self.old }
    {
        if let Ok(connected) = answer {
            let id = connected.controller;
            if connected.queue.id == 0 {
                self.set_controller(id, Controller::new(id, request.keep_alive_timeout));
                self.hear(id);
            } else {
                self.hear_on_io(id);
            }
        }
    }
}
