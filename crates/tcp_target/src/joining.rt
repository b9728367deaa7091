//! What a Connect makes of associations.

ghost use Rattle.std.specs.Prelude.{◌≡◌, ◌<◌, IfOk, length};
ghost use Rattle.tcp_target.specs.Connected.{IsAllowed};
ghost use Rattle.tcp_target.specs.ConnectData.{connect_data_in};
ghost use Rattle.tcp_target.specs.Associations.{answer_of, controller_in, controllers_for, entered, joined, named_for};

use crate::associations::Associations;
use crate::connect_checks::answer_connect;
use crate::connect_data::{CONNECT_DATA_BYTES, ConnectData, Host};
use crate::connect_request::ConnectRequest;
use crate::connected::{Connected, Controllers, NamedController};
use crate::role::{MOST_CONNECTIONS, Role};
use crate::table::{Association, free_id, named, put};
use byteorder::{ByteOrder, LittleEndian};
use tcp_connection::Outcome;

impl Associations {
    /// Takes a Connect with its data, which came on the connection with this number, where the target has this NQN.
    ///
    /// # Errors
    ///
    /// What completes the command, where a check fails; nothing has changed then.
    pub fn connect(
        &mut self,
        number: usize,
        request: ConnectRequest,
        bytes: &[u8],
        subsystem_nqn: &[u8],
    ) -> Result<Connected, Outcome>
        requires { number < MOST_CONNECTIONS }
        ensures answer { result ≡ answer_of request bytes.now subsystem_nqn.now self.old }
        ensures state { self.new ≡ joined number bytes.now result self.old }
        ensures allowed { IfOk result (λ connected. IsAllowed connected) }
    {
        let controllers = self.controllers_for(bytes, request.queue);
        match answer_connect(request, bytes, subsystem_nqn, controllers) {
            Ok(connected) => {
                self.enter(number, connected, ConnectData::read(bytes).host);
                Ok(connected)
            }
            Err(outcome) => Err(outcome),
        }
    }

    /// The controllers that a Connect with this data and this QID meets.
    fn controllers_for(&self, bytes: &[u8], queue: u16) -> Controllers
        ensures { result ≡ controllers_for bytes.now queue self.now }
    {
        Controllers {
            named: self.named_for(controller_in(bytes), queue),
            free: free_id(&self.controllers),
        }
    }

    /// The controller that it names.
    fn named_for(&self, id: Option<u16>, queue: u16) -> Option<NamedController>
        ensures { result ≡ named_for id queue self.now }
    {
        match id {
            Some(id) => named(&self.controllers, &self.roles, id, queue),
            None => None,
        }
    }

    /// Gives the connection its queue, and makes the controller of an admin queue.
    fn enter(&mut self, number: usize, connected: Connected, host: Host)
        requires { number < MOST_CONNECTIONS }
        ensures { self.new ≡ entered number connected host self.old }
    {
        if connected.queue.id == 0 {
            let association = Association {
                host,
                is_ready: false,
            };
            put(
                &mut self.controllers,
                connected.controller,
                Some(association),
            );
        }
        self.roles[number] = Role::of(connected);
    }
}

/// CNTLID of the data of a Connect, which wants all of it.
fn controller_in(bytes: &[u8]) -> Option<u16>
    ensures { result ≡ controller_in bytes.now }
{
    if bytes.len() == CONNECT_DATA_BYTES {
        Some(LittleEndian::read_u16(&bytes[16..]))
    } else {
        None
    }
}
