//! The commands that are ready.

ghost use Rattle.std.specs.Prelude.{◌≡◌, ◌≤◌, ◌<◌, IsTrue, OnSome, is_some, length};
ghost use Rattle.std.specs.Option.{option_map};
ghost use Rattle.tcp_target.specs.Places.{ready_at};
ghost use Rattle.tcp_target.specs.QueueCommands.{answered, connect_answer_at, connected, given_to_device, handed_over_at, is_fabrics, is_for_device, kept_at};
ghost use Rattle.tcp_target.specs.Queues.{place_at};

use crate::connect_request::ConnectRequest;
use crate::connected::Connected;
use crate::queues::Queues;
use crate::role::MOST_CONNECTIONS;
use tcp_connection::Outcome;
use tcp_pdus::{ENTRY_BYTES, MOST_DATA};

/// The opcode of Fabrics commands (NVMe Base 2.0, 6.1).
const FABRICS_COMMAND: u8 = 0x7F;

/// Is it a Fabrics command?
pub(crate) fn is_fabrics(entry: &[u8; ENTRY_BYTES]) -> bool
    ensures { result ≡ is_fabrics entry.now }
{
    entry[0] == FABRICS_COMMAND
}

impl Queues {
    /// Does the device execute a command that is ready on a connection: is that a live I/O queue's, and the command no Fabrics command?
    pub fn is_for_device(&self, number: usize, entry: &[u8; ENTRY_BYTES]) -> bool
        ensures { result ≡ is_for_device number entry.now self.now }
    {
        self.associations.is_live(number) && !is_fabrics(entry)
    }

    /// The entry that goes to the device next. [`Place::ready_data`] is its data.
    pub fn given_to_device(&self, number: usize) -> Option<[u8; ENTRY_BYTES]>
        requires { number < MOST_CONNECTIONS }
        ensures entry { result ≡ option_map (λ execution. execution.entry) (given_to_device number self.now) }
        ensures ready { OnSome result (IsTrue (is_some (ready_at (place_at number self.now)))) }
    {
        match self.places[number].ready() {
            Some(entry) if self.is_for_device(number, &entry) => Some(entry),
            Some(_) | None => None,
        }
    }

    /// Lets it go to the device.
    pub fn hand_over(&mut self, number: usize)
        requires number { number < MOST_CONNECTIONS }
        requires ready { IsTrue (is_some (ready_at (place_at number self.old))) }
        ensures { self.new ≡ handed_over_at number self.old }
    {
        self.places[number].hand_over();
    }

    /// Lets a command go that has no completion yet, and that the device doesn't have.
    pub fn keep(&mut self, number: usize)
        requires number { number < MOST_CONNECTIONS }
        requires ready { IsTrue (is_some (ready_at (place_at number self.old))) }
        ensures { self.new ≡ kept_at number self.old }
    {
        self.places[number].keep();
    }

    /// Completes a command that the target has executed, with its data, where there is some.
    pub fn answer(&mut self, number: usize, command: u16, outcome: Outcome, bytes: &[u8])
        requires number { number < MOST_CONNECTIONS }
        requires ready { IsTrue (is_some (ready_at (place_at number self.old))) }
        requires most { length bytes.now ≤ MOST_DATA }
        ensures { self.new ≡ answered number command outcome bytes.now self.old }
    {
        self.places[number].answer(command, outcome, bytes);
    }

    /// Takes the Connect that is ready, where the target has this NQN, and completes it.
    ///
    /// # Errors
    ///
    /// What has completed the command, where a check has failed; the queues and controllers are as they were then.
    pub fn connect(
        &mut self,
        number: usize,
        command: u16,
        request: ConnectRequest,
        subsystem_nqn: &[u8],
    ) -> Result<Connected, Outcome>
        requires number { number < MOST_CONNECTIONS }
        requires ready { IsTrue (is_some (ready_at (place_at number self.old))) }
        ensures answer { result ≡ connect_answer_at number request subsystem_nqn.now self.old }
        ensures state { self.new ≡ connected number command request subsystem_nqn.now self.old }
    {
        let place = &mut self.places[number];
        let bytes = place.ready_data();
        match self
            .associations
            .connect(number, request, bytes, subsystem_nqn)
        {
            Ok(connected) => {
                let outcome = connected.outcome();
                place.connect(connected.queue, connected.in_capsule, command, outcome);
                Ok(connected)
            }
            Err(outcome) => {
                place.answer(command, outcome, &[]);
                Err(outcome)
            }
        }
    }
}
