//! What happens to a target.

ghost use Rattle.std.specs.Prelude.{◌≡◌, ◌≤◌, ◌<◌, IfSome, IsTrue, OnSome, is_some, length};
ghost use Rattle.std.specs.Option.{option_map};
ghost use Rattle.tcp_target.specs.Places.{has_room, ready_at};
ghost use Rattle.tcp_target.specs.QueueCommands.{connect_data_at, given_to_device};
ghost use Rattle.tcp_target.specs.Queues.{free_number, place_at};
ghost use Rattle.tcp_target.specs.Events.{closed, count_of, executed, handed_over, heard_at, heard_on, opened, received, run_ended, sent, taken_by_host};

use crate::clocks::ConnectionClock;
use crate::place::Place;
use crate::role::{MOST_CONNECTIONS, Role};
use crate::target::Target;
use tcp_connection::Outcome;
use tcp_pdus::{ENTRY_BYTES, MOST_DATA};

impl Target {
    /// The number that [`Target::open`] gives next; `None` where there is none.
    pub fn free_number(&self) -> Option<usize>
        ensures number { result ≡ free_number self.now.queues }
        ensures within { IfSome result (λ number. number < MOST_CONNECTIONS) }
    {
        self.queues.free_number()
    }

    /// Begins a connection, and gives its number: the lowest that no connection has, and under which the device has no command of
    /// the one before. `None` where there is none.
    pub fn open(&mut self) -> Option<usize>
        ensures number { result ≡ free_number self.old.queues }
        ensures state { self.new ≡ opened self.old }
        ensures within { IfSome result (λ number. number < MOST_CONNECTIONS) }
    {
        let number = self.queues.open()?;
        self.set_connection_clock(number, ConnectionClock::new());
        Some(number)
    }

    /// Takes bytes that came on a connection, up to the end of a PDU, and gives how many they are: none while too much is to be sent,
    /// or a command is ready, which is served or handed over first.
    pub fn receive(&mut self, number: usize, piece: &[u8]) -> usize
        requires { number < MOST_CONNECTIONS }
        ensures state { self.new ≡ received number piece.now self.old }
        ensures count { result ≡ count_of number piece.now self.old }
        ensures within { result ≤ length piece.now }
    {
        let count = self.queues.receive(number, piece);
        self.hear_at(number, count);
        count
    }

    /// Something has come of a host, where bytes came on a queue of a controller.
    fn hear_at(&mut self, number: usize, count: usize)
        ensures { self.new ≡ heard_at number count self.old }
    {
        if count != 0 {
            let role = self.queues.role(number);
            self.hear_on(role);
        }
    }

    /// Something has come of a host, where this is such a queue.
    fn hear_on(&mut self, role: Role)
        ensures { self.new ≡ heard_on role self.old }
    {
        match role {
            Role::Admin { controller } => self.hear(controller),
            Role::Io {
                controller,
                queue: _,
            } => self.hear_on_io(controller),
            Role::Unconnected | Role::Ended => {}
        }
    }

    /// A connection: what is to be sent on it, whether it has ended, and whether there is room for a completion.
    pub fn connection(&self, number: usize) -> &Place
        requires { number < MOST_CONNECTIONS }
        ensures { result.now ≡ place_at number self.now.queues }
    {
        self.queues.place(number)
    }

    /// Forgets the first bytes of what is to be sent on a connection, which were sent.
    pub fn sent(&mut self, number: usize, count: usize)
        requires number { number < MOST_CONNECTIONS }
        requires count { count ≤ length (place_at number self.old.queues).unsent }
        ensures { self.new ≡ sent number count self.old }
    {
        self.queues.sent(number, count);
        self.take_at(number, count);
    }

    /// A host goes on to take what is to be sent, where bytes were taken.
    fn take_at(&mut self, number: usize, count: usize)
        requires { number < MOST_CONNECTIONS }
        ensures { self.new ≡ taken_by_host number count self.old }
    {
        if count != 0 {
            let clock = ConnectionClock {
                taken: None,
                ..self.connection_clock(number)
            };
            self.set_connection_clock(number, clock);
        }
    }

    /// Says that a connection is closed, by whomever. No other gets its number until the device has none of its commands.
    pub fn close(&mut self, number: usize)
        requires { number < MOST_CONNECTIONS }
        ensures { self.new ≡ closed number self.old }
    {
        self.queues.close(number);
    }

    /// The entry of the command of a connection that the device is to execute next, if there is one.
    pub fn given_to_device(&self, number: usize) -> Option<[u8; ENTRY_BYTES]>
        requires { number < MOST_CONNECTIONS }
        ensures entry { result ≡ option_map (λ execution. execution.entry) (given_to_device number self.now.queues) }
        ensures ready { OnSome result (IsTrue (is_some (ready_at (place_at number self.now.queues)))) }
    {
        self.queues.given_to_device(number)
    }

    /// All of its data.
    pub fn given_data(&self, number: usize) -> &[u8]
        requires { number < MOST_CONNECTIONS }
        ensures { result.now ≡ connect_data_at number self.now.queues }
    {
        self.connection(number).ready_data()
    }

    /// Lets it go to the device.
    pub fn hand_over(&mut self, number: usize)
        requires number { number < MOST_CONNECTIONS }
        requires ready { IsTrue (is_some (ready_at (place_at number self.old.queues))) }
        ensures { self.new ≡ handed_over number self.old }
    {
        self.queues.hand_over(number);
    }

    /// Takes what the device gave at once for an entry that was handed over, and completes the command, unless its connection was
    /// closed. Data that wasn't asked for is refused (Data SGL Length Invalid).
    pub fn execute(
        &mut self,
        number: usize,
        entry: &[u8; ENTRY_BYTES],
        outcome: Outcome,
        bytes: &[u8],
    )
        requires number { number < MOST_CONNECTIONS }
        requires most { length bytes.now ≤ MOST_DATA }
        requires room { IsTrue (has_room (length bytes.now) (place_at number self.old.queues)) }
        ensures { self.new ≡ executed number entry.now outcome bytes.now self.old }
    {
        self.queues.execute(number, entry, outcome, bytes);
    }

    /// Completes a Run that the device has ended, unless its connection was closed.
    pub fn end_run(&mut self, number: usize, command: u16, outcome: Outcome)
        requires number { number < MOST_CONNECTIONS }
        requires room { IsTrue (has_room 0 (place_at number self.old.queues)) }
        ensures { self.new ≡ run_ended number command outcome self.old }
    {
        self.queues.end_run(number, command, outcome);
    }
}
