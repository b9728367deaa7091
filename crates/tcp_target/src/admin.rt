//! Commands on queues.

ghost use Rattle.std.specs.Prelude.{◌≡◌, ◌≤◌, ◌<◌, [], IsTrue, is_some, length, vec_capacity};
ghost use Rattle.tcp_admin.specs.Admin.{response};
ghost use Rattle.tcp_target.specs.Places.{ready_at};
ghost use Rattle.tcp_target.specs.Queues.{place_at};
ghost use Rattle.tcp_target.specs.Commands.{answered_with, completed_by, refused_with, served, served_admin, served_as, served_command, served_fabrics, served_get, served_io, served_set, with_set};

use crate::outcomes::{COMMAND_SEQUENCE_ERROR, refusal, set_outcome, value_outcome};
use crate::queue_commands::is_fabrics;
use crate::queues::Queues;
use crate::role::{MOST_CONNECTIONS, Role};
use crate::target::Target;
use tcp_admin::{Answer, Controller, MOST_ADMIN_DATA, NamespaceFormat, Subsystem};
use tcp_connection::Outcome;
use tcp_pdus::{ENTRY_BYTES, identifier};
use zone_state::Status;

impl Target {
    /// Executes the command that is ready on a connection, unless it is one for the device: a Connect, a Fabrics command, or an admin
    /// command.
    pub fn serve(&mut self, number: usize)
        requires { number < MOST_CONNECTIONS }
        ensures { self.new ≡ served number self.old }
    {
        if let Some(entry) = self.connection(number).ready() {
            let role = self.queues.role(number);
            self.serve_as(role, number, &entry);
        }
    }

    /// Executes it, by what the connection is for.
    fn serve_as(&mut self, role: Role, number: usize, entry: &[u8; ENTRY_BYTES])
        requires number { number < MOST_CONNECTIONS }
        requires ready { IsTrue (is_some (ready_at (place_at number self.old.queues))) }
        ensures { self.new ≡ served_as role number entry.now self.old }
    {
        match role {
            Role::Unconnected => self.serve_unconnected(number, entry),
            Role::Admin { controller } => self.serve_admin(number, controller, entry),
            Role::Io { .. } => self.serve_io(number, entry),
            Role::Ended => {}
        }
    }

    /// Executes a command on an I/O queue, unless it is one for the device: refuses it.
    fn serve_io(&mut self, number: usize, entry: &[u8; ENTRY_BYTES])
        requires number { number < MOST_CONNECTIONS }
        requires ready { IsTrue (is_some (ready_at (place_at number self.old.queues))) }
        ensures { self.new ≡ served_io number entry.now self.old }
    {
        if is_fabrics(entry) {
            self.refuse(number, entry, Status::INVALID_COMMAND_OPCODE);
        } else if !self.queues.is_for_device(number, entry) {
            self.refuse(number, entry, COMMAND_SEQUENCE_ERROR);
        }
    }

    /// Executes a command on an admin queue.
    fn serve_admin(&mut self, number: usize, id: u16, entry: &[u8; ENTRY_BYTES])
        requires number { number < MOST_CONNECTIONS }
        requires ready { IsTrue (is_some (ready_at (place_at number self.old.queues))) }
        ensures { self.new ≡ served_admin number id entry.now self.old }
    {
        if is_fabrics(entry) {
            self.serve_fabrics(number, id, entry);
        } else {
            self.serve_command(number, id, entry);
        }
    }

    /// Executes a Fabrics command on an admin queue.
    fn serve_fabrics(&mut self, number: usize, id: u16, entry: &[u8; ENTRY_BYTES])
        requires number { number < MOST_CONNECTIONS }
        requires ready { IsTrue (is_some (ready_at (place_at number self.old.queues))) }
        ensures { self.new ≡ served_fabrics number id entry.now self.old }
    {
        match entry[4] {
            0x00 => self.serve_set(number, id, entry),
            0x04 => self.serve_get(number, id, entry),
            0x01 => self.refuse(number, entry, COMMAND_SEQUENCE_ERROR),
            _ => self.refuse(number, entry, Status::INVALID_COMMAND_OPCODE),
        }
    }

    /// Executes a Property Set.
    fn serve_set(&mut self, number: usize, id: u16, entry: &[u8; ENTRY_BYTES])
        requires number { number < MOST_CONNECTIONS }
        requires ready { IsTrue (is_some (ready_at (place_at number self.old.queues))) }
        ensures { self.new ≡ served_set number id entry.now self.old }
    {
        let mut controller = self.controller(id);
        let done = controller.property_set(entry);
        self.set(id, controller);
        self.answer(number, entry, set_outcome(done));
    }

    /// Keeps a controller whose properties were set, and ends its I/O queues where it isn't ready.
    fn set(&mut self, id: u16, controller: Controller)
        ensures { self.new ≡ with_set id controller self.old }
    {
        self.queues.set_ready(id, controller.is_ready());
        self.set_controller(id, controller);
    }

    /// Executes a Property Get.
    fn serve_get(&mut self, number: usize, id: u16, entry: &[u8; ENTRY_BYTES])
        requires number { number < MOST_CONNECTIONS }
        requires ready { IsTrue (is_some (ready_at (place_at number self.old.queues))) }
        ensures { self.new ≡ served_get number id entry.now self.old }
    {
        let value = self.controller(id).property_get(entry);
        self.answer(number, entry, value_outcome(value));
    }

    /// Completes a command without data.
    fn answer(&mut self, number: usize, entry: &[u8; ENTRY_BYTES], outcome: Outcome)
        requires number { number < MOST_CONNECTIONS }
        requires ready { IsTrue (is_some (ready_at (place_at number self.old.queues))) }
        ensures { self.new ≡ answered_with number entry.now outcome [] self.old }
    {
        self.queues.answer(number, identifier(entry), outcome, &[]);
    }

    /// Refuses a command.
    pub(crate) fn refuse(&mut self, number: usize, entry: &[u8; ENTRY_BYTES], status: Status)
        requires number { number < MOST_CONNECTIONS }
        requires ready { IsTrue (is_some (ready_at (place_at number self.old.queues))) }
        ensures { self.new ≡ refused_with number entry.now status self.old }
    {
        self.answer(number, entry, refusal(status));
    }

    /// Executes an admin command.
    fn serve_command(&mut self, number: usize, id: u16, entry: &[u8; ENTRY_BYTES])
        requires number { number < MOST_CONNECTIONS }
        requires ready { IsTrue (is_some (ready_at (place_at number self.old.queues))) }
        ensures { self.new ≡ served_command number id entry.now self.old }
    {
        let mut controller = self.controller(id);
        let answer = execute(
            &mut controller,
            entry,
            &self.subsystem,
            &self.format,
            &mut self.page,
        );
        complete(
            &mut self.queues,
            number,
            entry,
            answer,
            self.page.as_slice(),
        );
        self.set_controller(id, controller);
        self.hear(id);
    }
}

/// Executes an admin command, and gives its data in place of what was on the page.
fn execute(
    controller: &mut Controller,
    entry: &[u8; ENTRY_BYTES],
    subsystem: &Subsystem,
    format: &NamespaceFormat,
    page: &mut Vec<u8>,
) -> Answer
    requires { MOST_ADMIN_DATA ≤ vec_capacity page.old }
    ensures state { controller.new ≡ (response entry.now subsystem.now format.now controller.old).controller }
    ensures answer { result ≡ (response entry.now subsystem.now format.now controller.old).answer }
    ensures given { page.new.items ≡ (response entry.now subsystem.now format.now controller.old).«data» }
    ensures few { length page.new.items ≤ MOST_ADMIN_DATA }
    ensures room { vec_capacity page.old ≤ vec_capacity page.new }
{
    page.clear();
    controller.admin(entry, subsystem, format, page)
}

/// Completes an admin command with its data, or keeps it.
fn complete(
    queues: &mut Queues,
    number: usize,
    entry: &[u8; ENTRY_BYTES],
    answer: Answer,
    bytes: &[u8],
)
    requires number { number < MOST_CONNECTIONS }
    requires ready { IsTrue (is_some (ready_at (place_at number queues.old))) }
    requires few { length bytes.now ≤ MOST_ADMIN_DATA }
    ensures { queues.new ≡ completed_by answer number entry.now bytes.now queues.old }
{
    match answer {
        Answer::Completed { outcome } => queues.answer(number, identifier(entry), outcome, bytes),
        Answer::Kept => queues.keep(number),
    }
}
