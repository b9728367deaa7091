//! Admin commands.

ghost use Rattle.std.specs.Prelude.{◌≡◌, ◌≤◌, ◌+◌, vec_capacity, vec_len};
ghost use Rattle.tcp_admin.specs.Admin.{command_of, event_awaited, response, response_to};
ghost use Rattle.tcp_admin.specs.Answers.{Adds, data_of, given};
ghost use Rattle.tcp_admin.specs.Identify.{identified};
ghost use Rattle.tcp_admin.specs.Logs.{logged};

use crate::answer::Answer;
use crate::controller::Controller;
use crate::identify::identify;
use crate::logs::log_part;
use crate::pages::append;
use crate::status::ASYNCHRONOUS_EVENT_REQUEST_LIMIT_EXCEEDED;
use crate::subsystem::{NamespaceFormat, Subsystem};
use tcp_pdus::ENTRY_BYTES;
use zone_state::Status;

/// The most bytes of data that an admin command gives.
pub const MOST_ADMIN_DATA: usize = 4096;

/// AERL and one: how many Asynchronous Event Requests are kept.
const MOST_EVENT_REQUESTS: u8 = 4;

/// The admin commands that are supported (NVMe Base 2.0, 5).
#[derive(Clone, Copy, Debug, PartialEq, Eq)]
pub(crate) enum AdminCommand {
    GetLogPage,
    Identify,
    Abort,
    SetFeatures,
    GetFeatures,
    AsynchronousEventRequest,
    KeepAlive,
}

impl AdminCommand {
    /// The command with an opcode, if there is one.
    fn of(opcode: u8) -> Option<AdminCommand>
        ensures { result ≡ command_of opcode }
    {
        match opcode {
            0x02 => Some(AdminCommand::GetLogPage),
            0x06 => Some(AdminCommand::Identify),
            0x08 => Some(AdminCommand::Abort),
            0x09 => Some(AdminCommand::SetFeatures),
            0x0A => Some(AdminCommand::GetFeatures),
            0x0C => Some(AdminCommand::AsynchronousEventRequest),
            0x18 => Some(AdminCommand::KeepAlive),
            _ => None,
        }
    }
}

impl Controller {
    /// Executes an admin command, whatever its opcode, but for Fabrics commands, and adds the data that it gives. A command that
    /// isn't supported ends with Invalid Command Opcode. Asynchronous Event Requests are kept, up to four, and never completed, since
    /// no event is told; Abort aborts nothing, and says so.
    pub fn admin(
        &mut self,
        entry: &[u8; ENTRY_BYTES],
        subsystem: &Subsystem,
        format: &NamespaceFormat,
        out: &mut Vec<u8>,
    ) -> Answer
        requires { vec_len out.old + MOST_ADMIN_DATA ≤ vec_capacity out.old }
        ensures state { self.new ≡ (response entry.now subsystem.now format.now self.old).controller }
        ensures answer { result ≡ (response entry.now subsystem.now format.now self.old).answer }
        ensures added { Adds out.old out.new (response entry.now subsystem.now format.now self.old).«data» }
        ensures most { vec_len out.new ≤ vec_len out.old + MOST_ADMIN_DATA }
    {
        match AdminCommand::of(entry[0]) {
            Some(command) => self.execute(command, entry, subsystem, format, out),
            None => Answer::refused(Status::INVALID_COMMAND_OPCODE),
        }
    }

    /// Executes a command that is supported.
    fn execute(
        &mut self,
        command: AdminCommand,
        entry: &[u8; ENTRY_BYTES],
        subsystem: &Subsystem,
        format: &NamespaceFormat,
        out: &mut Vec<u8>,
    ) -> Answer
        requires { vec_len out.old + MOST_ADMIN_DATA ≤ vec_capacity out.old }
        ensures state { self.new ≡ (response_to command entry.now subsystem.now format.now self.old).controller }
        ensures answer { result ≡ (response_to command entry.now subsystem.now format.now self.old).answer }
        ensures added { Adds out.old out.new (response_to command entry.now subsystem.now format.now self.old).«data» }
        ensures most { vec_len out.new ≤ vec_len out.old + MOST_ADMIN_DATA }
    {
        match command {
            AdminCommand::GetLogPage => give_log(entry, subsystem, out),
            AdminCommand::Identify => give_identity(entry, self.id, subsystem, format, out),
            AdminCommand::Abort => Answer::succeeded(1),
            AdminCommand::SetFeatures => Answer::told(self.set_features(entry)),
            AdminCommand::GetFeatures => Answer::told(self.get_features(entry)),
            AdminCommand::AsynchronousEventRequest => self.await_event(),
            AdminCommand::KeepAlive => Answer::succeeded(0),
        }
    }

    /// Keeps an Asynchronous Event Request, unless four are kept.
    fn await_event(&mut self) -> Answer
        ensures state { self.new ≡ (event_awaited self.old).controller }
        ensures answer { result ≡ (event_awaited self.old).answer }
    {
        if self.event_requests < MOST_EVENT_REQUESTS {
            self.event_requests += 1;
            Answer::Kept
        } else {
            Answer::refused(ASYNCHRONOUS_EVENT_REQUEST_LIMIT_EXCEEDED)
        }
    }
}

/// Executes a Get Log Page.
fn give_log(entry: &[u8; ENTRY_BYTES], subsystem: &Subsystem, out: &mut Vec<u8>) -> Answer
    requires { vec_len out.old + MOST_ADMIN_DATA ≤ vec_capacity out.old }
    ensures answer { result ≡ given (logged entry.now subsystem.now) }
    ensures added { Adds out.old out.new (data_of (logged entry.now subsystem.now)) }
    ensures most { vec_len out.new ≤ vec_len out.old + MOST_ADMIN_DATA }
{
    match log_part(entry) {
        Ok(part) => {
            part.append(subsystem, out);
            Answer::succeeded(0)
        }
        Err(status) => Answer::refused(status),
    }
}

/// Executes an Identify.
fn give_identity(
    entry: &[u8; ENTRY_BYTES],
    id: u16,
    subsystem: &Subsystem,
    format: &NamespaceFormat,
    out: &mut Vec<u8>,
) -> Answer
    requires { vec_len out.old + MOST_ADMIN_DATA ≤ vec_capacity out.old }
    ensures answer { result ≡ given (identified entry.now id subsystem.now format.now) }
    ensures added { Adds out.old out.new (data_of (identified entry.now id subsystem.now format.now)) }
    ensures most { vec_len out.new ≤ vec_len out.old + MOST_ADMIN_DATA }
{
    match identify(entry, id, subsystem, format) {
        Ok(page) => {
            append(out, &page);
            Answer::succeeded(0)
        }
        Err(status) => Answer::refused(status),
    }
}
