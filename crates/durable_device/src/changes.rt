//! Which events may have changed a device.

ghost use Rattle.std.specs.Prelude.{◌≡◌, ◌<◌, ◌^◌};
ghost use Rattle.nvme_entry.specs.Entry.{decoded};
ghost use Rattle.zns_commands.specs.Meaning.{change_of};
ghost use Rattle.durable_device.specs.FrameEvents.{told_by};
ghost use Rattle.durable_device.specs.Changing.{HasIdentifier, asks_change, is_change, is_idle, is_refusal, is_want_of_memory, may_change};

use crate::frame_event::FrameEvent;
use device_events::Reply;
use nvme_entry::{Command, Entry, StandardCommand};

/// Whether an event with this reply may have changed the device. A refused one hasn't, whatever it was refused for, nor has one
/// that only reads.
pub(crate) fn may_change(event: &FrameEvent<'_>, reply: &Reply) -> bool
    ensures told { result ≡ may_change (told_by event.now) reply.now }
    ensures identifier { HasIdentifier (told_by event.now) }
{
    match event {
        FrameEvent::Submit { entry, .. } => {
            let _identifier = Entry::cid(entry);
            asks_change(entry) && !is_refusal(reply)
        }
        FrameEvent::Turn { .. } => !is_idle(reply),
        FrameEvent::Fault { .. } => matches!(reply, Reply::FaultTaken),
    }
}

/// Whether an entry asks for what may change a device.
pub fn asks_change(entry: &[u8; 64]) -> bool
    ensures { result ≡ asks_change (decoded entry.now) }
{
    match Entry::decode(entry) {
        Ok(Command::Standard(command)) => is_change(&command),
        Ok(Command::Load(_)) => true,
        Ok(Command::Run(_)) => true,
        Ok(Command::Result(_)) => false,
        Err(_) => false,
    }
}

/// Whether a standard's command may change a namespace.
fn is_change(command: &StandardCommand) -> bool
    ensures { result ≡ is_change (change_of command.now) }
{
    match command {
        StandardCommand::Write { .. } => true,
        StandardCommand::Append { .. } => true,
        StandardCommand::Send { .. } => true,
        StandardCommand::Read { .. } => false,
        StandardCommand::Receive { .. } => false,
    }
}

/// Whether a reply is a completion whose status isn't success.
pub fn is_refusal(reply: &Reply) -> bool
    ensures { result ≡ is_refusal reply.now }
{
    match reply {
        Reply::Complete { entry, .. } => !entry.is_success(),
        Reply::Pending { .. } => false,
        Reply::Idle => false,
        Reply::FaultTaken => false,
        Reply::FaultRefused => false,
    }
}

/// Whether it is the reply to the turn of a number that no run has.
pub fn is_idle(reply: &Reply) -> bool
    ensures { result ≡ is_idle reply.now }
{
    match reply {
        Reply::Idle => true,
        Reply::Complete { .. } | Reply::Pending { .. } => false,
        Reply::FaultTaken | Reply::FaultRefused => false,
    }
}

/// Whether a reply is a completion that says that memory was wanting.
pub(crate) fn is_want_of_memory(reply: &Reply) -> bool
    ensures { result ≡ is_want_of_memory reply.now }
{
    match reply {
        Reply::Complete { entry, .. } => entry.is_want_of_memory(),
        Reply::Pending { .. } => false,
        Reply::Idle => false,
        Reply::FaultTaken => false,
        Reply::FaultRefused => false,
    }
}
