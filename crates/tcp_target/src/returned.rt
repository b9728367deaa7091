//! What the device gives for commands that it has executed.

ghost use Rattle.std.specs.Prelude.{◌≡◌, ◌≤◌, ◌<◌, IsTrue, length};
ghost use Rattle.tcp_target.specs.Places.{has_room};
ghost use Rattle.tcp_target.specs.QueueCommands.{executed_at, fits, is_success, result_of, run_ended_at};
ghost use Rattle.tcp_target.specs.Queues.{place_at};

use crate::connect_checks::DATA_SGL_LENGTH_INVALID;
use crate::outcomes::refusal;
use crate::queues::Queues;
use crate::role::MOST_CONNECTIONS;
use tcp_connection::Outcome;
use tcp_pdus::{Direction, ENTRY_BYTES, MOST_DATA, SglDescriptor, identifier};
use zone_state::{Status, StatusType};

/// Is it success?
fn is_success(status: Status) -> bool
    ensures { result ≡ is_success status }
{
    match status.kind {
        StatusType::Generic => status.code == 0,
        StatusType::CommandSpecific | StatusType::VendorSpecific => false,
    }
}

/// Is so much data what was asked for?
fn fits(entry: &[u8; ENTRY_BYTES], given: usize) -> bool
    ensures { result ≡ fits entry.now given }
{
    match Direction::of(entry) {
        Direction::ToHost => SglDescriptor::read(entry).length as usize == given,
        Direction::Neither | Direction::FromHost => given == 0,
    }
}

/// How a command ends that the device has executed, with its data.
fn result_of<'a>(
    entry: &[u8; ENTRY_BYTES],
    outcome: Outcome,
    bytes: &'a [u8],
) -> (Outcome, &'a [u8])
    ensures outcome { result.0 ≡ (result_of entry.now outcome bytes.now).0 }
    ensures bytes { result.1.now ≡ (result_of entry.now outcome bytes.now).1 }
{
    if is_success(outcome.status) && !fits(entry, bytes.len()) {
        (refusal(DATA_SGL_LENGTH_INVALID), &[])
    } else {
        (outcome, bytes)
    }
}

impl Queues {
    /// Takes what the device gave at once for an entry that was handed over, and completes the command, unless its connection was
    /// closed. Data that wasn't asked for is refused (Data SGL Length Invalid).
    pub fn execute(
        &mut self,
        number: usize,
        entry: &[u8; ENTRY_BYTES],
        outcome: Outcome,
        bytes: &[u8],
    )
        requires number { number < MOST_CONNECTIONS }
        requires most { length bytes.now ≤ MOST_DATA }
        requires room { IsTrue (has_room (length bytes.now) (place_at number self.old)) }
        ensures { self.new ≡ executed_at number entry.now outcome bytes.now self.old }
    {
        let (outcome, bytes) = result_of(entry, outcome, bytes);
        self.places[number].execute(identifier(entry), outcome, bytes);
    }

    /// Completes a Run that the device has ended, unless its connection was closed.
    pub fn end_run(&mut self, number: usize, command: u16, outcome: Outcome)
        requires number { number < MOST_CONNECTIONS }
        requires room { IsTrue (has_room 0 (place_at number self.old)) }
        ensures { self.new ≡ run_ended_at number command outcome self.old }
    {
        self.places[number].execute(command, outcome, &[]);
    }
}
