//! Commands that are ready on connections.

ghost use Rattle.std.specs.Prelude.{◌≡◌, ◌≤◌, ◌<◌, IfSome, IsTrue, Some, is_some, length};
ghost use Rattle.std.specs.Option.{option_map};
ghost use Rattle.tcp_pdus.specs.declared.sent.TheConstants.{MOST_DATA};
ghost use Rattle.tcp_target.specs.Places.{has_room, ready_at};
ghost use Rattle.tcp_target.specs.QueueCommands.{connect_data_at, given_to_device};
ghost use Rattle.tcp_target.specs.Queues.{place_at};
ghost use Rattle.tcp_target.specs.Ready.{is_ready};
ghost use Rattle.tcp_device.specs.Deeds.{Does, DoesWith, Served};
ghost use Rattle.tcp_device.specs.Served.{completed_by, kept_by};
ghost use Rattle.tcp_device.specs.steps.Handing.{Hands};

use crate::outcome::outcome_in;
use crate::pending::{PendingCommand, put_pending};
use crate::served::ServedTarget;
use runner::{Device, Reply};
use tcp_pdus::{ENTRY_BYTES, MOST_DATA, identifier};
use tcp_target::{MOST_CONNECTIONS, Target, given_are_live};

impl ServedTarget {
    /// Does the command that is ready on a connection, and says whether there is one: the target executes it, or it goes to the
    /// device, with just its data, on the queue that has the connection's number. What the device completes at once is completed; a
    /// Run is completed by the last of its turns.
    pub fn serve(&mut self, number: usize) -> bool
        requires { number < MOST_CONNECTIONS }
        ensures ready { result ≡ is_ready number self.old.target }
        ensures done { Does (Served number) self.old self.new }
    {
        if !self.target.connection(number).is_open() {
            return false;
        }
        self.serve_open(number)
    }

    /// As [`ServedTarget::serve`], where a host has the connection: each round asks for all numbers, and most have none.
    fn serve_open(&mut self, number: usize) -> bool
        requires { number < MOST_CONNECTIONS }
        ensures ready { result ≡ is_ready number self.old.target }
        ensures done { Does (Served number) self.old self.new }
    {
        let is_ready = self.target.is_ready(number);
        match self.target.given_to_device(number) {
            Some(entry) => {
                self.submit(number, &entry);
            }
            None => self.target.serve(number),
        }
        is_ready
    }

    /// All data of the command that goes to the device next, where there is one.
    pub fn given_data(&self, number: usize) -> &[u8]
        requires { number < MOST_CONNECTIONS }
        ensures { IfSome (given_to_device number self.now.target.queues) (λ execution. result.now ≡ execution.data) }
    {
        given_are_live();
        self.target.given_data(number)
    }

    /// Submits the entry that goes to the device next, which is to be told, and gives the device's reply: as [`ServedTarget::serve`].
    pub fn submit(&mut self, number: usize, entry: &[u8; ENTRY_BYTES]) -> Reply
        requires number { number < MOST_CONNECTIONS }
        requires given { option_map (λ execution. execution.entry) (given_to_device number self.old.target.queues) ≡ Some entry.now }
        ensures { DoesWith (Served number) self.old self.new result }
    {
        given_are_live();
        let output = self.output.as_mut_slice();
        let reply = hand(&mut self.device, &mut self.target, number, entry, output);
        keep(&mut self.pending, number, entry, &reply);
        reply
    }
}

/// Hands an entry to the device, and completes the command if the device executes it at once. The data of a Read is sent from
/// where it lies in the image, if all its blocks are written.
fn hand(
    device: &mut Device,
    target: &mut Target,
    number: usize,
    entry: &[u8; ENTRY_BYTES],
    output: &mut [u8],
) -> Reply
    requires number { number < MOST_CONNECTIONS }
    requires ready { IsTrue (is_some (ready_at (place_at number target.old.queues))) }
    requires output { length output.old ≡ MOST_DATA }
    ensures { Hands entry.now (connect_data_at number target.old.queues) number device.old device.new target.old target.new result }
{
    let input = target.given_data(number);
    if let Some(stored) = device.read(number as u16, entry, input) {
        target.hand_over(number);
        complete(target, number, entry, stored.reply, stored.bytes);
        return stored.reply;
    }
    let reply = device.submit(number as u16, entry, input, output);
    target.hand_over(number);
    let bytes = &output[..reply.data_length()];
    complete(target, number, entry, reply, bytes);
    reply
}

/// Completes a command that the device has executed at once.
fn complete(
    target: &mut Target,
    number: usize,
    entry: &[u8; ENTRY_BYTES],
    reply: Reply,
    bytes: &[u8],
)
    requires number { number < MOST_CONNECTIONS }
    requires most { length bytes.now ≤ MOST_DATA }
    requires room { IsTrue (has_room MOST_DATA (place_at number target.old.queues)) }
    ensures { target.new ≡ completed_by reply bytes.now number entry.now target.old }
{
    match reply {
        Reply::Complete {
            entry: completion,
            ..
        } => target.execute(number, entry, outcome_in(&completion), bytes),
        Reply::Pending { .. } | Reply::Idle | Reply::FaultTaken | Reply::FaultRefused => {}
    }
}

/// Keeps a command that a run completes later.
fn keep(
    pending: &mut [Option<PendingCommand>],
    number: usize,
    entry: &[u8; ENTRY_BYTES],
    reply: &Reply,
)
    requires { number < MOST_CONNECTIONS }
    ensures { pending.new ≡ kept_by reply.now number entry.now pending.old }
{
    match reply {
        Reply::Pending { run } => {
            let command = PendingCommand::new(number, identifier(entry));
            put_pending(pending, usize::from(*run), Some(command));
        }
        Reply::Complete { .. } | Reply::Idle | Reply::FaultTaken | Reply::FaultRefused => {}
    }
}
