//! Entries that hosts submit.

ghost use Rattle.std.specs.Prelude.{◌≡◌, ◌≤◌, ◌<◌, ◌^◌, drop, is_some, length, IfSome, Ok};
ghost use Rattle.common_definitions.specs.Bytes.{AreBytes};
ghost use Rattle.nvme_entry.specs.Entry.{decoded, identifier_of};
ghost use Rattle.nvme_entry.specs.declared.command.Command.TheVariants as commands;
ghost use Rattle.nvme_entry.specs.declared.command.StandardCommand.TheVariants.{Read};
ghost use Rattle.device_events.specs.Replies.{data_length, without_data};
ghost use Rattle.device_meaning.specs.Judging.{judge_by};
ghost use Rattle.zns_commands.specs.Read.{is_stored};
ghost use Rattle.runner.specs.Stored.{asks_for_stored};
ghost use Rattle.runner.specs.steps.Answered.{HasExecuted, HasSubmitted, complete_reply, with_data};

use crate::admission::start;
use crate::completion::complete;
use crate::device_state::DeviceState;
use crate::load::load;
use crate::results::give_result;
use device_events::Reply;
use nvme_entry::{BlockCount, Command, Entry, MOST_TRANSFER, RunCommand, StandardCommand};
use std::alloc::Global;
use word_domain::Domain;
use zns_commands::{Answer, read_stored};

/// An entry that a host submits to a queue, with the data that stands beside it.
#[derive(Clone, Copy)]
pub struct Submission<'a> {
    queue: u16,
    entry: &'a [u8; 64],
    input: &'a [u8],
}

impl<'a> Submission<'a> {
    /// An entry with the data beside it.
    pub fn new(queue: u16, entry: &'a [u8; 64], input: &'a [u8]) -> Submission<'a>
        ensures queue { result.queue ≡ queue }
        ensures entry { result.entry.now ≡ entry.now }
        ensures input { result.input.now ≡ input.now }
        ensures bytes { AreBytes input.now }
        ensures small { length input.now < 2 ^ 63 }
    {
        Submission {
            queue,
            entry,
            input,
        }
    }

    /// The reply to an entry that is answered at once, by its answer.
    fn reply_with(&self, answer: Answer) -> Reply
        ensures { result ≡ complete_reply self.now.queue (identifier_of self.now.entry.now) answer }
    {
        complete(self.queue, Entry::cid(self.entry), answer)
    }
}

/// Does the command of an entry. The data of the reply lies at the front of `output`.
pub fn submit<D: Domain>(
    alloc: Global,
    state: &mut DeviceState<D>,
    submission: &Submission<'_>,
    output: &mut [u8],
) -> Reply
    requires room { MOST_TRANSFER ≤ length output.old }
    ensures submitted { HasSubmitted (judge_by D.operations)
        submission.now (decoded submission.now.entry.now) state.old state.new (with_data result output.new) }
    ensures rest { drop (data_length result) output.new ≡ drop (data_length result) output.old }
    ensures within { data_length result ≤ length output.new }
{
    match Entry::decode(submission.entry) {
        Ok(command) => perform(alloc, state, command, submission, output),
        Err(status) => submission.reply_with(Answer::refused(status)),
    }
}

/// Does the command that an entry names.
fn perform<D: Domain>(
    alloc: Global,
    state: &mut DeviceState<D>,
    command: Command,
    submission: &Submission<'_>,
    output: &mut [u8],
) -> Reply
    requires room { MOST_TRANSFER ≤ length output.old }
    ensures submitted { HasSubmitted (judge_by D.operations) submission.now (Ok command) state.old state.new (with_data result output.new) }
    ensures rest { drop (data_length result) output.new ≡ drop (data_length result) output.old }
    ensures within { data_length result ≤ length output.new }
{
    let input = submission.input;
    match command {
        Command::Standard(command) => {
            submission.reply_with(execute(state, &command, input, output))
        }
        Command::Load(command) => { submission.reply_with(load(alloc, state, &command, input)) }
        Command::Result(slot) => submission.reply_with(give_result(state, slot, input, output)),
        Command::Run(command) => run(state, &command, submission),
    }
}

/// Executes a standard command, which leaves the active runs what they use.
fn execute<D: Domain>(
    state: &mut DeviceState<D>,
    command: &StandardCommand,
    input: &[u8],
    output: &mut [u8],
) -> Answer
    requires room { MOST_TRANSFER ≤ length output.old }
    ensures executed { HasExecuted command.now input.now state.old state.new result output.new }
    ensures rest { drop result.length output.new ≡ drop result.length output.old }
    ensures within { result.length ≤ length output.new }
{
    let holds = state.holds();
    state.namespace.execute(command, input, output, &holds)
}

/// Starts a run, where it is admitted.
fn run<D: Domain>(
    state: &mut DeviceState<D>,
    command: &RunCommand,
    submission: &Submission<'_>,
) -> Reply
    ensures submitted { HasSubmitted (judge_by D.operations)
        submission.now (Ok (commands.Run command.now)) state.old state.new (without_data result) }
    ensures no_data { data_length result ≡ 0 }
{
    let cid = Entry::cid(submission.entry);
    match start(state, submission.queue, cid, command, submission.input) {
        Ok(run) => Reply::Pending { run },
        Err(status) => submission.reply_with(Answer::refused(status)),
    }
}

/// The reply to a Read, with its data as it lies in the image.
#[derive(Drop)]
pub struct StoredReply<'a> {
    /// The reply.
    pub reply: Reply,
    /// Its data.
    pub bytes: &'a [u8],
}

/// Does the command of an entry from the image alone: of a Read that isn't refused and whose blocks are all written. `None`
/// for every other entry.
pub fn read<'a, D: Domain>(
    state: &'a DeviceState<D>,
    submission: &Submission<'_>,
) -> Option<StoredReply<'a>>
    ensures stored { is_some result ≡ asks_for_stored state.now.namespace (decoded submission.now.entry.now) submission.now.input.now }
    ensures submitted { IfSome result (λ given. HasSubmitted (judge_by D.operations) submission.now (decoded submission.now.entry.now)
        state.now state.now (record { reply = given.reply; bytes = given.bytes.now })) }
    ensures length { IfSome result (λ given. data_length given.reply ≡ length given.bytes.now) }
    ensures most { IfSome result (λ given. length given.bytes.now ≤ MOST_TRANSFER) }
{
    match Entry::decode(submission.entry) {
        Ok(Command::Standard(command)) => read_by(state, &command, submission),
        _ => None,
    }
}

/// What [`read`] does of a standard command.
fn read_by<'a, D: Domain>(
    state: &'a DeviceState<D>,
    command: &StandardCommand,
    submission: &Submission<'_>,
) -> Option<StoredReply<'a>>
    ensures stored { is_some result ≡ asks_for_stored state.now.namespace (Ok (commands.Standard command.now)) submission.now.input.now }
    ensures submitted { IfSome result (λ given. HasSubmitted (judge_by D.operations) submission.now (Ok (commands.Standard command.now))
        state.now state.now (record { reply = given.reply; bytes = given.bytes.now })) }
    ensures length { IfSome result (λ given. data_length given.reply ≡ length given.bytes.now) }
    ensures most { IfSome result (λ given. length given.bytes.now ≤ MOST_TRANSFER) }
{
    match *command {
        StandardCommand::Read { lba, blocks } => read_blocks(state, lba, blocks, submission),
        _ => None,
    }
}

/// Gives the blocks from `lba` on, with the reply to their Read.
fn read_blocks<'a, D: Domain>(
    state: &'a DeviceState<D>,
    lba: u64,
    blocks: BlockCount,
    submission: &Submission<'_>,
) -> Option<StoredReply<'a>>
    ensures stored { is_some result ≡ is_stored state.now.namespace lba blocks submission.now.input.now }
    ensures submitted { IfSome result (λ given. HasSubmitted (judge_by D.operations) submission.now
        (Ok (commands.Standard (Read lba blocks))) state.now state.now (record { reply = given.reply; bytes = given.bytes.now })) }
    ensures length { IfSome result (λ given. data_length given.reply ≡ length given.bytes.now) }
    ensures most { IfSome result (λ given. length given.bytes.now ≤ MOST_TRANSFER) }
{
    match read_stored(state.namespace().image(), lba, blocks, submission.input) {
        Some(bytes) => Some(StoredReply {
            reply: submission.reply_with(Answer::success(0, bytes.len())),
            bytes,
        }),
        None => None,
    }
}
