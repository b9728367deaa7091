//! Files of replies: the lines that they were printed as, read back.

ghost use Rattle.std.specs.Prelude.{◌≡◌, ◌++◌, OnOk, map, IfOk, true};
ghost use Rattle.std.specs.Str.Lines.{lines};
ghost use Rattle.std.specs.List.{All, AllPass};
ghost use Rattle.device_events.specs.Replies.{data_length};
ghost use Rattle.event_text.specs.ReplyFile.{HasItsData, can_be_given, reply_of, reply_told, told_text};
ghost use Rattle.event_text.specs.Lines.{reply_text};
ghost use Rattle.device_events.specs.CompletionEntries.{tells_success};

use crate::command_file::{queue_number, run_number};
use crate::lines::{push_completion, push_reply};
use device_events::{CompletionEntry, Reply};
use hex::{FromHex, FromHexError};
use nvme_entry::Completion;
use std::alloc::{AllocFailed, Global};
use std::io;
use text_lines::{cut, first_line};
use thiserror::Error;
use zone_resources::RUNS;

/// The hexadecimal digits of a completion queue entry.
const ENTRY_DIGITS: usize = 32;

/// Why the replies of a file aren't read.
#[derive(Clone, Copy, Debug, PartialEq, Eq, Error)]
pub enum RepliesFault {
    /// A line isn't one that a reply which a device can give is printed as; the first line is 1.
    #[error("line {0}: not one that a reply is printed as")]
    Line(usize),
    /// No memory for the replies.
    #[error("no memory")]
    Memory,
}

/// Why the reply of a line isn't read.
#[derive(Clone, Copy, Debug, PartialEq, Eq)]
enum ReplyFault {
    Refused,
    Memory,
}

/// What a line tells.
#[derive(Clone, Copy, Debug, PartialEq, Eq)]
pub enum Told {
    /// A reply.
    Reply(Reply),
    /// A completion whose 16 bytes no device gives: a field that is 0 there isn't, or its status has another type.
    Unknown {
        /// The queue that the line names.
        queue: u16,
        /// The bytes.
        entry: [u8; 16],
        /// How many bytes of data go with it.
        length: usize,
    },
}

/// What a line tells, with the bytes of its data.
#[derive(Debug, PartialEq, Eq, Drop)]
pub struct ToldReply {
    /// What it tells.
    pub told: Told,
    /// Its data, in bytes; none where it has none.
    pub bytes: Vec<u8>,
}

/// The replies that the lines of a file were printed for, in order: each line is the printed one of its reply, which
/// has as much data as it tells, and which a device can give.
///
/// # Errors
///
/// The lowest line that isn't the line of a reply which a device can give, or want of memory before one was found.
#[tactic(auto, using(crate::proofs::ReplyLemmas::reply_read, crate::proofs::ReplyLemmas::replies_read, crate::proofs::ReplyLemmas::one_more_whole, crate::proofs::ReplyLemmas::one_more_given))]
pub fn replies(alloc: Global, file: &[u8]) -> Result<Vec<ToldReply>, RepliesFault>
    ensures spelled { IfOk result (λ told. lines file.now ≡ map told_text told.items) }
    ensures whole { IfOk result (λ told. All HasItsData told.items) }
    ensures given { IfOk result (λ told. AllPass (λ told. can_be_given (reply_of told)) told.items) }
{
    let mut told = Vec::new(alloc);
    let mut rest = file;
    let mut number = 1;
    while !rest.is_empty() {
        let (line, behind) = first_line(rest);
        match told_by(alloc, line) {
            Ok(reply) => told.push(reply)?,
            Err(ReplyFault::Refused) => return Err(RepliesFault::Line(number)),
            Err(ReplyFault::Memory) => return Err(RepliesFault::Memory),
        }
        rest = behind;
        number += 1;
    }
    Ok(told)
}

/// The reply whose line this is.
fn told_by(alloc: Global, line: &[u8]) -> Result<ToldReply, ReplyFault>
    ensures spelled { IfOk result (λ told. line.now ≡ told_text told) }
    ensures whole { IfOk result HasItsData }
    ensures given { IfOk result (λ told. can_be_given (reply_of told) ≡ true) }
{
    let told = candidate(alloc, line)?;
    if !can_be_given(&told.told) {
        return Err(ReplyFault::Refused);
    }
    let mut again = Vec::new(alloc);
    match push_told(&mut again, told.told, told.bytes.as_slice()) {
        Ok(()) if again.as_slice() == line => Ok(told),
        Ok(()) => Err(ReplyFault::Refused),
        Err(_) => Err(ReplyFault::Memory),
    }
}

/// Adds what a line tells, without its end.
fn push_told(line: &mut Vec<u8>, told: Told, bytes: &[u8]) -> io::Result<()>
    ensures { OnOk result (line.new.items ≡ line.old.items ++ reply_text (reply_told told) bytes.now) }
{
    match told {
        Told::Reply(reply) => push_reply(line, reply, bytes),
        Told::Unknown { queue, entry, .. } => push_completion(line, queue, &entry, bytes),
    }
}

/// Can a device give what a line tells?
fn can_be_given(told: &Told) -> bool
    ensures { result ≡ can_be_given (reply_told told.now) }
{
    match told {
        Told::Reply(reply) => is_possible(reply),
        Told::Unknown { entry, length, .. } => *length == 0 || tells_success(entry),
    }
}

/// Can a device give such a reply? A command that it refuses gives no data, and a run that goes on has one of the places for runs.
fn is_possible(reply: &Reply) -> bool
    ensures { result ≡ can_be_given reply.now }
{
    match reply {
        Reply::Complete { entry, length, .. } => *length == 0 || entry.is_success(),
        Reply::Pending { run } => usize::from(*run) < RUNS,
        Reply::Idle | Reply::FaultTaken | Reply::FaultRefused => true,
    }
}

/// Is the status field of a completion's bytes 0, above the phase tag (NVMe Base 2.0, 3.3.3.2)?
fn tells_success(entry: &[u8; 16]) -> bool
    ensures { result ≡ tells_success entry.now }
{
    entry[14] / 2 == 0 && entry[15] == 0
}

/// The one reply whose line this can be.
fn candidate(alloc: Global, line: &[u8]) -> Result<ToldReply, ReplyFault>
    ensures { IfOk result HasItsData }
{
    match line {
        b"idle" => Ok(without_data(alloc, Reply::Idle)),
        b"done" => Ok(without_data(alloc, Reply::FaultTaken)),
        b"refused" => Ok(without_data(alloc, Reply::FaultRefused)),
        _ => match line.strip_prefix(b"pending ") {
            Some(run) => pending(alloc, run),
            None => complete(
                alloc,
                line.strip_prefix(b"cpl ").ok_or(ReplyFault::Refused)?,
            ),
        },
    }
}

fn without_data(alloc: Global, reply: Reply) -> ToldReply
    requires { data_length reply ≡ 0 }
    ensures { HasItsData result }
{
    ToldReply {
        told: Told::Reply(reply),
        bytes: Vec::new(alloc),
    }
}

fn pending(alloc: Global, run: &[u8]) -> Result<ToldReply, ReplyFault>
    ensures { IfOk result HasItsData }
{
    let run = run_number(run).ok_or(ReplyFault::Refused)?;
    Ok(without_data(alloc, Reply::Pending { run }))
}

/// A completion: the queue, the entry, and the data where there is any.
fn complete(alloc: Global, words: &[u8]) -> Result<ToldReply, ReplyFault>
    ensures { IfOk result HasItsData }
{
    let (queue, behind) = cut(words, b' ').ok_or(ReplyFault::Refused)?;
    let (entry, behind) = behind
        .split_at_checked(ENTRY_DIGITS)
        .ok_or(ReplyFault::Refused)?;
    let queue = queue_number(queue).ok_or(ReplyFault::Refused)?;
    let entry = <[u8; 16]>::from_hex(entry)?;
    let bytes = hex::decode(alloc, behind.strip_prefix(b" ").unwrap_or(&[]))?;
    let told = completion_told(queue, entry, bytes.len());
    Ok(ToldReply { told, bytes })
}

/// A completion of these bytes, with so many bytes of data.
fn completion_told(queue: u16, entry: [u8; 16], length: usize) -> Told
    ensures { data_length (reply_told result) ≡ length }
{
    match Completion::decode(&entry) {
        Some(completion) => Told::Reply(Reply::Complete {
            queue,
            entry: CompletionEntry::new(completion),
            length,
        }),
        None => Told::Unknown {
            queue,
            entry,
            length,
        },
    }
}

impl From<FromHexError> for ReplyFault {
    fn from(error: FromHexError) -> ReplyFault {
        match error {
            FromHexError::OutOfMemory => ReplyFault::Memory,
            _ => ReplyFault::Refused,
        }
    }
}

impl<T: Drop> From<AllocFailed<T>> for RepliesFault {
    fn from(_error: AllocFailed<T>) -> RepliesFault {
        RepliesFault::Memory
    }
}
