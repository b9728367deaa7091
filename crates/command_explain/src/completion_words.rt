//! Completions in words.

use crate::fitting::{can_answer, has_no_dwords};
use crate::pairing::Paired;
use crate::refusal_words::push_reason;
use crate::report_words::push_report;
use crate::uses::Doubt;
use crate::worded_command::push_command;
use command_files::Counted;
use nvme_entry::{Command, Completion, Entry, StandardCommand, Status};
use std::alloc::AllocError;

/// What is known of the command that a completion answers.
#[derive(Clone, Copy)]
pub(crate) enum Answered<'a> {
    /// No command file tells it.
    Unnamed,
    /// The command file with this name has no submission left that has its queue and its command identifier.
    NotThere(&'a str),
    /// The submission that it is taken to answer.
    Taken(Taken<'a>),
}

/// A submission that a completion is taken to answer.
#[derive(Clone, Copy)]
pub(crate) struct Taken<'a> {
    pub(crate) paired: Paired<'a>,
    /// Its command; none where its entry is no command.
    pub(crate) command: Option<Command>,
    /// Can it have this answer?
    pub(crate) fits: bool,
}

impl<'a> Taken<'a> {
    /// The submission with which a completion with so many bytes of data is paired.
    pub(crate) fn of(completion: &Completion, bytes: usize, paired: Paired<'a>) -> Taken<'a> {
        let (command, fits) = match Entry::decode(&paired.submission.entry) {
            Ok(command) => (Some(command), can_answer(completion, bytes, &command)),
            Err(status) => (
                None,
                completion.status == status && has_no_dwords(completion),
            ),
        };
        Taken {
            paired,
            command,
            fits,
        }
    }
}

/// Adds what a completion and its data tell of its command: of a submission that it is taken to answer in the words of its command
/// where this can have such an answer, and else what is certain whatever the command is.
pub(crate) fn push_completion(
    completion: &Completion,
    data: &[u8],
    answered: &Answered<'_>,
    out: &mut String,
) -> Result<(), AllocError> {
    let queue = completion.queue;
    let cid = completion.cid;
    write!(out, "queue {queue}, command {cid}: ")?;
    match answered {
        Answered::Unnamed => {}
        Answered::NotThere(path) => write!(out, "no submission of {path} is left for it: ")?,
        Answered::Taken(taken) => {
            push_doubt(completion, taken, out)?;
            match &taken.command {
                Some(command) => {
                    push_command(command, out)?;
                    out.push_str(": ")?;
                    if taken.fits {
                        return push_answer(completion, data, command, out);
                    }
                }
                None => out.push_str("an entry that is no command: ")?,
            }
        }
    }
    push_unnamed(completion, data, out)
}

/// Adds why it is a guess that a submission is answered, where it is one.
fn push_doubt(
    completion: &Completion,
    taken: &Taken<'_>,
    out: &mut String,
) -> Result<(), AllocError> {
    let path = taken.paired.path;
    let line = taken.paired.submission.line;
    if !taken.fits {
        return write!(
            out,
            "{path}, line {line} (a guess: it cannot have this answer): "
        );
    }
    let (submissions, completions) = match taken.paired.doubt {
        None => return Ok(()),
        Some(
            Doubt::Counts {
                submissions,
                completions,
            },
        ) => (submissions, Some(completions)),
        Some(Doubt::BehindRun { submissions }) => (submissions, None),
    };
    let queue = completion.queue;
    let cid = completion.cid;
    let submissions = Counted(submissions, "submission");
    write!(
        out,
        "{path}, line {line} (a guess: queue {queue} has {submissions} with identifier {cid} there, "
    )?;
    match completions {
        Some(completions) => {
            let completions = Counted(completions, "completion");
            write!(out, "and {completions} here): ")
        }
        None => out.push_str("one behind a run): "),
    }
}

/// Adds what is certain whatever the command is.
pub(crate) fn push_unnamed(
    completion: &Completion,
    data: &[u8],
    out: &mut String,
) -> Result<(), AllocError> {
    if completion.status != Status::SUCCESS {
        return push_refusal(completion, out);
    }
    let dw0 = completion.dw0;
    let dw1 = completion.dw1;
    write!(out, "done; dwords 0 and 1: {dw0}, {dw1}")?;
    if dw0 != 0 || dw1 != 0 {
        let lba = appended_lba(completion);
        let records = Counted(u64::from(dw0), "record");
        let blocks = Counted(u64::from(dw1), "block");
        write!(
            out,
            " (of an append: the first block is at LBA {lba}; of a run: {records} in {blocks})"
        )?;
    }
    if !data.is_empty() {
        let bytes = Counted(data.len() as u64, "byte");
        write!(out, "; {bytes} of data")?;
    }
    out.push_str("\n")
}

/// Adds how a command ended that can have this answer.
///
/// # Errors
///
/// Want of memory.
pub fn push_answer(
    completion: &Completion,
    data: &[u8],
    command: &Command,
    out: &mut String,
) -> Result<(), AllocError> {
    if completion.status != Status::SUCCESS {
        return push_refusal(completion, out);
    }
    match command {
        Command::Standard(StandardCommand::Append { .. }) => {
            let lba = appended_lba(completion);
            writeln!(out, "the first is at LBA {lba}")
        }
        Command::Standard(StandardCommand::Receive { .. }) => push_report(data, out),
        Command::Run(_) => {
            let records = Counted(u64::from(completion.dw0), "record");
            let blocks = Counted(u64::from(completion.dw1), "block");
            writeln!(out, "{records} in {blocks}")
        }
        Command::Standard(StandardCommand::Read { .. }) | Command::Result(_) => {
            let bytes = Counted(data.len() as u64, "byte");
            writeln!(out, "{bytes}")
        }
        Command::Standard(_) | Command::Load(_) => out.push_str("done\n"),
    }
}

/// Adds why a command was refused.
fn push_refusal(completion: &Completion, out: &mut String) -> Result<(), AllocError> {
    let status = completion.status;
    write!(out, "refused: {status}")?;
    let dw0 = completion.dw0;
    let dw1 = completion.dw1;
    if status == Status::PROGRAM_REFUSED {
        write!(out, "; slot {dw0}, ")?;
        push_reason(dw1, out)?;
        return out.push_str("\n");
    }
    if dw0 != 0 || dw1 != 0 {
        return writeln!(out, "; dwords 0 and 1: {dw0}, {dw1}");
    }
    out.push_str("\n")
}

/// The logical block address that Dwords 0 and 1 of an append spell (ZNS 1.1, 3.4.1).
pub(crate) fn appended_lba(completion: &Completion) -> u64 {
    u64::from(completion.dw0) + (u64::from(completion.dw1) << 32)
}
