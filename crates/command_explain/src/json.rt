//! Completions as JSON objects. Their values are numbers, `true`, `false`, `null`, and words of this program in which no character
//! has to be escaped; beside these the place and the text of a guard.

use crate::completion_words::{Answered, Taken, appended_lba};
use crate::ended::{EndedAt, push_ended_fields};
use nvme_entry::{Command, Completion, StandardCommand, Status};
use std::alloc::AllocError;

/// Adds a completion with so many bytes of data as one JSON object on a line, with the guard that has ended a block's run.
pub(crate) fn push_completion_json(
    completion: &Completion,
    bytes: usize,
    answered: &Answered<'_>,
    ended: &Option<EndedAt<'_>>,
    out: &mut String,
) -> Result<(), AllocError> {
    push_fields(completion, bytes, out)?;
    match answered {
        Answered::Unnamed => {}
        Answered::NotThere(_) => out.push_str(",\"line\":null")?,
        Answered::Taken(taken) => push_taken(completion, taken, out)?,
    }
    push_ended_fields(ended, out)?;
    out.push_str("}\n")
}

/// Adds the fields that every completion has.
fn push_fields(completion: &Completion, bytes: usize, out: &mut String) -> Result<(), AllocError> {
    let queue = completion.queue;
    let cid = completion.cid;
    let status = completion.status;
    let refused = status != Status::SUCCESS;
    let kind = status.kind.number();
    let code = status.code;
    let dw0 = completion.dw0;
    let dw1 = completion.dw1;
    write!(
        out,
        "{{\"reply\":\"completion\",\"queue\":{queue},\"identifier\":{cid},\"refused\":{refused},"
    )?;
    write!(
        out,
        "\"status_type\":{kind},\"status_code\":{code},\"status\":\"{status}\","
    )?;
    write!(
        out,
        "\"dword0\":{dw0},\"dword1\":{dw1},\"data_bytes\":{bytes}"
    )
}

/// Adds the fields of the submission that a completion is taken to answer: where that succeeded, also what its dwords tell, of an
/// append its first block, of a run its records and blocks.
fn push_taken(
    completion: &Completion,
    taken: &Taken<'_>,
    out: &mut String,
) -> Result<(), AllocError> {
    let line = taken.paired.submission.line;
    let guess = !taken.fits || taken.paired.doubt.is_some();
    write!(out, ",\"line\":{line},\"guess\":{guess},\"command\":")?;
    let Some(command) = &taken.command else {
        return out.push_str("null");
    };
    let name = name_of(command);
    write!(out, "\"{name}\"")?;
    if !taken.fits || completion.status != Status::SUCCESS {
        return Ok(());
    }
    match command {
        Command::Standard(StandardCommand::Append { .. }) => {
            let lba = appended_lba(completion);
            write!(out, ",\"lba\":{lba}")
        }
        Command::Run(_) => {
            let records = completion.dw0;
            let blocks = completion.dw1;
            write!(out, ",\"records\":{records},\"blocks\":{blocks}")
        }
        _ => Ok(()),
    }
}

/// The word of a command, as `entry` takes it.
fn name_of(command: &Command) -> &'static str {
    match command {
        Command::Standard(StandardCommand::Write { .. }) => "write",
        Command::Standard(StandardCommand::Read { .. }) => "read",
        Command::Standard(StandardCommand::Append { .. }) => "append",
        Command::Standard(StandardCommand::Receive { .. }) => "report",
        Command::Standard(StandardCommand::Send { action, .. }) => action.word(),
        Command::Run(_) => "run",
        Command::Load(_) => "load",
        Command::Result(_) => "result",
    }
}
