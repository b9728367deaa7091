//! The submissions of a command file, with the lines that they stand on.

ghost use Rattle.std.specs.Prelude.{◌≡◌, IfOk, zip};
ghost use Rattle.std.specs.List.{filter_map};
ghost use Rattle.command_explain.specs.steps.Submissions.{is_run, submission_in};

use device_events::Event;
use nvme_entry::{Command, Entry};
use std::alloc::{AllocError, Global};

/// By what a completion is paired with a submission.
#[derive(Clone, Copy, PartialEq, Eq, Hash)]
pub(crate) struct Identity {
    pub(crate) queue: u16,
    /// The command identifier.
    pub(crate) cid: u16,
}

/// A submission of a command file.
#[derive(Clone, Copy)]
pub(crate) struct Submission {
    /// The number of its line, the first being 1.
    pub(crate) line: usize,
    /// Its queue and its command identifier.
    pub(crate) identity: Identity,
    /// The entry.
    pub(crate) entry: [u8; 64],
}

/// The submissions among events, each of which stands on the line with the number beside it.
///
/// # Errors
///
/// Want of memory.
pub(crate) fn submissions(
    alloc: Global,
    events: &[Event],
    lines: &[usize],
) -> Result<Vec<Submission>, AllocError>
    ensures { IfOk result (λ submissions. submissions.items ≡ filter_map submission_in (zip events.now lines.now)) }
{
    events
        .iter()
        .zip(lines)
        .filter_map(|(event, line)| submission_in(event, *line))
        .collect(alloc)
}

/// The submission that an event is, which stands on the line with this number.
fn submission_in(event: &Event, line: usize) -> Option<Submission>
    ensures { result ≡ submission_in (event.now, line) }
{
    match event {
        Event::Submit { queue, entry, .. } => Some(Submission {
            line,
            identity: Identity {
                queue: *queue,
                cid: Entry::cid(entry),
            },
            entry: *entry,
        }),
        Event::Turn { .. } | Event::Fault { .. } => None,
    }
}

/// Is the command of an entry a Run, whose completion may come later than those of commands behind it?
pub(crate) fn is_run(entry: &[u8; 64]) -> bool
    ensures { result ≡ is_run entry.now }
{
    matches!(Entry::decode(entry), Ok(Command::Run(_)))
}
