//! The command `explain`: what `exec` printed, in words.

ghost use Rattle.std.specs.Prelude.{◌≡◌, ◌≢◌, IfErr};
ghost use Rattle.command_explain.specs.steps.Told.{told_of_replies};

use crate::completion_words::{Answered, Taken, push_completion};
use crate::ended::{ended_guard, push_ended};
use crate::json::push_completion_json;
use crate::pairing::Pairing;
use crate::submissions::{Submission, submissions};
use clap::ArgMatches;
use command_files::arguments::required;
use command_files::{
    Failure, Files, MOST_OF_EVENTS, MOST_OF_PROGRAM, MOST_OF_TEXT, is_others, notes_path, printed,
    push_damage, push_others, read, read_or_none,
};
use command_words::{Argument, Takes, Words};
use device_events::{CompletionEntry, Reply};
use event_text::{RepliesFault, Told, ToldReply, parse, replies};
use link_notes::{LinkNotes, NotesFault};
use nvme_entry::Completion;
use std::alloc::{AllocError, Global};
use std::io::Write;

/// The command's name.
pub const NAME: &str = "explain";

const FILE: &str = "FILE";

const COMMANDS: &str = "commands";

const PROGRAM: &str = "program";

const JSON: &str = "json";

/// How replies are told.
#[derive(Clone, Copy)]
pub(crate) enum Form {
    /// In words, for people.
    Words,
    /// Each as a JSON object.
    Json,
}

/// The notes of a program, in their file.
#[derive(Drop)]
struct NotesFile {
    path: String,
    bytes: Vec<u8>,
    /// The bytes of the program, where they can be read.
    program: Option<Vec<u8>>,
}

const LONG_ABOUT: &str = "\
Says in words what each line that `exec` printed tells: of a completion the queue, the command identifier and \
what the command gave, or where it was refused the status by its name with a sentence; and what came of a turn or \
a fault.

A completion does not name its command, and what its dwords 0 and 1 are depends on that: of an append they are \
an LBA, of a run its records and its blocks. So without --commands both are said. With it each completion is \
taken for that of the first submission in the command file that has its queue and its command identifier and no \
completion yet, and is told as that command's, with each zone of a report on a line.

Where another submission may be answered, or the command cannot have this answer, the line says that this is a guess, \
names the command file and the line of the submission, and says why. It is none where the file has as many completions with \
this queue and identifier as the command file has submissions, and none but the last of these is a run, whose completion \
comes later; lines may have been cut out, but not moved. So give each command of a queue an identifier of its own, as \
`zscli entry` does with --into.

With --program, the file of a program that `link` made, a line after a result says at which guard a block's run ended, where the \
result has it and PROGRAM.linked is there: the line of the C source, and what did not hold.

With --json each line tells one as a JSON object. `reply` is `completion`, `pending` with its `run`, `idle`, `done`, \
`refused`, or `unknown`, of 16 bytes that are no completion, with their `queue`. A completion has `queue`, \
`identifier`, `refused` (true or false), `status_type`, `status_code` and `status`, its words; `dword0`, `dword1` \
and `data_bytes`. With --commands it has `line`, that of the submission, or null where none is left; and where one \
is, `guess` (true or false) and `command`, its word for `zscli entry`, or null where the entry is no command; of an \
append that succeeded `lba`, and of such a run `records` and `blocks`. With --program a result with a block that ended at a guard \
has `ended_block`, `guard`, its number, `guard_slot`, `place` and `text`. More fields may come.

Of a file with a line that `exec` does not print nothing is explained, and `line LINE refused` tells the lowest.";

const EXAMPLE: &str = "\
Example, in the folder of the sources:

  zscli exec zoned.img examples/pushdown.cmd > replies
  zscli explain replies --commands examples/pushdown.cmd";

/// How the command stands on the command line.
pub static WORDS: Words = Words {
    name: NAME,
    about: "Says in words what `exec` printed",
    long_about: LONG_ABOUT,
    example: EXAMPLE,
    arguments: &[
        Argument {
            id: FILE,
            long: "",
            short: None,
            takes: Takes::Place,
            help: "What `exec` printed",
        },
        Argument {
            id: COMMANDS,
            long: COMMANDS,
            short: None,
            takes: Takes::Optional("COMMANDS"),
            help: "The command file that `exec` was given",
        },
        Argument {
            id: PROGRAM,
            long: PROGRAM,
            short: None,
            takes: Takes::Optional("PROGRAM"),
            help: "The program whose results are explained by PROGRAM.linked",
        },
        Argument {
            id: JSON,
            long: JSON,
            short: None,
            takes: Takes::Nothing,
            help: "Print each as a JSON object",
        },
    ],
    one_of: &[],
};

/// Runs the command, which makes no file: each has the bytes that it had. What is printed isn't said, but that nothing is where it
/// fails, unless it is standard output that does.
///
/// # Errors
///
/// A file can't be read or is refused, standard output fails, or memory is wanting.
pub fn explain<'a, F: Files, O: Write>(
    alloc: Global,
    matches: &ArgMatches<'a>,
    files: &mut F,
    out: &mut O,
) -> Result<(), Failure<'a>>
    ensures made { F.made files.new ≡ F.made files.old }
    ensures contents { F.contents files.new ≡ F.contents files.old }
    ensures silent { IfErr result (λ failure. failure ≢ Failure.CannotPrint → O.contents out.new ≡ O.contents out.old) }
{
    let path = required(matches, FILE);
    let file = read(path, MOST_OF_EVENTS, files)?;
    let told = replies(alloc, file.as_slice()).map_err(|fault| no_replies(path, fault))?;
    let mut pairing = match matches.get_str(COMMANDS) {
        Some(path) => {
            let submissions = read_submissions(alloc, path, files)?;
            Some(Pairing::new(alloc, path, submissions.as_slice(), told.as_slice())?)
        }
        None => None,
    };
    let form = if matches.get_flag(JSON) {
        Form::Json
    } else {
        Form::Words
    };
    let file = notes_file(alloc, matches, files)?;
    let mut text = String::new(alloc);
    let notes = notes_in(alloc, &file, form, &mut text)?;
    push_replies(told.as_slice(), &mut pairing, &notes, form, &mut text)?;
    printed(out.write_all(text.as_bytes()))
}

/// The submissions of a command file.
fn read_submissions<'a, F: Files>(
    alloc: Global,
    path: &'a str,
    files: &mut F,
) -> Result<Vec<Submission>, Failure<'a>>
    ensures made { F.made files.new ≡ F.made files.old }
    ensures contents { F.contents files.new ≡ F.contents files.old }
{
    let file = read(path, MOST_OF_EVENTS, files)?;
    let told = parse(alloc, file.as_slice()).map_err(|fault| Failure::of_commands(path, fault))?;
    Ok(submissions(alloc, told.events.as_slice(), told.lines.as_slice())?)
}

/// What the user is told of a file with this name, with a line that `exec` doesn't print: its name, and the number of
/// the line.
fn no_replies<'a>(path: &'a str, fault: RepliesFault) -> Failure<'a>
    ensures { result ≡ told_of_replies path.entry fault }
{
    match fault {
        RepliesFault::Line(line) => Failure::ReplyRefused { path, line },
        RepliesFault::Memory => Failure::NoMemory,
    }
}

/// The file with the notes of the program that the words name, where it can be read.
fn notes_file<'a, F: Files>(
    alloc: Global,
    matches: &ArgMatches<'a>,
    files: &mut F,
) -> Result<Option<NotesFile>, Failure<'a>>
    ensures made { F.made files.new ≡ F.made files.old }
    ensures contents { F.contents files.new ≡ F.contents files.old }
{
    let Some(program) = matches.get_str(PROGRAM) else {
        return Ok(None);
    };
    let path = notes_path(alloc, program)?;
    let Some(bytes) = read_or_none(path.as_str(), MOST_OF_TEXT, files)? else {
        return Ok(None);
    };
    let program = read_or_none(program, MOST_OF_PROGRAM, files)?;
    Ok(Some(NotesFile {
        path,
        bytes,
        program,
    }))
}

/// The notes in a file, if there is one; where they are damaged or another program's, a line of words says so.
fn notes_in<'n>(
    alloc: Global,
    file: &'n Option<NotesFile>,
    form: Form,
    out: &mut String,
) -> Result<Option<LinkNotes<'n>>, AllocError> {
    let Some(file) = file else {
        return Ok(None);
    };
    match link_notes::parse(alloc, file.bytes.as_slice()) {
        Ok(notes) => {
            let program = match &file.program {
                Some(bytes) => Some(bytes.as_slice()),
                None => None,
            };
            if is_others(&notes, program) {
                push_other_program(file.path.as_str(), form, out)?;
                return Ok(None);
            }
            Ok(Some(notes))
        }
        Err(fault) => {
            push_fault(file.path.as_str(), fault, form, out)?;
            Ok(None)
        }
    }
}

/// Adds a line of words that says that the notes in a file with this name are another program's.
fn push_other_program(path: &str, form: Form, out: &mut String) -> Result<(), AllocError> {
    match form {
        Form::Words => push_others(path, out),
        Form::Json => Ok(()),
    }
}

/// Adds a line of words on what is wrong with the notes in a file with this name.
fn push_fault(
    path: &str,
    fault: NotesFault,
    form: Form,
    out: &mut String,
) -> Result<(), AllocError> {
    match (fault, form) {
        (NotesFault::Memory, _) => Err(AllocError),
        (NotesFault::Line { .. }, Form::Words) => push_damage(path, fault, out),
        (NotesFault::Line { .. }, Form::Json) => Ok(()),
    }
}

/// Adds what all replies tell.
fn push_replies(
    replies: &[ToldReply],
    pairing: &mut Option<Pairing<'_>>,
    notes: &Option<LinkNotes<'_>>,
    form: Form,
    out: &mut String,
) -> Result<(), AllocError> {
    for told in replies {
        let data = told.bytes.as_slice();
        match &told.told {
            Told::Reply(reply) => push_reply(reply, data, pairing, notes, form, out)?,
            Told::Unknown { queue, .. } => push_unknown(*queue, form, out)?,
        }
    }
    Ok(())
}

/// Adds what a reply tells.
fn push_reply(
    reply: &Reply,
    data: &[u8],
    pairing: &mut Option<Pairing<'_>>,
    notes: &Option<LinkNotes<'_>>,
    form: Form,
    out: &mut String,
) -> Result<(), AllocError> {
    let Reply::Complete { queue, entry, .. } = reply else {
        return push_other(reply, form, out);
    };
    let Some(completion) = completion_from(*queue, entry) else {
        return push_unknown(*queue, form, out);
    };
    let answered = match pairing {
        None => Answered::Unnamed,
        Some(pairing) => match pairing.pair(&completion) {
            Some(paired) => Answered::Taken(Taken::of(&completion, data.len(), paired)),
            None => Answered::NotThere(pairing.path()),
        },
    };
    let ended = match notes {
        Some(notes) => ended_guard(notes, &answered, data),
        None => None,
    };
    match form {
        Form::Words => {
            push_completion(&completion, data, &answered, out)?;
            push_ended(&ended, out)
        }
        Form::Json => push_completion_json(&completion, data.len(), &answered, &ended, out),
    }
}

/// Adds that 16 bytes from this queue are no completion.
pub(crate) fn push_unknown(queue: u16, form: Form, out: &mut String) -> Result<(), AllocError> {
    match form {
        Form::Words => writeln!(
            out,
            "queue {queue}: 16 bytes that are no completion of this device"
        ),
        Form::Json => writeln!(out, "{{\"reply\":\"unknown\",\"queue\":{queue}}}"),
    }
}

/// Adds a reply that is no completion.
pub(crate) fn push_other(reply: &Reply, form: Form, out: &mut String) -> Result<(), AllocError> {
    let (words, json) = match reply {
        Reply::Pending { run } => return push_pending(*run, form, out),
        Reply::Idle => ("idle: a turn for a run that is not active", "idle"),
        Reply::FaultTaken => ("done: a zone has its fault", "done"),
        Reply::FaultRefused => (
            "refused: a fault of a zone that does not exist, that a run uses, or that is Offline and cannot become Read Only",
            "refused",
        ),
        Reply::Complete { .. } => return Ok(()),
    };
    match form {
        Form::Words => writeln!(out, "{words}"),
        Form::Json => writeln!(out, "{{\"reply\":\"{json}\"}}"),
    }
}

/// Adds that a run has turns left.
fn push_pending(run: u8, form: Form, out: &mut String) -> Result<(), AllocError> {
    match form {
        Form::Words => writeln!(
            out,
            "pending {run}: run {run} was admitted, or had a turn, and has turns left"
        ),
        Form::Json => writeln!(out, "{{\"reply\":\"pending\",\"run\":{run}}}"),
    }
}

/// The completion that an entry of this queue is, if it is one.
pub(crate) fn completion_from(queue: u16, entry: &CompletionEntry) -> Option<Completion> {
    let completion = entry.completion();
    if completion.queue == queue {
        Some(completion)
    } else {
        None
    }
}
