//! Why a command ends before its work is done, and what the user is told.

ghost use Rattle.std.specs.Prelude.{◌≡◌, ◌≢◌, IfErr, OnOk, OnErr};
ghost use Rattle.std.specs.IoError.{error_kind};
ghost use Rattle.command_files.specs.Failure.{exit_status, status_of};
ghost use Rattle.command_files.specs.Lines.{IsTold};
ghost use Rattle.command_files.specs.declared.failure.Failure.TheVariants.{NoMemory};
ghost use Rattle.command_files.specs.UserTold.{told_of_command_line, told_of_commands, told_of_words};

use crate::data_fault::DataFault;
use crate::file_cause::FileCause;
use crate::journal_fault::JournalFault;
use ebpf_asm::AssemblyRefusal;
use ebpf_decode::ProgramRefusal;
use emit_append::FrameRefusal;
use event_frames::Field;
use event_text::{LineFault, ParseFault};
use image_store::GeometryRefusal;
use image_text::LoadFault;
use std::alloc::AllocError;
use std::io::{self, ErrorKind, Write};

/// Why a command ended. Its text is the last on standard error: often a sentence, and behind it a line for scripts.
#[derive(Drop)]
pub enum Failure<'a> {
    /// The words of the command line are no command's.
    CommandLine(clap::Error),
    /// A word of the command line isn't text.
    NotText,
    /// The word of an option is no number from the least to the most.
    NotInRange {
        option: &'a str,
        word: &'a str,
        least: u64,
        most: u64,
    },
    /// The file with this name can't be read.
    CannotRead(&'a str, FileCause),
    /// The file with this name can't be written.
    CannotWrite(&'a str, FileCause),
    /// The file with this name isn't replaced by an image: it has bytes that are none.
    NotAnImage(&'a str),
    /// Standard output failed.
    CannotPrint,
    /// Memory is wanting.
    NoMemory,
    /// A line of a command file that is refused.
    LineRefused {
        path: &'a str,
        line: usize,
        fault: LineFault,
    },
    /// A line of a file of replies that no reply is printed as.
    ReplyRefused {
        path: &'a str,
        line: usize,
    },
    /// A line of words that asks for no entry: with the exit status, what is told of them.
    WordsRefused {
        path: &'a str,
        line: usize,
        status: u8,
        told: String,
    },
    /// So many commands of a command file were refused, the first that of this line.
    CommandsRefused {
        path: &'a str,
        line: usize,
        commands: u64,
    },
    /// Numbers that are no geometry.
    GeometryRefused(GeometryRefusal),
    /// A file of so many bytes, where a block is wanted and none has as many.
    NotABlock {
        path: &'a str,
        bytes: usize,
    },
    /// More bytes may be emitted for a block than it has.
    EmitExceedsBlock {
        emit: u32,
        block: u32,
    },
    /// A file that is no image.
    ImageRefused {
        path: &'a str,
        fault: LoadFault,
    },
    /// A journal that isn't done again, by what is wrong at this byte of its file.
    JournalRefused {
        path: &'a str,
        place: usize,
        fault: JournalFault,
    },
    /// A journal of which no image is made: its device has a program or a run, which no image keeps.
    DeviceRefused {
        path: &'a str,
    },
    /// A file that is no assembly text.
    AssemblyRefused {
        path: &'a str,
        refusal: AssemblyRefusal,
    },
    /// A file that is no program.
    ProgramRefused {
        path: &'a str,
        refusal: ProgramRefusal,
    },
    /// A file of other bytes than output blocks.
    FrameRefused {
        path: &'a str,
        refusal: FrameRefusal,
    },
    /// A file that is not what a command can move.
    DataRefused {
        path: &'a str,
        fault: DataFault,
    },
    /// A byte of standard input, counted from 0 on, that no frame of a request has there, in this field of its header.
    StreamRefused {
        place: u64,
        field: Field,
    },
    /// Standard input ends within a frame, where this byte was to come.
    StreamCutOff {
        place: u64,
    },
    /// A program that the verifier refuses. What it says stands on standard output alone.
    NotAccepted,
    /// A question that isn't asked, with why in a sentence.
    QuestionRefused(String),
}

impl<'a> Failure<'a> {
    /// That of reading the words of the command line: one of them is no text, or memory is wanting.
    pub fn of_words(error: io::Error) -> Failure<'a>
        ensures { result ≡ told_of_words (error_kind error) }
    {
        match error.kind() {
            ErrorKind::OutOfMemory => Failure::NoMemory,
            _ => Failure::NotText,
        }
    }

    /// That of a file with this name that is no command file: its name, the line that is refused, and the fault.
    pub fn of_commands(path: &'a str, fault: ParseFault) -> Failure<'a>
        ensures told { result ≡ told_of_commands path.entry fault }
        ensures not_printing { result ≢ Failure.CannotPrint }
    {
        match fault {
            ParseFault::Line { number, fault } => Failure::LineRefused {
                path,
                line: number,
                fault,
            },
            ParseFault::Memory => Failure::NoMemory,
        }
    }

    /// The exit status.
    fn status(&self) -> u8
        ensures { result ≡ status_of self.now }
    {
        match self {
            Failure::CannotRead(..)
            | Failure::CannotWrite(..)
            | Failure::NotAnImage(_)
            | Failure::CannotPrint
            | Failure::NoMemory => 1,
            Failure::CommandLine(_)
            | Failure::NotText
            | Failure::NotInRange { .. }
            | Failure::EmitExceedsBlock { .. } => 2,
            Failure::LineRefused { .. }
            | Failure::ReplyRefused { .. }
            | Failure::GeometryRefused(_)
            | Failure::NotABlock { .. }
            | Failure::ImageRefused { .. }
            | Failure::JournalRefused { .. }
            | Failure::DeviceRefused { .. }
            | Failure::AssemblyRefused { .. }
            | Failure::ProgramRefused { .. }
            | Failure::FrameRefused { .. }
            | Failure::DataRefused { .. }
            | Failure::StreamRefused { .. }
            | Failure::StreamCutOff { .. }
            | Failure::NotAccepted
            | Failure::QuestionRefused(_) => 3,
            Failure::CommandsRefused { .. } => 4,
            Failure::WordsRefused { status, .. } => *status,
        }
    }
}

/// How a command line ended.
#[derive(Drop)]
pub struct Conclusion {
    /// The exit status: 0 where all was done, 1 where a file failed or memory was wanting, 2 for a wrong
    /// command line, 3 for input that is refused, 4 for commands that the device refused.
    pub status: u8,
    /// What printing why the work wasn't done came to.
    pub told: io::Result<()>,
}

/// Ends a command line. Its exit status is that of the failure, and 0 where there is none; then nothing is written to
/// standard error, and else what the user is told of the failure, unless writing it fails: the file's name, the line or
/// slot and the number, and some words where the fault has a sentence of its own. Of a wrong command line the text
/// isn't said.
pub fn conclude<E: Write>(done: Result<(), Failure<'_>>, err: &mut E) -> Conclusion
    ensures status { result.status ≡ exit_status done.entry }
    ensures quiet { OnOk done.entry ((result.told ≡ Ok tt) × (err.new ≡ err.old)) }
    ensures told { IfErr done.entry (λ failure. OnOk result.told (IsTold failure (E.contents err.old) (E.contents err.new))) }
{
    match done {
        Ok(()) => Conclusion {
            status: 0,
            told: Ok(()),
        },
        Err(failure) => Conclusion {
            status: failure.status(),
            told: failure.print(err),
        },
    }
}

/// What printing on standard output comes to.
///
/// # Errors
///
/// [`Failure::CannotPrint`] where it failed.
pub fn printed<'a>(written: io::Result<()>) -> Result<(), Failure<'a>>
    ensures ok { OnOk written (result ≡ Ok tt) }
    ensures err { OnErr written (result ≡ Err Failure.CannotPrint) }
{
    match written {
        Ok(()) => Ok(()),
        Err(_) => Err(Failure::CannotPrint),
    }
}

impl From<clap::Error> for Failure<'_> {
    /// That of a command line that is wrong, with what is wrong; or that memory is wanting.
    ghost from_gives = { λ error failure. failure ≡ told_of_command_line error };

    fn from(error: clap::Error) -> Self {
        match error.kind() {
            clap::error::ErrorKind::OutOfMemory => Failure::NoMemory,
            _ => Failure::CommandLine(error),
        }
    }
}

impl From<AllocError> for Failure<'_> {
    ghost from_gives = { λ _ failure. failure ≡ NoMemory };

    fn from(_error: AllocError) -> Self {
        Failure::NoMemory
    }
}
