//! What a failure is printed as.

ghost use Rattle.std.specs.Prelude.{◌≡◌, ◌++◌, [], codes, OnOk};
ghost use Rattle.std.specs.Fmt.{decimal};
ghost use Rattle.command_files.specs.Lines.{IsTold, at_line, commands_text, cut_off_text, failure_text, question_text, sentence, stream_text};
ghost use Rattle.command_files.specs.Pieces.{piece_text, pieces_text, text_with};
ghost use Rattle.command_files.specs.Shown.{shown};

use crate::failure::Failure;
use crate::file_lines::{of_cause, of_device, of_journal, of_no_block, of_no_image};
use crate::object_file::ProgramWords;
use crate::option_lines::{of_emit, of_word};
use crate::pieces::Piece::{self, Named, Nothing, Number, Plain};
use crate::pieces::{Pieces, print_pieces};
use event_frames::Field;
use std::fmt::InlineText;
use std::io::{self, Write};

/// Room for the words of a fault, of which none has as many bytes.
type Words = InlineText<512>;

impl Failure<'_> {
    /// Prints what the user is told.
    ///
    /// # Errors
    ///
    /// Those of the stream.
    pub(crate) fn print<W: Write>(&self, out: &mut W) -> io::Result<()>
        ensures { OnOk result (IsTold self.now (W.contents out.old) (W.contents out.new)) }
    {
        match self {
            // This text has a line end of its own.
            Failure::CommandLine(error) => write!(out, "{error}"),
            Failure::NotAccepted => Ok(()),
            _ => print_pieces(out, &pieces_of(self, self.words().as_str())),
        }
    }

    /// The fault's own words, where it has some.
    fn words(&self) -> Words {
        match self {
            Failure::LineRefused { fault, .. } => Words::of(*fault),
            Failure::GeometryRefused(refusal) => Words::of(*refusal),
            Failure::ImageRefused { fault, .. } => Words::of(*fault),
            Failure::AssemblyRefused { refusal, .. } => Words::of(*refusal),
            Failure::ProgramRefused { refusal, .. } => Words::of(ProgramWords(*refusal)),
            Failure::FrameRefused { refusal, .. } => Words::of(*refusal),
            Failure::DataRefused { fault, .. } => Words::of(*fault),
            _ => Words::of(""),
        }
    }
}

/// The pieces of what the user is told, with these words of the fault; none of a text that isn't made here.
fn pieces_of<'p>(failure: &'p Failure<'p>, words: &'p str) -> Pieces<'p>
    ensures { pieces_text result ≡ text_with words.now (failure_text failure.now) }
{
    match failure {
        Failure::CommandLine(_) | Failure::NotAccepted => alone(""),
        Failure::NotText => alone("error: a word of the command line is not text\n"),
        Failure::NotInRange {
            option,
            word,
            least,
            most,
        } => of_word(option, word, *least, *most),
        Failure::CannotRead(path, cause) => of_cause(path, *cause, "cannot read "),
        Failure::CannotWrite(path, cause) => of_cause(path, *cause, "cannot write "),
        Failure::NotAnImage(path) => of_no_image(path),
        Failure::CannotPrint => alone("cannot write -\n"),
        Failure::NoMemory => alone("no memory\n"),
        Failure::LineRefused { path, line, .. } => of_line(path, *line, words),
        Failure::ReplyRefused { path, line } => {
            of_line(path, *line, "not one that `exec` prints")
        }
        Failure::WordsRefused {
            path,
            line,
            told,
            ..
        } => of_line(path, *line, told.as_str()),
        Failure::CommandsRefused {
            path,
            line,
            commands,
        } => of_commands(path, *line, *commands),
        Failure::GeometryRefused(refusal) => {
            let number = refusal.number() as u64;
            of_refusal(Nothing, "", words, "geometry refused ", number)
        }
        Failure::NotABlock { path, bytes } => of_no_block(path, *bytes),
        Failure::EmitExceedsBlock { emit, block } => of_emit(*emit, *block),
        Failure::ImageRefused { path, fault } => {
            let number = fault.number() as u64;
            of_refusal(Named(path), ": ", words, "image refused ", number)
        }
        Failure::JournalRefused { path, place, fault } => { of_journal(path, *place, *fault) }
        Failure::DeviceRefused { path } => of_device(path),
        Failure::AssemblyRefused { path, refusal } => {
            let fault = refusal.fault;
            let number = fault.kind.number();
            of_place(path, words, "assembly refused ", fault.line, number)
        }
        Failure::ProgramRefused { path, refusal } => {
            let fault = refusal.fault;
            let number = fault.kind.number();
            of_place(path, words, "program refused ", fault.slot, number)
        }
        Failure::FrameRefused { path, refusal } => {
            let byte = refusal.refused_byte() as u64;
            of_refusal(Named(path), ", ", words, "frame refused ", byte)
        }
        Failure::DataRefused { path, fault } => {
            let number = fault.number() as u64;
            of_refusal(Named(path), ": ", words, "data refused ", number)
        }
        Failure::StreamRefused { place, field } => { of_field(*place, *field) }
        Failure::StreamCutOff { place } => { of_cut_off(*place) }
        Failure::QuestionRefused(told) => of_question(told.as_str()),
    }
}

/// A text that is known.
fn alone(text: &str) -> Pieces<'_>
    ensures { pieces_text result ≡ text.now }
{
    [
        Plain(text),
        Nothing,
        Nothing,
        Nothing,
        Nothing,
        Nothing,
        Nothing,
    ]
}

/// A line of a file, why it is refused, and the line for scripts.
fn of_line<'p>(path: &'p str, number: usize, words: &'p str) -> Pieces<'p>
    ensures { pieces_text result ≡ at_line (shown path.now) number words.now }
{
    [
        Named(path),
        Number(", line ", number as u64),
        Plain(": "),
        Plain(words),
        Number("\nline ", number as u64),
        Plain(" refused\n"),
        Nothing,
    ]
}

/// Commands that were refused: the line of the first, and how many they are.
fn of_commands(path: &str, line: usize, commands: u64) -> Pieces<'_>
    ensures { pieces_text result ≡ text_with [] (commands_text (shown path.now) line commands) }
{
    [
        Named(path),
        Number(", line ", line as u64),
        Number(
            ": the first command that was refused\ncommands refused ",
            commands,
        ),
        Plain("\n"),
        Nothing,
        Nothing,
        Nothing,
    ]
}

/// What is refused with these words behind a name and a mark, and the line for scripts, which ends with a number.
fn of_refusal<'p>(
    name: Piece<'p>,
    mark: &'p str,
    words: &'p str,
    script: &'p str,
    number: u64,
) -> Pieces<'p>
    ensures { pieces_text result
        ≡ text_with words.now (sentence (piece_text name.entry ++ mark.now) (script.now ++ decimal number)) }
{
    [
        name,
        Plain(mark),
        Plain(words),
        Plain("\n"),
        Number(script, number),
        Plain("\n"),
        Nothing,
    ]
}

/// What is refused at a place of a file, with these words, and the line for scripts, which ends with the place and a number.
fn of_place<'p>(
    path: &'p str,
    words: &'p str,
    script: &'p str,
    place: usize,
    number: u8,
) -> Pieces<'p>
    ensures { pieces_text result
        ≡ text_with words.now (sentence (shown path.now ++ codes ", ") (script.now ++ decimal place ++ codes " " ++ decimal number)) }
{
    [
        Named(path),
        Plain(", "),
        Plain(words),
        Plain("\n"),
        Number(script, place as u64),
        Number(" ", number as u64),
        Plain("\n"),
    ]
}

/// A byte of standard input that no frame has there, in this field: what is expected, and the line for scripts.
fn of_field<'p>(place: u64, field: Field) -> Pieces<'p>
    ensures { pieces_text result ≡ text_with [] (stream_text place field) }
{
    let expected = field.expected();
    [
        Number("standard input, byte ", place),
        Plain(": "),
        Plain(expected),
        Number(" is expected\nstream refused ", place),
        Number(" ", field.number() as u64),
        Plain("\n"),
        Nothing,
    ]
}

/// The end of standard input within a frame.
fn of_cut_off<'p>(place: u64) -> Pieces<'p>
    ensures { pieces_text result ≡ text_with [] (cut_off_text place) }
{
    [
        Number("standard input, byte ", place),
        Number(
            ": the end of the input; the rest of a frame is expected\nstream refused ",
            place,
        ),
        Number(" ", 7),
        Plain("\n"),
        Nothing,
        Nothing,
        Nothing,
    ]
}

/// Why a question isn't asked, and the line for scripts.
fn of_question(words: &str) -> Pieces<'_>
    ensures { pieces_text result ≡ text_with [] (question_text words.now) }
{
    [
        Plain(words),
        Plain("\nquestion refused\n"),
        Nothing,
        Nothing,
        Nothing,
        Nothing,
        Nothing,
    ]
}
