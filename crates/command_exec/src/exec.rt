//! The command `exec`: the events of a command file, run on an image.

ghost use Rattle.std.specs.Prelude.{◌≡◌, ◌≢◌, IfOk, OnOk, IfErr};
ghost use Rattle.device_meaning.specs.Judging.{judge_by};
ghost use Rattle.command_files.specs.Crash.{LeavesOldOrNew};
ghost use Rattle.command_files.specs.Made.{KeepsModes, KeepsOthers, MakesAtMost};
ghost use Rattle.command_files.specs.Surroundings.{around};
ghost use Rattle.command_images.specs.Images.{image_of};
ghost use Rattle.command_exec.specs.Executed.{AreExecuted, AreExecutedBy, Executes, ExecutesBy, ExecutesFirst, ExecutesFirstBy};
ghost use Rattle.command_exec.specs.Executed.{IsntSaved, IsntSavedBy, asks_words, commands_of};
ghost use Rattle.command_exec.specs.UserTold.{ExecFails, PrintsNothing};

use crate::fail::{FAIL, Refused, STOP, asks_stop};
use crate::running::{Work, run};
use address_domain::Addresses;
use clap::ArgMatches;
use command_files::arguments::required;
use command_files::{Failure, Files, MOST_OF_EVENTS, PROFILE, Profile, profile_asked, read};
use command_images::device_file;
use command_images::image_file::{self, IMAGE};
use command_words::{Argument, Takes, Words};
use interval_domain::Intervals;
use std::alloc::Global;
use std::io::Write;
use word_domain::Domain;

/// The command's name.
pub const NAME: &str = "exec";

pub(crate) const COMMANDS: &str = "COMMANDS";

const WORDS_OPTION: &str = "words";

const LONG_ABOUT: &str = "\
Runs the events of a command file on an image, one after another. Then it gives turns to the runs that \
are left, always to the one of the lowest number, until each has ended. It prints a line for each event \
and for each of these turns, and writes the image back, as they left it. Where they left it as it was, nothing is written.

No other command works on the image meanwhile: one that tries to is told that it is in use.

A command file is ASCII text with an event on each line; `entry` makes those of `submit`. Words are separated by \
spaces or tabs, and `;` begins a comment.

  submit QUEUE ENTRY [DATA]   a submission queue entry, and the data that stands beside it
  turn RUN                    a turn for a run
  fault ZONE readonly         a fault of a zone, which can then only be read
  fault ZONE offline          a fault of a zone, which is then lost

QUEUE is from 0 to 65535, RUN from 0 to 255 and ZONE from 0 to 4294967295, in decimal. ENTRY is 64 bytes and DATA any number \
of bytes, in hexadecimal. Where a line is not of this form, no event happens.

The command file `-` is standard input. Once it and the image are read, no event happens where no new image can be begun beside the old \
one (`cannot write IMAGE`).

What is printed, which `explain` says in words, and --words in its place:

  cpl QUEUE ENTRY [DATA]      a completion queue entry, and the data that it gives
  pending RUN                 the run was admitted, or has turns left
  idle                        there is no such run
  done                        a fault was taken
  refused                     a fault was refused

With --stop the first refused command ends all: no later event happens and no turn is given, what was done is saved, and the last line on \
standard error is `commands refused 1`.

Load judges programs by profile 2. With --profile 3 it takes those that `verify --profile 3` accepts.

IMAGE may be a journal too, which `serve --durable` makes of an image: the events in it are done again first, by profile 2 as they were done, and an image takes its \
place. Where its device has a program or a run, which no image keeps, it is refused (`device refused`), and no event happens.

Where a line cannot be printed, no later event happens and no later turn is given, and the image is \
written as those up to then left it. Where anything else fails, the image is as it was: the image or the command file cannot be \
read or is refused, or the new image cannot be written. The new image is written beside the old one, as \
IMAGE.unfinished, and takes its place, with its permissions, when it is whole. Where only its place cannot be brought to the \
disk then, it stands there all the same.";

const EXAMPLE: &str = "\
Example, in the folder of the sources:

  zscli format zoned.img --block 512 --zones 4 --size 64 --capacity 64 --open 3 --active 3
  zscli exec zoned.img examples/pushdown.cmd";

/// How the command stands on the command line.
pub static WORDS: Words = Words {
    name: NAME,
    about: "Runs the events of a command file on an image",
    long_about: LONG_ABOUT,
    example: EXAMPLE,
    arguments: &[
        Argument {
            id: IMAGE,
            long: "",
            short: None,
            takes: Takes::Place,
            help: "The image, which `format` makes",
        },
        Argument {
            id: COMMANDS,
            long: "",
            short: None,
            takes: Takes::Place,
            help: "The command file",
        },
        Argument {
            id: PROFILE,
            long: PROFILE,
            short: None,
            takes: Takes::Default("P", "2"),
            help: "The profile by which Load judges: 2, or 3, which knows more of addresses and sums",
        },
        Argument {
            id: FAIL,
            long: FAIL,
            short: None,
            takes: Takes::Nothing,
            help: "End with status 4 where a command was refused, and tell how many were and the line of the first",
        },
        Argument {
            id: STOP,
            long: STOP,
            short: None,
            takes: Takes::Nothing,
            help: "End at the first refused command with status 4, and tell its line",
        },
        Argument {
            id: WORDS_OPTION,
            long: WORDS_OPTION,
            short: None,
            takes: Takes::Nothing,
            help: "Print in words what each line tells, as `explain --commands` does",
        },
    ],
    one_of: &[],
};

/// Does the events of the command file on the namespace of the image file, and then the turns that end all runs; prints
/// the line of each reply, in order and nothing else; and makes one file, in the image file's place, unless that has it
/// already: the text of the namespace that they leave. Where standard output fails, it is the text of what the first of
/// them leave. On each other failure no file is made, but for what [`Files::finish`] says, and what is told is the
/// first fault of the image, the lowest line that is refused, or by its name which file can't be read or written; nothing was
/// printed where a line or the image is refused, or a file can't be read; but where the image can't be read again or written at the
/// end, or memory is wanting for that, the lines of what was done were. Every other file has the bytes that it had.
/// A crash at any moment leaves the image file as it might have been left before, or all of the one that this makes.
/// Where the words ask it to stop, it does the events up to the first refused command, and no turn after them. Where they ask for words,
/// what is printed isn't said. Before the first event it sees whether a new image can be begun.
/// What it gives are the commands that were refused, where some were: as many as the replies whose status isn't that of success, and the
/// line of the first.
///
/// # Errors
///
/// There is no such profile, a file can't be read or is refused, the image can't be written, standard output fails, or memory is wanting.
pub fn exec<'a, F: Files, O: Write>(
    alloc: Global,
    matches: &ArgMatches<'a>,
    files: &mut F,
    out: &mut O,
) -> Result<Option<Refused>, Failure<'a>>
    ensures executed { let here = around F.Files F.Reader.tells F.Writer.tells files.old files.new in
        IfOk result (Executes here matches.now (O.contents out.old) (O.contents out.new)) }
    ensures stopped { let here = around F.Files F.Reader.tells F.Writer.tells files.old files.new in
        result ≡ Err Failure.CannotPrint → ExecutesFirst here matches.now }
    ensures quiet { let here = around F.Files F.Reader.tells F.Writer.tells files.old files.new in
        IfErr result (PrintsNothing (image_of matches.now) (IsntSaved here matches.now (O.contents out.old) (O.contents out.new))
        (O.contents out.old) (O.contents out.new)) }
    ensures failed { IfErr result
        (ExecFails matches.now F.Reader.tells (F.contents files.old) (image_of matches.now) (commands_of matches.now)) }
    ensures made { OnOk result (MakesAtMost (image_of matches.now) (F.made files.old) (F.made files.new)) }
    ensures one { result ≡ Err Failure.CannotPrint → MakesAtMost (image_of matches.now) (F.made files.old) (F.made files.new) }
    ensures others { OnOk result (KeepsOthers (image_of matches.now) (F.contents files.old) (F.contents files.new)) }
    ensures others_stopped { result ≡ Err Failure.CannotPrint
        → KeepsOthers (image_of matches.now) (F.contents files.old) (F.contents files.new) }
    ensures kept { IfErr result (λ failure. failure ≢ Failure.CannotPrint → F.made files.new ≡ F.made files.old) }
    ensures contents { IfErr result (λ failure. failure ≢ Failure.CannotPrint → F.contents files.new ≡ F.contents files.old) }
    ensures crash { let here = around F.Files F.Reader.tells F.Writer.tells files.old files.new in
        LeavesOldOrNew (image_of matches.now) (AreExecuted here matches.now) (F.tried files.old) (F.tried files.new) }
    ensures modes { OnOk result (KeepsModes (F.modes files.old) (F.modes files.new)) }
{
    let profile = profile_asked(matches)?;
    match profile {
        Profile::Two => exec_by::<Intervals, F, O>(alloc, matches, files, out),
        Profile::Three => exec_by::<Addresses, F, O>(alloc, matches, files, out),
    }
}

/// Does what [`exec`] does, where Load judges over this domain.
fn exec_by<'a, D: Domain, F: Files, O: Write>(
    alloc: Global,
    matches: &ArgMatches<'a>,
    files: &mut F,
    out: &mut O,
) -> Result<Option<Refused>, Failure<'a>>
    ensures executed { let here = around F.Files F.Reader.tells F.Writer.tells files.old files.new in
        IfOk result (ExecutesBy (judge_by D.operations) here matches.now (O.contents out.old) (O.contents out.new)) }
    ensures stopped { let here = around F.Files F.Reader.tells F.Writer.tells files.old files.new in
        result ≡ Err Failure.CannotPrint → ExecutesFirstBy (judge_by D.operations) here matches.now }
    ensures quiet { let here = around F.Files F.Reader.tells F.Writer.tells files.old files.new in
        IfErr result (PrintsNothing (image_of matches.now)
        (IsntSavedBy (judge_by D.operations) here matches.now (O.contents out.old) (O.contents out.new))
        (O.contents out.old) (O.contents out.new)) }
    ensures failed { IfErr result
        (ExecFails matches.now F.Reader.tells (F.contents files.old) (image_of matches.now) (commands_of matches.now)) }
    ensures made { OnOk result (MakesAtMost (image_of matches.now) (F.made files.old) (F.made files.new)) }
    ensures one { result ≡ Err Failure.CannotPrint → MakesAtMost (image_of matches.now) (F.made files.old) (F.made files.new) }
    ensures others { OnOk result (KeepsOthers (image_of matches.now) (F.contents files.old) (F.contents files.new)) }
    ensures others_stopped { result ≡ Err Failure.CannotPrint
        → KeepsOthers (image_of matches.now) (F.contents files.old) (F.contents files.new) }
    ensures kept { IfErr result (λ failure. failure ≢ Failure.CannotPrint → F.made files.new ≡ F.made files.old) }
    ensures contents { IfErr result (λ failure. failure ≢ Failure.CannotPrint → F.contents files.new ≡ F.contents files.old) }
    ensures crash { let here = around F.Files F.Reader.tells F.Writer.tells files.old files.new in
        LeavesOldOrNew (image_of matches.now) (AreExecutedBy (judge_by D.operations) here matches.now)
        (F.tried files.old) (F.tried files.new) }
    ensures modes { OnOk result (KeepsModes (F.modes files.old) (F.modes files.new)) }
{
    let path = required(matches, IMAGE);
    let mut device = device_file::load_to_replace::<D, F>(alloc, path, files)?;
    let commands = required(matches, COMMANDS);
    let file = read(commands, MOST_OF_EVENTS, files)?;
    match event_text::parse(alloc, file.as_slice()) {
        Ok(told) => {
            image_file::check_place(path, files)?;
            let work = Work {
                events: told.events.as_slice(),
                numbers: told.lines.as_slice(),
                stops: asks_stop(matches),
                words: asks_words(matches),
            };
            run(alloc, &mut *device, &work, path, files, out)
        }
        Err(fault) => Err(Failure::of_commands(commands, fault)),
    }
}

/// Is what replies say to be printed in words?
fn asks_words<'a>(matches: &ArgMatches<'a>) -> bool
    ensures { result ≡ asks_words matches.now }
{
    required(matches, WORDS_OPTION) == "true"
}
