//! The command `serve`: what standard input asks for as it comes, done on an image, or durably.

ghost use Rattle.std.specs.Prelude.{◌≡◌, true, false, IfErr, IfOk, IsSome, OnOk, None};
ghost use Rattle.std.specs.Option.{option_map_or};
ghost use Rattle.command_files.specs.Made.{KeepsModes, KeepsOthers, MakesOnly};
ghost use Rattle.command_files.specs.Surroundings.{ChangesOnly, around};
ghost use Rattle.command_images.specs.Images.{image_of};
ghost use Rattle.command_serve.specs.Asked.{asks_durable, asks_for};
ghost use Rattle.command_serve.specs.Served.{FailsDurably, FailsImage, FailsOfTaken, IsInputTaken, ServesDurably, ServesImage};
ghost use Rattle.command_serve.specs.Streams.{IsAsked, IsReadyIn};

use crate::DurableFiles;
use crate::form::Form;
use crate::imaged::serve_image;
use crate::journaled::serve_journal;
use clap::ArgMatches;
use command_files::arguments::required;
use command_files::{Failure, FileCause};
use command_images::image_file::IMAGE;
use command_words::{Argument, Takes, Words};
use device_serve::{FrameStreamRoom, LineCodec};
use std::alloc::{AllocError, Global};
use std::io::{Read, Write};
use std::mem;

/// The command's name.
pub const NAME: &str = "serve";

/// The name of standard input, as that of standard output is in what is told.
pub(crate) const INPUT: &str = "-";

const FRAMES: &str = "frames";

const DRAIN: &str = "drain";

const DURABLE: &str = "durable";

const LONG_ABOUT: &str = "\
Does what standard input asks of an image, as it comes: each request is done whole, and what answers it is written to standard \
output, before more is read. At the end of the input turns are given to the runs that are left, always to the one of the lowest \
number, until each has ended, and the image is written back, as they left it. Where it was left as it was, nothing is written.

No other command works on the image meanwhile: one that tries to is told that it is in use.

What it asks are the lines of a command file, as `exec` has them, and the line that `exec` prints for each reply answers them; `exec \
--help` has both. A line that isn't of the form ends the command: the events of the lines in front of it are done and answered, and the \
image is written as they left it.

With --frames requests and answers are frames of bytes instead: a header of 16 bytes, and what stands behind it. \
Numbers are little endian, and what isn't said is 0. Bytes of a header: 0, the kind; 1, the part; 2 and 3, the queue; 4 to 7, the \
number; 8 to 11, the bytes of data.

  kind 1, submission      queue; 64 bytes of entry and the data, at most 131072 bytes, behind the header
  kind 2, turn            part: the run
  kind 3, fault           part: 1 for read only, 2 for offline; number: the zone
  kind 4, drain           number: how many turns the runs are given at most, one after another
  kind 5, save            the image is written back

What answers them:

  kind 1, completion      queue; 16 bytes of completion and the data behind the header
  kind 2, pending         part: the run that was admitted, or has turns left
  kind 3, idle            there is no such run
  kind 4, 5               a fault was taken, was refused
  kind 6, drained         number: how many turns were given; behind the answers to these
  kind 7, saved

Where answers cannot be written, nothing is done that has not come by then. Where a byte is none of a request, or the input ends within a frame or \
cannot be read further, what was asked for before is done. In each case, and where memory is wanting for a request, the image is \
written as that left it. Where it cannot be written, it is as it was when it was last saved.

With --durable what is answered is on the disk: IMAGE becomes a journal, a base and the events behind it, which is written as they come. What has come when the last answers are written is one batch, of lines or of frames, and nothing of a batch is answered before it is on the disk. After a crash at any moment the next command finds the device after all that was answered, with its programs, results and runs. A save answers at once. Of a journal that grows long a new base is written.

Without --durable IMAGE may be a journal too: an image takes its place. Where its device has a program or a run, which no image keeps, \
it is refused (`device refused`).";

const EXAMPLE: &str = "\
Example, in the folder of the sources, of the lines of a command file, and of a turn of run 0, which no run has then:

  zscli format zoned.img --block 512 --zones 4 --size 64 --capacity 64 --open 3 --active 3
  zscli serve zoned.img --drain < examples/pushdown.cmd
  printf '\\2\\0\\0\\0\\0\\0\\0\\0\\0\\0\\0\\0\\0\\0\\0\\0' | zscli serve zoned.img --frames | xxd";

/// How the command stands on the command line.
pub static WORDS: Words = Words {
    name: NAME,
    about: "Does what standard input asks of an image, as it comes",
    long_about: LONG_ABOUT,
    example: EXAMPLE,
    arguments: &[
        Argument {
            id: IMAGE,
            long: "",
            short: None,
            takes: Takes::Place,
            help: "The image, which `format` makes",
        },
        Argument {
            id: FRAMES,
            long: FRAMES,
            short: None,
            takes: Takes::Nothing,
            help: "Takes requests and gives answers as frames of bytes, not as lines",
        },
        Argument {
            id: DRAIN,
            long: DRAIN,
            short: None,
            takes: Takes::Nothing,
            help: "Gives the runs all of their turns behind each line, or with --frames before more is read, and writes the answers to these too",
        },
        Argument {
            id: DURABLE,
            long: DURABLE,
            short: None,
            takes: Takes::Nothing,
            help: "Answers nothing before it is on the disk, by a journal in the image's file",
        },
    ],
    one_of: &[],
};

/// Does what the input asks for, as it comes, and then the turns that end all runs: of the namespace of the image file, which is made anew
/// then, unless it has the text of the namespace that they leave already, and also where the input asks for that; or, where it is asked for,
/// durably, so that nothing is answered before it is on the disk. The input is taken.
///
/// # Errors
///
/// The file is in use, can't be read or written, or is refused; the input can't be read, or is refused; standard output fails; or
/// memory is wanting. Where a line or a byte of the input is refused, it ends within a frame, or standard output fails, what was done
/// before is saved, or kept. Where no device is loaded or opened of the file, or memory is wanting before anything is read, nothing is
/// read and nothing written.
pub fn serve<'a, F: DurableFiles, I: Read + Drop, O: Write>(
    alloc: Global,
    matches: &ArgMatches<'a>,
    files: &mut F,
    input: &mut Option<I>,
    out: &mut O,
) -> Result<(), Failure<'a>>
    ensures served { let here = around F.Files F.Reader.tells F.Writer.tells files.old files.new in
        asks_durable matches.now ≡ false
        → OnOk result (ServesImage F.Files here matches.now (option_map_or I.remaining input.old None)
        (O.contents out.old) (O.contents out.new)) }
    ensures stopped { let here = around F.Files F.Reader.tells F.Writer.tells files.old files.new in
        asks_durable matches.now ≡ false → IsSome input.old
        → IfErr result (FailsOfTaken (FailsImage F.Files here matches.now (option_map_or I.remaining input.old None)
        (O.contents out.old) (O.contents out.new))) }
    ensures changes { asks_durable matches.now ≡ false
        → ChangesOnly F.Files F.Writer.tells (image_of matches.now) files.old files.new }
    ensures served_durably { let path = image_of matches.now in
        asks_durable matches.now ≡ true
        → OnOk result (ServesDurably F.Stored.told (F.contents files.old path) (F.contents files.new path) matches.now
        (option_map_or I.remaining input.old None) (O.contents out.old) (O.contents out.new)) }
    ensures stopped_durably { let path = image_of matches.now in
        asks_durable matches.now ≡ true → IsSome input.old
        → IfErr result (FailsOfTaken (FailsDurably F.Stored.told (F.contents files.old path) (F.contents files.new path) matches.now
        (option_map_or I.remaining input.old None) (O.contents out.old) (O.contents out.new))) }
    ensures made { MakesOnly (image_of matches.now) (F.made files.old) (F.made files.new) }
    ensures others { KeepsOthers (image_of matches.now) (F.contents files.old) (F.contents files.new) }
    ensures modes { KeepsModes (F.modes files.old) (F.modes files.new) }
    ensures taken { input.new ≡ None }
    ensures untaken { input.old ≡ None → files.new ≡ files.old }
    ensures silent { input.old ≡ None → O.contents out.new ≡ O.contents out.old }
    ensures lost { input.old ≡ None → IfErr result IsInputTaken }
{
    match mem::replace(input, None) {
        Some(mut input) => serve_asked(alloc, matches, files, &mut input, out),
        None => Err(Failure::CannotRead(INPUT, FileCause::Other)),
    }
}

/// Does what an input asks for, durably where that is asked for. What reads it is made first, so that memory is wanting for it before
/// anything is touched.
fn serve_asked<'a, F: DurableFiles, I: Read, O: Write>(
    alloc: Global,
    matches: &ArgMatches<'a>,
    files: &mut F,
    input: &mut I,
    out: &mut O,
) -> Result<(), Failure<'a>>
    ensures served { let here = around F.Files F.Reader.tells F.Writer.tells files.old files.new in
        asks_durable matches.now ≡ false
        → OnOk result (ServesImage F.Files here matches.now (I.remaining input.old) (O.contents out.old) (O.contents out.new)) }
    ensures stopped { let here = around F.Files F.Reader.tells F.Writer.tells files.old files.new in
        asks_durable matches.now ≡ false
        → IfErr result (FailsImage F.Files here matches.now (I.remaining input.old) (O.contents out.old) (O.contents out.new)
        (I.remaining input.new)) }
    ensures changes { asks_durable matches.now ≡ false
        → ChangesOnly F.Files F.Writer.tells (image_of matches.now) files.old files.new }
    ensures served_durably { let path = image_of matches.now in
        asks_durable matches.now ≡ true
        → OnOk result (ServesDurably F.Stored.told (F.contents files.old path) (F.contents files.new path) matches.now
        (I.remaining input.old) (O.contents out.old) (O.contents out.new)) }
    ensures stopped_durably { let path = image_of matches.now in
        asks_durable matches.now ≡ true
        → IfErr result (FailsDurably F.Stored.told (F.contents files.old path) (F.contents files.new path) matches.now
        (I.remaining input.old) (O.contents out.old) (O.contents out.new) (I.remaining input.new)) }
    ensures made { MakesOnly (image_of matches.now) (F.made files.old) (F.made files.new) }
    ensures others { KeepsOthers (image_of matches.now) (F.contents files.old) (F.contents files.new) }
    ensures modes { KeepsModes (F.modes files.old) (F.modes files.new) }
{
    let form = asked_form(alloc, matches)?;
    if asks_for(matches, DURABLE) {
        serve_journal(alloc, matches, form, files, input, out)
    } else {
        serve_image(alloc, matches, form, files, input, out)
    }
}

/// The form of the stream that is asked for.
fn asked_form<'a>(alloc: Global, matches: &ArgMatches<'a>) -> Result<Form, AllocError>
    ensures asked { IfOk result (IsAsked matches.now) }
    ensures ready { IfOk result IsReadyIn }
{
    let drains = asks_for(matches, DRAIN);
    if asks_for(matches, FRAMES) {
        let room = FrameStreamRoom::new(alloc)?;
        let turns = if drains { u32::MAX } else { 0 };
        Ok(Form::Frames(room, turns))
    } else {
        Ok(Form::Lines(LineCodec::new(alloc, drains)?))
    }
}

/// Is a flag with this name given?
fn asks_for<'a>(matches: &ArgMatches<'a>, name: &'static str) -> bool
    ensures { result ≡ asks_for matches.now name.now }
{
    required(matches, name) == "true"
}
