//! The command `query`: a question about the records of a zone.

ghost use Rattle.std.specs.Prelude.{◌≡◌, [], OnErr, OnOk};
ghost use Rattle.command_files.specs.Arguments.{value_of};
ghost use Rattle.command_files.specs.Made.{KeepsOthers, MakesAtMost, MakesAtMostOne};
ghost use Rattle.command_images.specs.Images.{image_of};
ghost use Rattle.command_query.specs.Files.{AsksNoFile, program_file};

use crate::answering::{Plan, answer, blocks_of_run};
use crate::commands::AskedDevice;
use crate::compiled::{Request, compile_question};
use crate::destination::{INTO, destination_for};
use crate::explained::{explained, push_work};
use crate::grouped::{BY, groups_asked};
use crate::layout::load;
use crate::refused::refused;
use crate::rows::Form;
use crate::source::{BLOCKS, ZONE, first_of, source_asked};
use crate::told::{
    EXPLAIN, PART, PROGRAM, is_explained, is_only_told, tell_of_blocks, write_program,
};
use crate::understood::WHERE;
use crate::wanted::{COUNT, GREATEST, LEAST, SELECT, SUM, Wanted, wanted_of};
use clap::ArgMatches;
use command_files::arguments::{ARGUMENT_OPTION, BLOCK_OPTION, RUN_ARGUMENT, number, required};
use command_files::{Counted, Failure, Files, printed};
use command_images::device_file;
use command_images::image_file::{self, IMAGE};
use command_words::{Argument, Takes, Words};
use image_store::Image;
use interval_domain::Intervals;
use std::alloc::Global;
use std::io::Write;

/// The command's name.
pub const NAME: &str = "query";

const LAYOUT: &str = "layout";

const CSV: &str = "csv";

const JSON: &str = "json";

const RAW: &str = "raw";

const LONG_ABOUT: &str = "\
Asks which records of a zone's blocks meet a condition, and prints a row of each, or tallies of them all. The question becomes a program; \
a device in memory, with the zones of the image, runs it over the blocks, and what it appended to a free zone is read back. The image's \
file stays as it is, but for --into. Of a journal, which `serve --durable` makes of an image, the zones are as the events in it left them.

The layout is a file of text. Its first line says how many bytes a record has, and, if need be, how many bytes of a block come before \
the first record, and how many records of a block there are. Each other line has a field: its name, its type, and @ with the offset of \
its first byte. `;` begins a comment.

  records 64 from 0 count 8
  order text8 @0
  region u32 @8

The types are u8, u16, u32, u64, i8, i16, i32 and i64, with be after it where the highest byte comes first; text, and bytes, with \
how many there are, as in text8. Text is printed without the zeros and blanks after it, bytes in hexadecimal. Each place of a block is taken \
as a record, also where only zeros are: the condition has to say which are there.

A condition compares a field by ==, !=, <, <=, > or >= with a number, with `arg`, the run's argument, or with another field. \
`price in 100..200` leaves the second bound out, `price in 100..=200` has it, and `region in {1, 2}` names each number. && binds closer \
than ||, ! takes what is next to it, and parentheses come before all. Numbers are decimal, or hexadecimal after 0x. A field that has no \
name is written as u32@8; `bytes@8 == \"ab\"` and `bytes@8 == 0x6162` compare bytes.

--count, --sum, --least and --greatest tally the records that match; a sum is modulo 2^64. Of no record there is no least and no greatest. \
With --by each value of an unsigned field that records which match have is a row, in order. Of a field of one byte these are all its values, \
and of a wider one those from 0 on that a program has room for: 128 for the count alone, and 64, 42 or 32 with one, two or three other \
tallies. Where a record that matches has a greater value, nothing is printed, and a sentence says what to change.

Rows come in the order of the blocks and of the records in them, below a line with the names, with commas; with --json as a list of \
objects; with --raw as bytes, from the first field that is selected to the end of the last.

With --explain nothing is asked: it prints how the question is understood, how many slots its program has, how many bytes that emits for a \
block at most, how many blocks of the free zone are needed if all records match, and how many runs there are. With --program FILE \
nothing is asked either: the program is written, and the words are printed that load it; of several, --part says which. Neither needs an \
image: --block B in its place is for any blocks of so many bytes.

With --into ZONE the records that match stay in this zone of the image, in blocks as the device appends them, which `zscli unpack` reads; \
the rows are printed, and then the image is saved. The zone needs the room that all records would take if all matched. Where the question \
is refused, or standard output fails, nothing is saved.

A question that can't be asked is `question refused`, and a sentence says what to change.";

const EXAMPLE: &str = "\
Example:

  zscli query zoned.img --zone 0 --layout orders.layout --where 'region == 3'";

/// How the command stands on the command line.
pub static WORDS: Words = Words {
    name: NAME,
    about: "Asks which records of a zone meet a condition",
    long_about: LONG_ABOUT,
    example: EXAMPLE,
    arguments: &[
        Argument {
            id: IMAGE,
            long: "",
            short: None,
            takes: Takes::PlaceWith(ZONE),
            help: "The image",
        },
        Argument {
            id: BLOCK_OPTION,
            long: BLOCK_OPTION,
            short: None,
            takes: Takes::Optional("B"),
            help: "In place of an image, with --explain or --program: bytes of a block, a power of 2 from 512 to 16384",
        },
        Argument {
            id: ZONE,
            long: ZONE,
            short: None,
            takes: Takes::OptionalWith("Z", IMAGE),
            help: "The zone whose records are asked about",
        },
        Argument {
            id: BLOCKS,
            long: BLOCKS,
            short: None,
            takes: Takes::OptionalWith("N", IMAGE),
            help: "Ask about the zone's first N blocks alone [default: all that are written]",
        },
        Argument {
            id: LAYOUT,
            long: LAYOUT,
            short: None,
            takes: Takes::Required("FILE"),
            help: "The layout of the records",
        },
        Argument {
            id: WHERE,
            long: WHERE,
            short: None,
            takes: Takes::Required("CONDITION"),
            help: "What the records have to meet",
        },
        RUN_ARGUMENT,
        Argument {
            id: SELECT,
            long: SELECT,
            short: None,
            takes: Takes::Optional("FIELDS"),
            help: "The fields that are printed, with commas between them [default: all]",
        },
        Argument {
            id: COUNT,
            long: COUNT,
            short: None,
            takes: Takes::Nothing,
            help: "Print how many records match",
        },
        Argument {
            id: SUM,
            long: SUM,
            short: None,
            takes: Takes::Optional("FIELD"),
            help: "Print the sum of a field",
        },
        Argument {
            id: LEAST,
            long: LEAST,
            short: None,
            takes: Takes::Optional("FIELD"),
            help: "Print the least value of a field",
        },
        Argument {
            id: GREATEST,
            long: GREATEST,
            short: None,
            takes: Takes::Optional("FIELD"),
            help: "Print the greatest value of a field",
        },
        Argument {
            id: BY,
            long: BY,
            short: None,
            takes: Takes::Optional("FIELD"),
            help: "Print a row of tallies for each value of an unsigned field",
        },
        Argument {
            id: CSV,
            long: CSV,
            short: None,
            takes: Takes::Nothing,
            help: "Print lines with commas, as without this",
        },
        Argument {
            id: JSON,
            long: JSON,
            short: None,
            takes: Takes::Nothing,
            help: "Print a JSON list of objects",
        },
        Argument {
            id: RAW,
            long: RAW,
            short: None,
            takes: Takes::Nothing,
            help: "Print the bytes of the records",
        },
        Argument {
            id: INTO,
            long: INTO,
            short: None,
            takes: Takes::OptionalWith("ZONE", IMAGE),
            help: "Keep the records that match in this zone of the image, as the device appends them",
        },
        Argument {
            id: EXPLAIN,
            long: EXPLAIN,
            short: None,
            takes: Takes::Nothing,
            help: "Print how the question is understood, and what asking it takes",
        },
        Argument {
            id: PROGRAM,
            long: PROGRAM,
            short: None,
            takes: Takes::Optional("FILE"),
            help: "Write the program that asks the question",
        },
        Argument {
            id: PART,
            long: PART,
            short: None,
            takes: Takes::OptionalWith("N", PROGRAM),
            help: "Of several programs, write this one, from 0 on",
        },
    ],
    one_of: &[IMAGE, BLOCK_OPTION],
};

/// Asks the question that the words ask of the device that the image file stands for, in memory, and prints the answer. Where a program of
/// it is wanted, or a zone is to keep the answer, it makes at most one file, without such a zone that of the program; else it makes none,
/// and each file has the bytes that it had. What is noted goes to `err`; where this fails, nothing does.
///
/// # Errors
///
/// A file can't be read or is refused, the question can't be asked, the program can't be written, standard output fails, or memory is
/// wanting.
#[tactic(auto, using(crate::proofs::Makes::at_most_one))]
pub fn query<'a, F: Files, O: Write, E: Write>(
    alloc: Global,
    matches: &ArgMatches<'a>,
    files: &mut F,
    out: &mut O,
    err: &mut E,
) -> Result<(), Failure<'a>>
    ensures one { MakesAtMostOne (F.made files.old) (F.made files.new) }
    ensures program { value_of matches.now INTO.now ≡ [] → MakesAtMost (program_file matches.now) (F.made files.old) (F.made files.new) }
    ensures unmade { AsksNoFile matches.now → F.made files.new ≡ F.made files.old }
    ensures unchanged { AsksNoFile matches.now → F.contents files.new ≡ F.contents files.old }
    ensures kept { OnErr result (F.made files.new ≡ F.made files.old) }
    ensures contents { OnErr result (F.contents files.new ≡ F.contents files.old) }
    ensures unnoted { OnErr result (E.contents err.new ≡ E.contents err.old) }
{
    let form = form_asked(alloc, matches)?;
    let layout = load(alloc, required(matches, LAYOUT), files)?;
    let wanted = wanted_of(alloc, matches, &layout)?;
    check_form(alloc, form, &wanted)?;
    let groups = groups_asked(alloc, matches, &layout, &wanted)?;
    let request = Request {
        form,
        layout,
        wanted,
        groups,
    };
    if !required(matches, BLOCK_OPTION).is_empty() {
        return tell_of_blocks(alloc, matches, request, files, out);
    }
    if required(matches, INTO).is_empty() || is_only_told(matches) {
        return ask_copy(alloc, matches, request, files, out, err);
    }
    ask_image(alloc, matches, request, files, out, err)
}

/// Asks a question of a device in memory, and prints the answer; or prints how it is understood; or writes a program of it.
fn ask_copy<'a, F: Files, O: Write, E: Write>(
    alloc: Global,
    matches: &ArgMatches<'a>,
    request: Request,
    files: &mut F,
    out: &mut O,
    err: &mut E,
) -> Result<(), Failure<'a>>
    ensures one { MakesAtMost (program_file matches.now) (F.made files.old) (F.made files.new) }
    ensures unmade { program_file matches.now ≡ [] → F.made files.new ≡ F.made files.old }
    ensures unchanged { program_file matches.now ≡ [] → F.contents files.new ≡ F.contents files.old }
    ensures kept { OnErr result (F.made files.new ≡ F.made files.old) }
    ensures contents { OnErr result (F.contents files.new ≡ F.contents files.old) }
    ensures unnoted { OnErr result (E.contents err.new ≡ E.contents err.old) }
{
    let form = request.form;
    let device = device_file::load_copy(alloc, required(matches, IMAGE), files)?;
    let plan = planned(alloc, matches, request, device.image())?;
    if is_explained(matches) {
        let mut text = explained(alloc, &plan.compiled)?;
        push_work(&plan, &mut text)?;
        return printed(out.write_all(text.as_bytes()));
    }
    if !required(matches, PROGRAM).is_empty() {
        return write_program(alloc, matches, &plan.compiled, files, out);
    }
    let mut asked = AskedDevice::new(alloc, device)?;
    answer(alloc, &mut asked, &plan, form, out)?;
    note_runs(&plan, err);
    Ok(())
}

/// Asks a question of the device of an image, prints the answer, and saves the image, of which a zone has it then.
fn ask_image<'a, F: Files, O: Write, E: Write>(
    alloc: Global,
    matches: &ArgMatches<'a>,
    request: Request,
    files: &mut F,
    out: &mut O,
    err: &mut E,
) -> Result<(), Failure<'a>>
    ensures one { MakesAtMost (image_of matches.now) (F.made files.old) (F.made files.new) }
    ensures others { OnOk result (KeepsOthers (image_of matches.now) (F.contents files.old) (F.contents files.new)) }
    ensures kept { OnErr result (F.made files.new ≡ F.made files.old) }
    ensures contents { OnErr result (F.contents files.new ≡ F.contents files.old) }
    ensures unnoted { OnErr result (E.contents err.new ≡ E.contents err.old) }
{
    let form = request.form;
    let path = required(matches, IMAGE);
    let device = device_file::load_to_replace::<Intervals, F>(alloc, path, files)?;
    let plan = planned(alloc, matches, request, device.image())?;
    image_file::check_place(path, files)?;
    let mut asked = AskedDevice::new(alloc, device)?;
    answer(alloc, &mut asked, &plan, form, out)?;
    image_file::save_changes(asked.image(), path, files)?;
    note_runs(&plan, err);
    Ok(())
}

/// How the question that the words ask is asked of a device with this image.
fn planned<'a>(
    alloc: Global,
    matches: &ArgMatches<'a>,
    request: Request,
    image: &Image,
) -> Result<Plan, Failure<'a>> {
    let argument = number(matches, ARGUMENT_OPTION)?;
    let source = source_asked(alloc, matches, image)?;
    let geometry = image.geometry();
    let compiled = compile_question(alloc, matches, request, geometry.block())?;
    let appends = !compiled.question.emitted.is_empty();
    let destination = destination_for(alloc, matches, image, source.zone, appends)?;
    let parts = compiled.parts.as_slice();
    let blocks = blocks_of_run(compiled.block, parts, appends, geometry.capacity());
    Ok(Plan {
        compiled,
        source,
        argument,
        destination,
        destination_lba: first_of(destination, geometry.size()),
        is_kept: !required(matches, INTO).is_empty(),
        blocks_of_run: blocks,
    })
}

/// The form in which the words ask for rows.
fn form_asked<'a>(alloc: Global, matches: &ArgMatches<'a>) -> Result<Form, Failure<'a>> {
    let csv = required(matches, CSV) == "true";
    let json = required(matches, JSON) == "true";
    let raw = required(matches, RAW) == "true";
    match (csv, json, raw) {
        (_, false, false) => Ok(Form::Lines),
        (false, true, false) => Ok(Form::Json),
        (false, false, true) => Ok(Form::Raw),
        _ => Err(refused(format!(in alloc;
            "--csv, --json and --raw are three forms of one answer; ask for one"
        ))),
    }
}

/// Refuses tallies as bytes.
fn check_form<'a>(alloc: Global, form: Form, wanted: &Wanted) -> Result<(), Failure<'a>> {
    match (form, wanted) {
        (Form::Raw, Wanted::Tallies(_)) => Err(refused(format!(in alloc;
            "--raw prints the bytes of records, and a tally has none; ask without --raw"
        ))),
        _ => Ok(()),
    }
}

/// Notes how often the zone was gone over, where that is more than once. Where it can't be noted, nobody can be told.
fn note_runs<E: Write>(plan: &Plan, err: &mut E) {
    let runs = plan.runs();
    if runs > 1 {
        let programs = Counted(plan.compiled.programs(), "program");
        let _told = writeln!(err, "note: {programs}, {runs} runs");
    }
}
