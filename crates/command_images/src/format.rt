//! The command `format`: a new image.

ghost use Rattle.std.specs.Prelude.{◌≡◌, ◌↔◌, ◌⊎◌, IfErr, IfOk, IsTrue, OnOk, OnErr, Some};
ghost use Rattle.command_files.specs.Crash.{LeavesOldOrNew};
ghost use Rattle.command_files.specs.Made.{KeepsModes, KeepsOthers, MakesOne};
ghost use Rattle.image_store.specs.Geometry.{tested};
ghost use Rattle.command_images.specs.Images.{AreEmpty, IsAskedFor, IsForced, IsReplaceable, MakesEmpty, image_of};
ghost use Rattle.command_images.specs.UserTold.{FormatFails, IsUnreplaced, RefusesShape};
ghost use Rattle.command_images.specs.steps.Beginnings.{may_begin};

use crate::image_file::{self, IMAGE};
use clap::ArgMatches;
use command_files::arguments::{BLOCK_ARGUMENT, BLOCK_OPTION, number, required};
use command_files::{Failure, Files, cannot_write};
use command_words::{Argument, Takes, Words};
use image_store::{Geometry, Image, Limits};
use image_text::Version;
use std::alloc::Global;

/// The command's name.
pub const NAME: &str = "format";

const ZONES: &str = "zones";

const SIZE: &str = "size";

const CAPACITY: &str = "capacity";

const OPEN: &str = "open";

const ACTIVE: &str = "active";

const FORCE: &str = "force";

/// The first bytes of an image, by which it is told from other files.
const MAGIC_BYTES: usize = 8;

const LONG_ABOUT: &str = "\
Writes an image: a namespace of zones of which nothing is written.

A file with this name is replaced, with all its data, where it is an image or has no bytes; any other only with --force. The \
new file has the permissions of the old one, and a link is followed. What is no ordinary file is refused, and so is an image \
that another command works on.

The blocks of a zone count towards its size; of these the first, as many as its capacity, can be \
written. At most so many zones are open at a time, and so many active.

Of numbers that are no geometry, `geometry refused REASON` tells what is wrong first: 1 the block size, 2 \
the number of zones (1 to 4096), 3 the size (1 to 16777216), 4 the capacity (1 to the size), 5 the \
limits (1 to the active limit, and that to the number of zones), 6 all in all more than 268435456 \
bytes. No file is written then.";

const EXAMPLE: &str = "\
Example: 4 zones of 8 blocks, 6 of them writable, at most 2 of the zones open and 3 active.

  zscli format zoned.img --block 512 --zones 4 --size 8 --capacity 6 --open 2 --active 3";

/// How the command stands on the command line.
pub static WORDS: Words = Words {
    name: NAME,
    about: "Writes an image of empty zones",
    long_about: LONG_ABOUT,
    example: EXAMPLE,
    arguments: &[
        Argument {
            id: IMAGE,
            long: "",
            short: None,
            takes: Takes::Place,
            help: "The image that is written; a file with this name is replaced, with all its data",
        },
        BLOCK_ARGUMENT,
        Argument {
            id: ZONES,
            long: ZONES,
            short: None,
            takes: Takes::Required("N"),
            help: "The number of zones",
        },
        Argument {
            id: SIZE,
            long: SIZE,
            short: None,
            takes: Takes::Required("S"),
            help: "Blocks of a zone",
        },
        Argument {
            id: CAPACITY,
            long: CAPACITY,
            short: None,
            takes: Takes::Required("C"),
            help: "Blocks of a zone that can be written",
        },
        Argument {
            id: OPEN,
            long: OPEN,
            short: None,
            takes: Takes::Required("O"),
            help: "The most zones that are open at a time",
        },
        Argument {
            id: ACTIVE,
            long: ACTIVE,
            short: None,
            takes: Takes::Required("A"),
            help: "The most zones that are active at a time",
        },
        Argument {
            id: FORCE,
            long: FORCE,
            short: None,
            takes: Takes::Nothing,
            help: "Replaces a file whose bytes are no image too",
        },
    ],
    one_of: &[],
};

/// Makes one file, in the image file's place: the text of a namespace of which nothing is written, of the shape whose
/// numbers the options spell, which passes the tests. Bytes that are no image are replaced by force alone. Where it
/// fails, no file is made, and what is told is the option whose word spells no number, the first test that the numbers
/// fail, or the file's name. Every other file has the bytes that it had. A crash at any moment leaves the image file as it might have
/// been left before, or all of the new one.
///
/// # Errors
///
/// A word is no number, the numbers are no geometry, the image can't be written, or memory is wanting; also where a file has
/// bytes that are no image, unless it is asked for by force. No file is made then, but for what [`Files::finish`] says.
pub fn format<'a, F: Files>(
    alloc: Global,
    matches: &ArgMatches<'a>,
    files: &mut F,
) -> Result<(), Failure<'a>>
    ensures empty { OnOk result (MakesEmpty F.Writer.tells matches.now (image_of matches.now) (F.made files.old) (F.made files.new)) }
    ensures replaceable { OnOk result (IsForced matches.now ⊎ IsReplaceable (F.contents files.old (image_of matches.now))) }
    ensures failed { IfErr result (FormatFails matches.now (F.contents files.old (image_of matches.now)) (image_of matches.now)) }
    ensures made { OnOk result (MakesOne (image_of matches.now) (F.made files.old) (F.made files.new)) }
    ensures others { OnOk result (KeepsOthers (image_of matches.now) (F.contents files.old) (F.contents files.new)) }
    ensures kept { OnErr result (F.made files.new ≡ F.made files.old) }
    ensures crash { LeavesOldOrNew (image_of matches.now) (AreEmpty F.Writer.tells matches.now) (F.tried files.old) (F.tried files.new) }
    ensures contents { OnErr result (F.contents files.new ≡ F.contents files.old) }
    ensures modes { OnOk result (KeepsModes (F.modes files.old) (F.modes files.new)) }
{
    let geometry = geometry(matches)?;
    let path = required(matches, IMAGE);
    hold_to_format(path, is_forced(matches), files)?;
    let image = Image::empty(alloc, geometry)?;
    image_file::save(&image, path, files)
}

/// Holds the name of a file that may be replaced by a new image: by force, or since it has no bytes or those of an image.
fn hold_to_format<'a, F: Files>(
    path: &'a str,
    by_force: bool,
    files: &mut F,
) -> Result<(), Failure<'a>>
    ensures made { F.made files.new ≡ F.made files.old }
    ensures contents { F.contents files.new ≡ F.contents files.old }
    ensures modes { F.modes files.new ≡ F.modes files.old }
    ensures tried { F.tried files.new ≡ F.tried files.old }
    ensures held { OnOk result (F.held files.new ≡ Some path.now) }
    ensures replaceable { OnOk result (IsTrue by_force ⊎ IsReplaceable (F.contents files.old path.now)) }
    ensures failed { IfErr result (IsUnreplaced (IsTrue by_force) (F.contents files.old path.now) path.entry) }
{
    if let Err(fault) = files.hold(path) {
        return Err(cannot_write(path, fault));
    }
    if by_force {
        return Ok(());
    }
    match files.first_bytes(path, MAGIC_BYTES) {
        Ok(first) if may_begin(first.as_slice()) => Ok(()),
        Ok(_) => Err(Failure::NotAnImage(path)),
        Err(fault) => Err(cannot_write(path, fault)),
    }
}

/// Are these the first bytes of a file that has none, or of an image?
fn may_begin(first: &[u8]) -> bool
    ensures { result ≡ may_begin first.now }
{
    first.is_empty()
        || first == Version::One.magic().as_slice()
        || first == Version::Two.magic().as_slice()
}

/// Is it asked for by force?
fn is_forced<'a>(matches: &ArgMatches<'a>) -> bool
    ensures { IsTrue result ↔ IsForced matches.now }
{
    required(matches, FORCE) == "true"
}

/// The geometry that the options spell, or what the user is told of these numbers.
fn geometry<'a>(matches: &ArgMatches<'a>) -> Result<Geometry, Failure<'a>>
    ensures asked { IfOk result (λ shape. IsAskedFor matches.now shape) }
    ensures passes { IfOk result (λ shape. tested shape ≡ Ok shape) }
    ensures refused { IfErr result (RefusesShape matches.now) }
{
    let block = number(matches, BLOCK_OPTION)?;
    let zones = number(matches, ZONES)?;
    let size = number(matches, SIZE)?;
    let capacity = number(matches, CAPACITY)?;
    let limits = Limits {
        open_limit: number(matches, OPEN)?,
        active_limit: number(matches, ACTIVE)?,
    };
    match Geometry::new(block, zones, size, capacity, limits) {
        Ok(geometry) => Ok(geometry),
        Err(refusal) => Err(Failure::GeometryRefused(refusal)),
    }
}
