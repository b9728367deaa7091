//! The command `zones`: the states of an image's zones.

ghost use Rattle.std.specs.Prelude.{◌≡◌, OnOk};
ghost use Rattle.std.specs.Io.KnownBytes.{Appends};
ghost use Rattle.command_images.specs.Images.{image_of};
ghost use Rattle.command_images.specs.Zones.{PrintsZones, zone_line, zone_lines_from};

use crate::device_file;
use crate::image_file::IMAGE;
use clap::ArgMatches;
use command_files::arguments::required;
use command_files::{Failure, Files, printed};
use command_words::{Argument, Takes, Words};
use std::alloc::Global;
use std::io::{self, Write};
use zone_state::Zone;

/// The command's name.
pub const NAME: &str = "zones";

const LONG_ABOUT: &str = "\
Prints the zones of an image, each on a line: its number, its state and how many of its blocks are \
written.

The states: empty, implicit and explicit (opened by a write, and by a command), closed, readonly, \
full, offline.

Of an image no block is read: the length of the file says whether all are there. Of a journal, which `serve --durable` makes of an \
image, they are the zones as the events in it left them. Of a file that is no image, `image refused REASON` tells the first fault.";

const EXAMPLE: &str = "\
Example:

  zscli zones zoned.img";

/// How the command stands on the command line.
pub static WORDS: Words = Words {
    name: NAME,
    about: "Prints the states of an image's zones",
    long_about: LONG_ABOUT,
    example: EXAMPLE,
    arguments: &[Argument {
        id: IMAGE,
        long: "",
        short: None,
        takes: Takes::Place,
        help: "The image",
    }],
    one_of: &[],
};

/// Prints the zones of the namespace that the image file's bytes stand for, in order, each on a line and nothing else: its
/// number, the word for its state and how many of its blocks are written. It makes no file: each has the bytes that it had.
///
/// # Errors
///
/// The image can't be read or is refused, standard output fails, or memory is wanting.
pub fn zones<'a, F: Files, O: Write>(
    alloc: Global,
    matches: &ArgMatches<'a>,
    files: &mut F,
    out: &mut O,
) -> Result<(), Failure<'a>>
    ensures printed { let bytes = F.contents files.old (image_of matches.now) in
        OnOk result (PrintsZones F.Reader.tells bytes (O.contents out.old) (O.contents out.new)) }
    ensures made { F.made files.new ≡ F.made files.old }
    ensures contents { F.contents files.new ≡ F.contents files.old }
{
    let found = device_file::load_table(alloc, required(matches, IMAGE), files)?;
    printed(print(&found.table.zones, out))
}

/// Prints each zone on a line.
fn print<O: Write>(zones: &[Zone], out: &mut O) -> io::Result<()>
    ensures { OnOk result (Appends (O.contents out.old) (O.contents out.new) (zone_lines_from 0 zones.now)) }
{
    for (number, zone) in zones.iter().enumerate() {
        print_zone(number, zone, out)?;
    }
    Ok(())
}

/// Prints a zone on a line.
fn print_zone<O: Write>(number: usize, zone: &Zone, out: &mut O) -> io::Result<()>
    ensures { OnOk result (Appends (O.contents out.old) (O.contents out.new) (zone_line number zone.now)) }
{
    let state = zone.state().word();
    let written = zone.written();
    writeln!(out, "{number} {state} {written}")
}
