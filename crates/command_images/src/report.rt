//! The command `report`: an image's geometry, its limits and its zones, as tools for zoned block devices have them.

ghost use Rattle.std.specs.Prelude.{◌≡◌};

use crate::device_file::{self, DeviceTable};
use crate::image_file::IMAGE;
use crate::map::push_map;
use clap::ArgMatches;
use command_files::arguments::required;
use command_files::{Failure, Files, printed};
use command_words::{Argument, Takes, Words};
use image_text::ZoneTable;
use std::alloc::{AllocError, Global};
use std::io::Write;
use zone_state::{Zone, ZoneState};

/// The command's name.
pub const NAME: &str = "report";

const JSON: &str = "json";

const MAP: &str = "map";

const COLOR: &str = "color";

/// When a map has colors: the words of its option.
const WHEN: &[&str] = &["auto", "always", "never"];

const LONG_ABOUT: &str = "\
Prints an image's geometry and how much of its limits is in use, on the first line, and behind it each zone on a line, \
as `blkzone report` of Linux has it. All lengths and addresses are in logical blocks, not in sectors of 512 bytes.

  start      the zone's lowest logical block address
  len, cap   how many blocks the zone has, and how many of them can be written
  wptr       the write pointer, counted from the zone's start: how many blocks are written, of a full zone `len`
  zcond      the zone's state: 1(em) empty, 2(oi) opened by a write, 3(oe) opened by a command, 4(cl) closed, 13(ro) read only, \
14(fu) full, 15(of) offline

No zone wants a reset or is written out of order, and all have the same type.

With --json one JSON object is printed, on a line: `block_bytes`, `zone_count`, `zone_size` and `zone_capacity` in blocks, \
`open_zones` and `open_limit`, `active_zones` and `active_limit`, and `zones`, a list with an object for each zone: its \
`number`, its `start`, its `state` as `zscli zones` prints it, its `condition`, the state's number, and `written`, how many of its \
blocks are written.

With --map each zone is drawn on a line: its number, the letter of its state, a bar of its written blocks, and how many of those \
that can be written are. The letters are e empty, i opened by a write, o opened by a command, c closed, f full, r read only and x offline, \
each with a color on a terminal. `<3` after them is run 3 where it reads the zone, and `>3` where it appends to it, as a journal keeps runs.

Of an image no block is read: the length of the file says whether all are there. Of a journal, which `serve --durable` makes of an \
image, it prints what the events in it left. Of a file that is no image, `image refused REASON` tells the first fault.";

const EXAMPLE: &str = "\
Example:

  zscli report zoned.img";

/// How the command stands on the command line.
pub static WORDS: Words = Words {
    name: NAME,
    about: "Prints an image's geometry, limits and zones, or draws them",
    long_about: LONG_ABOUT,
    example: EXAMPLE,
    arguments: &[
        Argument {
            id: IMAGE,
            long: "",
            short: None,
            takes: Takes::Place,
            help: "The image",
        },
        Argument {
            id: JSON,
            long: JSON,
            short: None,
            takes: Takes::Nothing,
            help: "Print one JSON object",
        },
        Argument {
            id: MAP,
            long: MAP,
            short: None,
            takes: Takes::Nothing,
            help: "Draw the zones; --json goes first",
        },
        Argument {
            id: COLOR,
            long: COLOR,
            short: None,
            takes: Takes::OneOf("WHEN", "auto", WHEN),
            help: "When a map has colors; auto: on a terminal, unless NO_COLOR is set",
        },
    ],
    one_of: &[],
};

/// Runs the command, which makes no file: each has the bytes that it had. What is printed isn't said. On a terminal that shows colors a
/// map has them, where the words don't say otherwise.
///
/// # Errors
///
/// The image can't be read or is refused, standard output fails, or memory is wanting.
pub fn report<'a, F: Files, O: Write>(
    alloc: Global,
    matches: &ArgMatches<'a>,
    terminal: bool,
    files: &mut F,
    out: &mut O,
) -> Result<(), Failure<'a>>
    ensures made { F.made files.new ≡ F.made files.old }
    ensures contents { F.contents files.new ≡ F.contents files.old }
{
    let found = device_file::load_table(alloc, required(matches, IMAGE), files)?;
    let text = if matches.get_flag(JSON) {
        document_of(alloc, &found.table)?
    } else if matches.get_flag(MAP) {
        map_of(alloc, &found, has_color(matches, terminal))?
    } else {
        lines_of(alloc, &found.table)?
    };
    printed(out.write_all(text.as_bytes()))
}

/// The geometry and how much of the limits is in use on a line, and each zone on one behind it.
fn lines_of(alloc: Global, table: &ZoneTable) -> Result<String, AllocError> {
    let size = table.geometry.size();
    let mut lines = String::new(alloc);
    push_geometry(table, &mut lines)?;
    for (number, zone) in table.zones.iter().enumerate() {
        push_zone(start_of(number, size), size, zone, &mut lines)?;
    }
    Ok(lines)
}

/// Does a map have colors?
fn has_color(matches: &ArgMatches<'_>, terminal: bool) -> bool {
    match required(matches, COLOR) {
        "always" => true,
        "never" => false,
        _ => terminal,
    }
}

/// The geometry and how much of the limits is in use on a line, and then each zone, drawn on a line.
fn map_of(alloc: Global, found: &DeviceTable, colored: bool) -> Result<String, AllocError> {
    let mut map = String::new(alloc);
    push_geometry(&found.table, &mut map)?;
    push_map(&found.table, found.runs.as_slice(), colored, &mut map)?;
    Ok(map)
}

/// Adds the geometry and how much of the limits is in use.
fn push_geometry(table: &ZoneTable, out: &mut String) -> Result<(), AllocError> {
    let geometry = table.geometry;
    let limits = geometry.limits();
    let counts = table.counts();
    let size = geometry.size();
    writeln!(
        out,
        "block {} bytes, {} zones of {size} blocks, capacity {} blocks, open {} of {}, active {} of {}",
        geometry.block().bytes(),
        geometry.zones(),
        geometry.capacity(),
        counts.opened,
        limits.open_limit,
        counts.active,
        limits.active_limit
    )
}

/// The lowest logical block address of the zone with this number, in zones of so many blocks.
// There are at most 4096 zones, which the type of a table doesn't say.
fn start_of(number: usize, size: u32) -> u64 {
    (number as u64).saturating_mul(u64::from(size))
}

/// Adds a zone that begins at this address and has so many blocks.
fn push_zone(start: u64, size: u32, zone: &Zone, out: &mut String) -> Result<(), AllocError> {
    let capacity = zone.capacity();
    let pointer = match zone.state() {
        ZoneState::Full => size,
        _ => zone.written(),
    };
    let code = zone.state().code();
    let short = short_name(zone.state());
    writeln!(
        out,
        "  start: {start:#011x}, len {size:#08x}, cap {capacity:#08x}, wptr {pointer:#08x} reset:0 non-seq:0, \
         zcond:{code:2}({short}) [type: 2(SEQ_WRITE_REQUIRED)]"
    )
}

/// The two letters by which `blkzone` of Linux tells a state.
fn short_name(state: ZoneState) -> &'static str {
    match state {
        ZoneState::Empty => "em",
        ZoneState::ImplicitlyOpened => "oi",
        ZoneState::ExplicitlyOpened => "oe",
        ZoneState::Closed => "cl",
        ZoneState::ReadOnly => "ro",
        ZoneState::Full => "fu",
        ZoneState::Offline => "of",
    }
}

/// The same as one JSON object on a line. Its values are numbers, and words of lower case letters alone.
fn document_of(alloc: Global, table: &ZoneTable) -> Result<String, AllocError> {
    let size = table.geometry.size();
    let mut document = String::new(alloc);
    push_fields(table, &mut document)?;
    for (number, zone) in table.zones.iter().enumerate() {
        if number > 0 {
            document.push_str(",")?;
        }
        push_object(number, start_of(number, size), zone, &mut document)?;
    }
    document.push_str("]}\n")?;
    Ok(document)
}

/// Adds the fields of the image, up to the list of its zones.
fn push_fields(table: &ZoneTable, out: &mut String) -> Result<(), AllocError> {
    let geometry = table.geometry;
    let limits = geometry.limits();
    let counts = table.counts();
    let size = geometry.size();
    write!(
        out,
        "{{\"block_bytes\":{},\"zone_count\":{},\"zone_size\":{size},\"zone_capacity\":{},\"open_zones\":{},\"open_limit\":{},\
         \"active_zones\":{},\"active_limit\":{},\"zones\":[",
        geometry.block().bytes(),
        geometry.zones(),
        geometry.capacity(),
        counts.opened,
        limits.open_limit,
        counts.active,
        limits.active_limit
    )
}

/// Adds the object of a zone.
fn push_object(number: usize, start: u64, zone: &Zone, out: &mut String) -> Result<(), AllocError> {
    let state = zone.state().word();
    let code = zone.state().code();
    let written = zone.written();
    write!(
        out,
        "{{\"number\":{number},\"start\":{start},\"state\":\"{state}\",\"condition\":{code},\"written\":{written}}}"
    )
}
