//! The command `entries` with the blocks of an image.

ghost use Rattle.std.specs.Prelude.{◌≡◌};

use clap::ArgMatches;
use command_entry::entries;
use command_files::arguments::{BLOCK_OPTION, block_size, number_or_hexadecimal};
use command_files::{Failure, Files};
use command_images::device_file::{self, DeviceTable};
use image_store::Geometry;
use program_interface::BlockSize;
use std::alloc::Global;

/// The size of a block where a line says nothing of it: that of the image that the words name, with its geometry, or else the one that
/// they give.
///
/// # Errors
///
/// The image can't be read or is refused, no block has as many bytes, or memory is wanting.
pub fn asked_block<'a, F: Files>(
    alloc: Global,
    matches: &ArgMatches<'a>,
    files: &mut F,
) -> Result<(BlockSize, Option<Geometry>), Failure<'a>>
    ensures made { F.made files.new ≡ F.made files.old }
    ensures contents { F.contents files.new ≡ F.contents files.old }
{
    match matches.get_str(entries::IMAGE) {
        Some(path) => block_in(alloc, path, files),
        None => block_of(matches),
    }
}

/// The size of a block of the image with this name, with its geometry.
fn block_in<'a, F: Files>(
    alloc: Global,
    path: &'a str,
    files: &mut F,
) -> Result<(BlockSize, Option<Geometry>), Failure<'a>>
    ensures made { F.made files.new ≡ F.made files.old }
    ensures contents { F.contents files.new ≡ F.contents files.old }
{
    let read = device_file::load_table(alloc, path, files)?;
    let geometry = geometry_in(&read);
    Ok((geometry.block(), Some(geometry)))
}

/// The size of a block that the words give.
fn block_of<'a>(matches: &ArgMatches<'a>) -> Result<(BlockSize, Option<Geometry>), Failure<'a>> {
    let block = block_size(number_or_hexadecimal(matches, BLOCK_OPTION)?)?;
    Ok((block, None))
}

/// The geometry of an image whose zones were read.
fn geometry_in(read: &DeviceTable) -> Geometry
    ensures { result ≡ read.now.table.geometry }
{
    read.table.geometry
}
