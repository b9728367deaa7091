//! The command `upgrade`: an image in the last version.

ghost use Rattle.std.specs.Prelude.{◌≡◌, IfErr, OnOk, OnErr};
ghost use Rattle.command_files.specs.Crash.{LeavesOldOrNew};
ghost use Rattle.command_files.specs.Made.{KeepsModes, KeepsOthers, MakesOne};
ghost use Rattle.command_files.specs.Surroundings.{around};
ghost use Rattle.command_images.specs.Images.{AreAnew, MakesAnew, image_of};
ghost use Rattle.command_images.specs.UserTold.{ReplacingFails};

use crate::device_file;
use crate::image_file::{self, IMAGE};
use clap::ArgMatches;
use command_files::arguments::required;
use command_files::{Failure, Files};
use command_words::{Argument, Takes, Words};
use runner::Device;
use std::alloc::Global;

/// The command's name.
pub const NAME: &str = "upgrade";

const LONG_ABOUT: &str = "\
Loads an image, of version 1 or 2, and saves it as version 2 in its place. The namespace is the same: its \
zones, their states and their blocks. An image of version 2 stays as it is, byte for byte.

`exec` saves version 2 too, so that an image needs no upgrade to be worked on.

Of a journal, which `serve --durable` makes of an image, it makes an image of the zones as the events in it left them. Where its \
device has a program or a run, which no image keeps, it is refused (`device refused`).

Of a file that is no image, `image refused REASON` tells the first fault, and the file stays as it is.";

const EXAMPLE: &str = "\
Example:

  zscli upgrade zoned.img";

/// How the command stands on the command line.
pub static WORDS: Words = Words {
    name: NAME,
    about: "Saves an image in the last version",
    long_about: LONG_ABOUT,
    example: EXAMPLE,
    arguments: &[Argument {
        id: IMAGE,
        long: "",
        short: None,
        takes: Takes::Place,
        help: "The image, which is replaced",
    }],
    one_of: &[],
};

/// Makes one file, in the image file's place: the text of version 2 of the namespace that the image file's bytes stand
/// for. Where it fails, no file is made, and what is told is the first fault of these bytes, or by the file's name that
/// it can't be read or written. Every other file has the bytes that it had. A crash at any moment leaves the image file as it might have
/// been left before, or all of the new one.
///
/// # Errors
///
/// The image can't be read, is refused, or can't be written, or memory is wanting. The file is as it was
/// then, but for what [`Files::finish`] says.
pub fn upgrade<'a, F: Files>(
    alloc: Global,
    matches: &ArgMatches<'a>,
    files: &mut F,
) -> Result<(), Failure<'a>>
    ensures same { OnOk result (MakesAnew (around F.Files F.Reader.tells F.Writer.tells files.old files.new) (image_of matches.now)) }
    ensures failed { IfErr result (ReplacingFails F.Reader.tells (F.contents files.old (image_of matches.now)) (image_of matches.now)) }
    ensures made { OnOk result (MakesOne (image_of matches.now) (F.made files.old) (F.made files.new)) }
    ensures others { OnOk result (KeepsOthers (image_of matches.now) (F.contents files.old) (F.contents files.new)) }
    ensures kept { OnErr result (F.made files.new ≡ F.made files.old) }
    ensures crash { let held = F.contents files.old (image_of matches.now) in
        LeavesOldOrNew (image_of matches.now) (AreAnew F.Reader.tells F.Writer.tells held) (F.tried files.old) (F.tried files.new) }
    ensures contents { OnErr result (F.contents files.new ≡ F.contents files.old) }
    ensures modes { OnOk result (KeepsModes (F.modes files.old) (F.modes files.new)) }
{
    let path = required(matches, IMAGE);
    let device: Box<Device> = device_file::load_to_replace(alloc, path, files)?;
    image_file::save(device.image(), path, files)
}
