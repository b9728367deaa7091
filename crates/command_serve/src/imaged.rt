//! A stream that is served by the device of an image.

ghost use Rattle.std.specs.Prelude.{◌≡◌, IfErr, IfSome, OnErr, OnOk, None, Some};
ghost use Rattle.image_text.specs.Text.{text};
ghost use Rattle.command_files.specs.Surroundings.{ChangesOnly, around};
ghost use Rattle.command_images.specs.Images.{HasText, image_of};
ghost use Rattle.command_images.specs.UserTold.{IsUnheld};
ghost use Rattle.command_serve.specs.Served.{FailsImage, ServesImage};
ghost use Rattle.command_serve.specs.Streams.{IsAsked, IsReadyIn};

use crate::form::{Form, serve_in};
use crate::image_keeper::ImageKeeper;
use crate::told::told;
use clap::ArgMatches;
use command_files::arguments::required;
use command_files::{Failure, Files};
use command_images::device_file;
use command_images::image_file::{self, IMAGE};
use device_serve::KeptDevice;
use durable_device::Folding;
use durable_machine::InMemory;
use image_store::Image;
use std::alloc::Global;
use std::io::{Read, Write};

/// Does what a stream asks of the namespace of the image file, ends the runs that are left, and saves the image as they left it; or as
/// what was done left it by then, where the stream is served no further.
pub(crate) fn serve_image<'a, F: Files, I: Read, O: Write>(
    alloc: Global,
    matches: &ArgMatches<'a>,
    form: Form,
    files: &mut F,
    input: &mut I,
    out: &mut O,
) -> Result<(), Failure<'a>>
    requires asked { IsAsked matches.now form }
    requires ready { IsReadyIn form }
    ensures served { OnOk result (ServesImage F.Files (around F.Files F.Reader.tells F.Writer.tells files.old files.new) matches.now
        (I.remaining input.old) (O.contents out.old) (O.contents out.new)) }
    ensures stopped { IfErr result (FailsImage F.Files (around F.Files F.Reader.tells F.Writer.tells files.old files.new) matches.now
        (I.remaining input.old) (O.contents out.old) (O.contents out.new) (I.remaining input.new)) }
    ensures changes { ChangesOnly F.Files F.Writer.tells (image_of matches.now) files.old files.new }
{
    let path = required(matches, IMAGE);
    let device = device_file::load_to_replace(alloc, path, files)?;
    let mut kept = KeptDevice {
        device,
        events: InMemory,
        folded: 0,
        last_fold: Folding::Done,
    };
    let keeper = ImageKeeper {
        files,
        path,
        failure: None,
    };
    let (done, keeper) = serve_in(alloc, &mut kept, form, keeper, input, out);
    let ImageKeeper { files, failure, .. } = keeper;
    // No effect at run time. The proof reads what files there are from this use of `files`.
    let _ = &*files;
    save_at_last(kept.device.image(), path, files, failure)?;
    told(path, done)
}

/// Saves an image, unless saving one failed before.
fn save_at_last<'a, F: Files>(
    image: &Image,
    path: &'a str,
    files: &mut F,
    failure: Option<Failure<'a>>,
) -> Result<(), Failure<'a>>
    requires held { failure ≡ None → F.held files.old ≡ Some path.now }
    requires failed { IfSome failure (IsUnheld path) }
    ensures saved { OnOk result (HasText (around F.Files F.Reader.tells F.Writer.tells files.old files.new) path.now (text image.now)) }
    ensures failed { IfErr result (IsUnheld path.entry) }
    ensures none_made { OnErr result (F.made files.new ≡ F.made files.old) }
    ensures changes { ChangesOnly F.Files F.Writer.tells path.now files.old files.new }
{
    match failure {
        Some(failure) => Err(failure),
        None => image_file::save_changes(image, path, files),
    }
}
