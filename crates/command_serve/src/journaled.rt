//! A stream that is served by the device of a journal.

ghost use Rattle.std.specs.Prelude.{IfErr, OnOk};
ghost use Rattle.command_files.specs.Made.{KeepsModes, KeepsOthers, MakesOnly};
ghost use Rattle.command_images.specs.Images.{image_of};
ghost use Rattle.command_serve.specs.Served.{FailsDurably, ServesDurably};
ghost use Rattle.command_serve.specs.Streams.{IsAsked, IsReadyIn};

use crate::DurableFiles;
use crate::form::{Form, serve_in};
use crate::opening::open;
use crate::told::told;
use clap::ArgMatches;
use command_files::Failure;
use command_files::arguments::required;
use command_images::image_file::IMAGE;
use device_serve::{KeepsNothing, KeptDevice};
use std::alloc::Global;
use std::io::{Read, Write};

/// Does what a stream asks of the device that the image file stands for, which is made durable where it is an image yet, and ends the runs
/// that are left: nothing is answered before it is on the disk.
pub(crate) fn serve_journal<'a, F: DurableFiles, I: Read, O: Write>(
    alloc: Global,
    matches: &ArgMatches<'a>,
    form: Form,
    files: &mut F,
    input: &mut I,
    out: &mut O,
) -> Result<(), Failure<'a>>
    requires asked { IsAsked matches.now form }
    requires ready { IsReadyIn form }
    ensures served { let path = image_of matches.now in
        OnOk result (ServesDurably F.Stored.told (F.contents files.old path) (F.contents files.new path) matches.now
        (I.remaining input.old) (O.contents out.old) (O.contents out.new)) }
    ensures stopped { let path = image_of matches.now in
        IfErr result (FailsDurably F.Stored.told (F.contents files.old path) (F.contents files.new path) matches.now
        (I.remaining input.old) (O.contents out.old) (O.contents out.new) (I.remaining input.new)) }
    ensures made { MakesOnly (image_of matches.now) (F.made files.old) (F.made files.new) }
    ensures others { KeepsOthers (image_of matches.now) (F.contents files.old) (F.contents files.new) }
    ensures modes { KeepsModes (F.modes files.old) (F.modes files.new) }
{
    let path = required(matches, IMAGE);
    let device = open(alloc, path, files)?;
    let mut kept = KeptDevice::opened(alloc, device);
    let (done, _keeper) = serve_in(alloc, &mut kept, form, KeepsNothing, input, out);
    files.keep(path, kept.into_file())?;
    told(path, done)
}
