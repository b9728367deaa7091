//! The command `fold`: the events of a journal become a part of its base.

ghost use Rattle.std.specs.Prelude.{◌≡◌, ℕ, List, Option, IfErr, IfOk, IfSome, IsNone, None, Ok, OnErr, OnOk, Some};
ghost use Rattle.stored_file.specs.File.{LeavesOnly};
ghost use Rattle.durable_device.specs.Kept.{IsKept, IsKeptInBase, StandsFor};
ghost use Rattle.command_files.specs.Crash.{LeavesOldOrNew};
ghost use Rattle.command_files.specs.Surroundings.{KeepsAll, MayReplace};
ghost use Rattle.command_images.specs.Images.{image_of};
ghost use Rattle.command_serve.specs.Folding.{Folds, FoldsJournal, IsntFolded};
ghost use Rattle.command_serve.specs.Opening.{FailsToOpen, Opens};
ghost use Rattle.command_serve.specs.Salvaging.{AreSaved, IsNewFile, Salvages, SalvagingFails, made_by, target_of};
ghost use Rattle.command_serve.specs.steps.Told.{TellsUnfolded};

use crate::DurableFiles;
use crate::opening::{failed, is_journal};
use crate::pieces::reopen;
use crate::salvaging::salvage;
use clap::ArgMatches;
use command_files::arguments::required;
use command_files::{Failure, FileCause, Files};
use command_images::image_file::{self, IMAGE};
use command_words::{Argument, Takes, Words};
use device_serve::KeptDevice;
use durable_device::{DurableDevice, Folding};
use std::alloc::Global;
use std::io::Write;
use stored_file::{FileError, StoredFile};

/// The command's name.
pub const NAME: &str = "fold";

/// The option that names the file that is made of what is whole.
pub const SALVAGE: &str = "salvage";

const LONG_ABOUT: &str = "\
Makes of a journal, as `serve --durable` writes it, a new base, which has the device as the events behind the old one left it, with its \
programs, results and runs, and an empty journal. The new file is written beside the old one, as IMAGE.unfinished, and takes its place \
when it is whole. So the file is no longer than its device wants, and is opened as fast as that is read. An image that is no journal \
stays as it is.

With --salvage TO a new file is made, and IMAGE isn't changed. It has the device after the batches of IMAGE's journal that are whole, also \
where IMAGE is damaged (`journal refused BYTE`) and isn't opened. How many these are is printed, and how many others are whole after them: \
these are left out, since they say what happened to a device that isn't known. A file TO that has bytes isn't replaced.

No other command works on the image meanwhile: one that tries to is told that it is in use.";

const EXAMPLE: &str = "\
Example, of a frame by which zone 3 becomes read only, as `serve --help` has it:

  zscli format zoned.img --block 512 --zones 4 --size 64 --capacity 64 --open 3 --active 3
  printf '\\3\\1\\0\\0\\3\\0\\0\\0\\0\\0\\0\\0\\0\\0\\0\\0' | zscli serve zoned.img --durable --frames | xxd
  zscli fold zoned.img
  zscli fold zoned.img --salvage saved.img";

/// How the command stands on the command line.
pub static WORDS: Words = Words {
    name: NAME,
    about: "Makes of a journal's base and events a new base",
    long_about: LONG_ABOUT,
    example: EXAMPLE,
    arguments: &[
        Argument {
            id: IMAGE,
            long: "",
            short: None,
            takes: Takes::Place,
            help: "The image, which `serve --durable` writes as a journal",
        },
        Argument {
            id: SALVAGE,
            long: SALVAGE,
            short: None,
            takes: Takes::Optional("TO"),
            help: "Makes a new file TO of the batches that are whole, and leaves IMAGE as it is",
        },
    ],
    one_of: &[],
};

/// Folds the journal of the image file into a new base. An image that is no journal stays as it is. Or, where it is asked for, makes a new
/// file of what is whole of the journal, and leaves the image file as it is: a crash at any moment leaves of the new one what might have
/// been left before, or all of it.
///
/// # Errors
///
/// The file is in use, can't be read or written, or is refused; the new file is there already, or can't be written; standard output
/// fails; or memory is wanting.
pub fn fold<'a, F: DurableFiles, O: Write>(
    alloc: Global,
    matches: &ArgMatches<'a>,
    files: &mut F,
    out: &mut O,
) -> Result<(), Failure<'a>>
    ensures folded { let path = image_of matches.now in target_of matches.now ≡ None
        → OnOk result (Folds F.Stored.told F.Reader.tells (F.contents files.old path) (F.contents files.new path)) }
    ensures failed { let path = image_of matches.now in target_of matches.now ≡ None
        → IfErr result (IsntFolded F.Stored.told F.Reader.tells path (F.contents files.old path)) }
    ensures silent { target_of matches.now ≡ None → O.contents out.new ≡ O.contents out.old }
    ensures salvaged { let held = F.contents files.old (image_of matches.now) in
        IfSome (target_of matches.now) (λ to. OnOk result (Salvages F.Writer.tells held to
        (F.made files.old) (F.made files.new) (O.contents out.old) (O.contents out.new))) }
    ensures new_file { let path = image_of matches.now in
        IfSome (target_of matches.now) (λ to. OnOk result (IsNewFile path to (F.contents files.old to))) }
    ensures unsalvaged { let path = image_of matches.now in
        IfSome (target_of matches.now) (λ to. IfErr result (SalvagingFails (F.contents files.old path) path to)) }
    ensures crash { let held = F.contents files.old (image_of matches.now) in
        IfSome (target_of matches.now) (λ to.
        LeavesOldOrNew to (AreSaved F.Writer.tells held) (F.tried files.old) (F.tried files.new)) }
    ensures replaced { OnOk result (MayReplace F.Files (made_by matches.now) files.old files.new) }
    ensures kept { OnErr result (KeepsAll F.Files files.old files.new) }
{
    let path = required(matches, IMAGE);
    match matches.get_str(SALVAGE) {
        Some(to) => salvage(alloc, path, to, files, out),
        None => fold_image(alloc, path, files),
    }
}

/// Folds the journal of the file with this name.
fn fold_image<'a, F: DurableFiles>(
    alloc: Global,
    path: &'a str,
    files: &mut F,
) -> Result<(), Failure<'a>>
    ensures folded { OnOk result
        (Folds F.Stored.told F.Reader.tells (F.contents files.old path.now) (F.contents files.new path.now)) }
    ensures failed { IfErr result (IsntFolded F.Stored.told F.Reader.tells path.now (F.contents files.old path.now)) }
    ensures replaced { OnOk result (MayReplace F.Files path.now files.old files.new) }
    ensures kept { OnErr result (KeepsAll F.Files files.old files.new) }
{
    image_file::hold(path, files)?;
    if is_journal(path, files)? {
        fold_held(alloc, path, files)
    } else {
        // An image has no journal to be folded.
        let _image = image_file::load_held(alloc, path, files)?;
        Ok(())
    }
}

/// Folds the journal of the file whose name is held.
fn fold_held<'a, F: DurableFiles>(
    alloc: Global,
    path: &'a str,
    files: &mut F,
) -> Result<(), Failure<'a>>
    requires { F.held files.old ≡ Some path.now }
    ensures folded { OnOk result (FoldsJournal F.Stored.told (F.contents files.old path.now) (F.contents files.new path.now)) }
    ensures failed { IfErr result (IsntFolded F.Stored.told F.Reader.tells path.now (F.contents files.old path.now)) }
    ensures replaced { OnOk result (MayReplace F.Files path.now files.old files.new) }
    ensures kept { OnErr result (KeepsAll F.Files files.old files.new) }
{
    let device = reopen(alloc, path, files)?;
    let file = folded(alloc, path, device)?;
    files.keep(path, file)?;
    Ok(())
}

/// The file of a durable device whose journal is folded.
fn folded<'a, S: StoredFile + Drop>(
    alloc: Global,
    path: &'a str,
    device: DurableDevice<S>,
) -> Result<S, Failure<'a>>
    requires { IsKept device.store.machine device.store.events.journal.gate (S.told device.store.events.journal.file) }
    ensures kept { IfOk result (λ file. (gate : ℕ) × IsKeptInBase device.store.machine gate (S.told file)) }
    ensures any_moment { IfOk result (λ file.
        LeavesOnly (S.told device.store.events.journal.file) (S.told file) (λ c. StandsFor c device.store.machine)) }
    ensures failed { (contents : Option (List ℕ)) → Opens S.told contents (S.told device.store.events.journal.file) device.store.machine
        → IfErr result (FailsToOpen S.told contents path.now) }
{
    let mut kept = KeptDevice::opened(alloc, device);
    let came = kept.fold(alloc);
    match unfolded(path, came) {
        None => Ok(kept.into_file()),
        Some(failure) => Err(failure),
    }
}

/// What the user is told of a journal that isn't folded.
fn unfolded<'a>(path: &'a str, came: Result<Folding, FileError>) -> Option<Failure<'a>>
    ensures none { IsNone result → came ≡ Ok Folding.Done }
    ensures told { IfSome result (TellsUnfolded came path.now) }
{
    match came {
        Ok(Folding::Done) => None,
        Ok(Folding::NoRoom) => Some(Failure::CannotWrite(path, FileCause::NoNewFile)),
        Ok(Folding::NoMemory) => Some(Failure::NoMemory),
        Err(error) => Some(failed(path, error)),
    }
}
