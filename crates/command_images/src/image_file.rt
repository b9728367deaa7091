//! Images in files.

ghost use Rattle.std.specs.Prelude.{◌≡◌, ◌≢◌, IfOk, IfErr, OnOk, OnErr, Some};
ghost use Rattle.image_text.specs.Reading.{namespace_in};
ghost use Rattle.image_text.specs.Text.{text};
ghost use Rattle.command_files.specs.Crash.{AreWritten, LeavesOldOrNew};
ghost use Rattle.command_files.specs.Made.{KeepsModes, KeepsOthers, MakesAtMost, MakesOne, then_made};
ghost use Rattle.command_files.specs.Surroundings.{around};
ghost use Rattle.command_files.specs.UserTold.{IsUnread, IsUnwritten};
ghost use Rattle.command_images.specs.Images.{HasText, StandFor};
ghost use Rattle.command_images.specs.UserTold.{IsUnheld, LoadingFails};
ghost use Rattle.command_images.specs.steps.Texts.{TellsWhether};
ghost use Rattle.command_images.specs.steps.Told.{told_of_image};

use command_files::{Failure, FileCause, FileFault, Files, cannot_read, cannot_write};
use image_store::Image;
use image_text::{ImageText, LoadFault, Source, StreamFault};
use std::alloc::Global;

/// The argument that names the file of an image.
pub const IMAGE: &str = "IMAGE";

/// Holds the name of a file that is to be read and replaced.
///
/// # Errors
///
/// Another command holds the file, it is no ordinary one, it can't be opened, or memory is wanting.
pub fn hold<'a, F: Files>(path: &'a str, files: &mut F) -> Result<(), Failure<'a>>
    ensures made { F.made files.new ≡ F.made files.old }
    ensures contents { F.contents files.new ≡ F.contents files.old }
    ensures modes { F.modes files.new ≡ F.modes files.old }
    ensures tried { F.tried files.new ≡ F.tried files.old }
    ensures held { OnOk result (F.held files.new ≡ Some path.now) }
    ensures failed { IfErr result (IsUnheld path.entry) }
    ensures not_printing { result ≢ Err Failure.CannotPrint }
{
    match files.hold(path) {
        Ok(()) => Ok(()),
        Err(fault) => Err(cannot_hold(path, fault)),
    }
}

/// The failure of holding a file: what keeps it from being replaced is told as that.
fn cannot_hold<'a>(path: &'a str, fault: FileFault) -> Failure<'a>
    ensures failed { IsUnheld path.entry result }
    ensures not_printing { result ≢ Failure.CannotPrint }
{
    match fault {
        FileFault::Failed(FileCause::InUse | FileCause::NotOrdinary) => cannot_write(path, fault),
        _ => cannot_read(path, fault),
    }
}

/// The image that a file holds: where its bytes are known, the one that they stand for, or else their first fault is
/// told. Each file has the bytes that it had.
///
/// # Errors
///
/// The file can't be read, its first fault as an image, or want of memory.
pub fn load<'a, F: Files>(alloc: Global, path: &'a str, files: &mut F) -> Result<Image, Failure<'a>>
    ensures made { F.made files.new ≡ F.made files.old }
    ensures contents { F.contents files.new ≡ F.contents files.old }
    ensures modes { F.modes files.new ≡ F.modes files.old }
    ensures image { F.Reader.tells → IfOk result (StandFor (F.contents files.old path.now)) }
    ensures failed { IfErr result (LoadingFails F.Reader.tells (F.contents files.old path.now) path.now) }
    ensures not_printing { result ≢ Err Failure.CannotPrint }
{
    match files.open(path) {
        Ok(mut file) => load_from(alloc, path, &mut file),
        Err(fault) => Err(cannot_read(path, fault)),
    }
}

/// The image of the file whose name is held.
///
/// # Errors
///
/// The file can't be read, its first fault as an image, or want of memory.
pub fn load_held<'a, F: Files>(
    alloc: Global,
    path: &'a str,
    files: &mut F,
) -> Result<Image, Failure<'a>>
    requires { F.held files.old ≡ Some path.now }
    ensures made { F.made files.new ≡ F.made files.old }
    ensures contents { F.contents files.new ≡ F.contents files.old }
    ensures modes { F.modes files.new ≡ F.modes files.old }
    ensures tried { F.tried files.new ≡ F.tried files.old }
    ensures held { F.held files.new ≡ F.held files.old }
    ensures image { F.Reader.tells → IfOk result (StandFor (F.contents files.old path.now)) }
    ensures failed { IfErr result (LoadingFails F.Reader.tells (F.contents files.old path.now) path.now) }
    ensures not_printing { result ≢ Err Failure.CannotPrint }
{
    match files.open_held(path) {
        Ok(mut file) => load_from(alloc, path, &mut file),
        Err(fault) => Err(cannot_read(path, fault)),
    }
}

/// The image whose text comes from a file that was opened.
///
/// # Errors
///
/// The file can't be read, its first fault as an image, or want of memory.
pub fn load_from<'a, S: Source>(
    alloc: Global,
    path: &'a str,
    file: &mut S,
) -> Result<Image, Failure<'a>>
    requires { S.failures file.old ≡ 0 }
    ensures image { S.tells → IfOk result (λ image. namespace_in (S.rest file.old) ≡ Ok image) }
    ensures failed { IfErr result (LoadingFails S.tells (Some (S.rest file.old)) path.now) }
    ensures not_printing { result ≢ Err Failure.CannotPrint }
{
    match Image::load(alloc, file) {
        Ok(image) => Ok(image),
        Err(fault) => Err(refused(path, fault)),
    }
}

/// What the user is told of an image that was not loaded.
pub(crate) fn refused<'a>(path: &'a str, fault: LoadFault) -> Failure<'a>
    ensures told { result ≡ told_of_image path.entry fault }
    ensures not_printing { result ≢ Failure.CannotPrint }
{
    match fault {
        LoadFault::Stream => Failure::CannotRead(path, FileCause::Other),
        LoadFault::Memory => Failure::NoMemory,
        _ => Failure::ImageRefused { path, fault },
    }
}

/// Can the file whose name is held be replaced, as far as that is known before it is? A new file is begun in its place, and forgotten:
/// nothing changes.
///
/// # Errors
///
/// No file can be begun there, or memory is wanting.
pub fn check_place<'a, F: Files>(path: &'a str, files: &mut F) -> Result<(), Failure<'a>>
    requires { F.held files.old ≡ Some path.now }
    ensures made { F.made files.new ≡ F.made files.old }
    ensures contents { F.contents files.new ≡ F.contents files.old }
    ensures modes { F.modes files.new ≡ F.modes files.old }
    ensures tried { F.tried files.new ≡ F.tried files.old }
    ensures held { F.held files.new ≡ F.held files.old }
    ensures unwritten { IfErr result (IsUnwritten path.entry) }
    ensures not_printing { result ≢ Err Failure.CannotPrint }
{
    match files.begin(path) {
        Ok(file) => {
            // No write to it failed.
            let _cause = files.discard(file);
            Ok(())
        }
        Err(fault) => Err(cannot_write(path, fault)),
    }
}

/// Makes a file of an image, which is the image's text, in place of the one whose name is held, whose permissions it
/// has then. Every other file has the bytes that it had, and where this fails, each has. A crash at any moment leaves under the name
/// what it might have left before, or all of the new file.
///
/// # Errors
///
/// The file can't be written, or memory is wanting. It is as it was then, but for what [`Files::finish`] says.
pub fn save<'a, F: Files>(image: &Image, path: &'a str, files: &mut F) -> Result<(), Failure<'a>>
    requires { F.held files.old ≡ Some path.now }
    ensures saved { OnOk result (F.Writer.tells → F.made files.new ≡ then_made (F.made files.old) path.now (text image.now)) }
    ensures made { OnOk result (MakesOne path.now (F.made files.old) (F.made files.new)) }
    ensures others { OnOk result (KeepsOthers path.now (F.contents files.old) (F.contents files.new)) }
    ensures kept { OnErr result (F.made files.new ≡ F.made files.old) }
    ensures crash { LeavesOldOrNew path.now (AreWritten F.Writer.tells (text image.now)) (F.tried files.old) (F.tried files.new) }
    ensures contents { OnErr result (F.contents files.new ≡ F.contents files.old) }
    ensures modes { OnOk result (KeepsModes (F.modes files.old) (F.modes files.new)) }
    ensures modes_left { OnErr result (F.modes files.new ≡ F.modes files.old) }
    ensures held { OnOk result (F.held files.new ≡ F.held files.old) }
    ensures unwritten { IfErr result (IsUnwritten path.entry) }
    ensures not_printing { result ≢ Err Failure.CannotPrint }
{
    let mut file = match files.begin(path) {
        Ok(file) => file,
        Err(fault) => return Err(cannot_write(path, fault)),
    };
    if image.save(&mut file).is_err() {
        return Err(Failure::CannotWrite(path, files.discard(file)));
    }
    match files.finish(path, file) {
        Ok(()) => Ok(()),
        Err(fault) => Err(cannot_write(path, fault)),
    }
}

/// Makes the file anew, as [`save`] does, unless it has just the image's text already.
///
/// # Errors
///
/// The file can't be read or written, or memory is wanting. It is as it was then, but for what [`Files::finish`] says.
pub fn save_changes<'a, F: Files>(
    image: &Image,
    path: &'a str,
    files: &mut F,
) -> Result<(), Failure<'a>>
    requires { F.held files.old ≡ Some path.now }
    ensures saved { OnOk result (HasText (around F.Files F.Reader.tells F.Writer.tells files.old files.new) path.now (text image.now)) }
    ensures made { OnOk result (MakesAtMost path.now (F.made files.old) (F.made files.new)) }
    ensures others { OnOk result (KeepsOthers path.now (F.contents files.old) (F.contents files.new)) }
    ensures kept { OnErr result (F.made files.new ≡ F.made files.old) }
    ensures crash { LeavesOldOrNew path.now (AreWritten F.Writer.tells (text image.now)) (F.tried files.old) (F.tried files.new) }
    ensures contents { OnErr result (F.contents files.new ≡ F.contents files.old) }
    ensures modes { OnOk result (KeepsModes (F.modes files.old) (F.modes files.new)) }
    ensures modes_left { OnErr result (F.modes files.new ≡ F.modes files.old) }
    ensures held { OnOk result (F.held files.new ≡ F.held files.old) }
    ensures failed { IfErr result (IsUnheld path.entry) }
    ensures not_printing { result ≢ Err Failure.CannotPrint }
{
    if has_text(image, path, files)? {
        return Ok(());
    }
    save(image, path, files)
}

/// Has the file whose name is held just the text of this image?
///
/// # Errors
///
/// It can't be read, or memory is wanting.
fn has_text<'a, F: Files>(image: &Image, path: &'a str, files: &mut F) -> Result<bool, Failure<'a>>
    requires { F.held files.old ≡ Some path.now }
    ensures same { F.Reader.tells → IfOk result (TellsWhether (text image.now) (F.contents files.old path.now)) }
    ensures made { F.made files.new ≡ F.made files.old }
    ensures contents { F.contents files.new ≡ F.contents files.old }
    ensures modes { F.modes files.new ≡ F.modes files.old }
    ensures tried { F.tried files.new ≡ F.tried files.old }
    ensures held { F.held files.new ≡ F.held files.old }
    ensures unread { IfErr result (IsUnread path.entry) }
    ensures not_printing { result ≢ Err Failure.CannotPrint }
{
    let mut file = match files.open_held(path) {
        Ok(file) => file,
        Err(fault) => return Err(cannot_read(path, fault)),
    };
    match image.is_text_of(&mut file) {
        Ok(same) => Ok(same),
        Err(StreamFault) => Err(Failure::CannotRead(path, FileCause::Other)),
    }
}
