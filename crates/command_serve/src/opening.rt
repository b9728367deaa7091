//! The durable device of a file.

ghost use Rattle.std.specs.Prelude.{◌≡◌, ◌≢◌, ◌⊎◌, List, ℕ, Option, IfErr, IfOk, Ok, OnOk, Some};
ghost use Rattle.stored_file.specs.File.{IsAsBefore, LeavesOnly, MayLeave};
ghost use Rattle.image_text.specs.Reading.{namespace_in};
ghost use Rattle.durable_device.specs.Kept.{IsKept, IsRestarted};
ghost use Rattle.command_files.specs.UserTold.{IsUnread};
ghost use Rattle.command_serve.specs.Opening.{FailsToOpen, IsFound, IsNotFound, IsntOpened, Opens};
ghost use Rattle.command_serve.specs.steps.Told.{TellsError, TellsFault, TellsUnread};

use crate::DurableFiles;
use crate::pieces::reopen;
use command_files::{Failure, FileCause, JournalFault, cannot_read};
use command_images::device_file::{damage, front_fault};
use command_images::image_file;
use durable_device::DurableDevice;
use durable_machine::Fault;
use image_base::MAGIC;
use image_store::Image;
use std::alloc::Global;
use stored_file::{FileError, StoredFile, read_whole};

/// The durable device of the file with this name, which is held from before it is read: that of its journal; or of an image, which
/// gets an empty journal.
///
/// # Errors
///
/// Another command holds the file, it is no ordinary one, it can't be read or written, or is refused; or memory is wanting.
pub(crate) fn open<'a, F: DurableFiles>(
    alloc: Global,
    path: &'a str,
    files: &mut F,
) -> Result<DurableDevice<F::Stored>, Failure<'a>>
    ensures opened { IfOk result (λ device. Opens F.Stored.told (F.contents files.old path.now)
        (F.Stored.told device.store.events.journal.file) device.store.machine) }
    ensures kept { IfOk result (λ device.
        IsKept device.store.machine device.store.events.journal.gate (F.Stored.told device.store.events.journal.file)) }
    ensures failed { IfErr result (IsntOpened F.Stored.told (F.contents files.old path.now) path.now) }
    ensures made { F.made files.new ≡ F.made files.old }
    ensures contents { F.contents files.new ≡ F.contents files.old }
    ensures modes { F.modes files.new ≡ F.modes files.old }
{
    image_file::hold(path, files)?;
    if is_journal(path, files)? {
        return reopen(alloc, path, files);
    }
    let file = stored(alloc, path, files)?;
    make_durable(alloc, path, file)
}

/// Does the file whose name is held begin as a journal does?
pub(crate) fn is_journal<'a, F: DurableFiles>(
    path: &'a str,
    files: &mut F,
) -> Result<bool, Failure<'a>>
    requires { F.held files.old ≡ Some path.now }
    ensures made { F.made files.new ≡ F.made files.old }
    ensures contents { F.contents files.new ≡ F.contents files.old }
    ensures modes { F.modes files.new ≡ F.modes files.old }
    ensures held { F.held files.new ≡ F.held files.old }
    ensures unread { IfErr result (IsUnread path.entry) }
{
    match files.first_bytes(path, MAGIC.len()) {
        Ok(first) => Ok(first.as_slice() == MAGIC.as_slice()),
        Err(fault) => Err(cannot_read(path, fault)),
    }
}

/// The file whose name is held, all of it on the disk, but for what an earlier program did last.
pub(crate) fn stored<'a, F: DurableFiles>(
    alloc: Global,
    path: &'a str,
    files: &mut F,
) -> Result<F::Stored, Failure<'a>>
    requires { F.held files.old ≡ Some path.now }
    ensures made { F.made files.new ≡ F.made files.old }
    ensures contents { F.contents files.new ≡ F.contents files.old }
    ensures modes { F.modes files.new ≡ F.modes files.old }
    ensures found { IfOk result (λ file. IsFound (F.Stored.told file) (F.contents files.old path.now)) }
    ensures unread { IfErr result (IsUnread path.entry) }
{
    match files.stored(alloc, path) {
        Ok(file) => Ok(file),
        Err(fault) => Err(cannot_read(path, fault)),
    }
}

/// The durable device of a file with a journal, all of which is in memory as it is opened.
pub(crate) fn reopen_whole<'a, S: StoredFile + Drop>(
    alloc: Global,
    path: &'a str,
    mut file: S,
) -> Result<DurableDevice<S>, Failure<'a>>
    requires { IsRestarted (S.told file) }
    ensures opened { (contents : Option (List ℕ)) → IsFound (S.told file) contents
        → IfOk result (λ device. Opens S.told contents (S.told device.store.events.journal.file) device.store.machine) }
    ensures kept { IfOk result (λ device.
        IsKept device.store.machine device.store.events.journal.gate (S.told device.store.events.journal.file)) }
    ensures failed { (contents : Option (List ℕ)) → IsFound (S.told file) contents
        → IfErr result (FailsToOpen S.told contents path.now) }
{
    match read_whole(alloc, &mut file) {
        Ok(bytes) => match DurableDevice::open_read(alloc, file, &bytes) {
            Ok(device) => Ok(device),
            Err((fault, _left)) => Err(refused(alloc, path, &bytes, fault)),
        },
        Err(error) => Err(unread(path, error)),
    }
}

/// The durable device of the image that a file is, which gets an empty journal.
fn make_durable<'a, S: StoredFile + Drop>(
    alloc: Global,
    path: &'a str,
    mut file: S,
) -> Result<DurableDevice<S>, Failure<'a>>
    ensures opened { (contents : Option (List ℕ)) → IsFound (S.told file) contents
        → IfOk result (λ device. Opens S.told contents (S.told device.store.events.journal.file) device.store.machine) }
    ensures kept { IfOk result (λ device.
        IsKept device.store.machine device.store.events.journal.gate (S.told device.store.events.journal.file)) }
    ensures failed { (contents : Option (List ℕ)) → IsFound (S.told file) contents
        → IfErr result (FailsToOpen S.told contents path.now) }
{
    let image = image_in(alloc, path, &mut file)?;
    match DurableDevice::create(alloc, image, file) {
        Ok(device) => Ok(device),
        Err((error, _left)) => Err(failed(path, error)),
    }
}

/// The image whose text a file has.
fn image_in<'a, S: StoredFile>(
    alloc: Global,
    path: &'a str,
    file: &mut S,
) -> Result<Image, Failure<'a>>
    ensures image { IfOk result (λ image. namespace_in (S.told file.old).seen ≡ Ok image) }
    ensures same { IsAsBefore (S.told file.old) (S.told file.new) }
    ensures any_moment { LeavesOnly (S.told file.old) (S.told file.new) (MayLeave (S.told file.old)) }
    ensures unread { IfErr result (TellsUnread path.now) }
{
    match read_whole(alloc, file) {
        Ok(bytes) => {
            let mut text = bytes.as_slice();
            image_file::load_from(alloc, path, &mut text)
        }
        Err(error) => Err(unread(path, error)),
    }
}

/// What the user is told of a file that can't be read.
fn unread<'a>(path: &'a str, error: FileError) -> Failure<'a>
    ensures { TellsUnread path.now result }
{
    match error {
        FileError::Memory => Failure::NoMemory,
        FileError::NoRoom | FileError::Failed => Failure::CannotRead(path, FileCause::Other),
    }
}

/// What the user is told of a journal of these bytes that isn't opened. One without a base of this device has its fault at the front.
pub(crate) fn refused<'a>(alloc: Global, path: &'a str, bytes: &[u8], fault: Fault) -> Failure<'a>
    ensures { TellsFault bytes.now fault path.now result }
{
    match fault {
        Fault::Unreadable => Failure::JournalRefused {
            path,
            place: 0,
            fault: front_fault(bytes),
        },
        Fault::Damaged(place) => Failure::JournalRefused {
            path,
            place,
            fault: damage(alloc, bytes),
        },
        Fault::Undone(place) => Failure::JournalRefused {
            path,
            place,
            fault: JournalFault::Undone,
        },
        Fault::OfFile(error) => failed(path, error),
    }
}

/// What the user is told of a file that can't be written durably.
pub(crate) fn failed<'a>(path: &'a str, error: FileError) -> Failure<'a>
    ensures { TellsError error path.now result }
{
    match error {
        FileError::Memory => Failure::NoMemory,
        FileError::NoRoom => Failure::CannotWrite(path, FileCause::NoRoom),
        FileError::Failed => Failure::CannotWrite(path, FileCause::Other),
    }
}
