//! The durable device of a journal that is read piece by piece.

ghost use Rattle.std.specs.Prelude.{◌≡◌, IfErr, IfOk, IsNone, IfSome, Some, length};
ghost use Rattle.durable_device.specs.Kept.{IsFoundIn, IsKept};
ghost use Rattle.command_files.specs.Made.{AreAsTold};
ghost use Rattle.command_serve.specs.Opening.{IsNotFound, IsntOpened, Opens};

use crate::DurableFiles;
use crate::opening::{failed, reopen_whole, stored};
use command_files::{Failure, FileCause, cannot_read};
use durable_device::{DurableDevice, FrameDevice};
use durable_machine::{Fault, Found, find};
use std::alloc::Global;
use stored_file::FileError;

/// The durable device of the journal whose name is held. It is read piece by piece: of a journal that is opened, no more than a batch is in
/// memory at a time. Where it isn't opened so, it is read once more, whole, since what is told of it then counts its batches.
///
/// # Errors
///
/// The journal can't be read or written, or is refused; or memory is wanting.
pub(crate) fn reopen<'a, F: DurableFiles>(
    alloc: Global,
    path: &'a str,
    files: &mut F,
) -> Result<DurableDevice<F::Stored>, Failure<'a>>
    requires { F.held files.old ≡ Some path.now }
    ensures opened { IfOk result (λ device. Opens F.Stored.told (F.contents files.old path.now)
        (F.Stored.told device.store.events.journal.file) device.store.machine) }
    ensures kept { IfOk result (λ device.
        IsKept device.store.machine device.store.events.journal.gate (F.Stored.told device.store.events.journal.file)) }
    ensures failed { IfErr result (IsntOpened F.Stored.told (F.contents files.old path.now) path.now) }
    ensures made { F.made files.new ≡ F.made files.old }
    ensures contents { F.contents files.new ≡ F.contents files.old }
    ensures modes { F.modes files.new ≡ F.modes files.old }
{
    match reopen_in_pieces(alloc, path, files) {
        Ok(Some(device)) => Ok(device),
        Ok(None) => {
            let file = stored(alloc, path, files)?;
            reopen_whole(alloc, path, file)
        }
        Err(failure) => Err(failure),
    }
}

/// The durable device of the journal whose name is held, by as much of it in memory as one batch takes; `None` where it can't be read, or
/// is refused.
///
/// # Errors
///
/// The journal can't be opened or written, or memory is wanting.
fn reopen_in_pieces<'a, F: DurableFiles>(
    alloc: Global,
    path: &'a str,
    files: &mut F,
) -> Result<Option<DurableDevice<F::Stored>>, Failure<'a>>
    requires { F.held files.old ≡ Some path.now }
    ensures opened { IfOk result (λ found. IfSome found (λ device. Opens F.Stored.told (F.contents files.old path.now)
        (F.Stored.told device.store.events.journal.file) device.store.machine)) }
    ensures kept { IfOk result (λ found. IfSome found (λ device.
        IsKept device.store.machine device.store.events.journal.gate (F.Stored.told device.store.events.journal.file))) }
    ensures failed { IfErr result (IsntOpened F.Stored.told (F.contents files.old path.now) path.now) }
    ensures held { IfOk result (λ found. IsNone found → F.held files.new ≡ Some path.now) }
    ensures made { F.made files.new ≡ F.made files.old }
    ensures contents { F.contents files.new ≡ F.contents files.old }
    ensures modes { F.modes files.new ≡ F.modes files.old }
{
    let mut reading = match files.reading(alloc, path) {
        Ok(reading) => reading,
        Err(fault) => return Err(cannot_read(path, fault)),
    };
    match find(alloc, &mut reading) {
        Ok(found) => match open_found(alloc, path, files, reading, found) {
            Ok(device) => Ok(Some(device)),
            Err(failure) => Err(failure),
        },
        Err(Fault::OfFile(FileError::Memory)) => Err(Failure::NoMemory),
        Err(_) => Ok(None),
    }
}

/// The durable device that was found in the journal whose name is held, all of which was read.
///
/// # Errors
///
/// The journal can't be written, or memory is wanting.
fn open_found<'a, F: DurableFiles>(
    alloc: Global,
    path: &'a str,
    files: &mut F,
    reading: F::Reading,
    found: Found<FrameDevice>,
) -> Result<DurableDevice<F::Stored>, Failure<'a>>
    requires held { F.held files.old ≡ Some path.now }
    requires whole { length (F.Reading.given reading) ≡ F.Reading.size reading }
    requires known { AreAsTold (F.contents files.old path.now) (F.Reading.given reading) }
    requires found { IsFoundIn found.end found.last found.gate.items (F.Reading.given reading) found.machine }
    ensures opened { IfOk result (λ device. Opens F.Stored.told (F.contents files.old path.now)
        (F.Stored.told device.store.events.journal.file) device.store.machine) }
    ensures kept { IfOk result (λ device.
        IsKept device.store.machine device.store.events.journal.gate (F.Stored.told device.store.events.journal.file)) }
    ensures failed { IfErr result (IsntOpened F.Stored.told (F.contents files.old path.now) path.now) }
    ensures made { F.made files.new ≡ F.made files.old }
    ensures contents { F.contents files.new ≡ F.contents files.old }
    ensures modes { F.modes files.new ≡ F.modes files.old }
{
    let file = match files.stored_read(alloc, path, reading) {
        Ok(file) => file,
        Err(fault) => return Err(cannot_read(path, fault)),
    };
    match DurableDevice::open_found(alloc, file, found) {
        Ok(device) => Ok(device),
        Err((fault, _left)) => Err(unwritten(path, fault)),
    }
}

/// What the user is told of a journal that can't be written as it is opened.
fn unwritten<'a>(path: &'a str, fault: Fault) -> Failure<'a>
    ensures { IsNotFound path.now result }
{
    match fault {
        Fault::OfFile(error) => failed(path, error),
        // It was found, so it isn't refused for what it has.
        Fault::Unreadable | Fault::Damaged(_) | Fault::Undone(_) => {
            Failure::CannotRead(path, FileCause::Other)
        }
    }
}
