//! The devices that image files stand for.

ghost use Rattle.std.specs.Prelude.{◌≡◌, ◌≢◌, IfOk, IfErr, OnOk, Some};
ghost use Rattle.image_store.specs.Namespace.{counted_zones, shape};
ghost use Rattle.device_meaning.specs.State.{new_state};
ghost use Rattle.durable_device.specs.Kept.{StandsForIt};
ghost use Rattle.command_files.specs.Made.{AreAsTold};
ghost use Rattle.command_files.specs.UserTold.{IsUnread};
ghost use Rattle.command_images.specs.Devices.{CountsBatches, IsCut, IsFrontFault, IsNoImage, TellDevice, TellItsNamespace, TellNamespace, TellTable};
ghost use Rattle.command_images.specs.UserTold.{LoadingDeviceFails, ReplacingFails};
ghost use Rattle.command_images.specs.steps.Told.{RefusesJournal, RefusesMore, TellsCut, TellsJournal};

use crate::image_file;
use command_files::{Failure, FileCause, Files, JournalFault, MOST_OF_EVENTS, cannot_read, read};
use durable_device::{FrameDevice, device_in};
use durable_machine::{Fault, salvage};
use image_base::{MAGIC, other_maker};
use image_store::Image;
use image_text::{ImageText, LoadFault, ZoneTable};
use kept_device::KeptRun;
use runner::Device;
use std::alloc::{AllocError, Global};
use word_domain::Domain;

/// What a device has besides blocks, programs and results.
#[derive(Drop)]
pub struct DeviceTable {
    /// The shape of its namespace, and the zones without their blocks.
    pub table: ZoneTable,
    /// Its runs, in their places; none at all of an image.
    pub runs: Vec<Option<KeptRun>>,
}

/// The table of the device that a file stands for: that of an image, without a program or a run; or that of a journal, to which the
/// events in it happened again. Where the file's bytes are known, it is of the one that they stand for, or else is told what is wrong
/// with them. Of an image no block is read, so that an error of the system that only reading them would show isn't found. Each file has the
/// bytes that it had.
///
/// # Errors
///
/// The file can't be read; its first fault as an image, or the byte from which on a journal is damaged; or want of memory.
#[tactic(auto, using(crate::proofs::Devices::tells_table, crate::proofs::Devices::tells_its_table, crate::proofs::Devices::fails_as_image))]
pub fn load_table<'a, F: Files>(
    alloc: Global,
    path: &'a str,
    files: &mut F,
) -> Result<DeviceTable, Failure<'a>>
    ensures made { F.made files.new ≡ F.made files.old }
    ensures contents { F.contents files.new ≡ F.contents files.old }
    ensures modes { F.modes files.new ≡ F.modes files.old }
    ensures tried { F.tried files.new ≡ F.tried files.old }
    ensures held { F.held files.new ≡ F.held files.old }
    ensures table { F.Reader.tells
        → IfOk result (λ found. TellTable (F.contents files.old path.now) found.table.geometry found.table.zones.items) }
    ensures failed { IfErr result (LoadingDeviceFails F.Reader.tells (F.contents files.old path.now) path.now) }
    ensures not_printing { result ≢ Err Failure.CannotPrint }
{
    match files.open(path) {
        Ok(mut file) => match ZoneTable::load(alloc, &mut file) {
            Ok(table) => Ok(DeviceTable {
                table,
                runs: Vec::new(alloc),
            }),
            Err(LoadFault::Magic) => {
                let device = load_journal(alloc, path, files)?;
                Ok(table_of(alloc, &device)?)
            }
            Err(LoadFault::Truncated) => Err(cut(path, files)),
            Err(fault) => Err(image_file::refused(path, fault)),
        },
        Err(fault) => Err(cannot_read(path, fault)),
    }
}

/// The table of a device.
fn table_of(alloc: Global, device: &Device) -> Result<DeviceTable, AllocError>
    ensures shape { IfOk result (λ found. found.table.geometry ≡ shape device.now.namespace) }
    ensures zones { IfOk result (λ found. found.table.zones.items ≡ counted_zones device.now.namespace) }
{
    let image = device.image();
    let kept = device.kept(alloc)?;
    let zones = Vec::from_slice(alloc, image.zones())?;
    Ok(DeviceTable {
        table: ZoneTable {
            geometry: image.geometry(),
            zones,
        },
        runs: kept.runs,
    })
}

/// A device in memory with the namespace of the one that a file stands for, without a program or a run: that of an image, or that of a
/// journal, to which the events in it happened again. The file isn't held.
///
/// # Errors
///
/// Those of [`load_table`].
#[tactic(auto, using(crate::proofs::Devices::tells_image_namespace, crate::proofs::Devices::tells_device_namespace, crate::proofs::Devices::fails_as_image))]
pub fn load_copy<'a, F: Files>(
    alloc: Global,
    path: &'a str,
    files: &mut F,
) -> Result<Box<Device>, Failure<'a>>
    ensures made { F.made files.new ≡ F.made files.old }
    ensures contents { F.contents files.new ≡ F.contents files.old }
    ensures modes { F.modes files.new ≡ F.modes files.old }
    ensures tried { F.tried files.new ≡ F.tried files.old }
    ensures held { F.held files.new ≡ F.held files.old }
    ensures new { IfOk result (λ device. device.value ≡ new_state device.value.namespace) }
    ensures namespace { F.Reader.tells
        → IfOk result (λ device. TellItsNamespace (F.contents files.old path.now) device.value.namespace) }
    ensures failed { IfErr result (LoadingDeviceFails F.Reader.tells (F.contents files.old path.now) path.now) }
    ensures not_printing { result ≢ Err Failure.CannotPrint }
{
    match files.open(path) {
        Ok(mut file) => match Image::load(alloc, &mut file) {
            Ok(image) => Ok(boxed(alloc, image)?),
            Err(LoadFault::Magic) => {
                let device = load_journal(alloc, path, files)?;
                Ok(on_heap(alloc, Box::into_inner(device).renewed())?)
            }
            Err(LoadFault::Truncated) => Err(cut(path, files)),
            Err(fault) => Err(image_file::refused(path, fault)),
        },
        Err(fault) => Err(cannot_read(path, fault)),
    }
}

/// The device of a file that is to be replaced by an image, as of [`load_table`]: its name is held from before the file is read on. The
/// device has neither a program nor a run, so that its Load may judge over any domain.
///
/// # Errors
///
/// Another command holds the file, or it is no ordinary one; those of [`load_table`]; or the device has a program or a run, which no image
/// keeps.
#[tactic(auto, using(crate::proofs::Making::replace_of_holding))]
pub fn load_to_replace<'a, D: Domain, F: Files>(
    alloc: Global,
    path: &'a str,
    files: &mut F,
) -> Result<Box<Device<D>>, Failure<'a>>
    ensures made { F.made files.new ≡ F.made files.old }
    ensures contents { F.contents files.new ≡ F.contents files.old }
    ensures modes { F.modes files.new ≡ F.modes files.old }
    ensures tried { F.tried files.new ≡ F.tried files.old }
    ensures held { OnOk result (F.held files.new ≡ Some path.now) }
    ensures new { IfOk result (λ device. device.value ≡ new_state device.value.namespace) }
    ensures namespace { F.Reader.tells
        → IfOk result (λ device. TellNamespace (F.contents files.old path.now) device.value.namespace) }
    ensures failed { IfErr result (ReplacingFails F.Reader.tells (F.contents files.old path.now) path.now) }
    ensures not_printing { result ≢ Err Failure.CannotPrint }
{
    image_file::hold(path, files)?;
    load_held(alloc, path, files)
}

/// The device that the file stands for whose name is held, where that has neither a program nor a run.
#[tactic(auto, using(crate::proofs::Devices::tells_namespace, crate::proofs::Devices::fails_as_image, crate::proofs::Making::replace_of_loading))]
fn load_held<'a, D: Domain, F: Files>(
    alloc: Global,
    path: &'a str,
    files: &mut F,
) -> Result<Box<Device<D>>, Failure<'a>>
    requires { F.held files.old ≡ Some path.now }
    ensures made { F.made files.new ≡ F.made files.old }
    ensures contents { F.contents files.new ≡ F.contents files.old }
    ensures modes { F.modes files.new ≡ F.modes files.old }
    ensures tried { F.tried files.new ≡ F.tried files.old }
    ensures held { F.held files.new ≡ F.held files.old }
    ensures new { IfOk result (λ device. device.value ≡ new_state device.value.namespace) }
    ensures namespace { F.Reader.tells
        → IfOk result (λ device. TellNamespace (F.contents files.old path.now) device.value.namespace) }
    ensures failed { IfErr result (ReplacingFails F.Reader.tells (F.contents files.old path.now) path.now) }
    ensures not_printing { result ≢ Err Failure.CannotPrint }
{
    match files.open_held(path) {
        Ok(mut file) => match Image::load(alloc, &mut file) {
            Ok(image) => Ok(boxed(alloc, image)?),
            Err(LoadFault::Magic) => {
                let device = load_held_journal(alloc, path, files)?;
                renewed(alloc, path, device)
            }
            Err(LoadFault::Truncated) => Err(cut_held(path, files)),
            Err(fault) => Err(image_file::refused(path, fault)),
        },
        Err(fault) => Err(cannot_read(path, fault)),
    }
}

/// A device with the namespace of a journal's device, where that has nothing else.
fn renewed<'a, D: Domain>(
    alloc: Global,
    path: &'a str,
    device: Box<Device>,
) -> Result<Box<Device<D>>, Failure<'a>>
    ensures new { IfOk result (λ new. new.value ≡ new_state device.value.namespace) }
    ensures same { IfOk result (λ new. new.value ≡ device.value) }
    ensures refused { IfErr result (RefusesMore path.entry device.value) }
{
    if !device.is_new() {
        return Err(Failure::DeviceRefused { path });
    }
    Ok(on_heap(alloc, Box::into_inner(device).renewed())?)
}

/// The device of a file that begins as no image: that of its journal.
#[tactic(auto, using(crate::proofs::Devices::tells_journal))]
fn load_journal<'a, F: Files>(
    alloc: Global,
    path: &'a str,
    files: &mut F,
) -> Result<Box<Device>, Failure<'a>>
    requires { F.Reader.tells → IsNoImage (F.contents files.old path.now) }
    ensures made { F.made files.new ≡ F.made files.old }
    ensures contents { F.contents files.new ≡ F.contents files.old }
    ensures modes { F.modes files.new ≡ F.modes files.old }
    ensures tried { F.tried files.new ≡ F.tried files.old }
    ensures held { F.held files.new ≡ F.held files.old }
    ensures device { F.Reader.tells → IfOk result (λ device. TellDevice (F.contents files.old path.now) device.value) }
    ensures failed { IfErr result (LoadingDeviceFails F.Reader.tells (F.contents files.old path.now) path.now) }
    ensures not_printing { result ≢ Err Failure.CannotPrint }
{
    let bytes = read(path, MOST_OF_EVENTS, files)?;
    journal_device(alloc, path, &bytes)
}

/// The same of a file whose name is held.
#[tactic(auto, using(crate::proofs::Devices::tells_journal))]
fn load_held_journal<'a, F: Files>(
    alloc: Global,
    path: &'a str,
    files: &mut F,
) -> Result<Box<Device>, Failure<'a>>
    requires held { F.held files.old ≡ Some path.now }
    requires none { F.Reader.tells → IsNoImage (F.contents files.old path.now) }
    ensures made { F.made files.new ≡ F.made files.old }
    ensures contents { F.contents files.new ≡ F.contents files.old }
    ensures modes { F.modes files.new ≡ F.modes files.old }
    ensures tried { F.tried files.new ≡ F.tried files.old }
    ensures held { F.held files.new ≡ F.held files.old }
    ensures device { F.Reader.tells → IfOk result (λ device. TellDevice (F.contents files.old path.now) device.value) }
    ensures failed { IfErr result (LoadingDeviceFails F.Reader.tells (F.contents files.old path.now) path.now) }
    ensures not_printing { result ≢ Err Failure.CannotPrint }
{
    let bytes = read_held(path, files)?;
    journal_device(alloc, path, &bytes)
}

/// The most bytes of a journal.
const MOST_OF_JOURNAL: usize = MOST_OF_EVENTS as usize * 1_048_576;

/// All bytes of the file whose name is held.
///
/// # Errors
///
/// It can't be read, it has more than are read of a journal, or memory is wanting.
pub fn read_held<'a, F: Files>(path: &'a str, files: &mut F) -> Result<Vec<u8>, Failure<'a>>
    requires { F.held files.old ≡ Some path.now }
    ensures made { F.made files.new ≡ F.made files.old }
    ensures contents { F.contents files.new ≡ F.contents files.old }
    ensures modes { F.modes files.new ≡ F.modes files.old }
    ensures tried { F.tried files.new ≡ F.tried files.old }
    ensures held { F.held files.new ≡ F.held files.old }
    ensures bytes { IfOk result (λ file. AreAsTold (F.contents files.old path.now) file.items) }
    ensures unread { IfErr result (IsUnread path.entry) }
    ensures not_printing { result ≢ Err Failure.CannotPrint }
{
    match files.first_bytes(path, MOST_OF_JOURNAL + 1) {
        Ok(bytes) if bytes.len() <= MOST_OF_JOURNAL => Ok(bytes),
        Ok(_) => Err(Failure::CannotRead(path, FileCause::LargerThan(MOST_OF_EVENTS))),
        Err(fault) => Err(cannot_read(path, fault)),
    }
}

/// The device that the bytes of a journal stand for.
fn journal_device<'a>(
    alloc: Global,
    path: &'a str,
    bytes: &[u8],
) -> Result<Box<Device>, Failure<'a>>
    ensures state { IfOk result (λ device. StandsForIt bytes.now device.value) }
    ensures refused { IfErr result (RefusesJournal path.entry bytes.now) }
    ensures not_printing { result ≢ Err Failure.CannotPrint }
{
    match device_in(alloc, bytes) {
        Ok(device) => Ok(device),
        Err(fault) => Err(journal_refused(alloc, path, bytes, fault)),
    }
}

/// What the user is told of a journal that stands for no device. Without a whole base it is one only where it begins as one, and then it
/// has its fault at the front; else it is a file that is no image.
fn journal_refused<'a>(alloc: Global, path: &'a str, bytes: &[u8], fault: Fault) -> Failure<'a>
    ensures told { TellsJournal path.entry bytes.now fault result }
    ensures not_printing { result ≢ Failure.CannotPrint }
{
    match fault {
        Fault::Damaged(place) => refused_at(path, place, damage(alloc, bytes)),
        Fault::Undone(place) => refused_at(path, place, JournalFault::Undone),
        Fault::Unreadable if bytes.starts_with(&MAGIC) => refused_at(path, 0, front_fault(bytes)),
        Fault::Unreadable => image_file::refused(path, LoadFault::Magic),
        Fault::OfFile(_) => Failure::NoMemory,
    }
}

/// What the user is told of a file that ends where an image goes on.
fn cut<'a, F: Files>(path: &'a str, files: &mut F) -> Failure<'a>
    requires { F.Reader.tells → IsCut (F.contents files.old path.now) }
    ensures made { F.made files.new ≡ F.made files.old }
    ensures contents { F.contents files.new ≡ F.contents files.old }
    ensures modes { F.modes files.new ≡ F.modes files.old }
    ensures tried { F.tried files.new ≡ F.tried files.old }
    ensures held { F.held files.new ≡ F.held files.old }
    ensures failed { LoadingDeviceFails F.Reader.tells (F.contents files.old path.now) path.now result }
    ensures not_printing { result ≢ Failure.CannotPrint }
{
    match read(path, MOST_OF_EVENTS, files) {
        Ok(bytes) => cut_after(path, &bytes),
        Err(failure) => failure,
    }
}

/// The same of a file whose name is held.
fn cut_held<'a, F: Files>(path: &'a str, files: &mut F) -> Failure<'a>
    requires held { F.held files.old ≡ Some path.now }
    requires cut { F.Reader.tells → IsCut (F.contents files.old path.now) }
    ensures made { F.made files.new ≡ F.made files.old }
    ensures contents { F.contents files.new ≡ F.contents files.old }
    ensures modes { F.modes files.new ≡ F.modes files.old }
    ensures tried { F.tried files.new ≡ F.tried files.old }
    ensures held { F.held files.new ≡ F.held files.old }
    ensures failed { LoadingDeviceFails F.Reader.tells (F.contents files.old path.now) path.now result }
    ensures not_printing { result ≢ Failure.CannotPrint }
{
    match read_held(path, files) {
        Ok(bytes) => cut_after(path, &bytes),
        Err(failure) => failure,
    }
}

/// What the user is told of a file that has only these bytes, and ends where an image goes on. Where it begins as a journal it is one, and
/// has its fault at the front.
fn cut_after<'a>(path: &'a str, bytes: &[u8]) -> Failure<'a>
    ensures told { TellsCut path.entry bytes.now result }
    ensures not_printing { result ≢ Failure.CannotPrint }
{
    if bytes.starts_with(&MAGIC) {
        refused_at(path, 0, front_fault(bytes))
    } else {
        image_file::refused(path, LoadFault::Truncated)
    }
}

/// What is wrong at the front of a file that has no base of this device: another version of the device made it, or there is none.
pub fn front_fault(file: &[u8]) -> JournalFault
    ensures { IsFrontFault result file.now }
{
    match other_maker(file) {
        Some(maker) => JournalFault::MadeBy {
            version: maker.version,
            profile: maker.profile,
        },
        None => JournalFault::NoBase,
    }
}

/// What is wrong with a damaged journal of these bytes: how many batches are whole, unless memory is wanting to count them.
pub fn damage(alloc: Global, file: &[u8]) -> JournalFault
    ensures { CountsBatches result file.now }
{
    match salvage::<FrameDevice>(alloc, file) {
        Ok(found) => JournalFault::Damaged {
            whole: found.whole,
            readable: found.readable,
        },
        Err(_) => JournalFault::OpenGate,
    }
}

/// A journal with this fault at a byte.
fn refused_at<'a>(path: &'a str, place: usize, fault: JournalFault) -> Failure<'a>
    ensures { result ≡ Failure.JournalRefused path.entry place fault }
{
    Failure::JournalRefused { path, place, fault }
}

/// The device of an image that was loaded.
// The device stands in this frame until it is on the heap.
#[inline(never)]
fn boxed<D: Domain>(alloc: Global, image: Image) -> Result<Box<Device<D>>, AllocError>
    ensures { IfOk result (λ device. device.value ≡ new_state image) }
{
    on_heap(alloc, Device::new(alloc, image))
}

/// The device on the heap.
fn on_heap<D: Domain>(alloc: Global, device: Device<D>) -> Result<Box<Device<D>>, AllocError>
    ensures { IfOk result (λ boxed. boxed.value ≡ device) }
{
    Ok(Box::new(alloc, device)?)
}
