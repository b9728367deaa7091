//! Doors: what a handle is opened on.

ghost use Rattle.std.specs.Prelude.{◌≡◌, ◌⊎◌, IfOk, IfErr, Ok};
ghost use Rattle.durable_device.specs.Kept.{IsKept, IsRestarted};
ghost use Rattle.handed_file.specs.Handed.{made_calls, noted};
ghost use Rattle.image_text.specs.Fault.{load_number};
ghost use Rattle.image_text.specs.Reading.{namespace_in};
ghost use Rattle.image_text.specs.declared.fault.LoadFault.TheVariants.{Memory};
ghost use Rattle.device_library.specs.Devices.{journal_of, state_of};
ghost use Rattle.device_library.specs.Files.{promised_of};
ghost use Rattle.device_library.specs.Kept as kept;
ghost use Rattle.device_library.specs.Opening.{IsBegun, IsCreated, IsDeviceOf, IsKeptOf, IsKeptTargetOf, IsNoImage, IsNoJournal, IsRefusedFile, IsRefusedImage, IsRefusedTarget, IsReopened, IsServed, IsTargetOf, IsToldOfFault, IsToldOfJournal};
ghost use Rattle.device_library.specs.Target as target;

use crate::identity::{format_of, subsystem};
use crate::kept::Kept;
use crate::numbers::{DAMAGED, OTHER_VERSION};
use crate::target::Target;
use device_serve::FrameStreamRoom;
use durable_device::DurableDevice;
use durable_machine::Fault;
use handed_file::HandedFile;
use image_base::{MAGIC, other_maker};
use image_store::Image;
use image_text::{ImageText, LoadFault};
use std::alloc::{AllocError, Global};
use tcp_device::{ServedTarget, target_of};

/// The device that is kept in a file of these bytes, for which C makes the calls.
///
/// # Errors
///
/// Why there is none, by number.
#[inline(never)]
pub fn open_file(alloc: Global, bytes: &[u8]) -> Result<Kept, u32>
    ensures opened { IfOk result (IsKeptOf bytes.now) }
    ensures kept { IfOk result kept.WillBeKept }
    ensures refused { IfErr result (IsRefusedFile bytes.now) }
{
    // The room is made first: a device that would be dropped where it can't be made takes much of the stack.
    match FrameStreamRoom::new(alloc) {
        Ok(room) => match device_of(alloc, bytes) {
            Ok(device) => Ok(Kept::new(alloc, device, room)),
            Err(why) => Err(why),
        },
        Err(AllocError) => Err(u32::from(LoadFault::Memory.number())),
    }
}

/// The target before the device of the image that these bytes tell, in memory alone.
///
/// # Errors
///
/// Why there is none, by number.
#[tactic(auto, using(crate::proofs::Refusing::refused_target))]
pub fn open_target(alloc: Global, bytes: &[u8]) -> Result<Target, u32>
    ensures opened { IfOk result (IsTargetOf bytes.now) }
    ensures kept { IfOk result target.WillBeKept }
    ensures refused { IfErr result (IsRefusedTarget bytes.now) }
{
    match target_on(alloc, image_of(alloc, bytes)?) {
        Ok(served) => Ok(Target::in_memory(served)),
        Err(AllocError) => Err(u32::from(LoadFault::Memory.number())),
    }
}

/// The target before the device that is kept in a file of these bytes, for which C makes the calls.
///
/// # Errors
///
/// Why there is none, by number.
pub fn open_target_file(alloc: Global, bytes: &[u8]) -> Result<Target, u32>
    ensures opened { IfOk result (IsKeptTargetOf bytes.now) }
    ensures kept { IfOk result target.WillBeKept }
    ensures refused { IfErr result (IsRefusedFile bytes.now) }
{
    match device_of(alloc, bytes) {
        Ok(device) => match kept_target(alloc, device) {
            Ok(session) => Ok(session),
            Err(AllocError) => Err(u32::from(LoadFault::Memory.number())),
        },
        Err(why) => Err(why),
    }
}

/// The image that these bytes tell.
///
/// # Errors
///
/// Why there is none, by number.
pub fn image_of(alloc: Global, bytes: &[u8]) -> Result<Image, u32>
    ensures told { IfOk result (λ image. namespace_in bytes.now ≡ Ok image) }
    ensures refused { IfErr result (IsRefusedImage bytes.now) }
{
    let mut rest = bytes;
    match Image::load(alloc, &mut rest) {
        Ok(image) => Ok(image),
        Err(fault) => Err(u32::from(fault.number())),
    }
}

/// A target whose device has the namespace of an image.
fn target_on(alloc: Global, image: Image) -> Result<ServedTarget, AllocError>
    ensures { IfOk result (IsBegun image) }
{
    let format = format_of(image.geometry());
    ServedTarget::new(alloc, image, subsystem(alloc)?, format)
}

/// A target before a device that is kept.
fn kept_target(alloc: Global, device: DurableDevice<HandedFile>) -> Result<Target, AllocError>
    requires { IsKept (state_of device) (journal_of device).gate (promised_of (journal_of device).file) }
    ensures served { IfOk result (IsServed (state_of device) (journal_of device)) }
    ensures kept { IfOk result target.WillBeKept }
{
    let format = format_of(device.image().geometry());
    let (served, keeper) = target_of(alloc, device, subsystem(alloc)?, format)?;
    Ok(Target {
        served,
        keeper: Some(keeper),
        failed: false,
    })
}

/// The device of a file, which is a journal where it begins as one, and else an image, from which a journal is made. Either has a function
/// that isn't inlined, since a device takes much of the stack on its way.
fn device_of(alloc: Global, bytes: &[u8]) -> Result<DurableDevice<HandedFile>, u32>
    ensures opened { IfOk result (λ device. IsDeviceOf bytes.now (state_of device) (journal_of device)) }
    ensures kept { IfOk result (λ device. IsKept (state_of device) (journal_of device).gate (promised_of (journal_of device).file)) }
    ensures refused { IfErr result (IsRefusedFile bytes.now) }
{
    let file = HandedFile::new(alloc, bytes);
    if bytes.starts_with(&MAGIC) {
        reopen(alloc, bytes, file)
    } else {
        create(alloc, bytes, file)
    }
}

/// The device of a journal.
#[inline(never)]
fn reopen(alloc: Global, bytes: &[u8], file: HandedFile) -> Result<DurableDevice<HandedFile>, u32>
    requires restarted { IsRestarted (promised_of file) }
    requires settled { made_calls file ≡ noted file }
    requires read { bytes.now ≡ (promised_of file).seen }
    ensures opened { IfOk result (λ device. IsReopened (noted file) (state_of device) (journal_of device)) }
    ensures kept { IfOk result (λ device. IsKept (state_of device) (journal_of device).gate (promised_of (journal_of device).file)) }
    ensures refused { IfErr result (λ why. IsNoJournal (promised_of file).seen why ⊎ (why ≡ load_number Memory)) }
{
    match DurableDevice::open_read(alloc, file, bytes) {
        Ok(device) => Ok(device),
        Err((fault, _left)) => Err(number_of(fault, bytes)),
    }
}

/// The device of an image, and a journal that takes its place.
#[inline(never)]
#[tactic(auto, using(crate::proofs::Refusing::refused_target))]
fn create(
    alloc: Global,
    bytes: &[u8],
    mut file: HandedFile,
) -> Result<DurableDevice<HandedFile>, u32>
    requires { made_calls file ≡ noted file }
    ensures opened { IfOk result (λ device. IsCreated bytes.now (noted file) (state_of device) (journal_of device)) }
    ensures kept { IfOk result (λ device. IsKept (state_of device) (journal_of device).gate (promised_of (journal_of device).file)) }
    ensures refused { IfErr result (λ why. IsNoImage bytes.now why ⊎ (why ≡ load_number Memory)) }
{
    let image = image_of(alloc, bytes)?;
    file.grant(usize::MAX);
    match DurableDevice::create(alloc, image, file) {
        Ok(device) => Ok(device),
        Err((_, _)) => Err(u32::from(LoadFault::Memory.number())),
    }
}

/// Why a journal of these bytes isn't opened, by number.
fn number_of(fault: Fault, bytes: &[u8]) -> u32
    ensures { IsToldOfFault fault bytes.now result }
{
    match fault {
        Fault::Unreadable | Fault::Damaged(_) | Fault::Undone(_) => journal_number(bytes),
        Fault::OfFile(_) => u32::from(LoadFault::Memory.number()),
    }
}

/// Whether another version of the device made a journal that isn't opened, by number.
fn journal_number(bytes: &[u8]) -> u32
    ensures { IsToldOfJournal bytes.now result }
{
    match other_maker(bytes) {
        Some(_) => OTHER_VERSION,
        None => DAMAGED,
    }
}
