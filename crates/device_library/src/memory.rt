//! A device in memory, as C asks it.

ghost use Rattle.std.specs.Prelude.{◌≡◌, IfOk, IfErr};
ghost use Rattle.device_library.specs.Asked.{told_by};
ghost use Rattle.device_library.specs.Events.{MemoryLent};
ghost use Rattle.device_library.specs.Memory.{Answers, AnswersTo, lowest_number};
ghost use Rattle.device_library.specs.Opening.{IsImageOf, IsRefusedImage};

use crate::asked::AskedBy;
use crate::event::{ReplyHead, event, turns};
use crate::kind::{MemoryKind, nothing};
use crate::numbers::NO_RUN;
use crate::opening::image_of;
use crate::put::save;
use runner::Device;
use std::alloc::Global;

/// The device of the image that these bytes tell.
///
/// # Errors
///
/// Why there is none, by number.
pub fn open(alloc: Global, bytes: &[u8]) -> Result<Device, u32>
    ensures opened { IfOk result (IsImageOf bytes.now) }
    ensures refused { IfErr result (IsRefusedImage bytes.now) }
{
    Ok(Device::new(alloc, image_of(alloc, bytes)?))
}

/// Does what a device is asked for by a number, and gives the answer.
#[inline(always)]
pub fn answer_to(
    device: &mut Device,
    alloc: Global,
    kind: u32,
    asked: &AskedBy<'_>,
    reply: &mut ReplyHead,
    out: &mut [u8],
) -> usize
    ensures { AnswersTo kind (told_by asked.now)
        (record { device = device.old; reply = reply.old; out = out.old })
        (record { device = device.new; reply = reply.new; out = out.new }) result }
{
    match MemoryKind::from_number(kind) {
        Some(kind) => answer(device, alloc, kind, asked, reply, out),
        None => nothing(kind),
    }
}

/// Does what a device is asked for, and gives the answer.
#[inline(always)]
fn answer(
    device: &mut Device,
    alloc: Global,
    kind: MemoryKind,
    asked: &AskedBy<'_>,
    reply: &mut ReplyHead,
    out: &mut [u8],
) -> usize
    ensures { Answers kind (told_by asked.now)
        (record { device = device.old; reply = reply.old; out = out.old })
        (record { device = device.new; reply = reply.new; out = out.new }) result }
{
    match kind {
        MemoryKind::Event => event(device, asked, reply, out),
        MemoryKind::LowestRun => lowest_run(device),
        MemoryKind::Save => save(alloc, device.image(), out),
        MemoryKind::Turns => turns(device, asked, reply),
    }
}

/// The number of the lowest run that is active, or [`NO_RUN`].
fn lowest_run(device: &Device) -> usize
    ensures { result ≡ lowest_number device.now }
{
    match device.lowest_run() {
        Some(run) => run as usize,
        None => NO_RUN,
    }
}
