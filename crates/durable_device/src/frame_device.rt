//! The device as a machine whose events are frames.

ghost use Rattle.std.specs.Prelude.{◌≡◌, ◌≤◌, length, take, IfOk, OnOk};
ghost use Rattle.nvme_entry.specs.declared.command.TheConstants.{MOST_TRANSFER};
ghost use Rattle.device_events.specs.Replies.{data_length};
ghost use Rattle.device_meaning.specs.Judging.{interval_judge};
ghost use Rattle.device_meaning.specs.Reached.{IsReached};
ghost use Rattle.device_meaning.specs.State.{new_state};
ghost use Rattle.durable_device.specs.FrameEvents.{told_by};
ghost use Rattle.durable_device.specs.Machine.{HasDone, IsDeviceBase, next_state, one_device};

use crate::changes::{is_want_of_memory, may_change};
use crate::frame_event::{FrameEvent, event_in};
use crate::sections::{kept_in, sections_of};
use device_events::{Event, Reply};
use durable_machine::{Applied, Machine};
use image_base::{base_length, load_base, save_base};
use image_store::Image;
use kept_device::SectionFault;
use nvme_entry::MOST_TRANSFER;
use runner::Device;
use std::alloc::{AllocError, Global};
use std::marker::Model;

/// A device, and room for the data of a reply. A clause sees the device's state.
#[derive(Drop)]
pub struct FrameDevice {
    /// On the heap, since it is moved from hand to hand while a file is opened.
    device: Box<Device>,
    /// Made at the first event. No one reads what replies leave in it.
    output: Vec<u8>,
}

impl Model for FrameDevice {
    ghost use Rattle.device_meaning.specs.State.{State};

    ghost Value = { State };

    ghost view = { λ d. d.device.value };
}

impl FrameDevice {
    /// A device with the namespace of an image, without a program or a run.
    ///
    /// # Errors
    ///
    /// No memory.
    pub fn new(alloc: Global, image: Image) -> Result<FrameDevice, AllocError>
        ensures { IfOk result (λ device. device ≡ new_state image) }
    {
        Ok(FrameDevice {
            device: Box::new(alloc, Device::new(alloc, image))?,
            output: Vec::new(alloc),
        })
    }

    /// The device.
    pub fn device(&self) -> &Device
        ensures { result.now ≡ self.now }
    {
        &self.device
    }

    /// The device, for events of any kind.
    pub fn into_device(self) -> Box<Device>
        ensures { result.value ≡ self }
    {
        let FrameDevice { device, .. } = self;
        device
    }

    /// The namespace as an image. The device is in a state that events leave.
    pub fn image(&self) -> &Image
        ensures value { result.now ≡ self.now.namespace }
        ensures reached { IsReached interval_judge self.now }
    {
        self.device.image()
    }

    /// A base that stands for the device.
    ///
    /// # Errors
    ///
    /// No memory.
    pub fn base(&self, alloc: Global) -> Result<Vec<u8>, AllocError>
        ensures { IfOk result (λ base. IsDeviceBase base.items self.now) }
    {
        base_of(alloc, &self.device)
    }
}

/// A base that stands for a device, in memory that has room for the sectors after it, so that these need no more.
///
/// # Errors
///
/// No memory.
pub fn base_of(alloc: Global, device: &Device) -> Result<Vec<u8>, AllocError>
    ensures { IfOk result (λ base. IsDeviceBase base.items device.now) }
{
    let mut base = tight_base_of(alloc, device)?;
    let len = base.len();
    base.resize(len + 2 * stored_file::SECTOR, 0)?;
    base.truncate(len);
    Ok(base)
}

/// A base that stands for a device.
fn tight_base_of(alloc: Global, device: &Device) -> Result<Vec<u8>, AllocError>
    ensures { IfOk result (λ base. IsDeviceBase base.items device.now) }
{
    let kept = device.kept(alloc)?;
    let sections = sections_of(alloc, &kept)?;
    save_base(alloc, device.image(), &sections)
}

impl Machine for FrameDevice {
    ghost loads = { IsDeviceBase };

    ghost next = { next_state };

    ghost one_base = { one_device };

    fn base_length(front: &[u8]) -> usize {
        base_length(front)
    }

    fn load(alloc: Global, file: &[u8]) -> Result<Option<(Self, usize)>, AllocError> {
        let Some((base, length)) = load_base(alloc, file)? else {
            return Ok(None);
        };
        let kept = match kept_in(alloc, &base.sections) {
            Ok(kept) => kept,
            Err(SectionFault::Damaged) => return Ok(None),
            Err(SectionFault::Memory) => return Err(AllocError),
        };
        let Some(device) = Device::restored(alloc, base.image, &kept.programs, &kept.runs)? else {
            return Ok(None);
        };
        let device = FrameDevice {
            device: Box::new(alloc, device)?,
            output: Vec::new(alloc),
        };
        Ok(Some((device, length)))
    }

    fn apply(&mut self, _: Global, frame: &[u8]) -> Result<Applied, AllocError> {
        let Some(event) = event_in(frame) else {
            return Ok(Applied {
                changes: false,
                starved: false,
            });
        };
        // Room first: what is done can't be taken back.
        make_room(&mut self.output)?;
        let reply = perform(&mut *self.device, &event, &mut self.output);
        let changes = may_change(&event, &reply);
        let starved = is_want_of_memory(&reply);
        Ok(Applied { changes, starved })
    }
}

/// Makes a buffer long enough for the data of any reply.
///
/// # Errors
///
/// No memory.
fn make_room(output: &mut Vec<u8>) -> Result<(), AllocError>
    ensures { OnOk result (MOST_TRANSFER ≤ length output.new.items) }
{
    if output.len() < MOST_TRANSFER {
        output.resize(MOST_TRANSFER, 0)?;
    }
    Ok(())
}

/// Does an event, from its data where that lies. The data of the reply goes to the front of `output`.
#[tactic(auto, using(crate::proofs::Told::taken_done, crate::proofs::Told::happened_done))]
fn perform(device: &mut Device, event: &FrameEvent<'_>, output: &mut [u8]) -> Reply
    requires { MOST_TRANSFER ≤ length output.old }
    ensures done { HasDone (told_by event.now) device.old device.new
        (record { reply = result; bytes = take (data_length result) output.new }) }
    ensures within { data_length result ≤ length output.new }
{
    match event {
        FrameEvent::Submit {
            queue,
            entry,
            input,
        } => device.submit(*queue, entry, input, output),
        FrameEvent::Turn { run } => device.apply(&Event::Turn { run: *run }, output),
        FrameEvent::Fault { zone, state } => device.apply(
            &Event::Fault {
                zone: *zone,
                state: *state,
            },
            output,
        ),
    }
}
