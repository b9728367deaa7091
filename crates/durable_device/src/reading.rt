//! The device of a file that is only read.

ghost use Rattle.std.specs.Prelude.{IfErr, IfOk};
ghost use Rattle.device_meaning.specs.Judging.{interval_judge};
ghost use Rattle.device_meaning.specs.Reached.{IsReached};
ghost use Rattle.durable_device.specs.Kept.{RefusesBytes, StandsForIt};

use crate::FrameDevice;
use durable_machine::{Fault, machine_in};
use runner::Device;
use std::alloc::Global;

/// The device that the bytes of a file stand for, in a state that events leave. It is that of
/// [`DurableDevice::open_read`](crate::DurableDevice::open_read), which the same bytes open and refuse; but nothing is brought to a disk.
///
/// # Errors
///
/// The bytes don't begin with a base in whole sectors, or have what no crash leaves: then they stand for no device. Or no memory.
pub fn device_in(alloc: Global, file: &[u8]) -> Result<Box<Device>, Fault>
    ensures state { IfOk result (λ device. StandsForIt file.now device.value) }
    ensures reached { IfOk result (λ device. IsReached interval_judge device.value) }
    ensures refused { IfErr result (RefusesBytes file.now) }
{
    match machine_in::<FrameDevice>(alloc, file) {
        Ok(machine) => {
            // Brings in that the device is in a state that events leave.
            let _ = machine.image();
            Ok(machine.into_device())
        }
        Err(fault) => Err(fault),
    }
}
