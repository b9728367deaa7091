//! A device in a file for which C makes the calls, as frames come.

ghost use Rattle.std.specs.Prelude.{◌≡◌, IfErr, OnOk};
ghost use Rattle.durable_device.specs.Kept.{IsKept};
ghost use Rattle.device_serve.specs.Faults.{BlamesDisk};
ghost use Rattle.device_library.specs.Devices.{IsCommitted, journal_in, journal_of, promised_in, state_in, state_of};
ghost use Rattle.device_library.specs.Files.{promised_of};
ghost use Rattle.device_library.specs.Serving.{IsBetweenFrames, ServesFrames, StopsFrames, site};

use device_serve::laws::crash_leaves_rounds;
use device_serve::{FrameCodec, KeepsNothing, KeptDevice, ServeFault, serve_whole};
use durable_device::DurableDevice;
use durable_machine::InFile;
use handed_file::HandedFile;
use std::alloc::Global;

/// A device that was opened.
pub fn handed(alloc: Global, device: DurableDevice<HandedFile>) -> KeptDevice<InFile<HandedFile>>
    requires { IsKept (state_of device) (journal_of device).gate (promised_of (journal_of device).file) }
    ensures state { state_in result ≡ state_of device }
    ensures journal { journal_in result ≡ journal_of device }
    ensures kept { IsCommitted result }
{
    KeptDevice::opened(alloc, device)
}

/// Does what frames ask for, and adds the frames of the replies to `answer`.
///
/// # Errors
///
/// Why it isn't done. The file has to be opened again.
pub fn serve(
    alloc: Global,
    device: &mut KeptDevice<InFile<HandedFile>>,
    codec: &mut FrameCodec<KeepsNothing>,
    frames: &[u8],
    answer: &mut Vec<u8>,
) -> Result<(), ServeFault>
    requires kept { IsCommitted device.old }
    requires between { IsBetweenFrames codec.old }
    ensures kept { OnOk result (IsCommitted device.new) }
    ensures between { OnOk result (IsBetweenFrames codec.new) }
    ensures served { OnOk result (ServesFrames frames.now
        (site device.old codec.old answer.old.items) (site device.new codec.new answer.new.items)) }
    ensures stopped { IfErr result (StopsFrames frames.now
        (site device.old codec.old answer.old.items) (site device.new codec.new answer.new.items)) }
    ensures blames { BlamesDisk (promised_in device.old) (promised_in device.new) result }
{
    // Brings in what a crash leaves of rounds.
    crash_leaves_rounds::<InFile<HandedFile>, FrameCodec<KeepsNothing>>();
    match serve_whole(alloc, device, codec, frames, answer) {
        Ok(()) => Ok(()),
        Err(why) => Err(why),
    }
}
