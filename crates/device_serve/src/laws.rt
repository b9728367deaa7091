//! What a crash leaves of a device that is served. The functions do nothing: what they ensure is the law.

ghost use Rattle.device_serve.specs.Rounds.{CrashLeavesRounds, RoundsComeBack, afresh};

use crate::codec::Codec;
use durable_device::FrameDevice;
use durable_machine::Store;

/// A crash at any moment leaves the device after the first of the rounds.
pub fn crash_leaves_rounds<S: Store<FrameDevice> + Drop, C: Codec<S>>()
    ensures { CrashLeavesRounds (afresh C.does) S.told S.settled }
{
    S::rests();
}

/// Of a file that a crash left while rounds were served, the device after the first of them is opened.
pub fn rounds_come_back<S: Store<FrameDevice> + Drop, C: Codec<S>>()
    ensures { RoundsComeBack (afresh C.does) S.told S.settled }
{}
