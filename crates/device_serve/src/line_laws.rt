//! What the rounds of a stream of lines come to. The functions do nothing: what they ensure are the laws.

ghost use Rattle.device_serve.specs.WholeLines.{LinesAreServed, LinesStop};

use durable_device::FrameDevice;
use durable_machine::Store;

/// A stream of lines that is served is a command file, whose events are done and answered in order.
pub fn lines_are_served<S: Store<FrameDevice> + Drop>()
    ensures { LinesAreServed S.told S.settled }
{}

/// Where a stream of lines stops, its lines were served up to there, and they are counted from its first on.
pub fn lines_stop<S: Store<FrameDevice> + Drop>()
    ensures { LinesStop S.told S.settled }
{}
