//! What is kept of a device, as laws: these functions do nothing.

ghost use Rattle.durable_device.specs.Again.{ChangesComeAgain};
ghost use Rattle.durable_device.specs.Kept.{IsKept};
ghost use Rattle.durable_device.specs.Laws.{ComesBack, FilesAreReached, FramesTellEvents};

use crate::DurableDevice;
use stored_file::StoredFile;

/// The frame of an event tells it, and bytes tell no event but the one whose frame they are.
pub fn frames_tell_events()
    ensures { FramesTellEvents }
{}

/// An event that may have changed a device comes to the same once more, where memory is given, by its frame; and any other changed
/// nothing.
pub fn changes_come_again()
    ensures { ChangesComeAgain }
{}

/// What a file stands for is the device after the events in it, from that on for which its base stands; and it is in a state that
/// events leave, of which all laws of the device hold.
pub fn files_are_reached()
    ensures { FilesAreReached }
{}

/// Whatever a crash leaves of a device at rest, that device is opened of it: so no event is lost that was acknowledged.
pub fn acknowledged_comes_back<F: StoredFile + Drop>(device: &DurableDevice<F>)
    requires { IsKept device.now.store.machine device.now.store.events.journal.gate (F.told device.now.store.events.journal.file) }
    ensures { ComesBack (F.told device.now.store.events.journal.file) device.now.store.machine }
{
    durable_machine::laws::acknowledged_comes_back(&device.store);
}
