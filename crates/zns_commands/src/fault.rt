//! Zone faults.

ghost use Rattle.std.specs.Prelude.{◌≡◌};
ghost use Rattle.zns_commands.specs.Fault.{zone_fault_refusal, faulted};

use image_store::Image;
use zone_resources::Holds;
use zone_state::{FaultRefused, FaultState};

/// Brings a zone into the state of a fault.
///
/// # Errors
///
/// A zone that isn't there, that a run reads or appends to, or whose state can't become the fault's; nothing is changed then.
pub fn fault(
    image: &mut Image,
    zone: u32,
    state: FaultState,
    holds: &Holds,
) -> Result<(), FaultRefused>
    ensures refusal { result ≡ zone_fault_refusal image.old holds.now zone state }
    ensures state { image.new ≡ faulted image.old holds.now zone state }
{
    if zone >= image.geometry().zones() || holds.is_held(zone) {
        return Err(FaultRefused);
    }
    let mut copy = image.zone(zone);
    copy.fault(state)?;
    image.set_state(zone, copy.state());
    Ok(())
}
