//! The open and active resources that a command takes.

ghost use Rattle.std.specs.Prelude.{◌≡◌, ◌<◌, length};
ghost use Rattle.image_store.specs.Namespace.{zone_at};
ghost use Rattle.zns_commands.specs.Resources.{room_for, closed};
ghost use Rattle.zns_commands.specs.steps.Accepted.{CanGiveWay};

use image_store::Image;
use nvme_entry::Status;
use zone_resources::{Holds, Wanted, admit};
use zone_state::ZoneState;

/// The zone to be closed so that this one can be open, if one has to be.
///
/// # Errors
///
/// [`Status::TOO_MANY_ACTIVE_ZONES`] and [`Status::TOO_MANY_OPEN_ZONES`], as [`admit`] tells them.
pub fn room_for(image: &Image, holds: &Holds, zone: u32) -> Result<Option<u32>, Status>
    requires { zone < length image.now.zones }
    ensures { result ≡ room_for image.now holds.now (zone_at image.now zone).state }
{
    match Wanted::of(image.zone(zone).state()) {
        None => Ok(None),
        Some(wanted) => {
            let limits = image.geometry().limits();
            admit(image.zones(), &image.counts(), &limits, holds, wanted)
        }
    }
}

/// Closes the zone that gives way to another, if one does.
pub fn give_way(image: &mut Image, zone: u32, closing: Option<u32>)
    requires { CanGiveWay image.old zone closing }
    ensures { image.new ≡ closed image.old closing }
{
    if let Some(other) = closing {
        image.set_state(other, ZoneState::Closed);
    }
}
