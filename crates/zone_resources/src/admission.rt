//! Whether a zone may take resources.

ghost use Rattle.std.specs.Prelude.{◌≡◌, ◌<◌, ◌≤◌, ◌^◌, IfSome, length};
ghost use Rattle.zone_resources.specs.Admission.{admission, zone_to_close, may_close, wanted_of};
ghost use Rattle.zone_resources.specs.Counts.{counts_of};

use crate::counts::Counts;
use crate::holds::Holds;
use zone_state::{Status, Zone, ZoneState};

/// How many zones may hold resources at one time (ZNS 1.1, 2.1.1).
#[derive(Clone, Copy, Debug, PartialEq, Eq)]
pub struct Limits {
    /// The most zones that may be open: Maximum Open Resources.
    pub open_limit: u32,
    /// The most zones that may be active: Maximum Active Resources.
    pub active_limit: u32,
}

/// The resources that a zone wants so that it can be open.
#[derive(Clone, Copy, Debug, PartialEq, Eq)]
pub enum Wanted {
    /// An open resource; the zone has an active one.
    OpenOnly,
    /// An open and an active resource.
    OpenAndActive,
}

impl Wanted {
    /// What a zone of the state `from` wants so that it can be open; None where it has it all, and
    /// where it cannot be open.
    pub fn of(from: ZoneState) -> Option<Wanted>
        ensures { result ≡ wanted_of from }
    {
        match from {
            ZoneState::Empty => Some(Wanted::OpenAndActive),
            ZoneState::Closed => Some(Wanted::OpenOnly),
            _ => None,
        }
    }
}

/// Whether one more of the zones may take the resources that it wants, of which the active one is asked for first (ZNS
/// 1.1, 2.1.1). Gives the number of a zone that has to be closed first, where no open resource is free: the
/// lowest-numbered one that is implicitly opened and no run's destination (profile). Where there is none such, too many
/// are open.
///
/// # Errors
///
/// - [`Status::TOO_MANY_ACTIVE_ZONES`], which is tested first, where an active resource is wanted
///   and none is free;
/// - [`Status::TOO_MANY_OPEN_ZONES`] where no open resource is free and no zone can be closed.
pub fn admit(
    zones: &[Zone],
    counts: &Counts,
    limits: &Limits,
    holds: &Holds,
    wanted: Wanted,
) -> Result<Option<u32>, Status>
    requires counted { counts.now ≡ counts_of zones.now }

    // A zone's number is a u32.
    requires numbered { length zones.now ≤ 2 ^ 32 }
    ensures { result ≡ admission zones.now limits.now holds.now wanted }
{
    if wanted == Wanted::OpenAndActive && counts.active >= limits.active_limit as usize {
        return Err(Status::TOO_MANY_ACTIVE_ZONES);
    }
    if counts.opened < limits.open_limit as usize {
        return Ok(None);
    }
    match zone_to_close(zones, holds) {
        Some(number) => Ok(Some(number as u32)),
        None => Err(Status::TOO_MANY_OPEN_ZONES),
    }
}

/// The lowest-numbered zone that may be closed.
fn zone_to_close(zones: &[Zone], holds: &Holds) -> Option<usize>
    requires { length zones.now ≤ 2 ^ 32 }
    ensures lowest { result ≡ zone_to_close holds.now zones.now }
    ensures within { IfSome result (λ number. number < length zones.now) }
{
    zones
        .iter()
        .enumerate()
        .position(|(number, zone)| may_close(holds, number as u32, zone))
}

/// May the zone of this number be closed to make room for another?
fn may_close(holds: &Holds, number: u32, zone: &Zone) -> bool
    ensures { result ≡ may_close holds.now number zone.now }
{
    zone.state() == ZoneState::ImplicitlyOpened && !holds.is_destination(number)
}
