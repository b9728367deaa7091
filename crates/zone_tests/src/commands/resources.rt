//! Counts of zones that hold resources, zones that give way, and zones that runs hold.

ghost use Rattle.std.specs.Prelude.{◌≡◌, ◌≤◌, ◌^◌, IfOk, length};

use std::test::Fail;
use zone_resources::*;
use zone_state::{Action, Status, Zone, ZoneState};

const LIMITS: Limits = Limits {
    open_limit: 2,
    active_limit: 3,
};

/// The zone of this state with `written` of its six blocks written.
fn zone(state: ZoneState, written: u32) -> Result<Zone, Fail>
    ensures { IfOk result (λ z. z.state ≡ state) }
{
    Ok(Zone::new(state, written, 6).ok_or("a zone")?)
}

/// What admission gives where one of these zones wants resources.
fn admitted(zones: &[Zone], holds: &Holds, wanted: Wanted) -> Result<Option<u32>, Status>
    requires { length zones.now ≤ 2 ^ 32 }
{
    admit(zones, &Counts::of(zones), &LIMITS, holds, wanted)
}

#[test]
fn an_implicitly_opened_zone_gives_way(rt: HostRuntime) -> Result<(), Fail> {
    let implicit = zone(ZoneState::ImplicitlyOpened, 1)?;
    let explicit = zone(ZoneState::ExplicitlyOpened, 1)?;
    let closed = zone(ZoneState::Closed, 1)?;
    let empty = zone(ZoneState::Empty, 0)?;
    let active_full = Err(Status::TOO_MANY_ACTIVE_ZONES);
    let open_full = Err(Status::TOO_MANY_OPEN_ZONES);

    let holds = Holds::none();
    for (zones, told) in [
        ([implicit, implicit, empty, empty], Ok(Some(0))),
        ([closed, implicit, implicit, empty], active_full),
        ([explicit, explicit, empty, empty], open_full),
        ([explicit, explicit, closed, empty], active_full),
    ] {
        assert_eq!(rt; admitted(&zones, &holds, Wanted::OpenAndActive), told);
    }
    assert_eq!(rt; Wanted::of(empty.state()), Some(Wanted::OpenAndActive));
    Ok(())
}
