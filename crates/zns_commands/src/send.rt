//! Zone Management Send.

ghost use Rattle.std.specs.Prelude.{true, ◌≡◌, ◌<◌, ◌≤◌, ◌^◌, length, IfOk, OnOk, OnErr};
ghost use Rattle.nvme_entry.specs.declared.command.StandardCommand.TheVariants.{Send};
ghost use Rattle.common_definitions.specs.Checks.{first_failed, unless_failed};
ghost use Rattle.image_store.specs.declared.geometry.TheConstants.{MOST_ZONES};
ghost use Rattle.image_store.specs.Namespace.{zone_at, with_zone, counted_zones, IsWithinLimits, with_state};
ghost use Rattle.zns_commands.specs.Effect.{Tells};
ghost use Rattle.zns_commands.specs.Meaning.{meaning, refusal_of};
ghost use Rattle.zns_commands.specs.Resources.{closed};
ghost use Rattle.zns_commands.specs.Send.{send_effect, room_of, zone_checks, zone_effect, all_checks, all_effect, all_fit, swept, takes, held_among, taken_among};
ghost use Rattle.zns_commands.specs.steps.Accepted.{CanMove};
ghost use Rattle.zns_commands.specs.steps.Plans.{zone_plan};

use crate::address::lowest;
use crate::answer::Answer;
use crate::resources::{give_way, room_for};
use crate::transfer::check_transfer;
use image_store::{Image, Zone};
use nvme_entry::Status;
use zone_resources::Holds;
use zone_state::{Action, ZoneState};

/// An action on one zone that isn't refused: the zone, the state that it comes into, and the zone
/// that gives way to it.
#[derive(Clone, Copy, Debug)]
struct ZonePlan {
    /// The zone's number.
    zone: u32,
    /// The state that it comes into.
    to: ZoneState,
    /// The number of the zone that is closed before, for the open resource that it has.
    closing: Option<u32>,
}

/// The checks of an action on one zone.
fn check_action(image: &Image, holds: &Holds, lba: u64, action: Action) -> Result<ZonePlan, Status>
    ensures value { result ≡ unless_failed (first_failed (zone_checks image.now holds.now lba action)) (zone_plan image.now holds.now lba action) }
    ensures can { IfOk result (CanMove image.now) }
{
    let zone = lowest(image, lba)?;
    if holds.refuses(action, zone) {
        return Err(Status::ZONE_HELD);
    }
    let to = image.zone(zone).manage(action)?;
    let closing = room_of(image, holds, action, zone)?;
    // Brings in what holds of each image.
    let _ = image.geometry();
    Ok(ZonePlan { zone, to, closing })
}

/// The zone to be closed so that the action can be taken, if one has to be: only Open takes resources.
fn room_of(image: &Image, holds: &Holds, action: Action, zone: u32) -> Result<Option<u32>, Status>
    requires { zone < length image.now.zones }
    ensures { result ≡ room_of image.now holds.now action (zone_at image.now zone).state }
{
    match action {
        Action::Open => room_for(image, holds, zone),
        _ => Ok(None),
    }
}

/// Takes an action on the zone whose lowest block is `lba`.
fn send_to_zone(image: &mut Image, holds: &Holds, lba: u64, action: Action) -> Result<(), Status>
    ensures value { result ≡ unless_failed (first_failed (zone_checks image.old holds.now lba action)) tt }
    ensures ok { OnOk result (image.new ≡ zone_effect image.old holds.now lba action) }
    ensures err { OnErr result (image.new ≡ image.old) }
{
    let plan = check_action(image, holds, lba, action)?;
    carry_out(image, plan);
    Ok(())
}

/// Does what a plan says.
fn carry_out(image: &mut Image, plan: ZonePlan)
    requires { CanMove image.old plan }
    ensures { image.new ≡ with_state (closed image.old plan.closing) plan.zone plan.to }
{
    give_way(image, plan.zone, plan.closing);
    image.set_state(plan.zone, plan.to);
}

/// Does Select All take a zone of this state?
fn takes(action: Action, state: ZoneState) -> bool
    ensures { result ≡ takes action state }
{
    match action {
        Action::Close => state.is_open(),
        Action::Finish => state.is_active(),
        Action::Open => state == ZoneState::Closed,
        Action::Reset => state.is_active() || state == ZoneState::Full,
        Action::Offline => state == ZoneState::ReadOnly,
    }
}

/// Is a zone that Select All would take held against the action?
fn takes_held(zones: &[Zone], holds: &Holds, action: Action) -> bool
    requires { length zones.now ≤ 2 ^ 32 }
    ensures { result ≡ held_among zones.now holds.now action }
{
    zones.iter().enumerate().any(|(number, zone)| takes(action, zone.state())
        && holds.refuses(action, number as u32))
}

/// How many of the zones Select All would take.
fn taken(zones: &[Zone], action: Action) -> usize
    ensures count { result ≡ taken_among zones.now action }
    ensures most { result ≤ length zones.now }
{
    zones
        .iter()
        .filter(|zone| takes(action, zone.state()))
        .count()
}

/// The zones of an image, of which there are at most as many as a geometry allows.
fn few_zones(image: &Image) -> &[Zone]
    ensures value { result.now ≡ counted_zones image.now }
    ensures few { length result.now ≤ MOST_ZONES }
{
    // Brings in what holds of each image.
    let _ = image.geometry();
    image.zones()
}

/// The checks of Select All.
fn check_all(image: &Image, holds: &Holds, action: Action) -> Result<(), Status>
    ensures value { result ≡ unless_failed (first_failed (all_checks image.now holds.now action)) tt }
    ensures fits { OnOk result (all_fit image.now action ≡ true) }
{
    let zones = few_zones(image);
    if takes_held(zones, holds, action) {
        return Err(Status::ZONE_HELD);
    }
    if !all_fit(image, action) {
        return Err(Status::TOO_MANY_OPEN_ZONES);
    }
    Ok(())
}

/// Has each zone that Select All would open an open resource?
fn all_fit(image: &Image, action: Action) -> bool
    ensures { result ≡ all_fit image.now action }
{
    match action {
        Action::Open => {
            let limit = image.geometry().limits().open_limit as usize;
            image.counts().opened + taken(image.zones(), Action::Open) <= limit
        }
        _ => true,
    }
}

/// Takes the action on a zone, if Select All takes it.
fn sweep_zone(image: &mut Image, zone: u32, action: Action)
    requires inside { zone < length image.old.zones }
    requires limits { IsWithinLimits (with_zone image.old zone (swept action (zone_at image.old zone))) }
    ensures { image.new ≡ with_zone image.old zone (swept action (zone_at image.old zone)) }
{
    let mut copy = image.zone(zone);
    if takes(action, copy.state()) {
        if let Ok(to) = copy.manage(action) {
            image.set_state(zone, to);
        }
    }
}

/// Takes the action on each zone that Select All takes, where each that is opened has an open resource.
fn sweep(image: &mut Image, action: Action)
    requires { all_fit image.old action ≡ true }
    ensures { image.new ≡ all_effect image.old action }
{
    let zones = image.geometry().zones();
    for zone in 0..zones {
        sweep_zone(image, zone, action);
    }
}

/// Takes a zone send action, on one zone or on all zones that Select All takes, and changes nothing
/// where it is refused.
pub fn send(
    image: &mut Image,
    holds: &Holds,
    lba: u64,
    action: Action,
    select_all: bool,
    input: &[u8],
) -> Answer
    ensures answer { Tells result image.new (meaning image.old holds.now (Send lba action select_all) input.now) }
    ensures no_data { result.length ≡ 0 }
{
    Answer::without_data(try_send(image, holds, lba, action, select_all, input))
}

/// What [`send`] does: the number 0, or the status that refuses it.
fn try_send(
    image: &mut Image,
    holds: &Holds,
    lba: u64,
    action: Action,
    select_all: bool,
    input: &[u8],
) -> Result<u64, Status>
    ensures value { result ≡ unless_failed (refusal_of image.old holds.now (Send lba action select_all) input.now) 0 }
    ensures ok { OnOk result (image.new ≡ send_effect image.old holds.now lba action select_all) }
    ensures err { OnErr result (image.new ≡ image.old) }
{
    check_transfer(0, 0, input)?;
    if !select_all {
        send_to_zone(image, holds, lba, action)?;
        return Ok(0);
    }
    check_all(image, holds, action)?;
    sweep(image, action);
    Ok(0)
}
