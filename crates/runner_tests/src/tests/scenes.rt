//! Steps on a device, as data, and what has to come of them.

ghost use Rattle.std.specs.Prelude.{◌≤◌, length};

use super::room;
use super::steps::{Case, bytes_of};
use runner::{Device, Event, Reply};
use std::alloc::Global;
use std::process::Abort;
use std::test::Fail;
use zns_commands::{Geometry, Image, Limits, MOST_TRANSFER};

/// The numbers of a namespace: its zones, the blocks of a zone, how many of them can be written, and how many zones may be open and
/// active.
pub(super) type Shape = [u32; 5];

pub(super) const FOUR_ZONES: Shape = [4, 8, 6, 2, 3];

pub(super) const TWO_LONG_ZONES: Shape = [2, 64, 64, 2, 2];

pub(super) const TWELVE_ZONES: Shape = [12, 8, 8, 10, 10];

/// Steps on a device of its own.
#[derive(Clone, Copy)]
pub(super) struct Scene {
    /// What it shows.
    pub(super) name: &'static str,
    pub(super) shape: Shape,
    pub(super) steps: &'static [Case],
    /// The state of each zone at the end, and how many of its blocks are written.
    pub(super) left: &'static str,
}

/// Where something was compared: a scene, and which of its steps.
#[derive(Clone, Copy, Debug)]
struct At {
    scene: &'static str,
    step: usize,
}

/// Plays scenes.
pub(super) fn play(rt: &impl Abort, alloc: Global, scenes: &[Scene]) -> Result<(), Fail> {
    for scene in scenes {
        play_one(rt, alloc, scene)?;
    }
    Ok(())
}

fn play_one(rt: &impl Abort, alloc: Global, scene: &Scene) -> Result<(), Fail> {
    let mut device = device_of(alloc, scene.shape)?;
    let mut room = room(rt, alloc);
    let output = room.as_mut_slice();
    check_steps(rt, alloc, &mut device, output, scene.name, scene.steps)?;
    check_zones(rt, alloc, &device, scene.name, scene.left)
}

/// Does the steps of a scene, and compares the replies.
fn check_steps(
    rt: &impl Abort,
    alloc: Global,
    device: &mut Device,
    output: &mut [u8],
    scene: &'static str,
    steps: &[Case],
) -> Result<(), Fail>
    requires { MOST_TRANSFER ≤ length output.old }
    ensures { MOST_TRANSFER ≤ length output.new }
{
    for (step, case) in steps.iter().enumerate() {
        let at = At { scene, step };
        check(rt, alloc, device, output, &at, case)?;
    }
    Ok(())
}

/// Does a step, and compares the reply.
fn check(
    rt: &impl Abort,
    alloc: Global,
    device: &mut Device,
    output: &mut [u8],
    at: &At,
    case: &Case,
) -> Result<(), Fail>
    requires { MOST_TRANSFER ≤ length output.old }
    ensures { MOST_TRANSFER ≤ length output.new }
{
    let event = case.0.event(alloc)?;
    let gives = bytes_of(alloc, case.0.gives())?;
    let reply = case.1.reply(gives.len());
    for _ in 0..case.0.times() {
        check_event(rt, device, output, at, &event, &reply);
    }
    assert!(rt; output.starts_with(gives.as_slice()), "{at:?}");
    Ok(())
}

fn check_event(
    rt: &impl Abort,
    device: &mut Device,
    output: &mut [u8],
    at: &At,
    event: &Event,
    reply: &Reply,
)
    requires { MOST_TRANSFER ≤ length output.old }
    ensures { MOST_TRANSFER ≤ length output.new }
{
    assert_eq!(rt; &device.apply(event, output), reply, "{at:?}");
}

/// Compares the zones with those that have to be left.
fn check_zones(
    rt: &impl Abort,
    alloc: Global,
    device: &Device,
    scene: &str,
    zones: &str,
) -> Result<(), Fail> {
    let mut left = String::new(alloc);
    for zone in device.image().zones() {
        if !left.is_empty() {
            left.push_str(", ")?;
        }
        let (state, written) = (zone.state().word(), zone.written());
        left.push_str(format!(in alloc; "{state} {written}")?.as_str())?;
    }
    assert_eq!(rt; left.as_str(), zones, "{scene}");
    Ok(())
}

/// A device of this shape, of which nothing is written.
pub(super) fn device_of(alloc: Global, shape: Shape) -> Result<Device, Fail> {
    let [zones, size, capacity, open_limit, active_limit] = shape;
    let limits = Limits {
        open_limit,
        active_limit,
    };
    let geometry = Geometry::new(512, zones, size, capacity, limits)?;
    Ok(Device::new(alloc, Image::empty(alloc, geometry)?))
}
