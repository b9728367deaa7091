//! What lies in C's memory.

ghost use Rattle.std.specs.Prelude.{Some};
ghost use Rattle.device_library.specs.Opening.{IsMade, IsMadeBy};

use crate::kept::Kept;
use crate::kind::Door;
use crate::looping::Serving;
use crate::memory;
use crate::numbers::{DONE, NO_DOOR};
use crate::opening::{open_file, open_target, open_target_file};
use crate::target::Target;
use runner::Device;
use std::alloc::Global;

/// What C asks.
#[derive(Drop)]
pub enum Session {
    /// A device in memory.
    Memory(Device),
    /// A device in a file.
    Kept(Kept),
    /// A target, before a device in memory or in a file.
    Target(Target),
    /// One that a loop serves.
    Loop(Serving),
}

/// What lies in the memory that C brings: a session, or none and why.
#[derive(Drop)]
pub struct Handle {
    /// What it takes memory from.
    pub alloc: Global,
    /// What C asks, where it was opened.
    pub session: Option<Session>,
    /// [`DONE`], or why there is none, by number.
    pub opened: u32,
}

/// A handle that is opened on these bytes by the door with a number.
pub fn make(alloc: Global, door: u32, bytes: &[u8]) -> Handle
    ensures { IsMade door bytes.now result }
{
    open(alloc, Door::from_number(door), bytes)
}

/// A handle that is opened by a door. Each has a function that isn't inlined, and makes the handle at once, since a device takes much of
/// the stack on its way.
fn open(alloc: Global, door: Option<Door>, bytes: &[u8]) -> Handle
    ensures { IsMadeBy door bytes.now result }
{
    match door {
        Some(Door::Memory) => in_memory(alloc, bytes),
        Some(Door::File) => in_file(alloc, bytes),
        Some(Door::Target) => target(alloc, bytes),
        Some(Door::TargetFile) => target_in_file(alloc, bytes),
        None => Handle {
            alloc,
            session: None,
            opened: NO_DOOR,
        },
    }
}

/// A device in memory.
#[inline(never)]
fn in_memory(alloc: Global, bytes: &[u8]) -> Handle
    ensures { IsMadeBy (Some Door.Memory) bytes.now result }
{
    match memory::open(alloc, bytes) {
        Ok(device) => Handle {
            alloc,
            session: Some(Session::Memory(device)),
            opened: DONE,
        },
        Err(why) => Handle {
            alloc,
            session: None,
            opened: why,
        },
    }
}

/// A device in a file.
#[inline(never)]
fn in_file(alloc: Global, bytes: &[u8]) -> Handle
    ensures { IsMadeBy (Some Door.File) bytes.now result }
{
    match open_file(alloc, bytes) {
        Ok(kept) => Handle {
            alloc,
            session: Some(Session::Kept(kept)),
            opened: DONE,
        },
        Err(why) => Handle {
            alloc,
            session: None,
            opened: why,
        },
    }
}

/// A target before a device in memory.
#[inline(never)]
fn target(alloc: Global, bytes: &[u8]) -> Handle
    ensures { IsMadeBy (Some Door.Target) bytes.now result }
{
    match open_target(alloc, bytes) {
        Ok(target) => Handle {
            alloc,
            session: Some(Session::Target(target)),
            opened: DONE,
        },
        Err(why) => Handle {
            alloc,
            session: None,
            opened: why,
        },
    }
}

/// A target before a device in a file.
#[inline(never)]
fn target_in_file(alloc: Global, bytes: &[u8]) -> Handle
    ensures { IsMadeBy (Some Door.TargetFile) bytes.now result }
{
    match open_target_file(alloc, bytes) {
        Ok(target) => Handle {
            alloc,
            session: Some(Session::Target(target)),
            opened: DONE,
        },
        Err(why) => Handle {
            alloc,
            session: None,
            opened: why,
        },
    }
}

/// Ends a handle.
pub fn end(_handle: Handle) {}
