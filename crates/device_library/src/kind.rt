//! What C asks a handle for, by the numbers of `c/pifnjarl_handle.h`.

ghost use Rattle.std.specs.Prelude.{◌≡◌};
ghost use Rattle.device_library.specs.Kinds.{door_of, kept_kind, loop_kind, memory_kind, nothing_of, target_kind};

use crate::numbers::{NO_DEVICE, NO_RUN};

/// The number that asks what opening came to. The others are those of a kind.
pub const OPENED: u32 = 0;

/// The number that has a loop serve a target from then on.
pub const BEGIN: u32 = 16;

/// The number that asks a device in memory for an event.
const EVENT: u32 = 1;

/// The number that asks it for its lowest run.
const LOWEST_RUN: u32 = 2;

/// The number that asks it to give a run turns.
const TURNS: u32 = 22;

/// By which door a handle is opened.
#[derive(Clone, Copy)]
pub enum Door {
    /// On an image: a device in memory.
    Memory,
    /// On a file: a device that is kept in it.
    File,
    /// On an image: a target before a device in memory.
    Target,
    /// On a file: a target before a device that is kept in it.
    TargetFile,
}

impl Door {
    /// The door with a number.
    pub fn from_number(number: u32) -> Option<Door>
        ensures { result ≡ door_of number }
    {
        match number {
            0 => Some(Door::Memory),
            1 => Some(Door::File),
            2 => Some(Door::Target),
            3 => Some(Door::TargetFile),
            _ => None,
        }
    }
}

/// What is asked about the call that C is to make next for a file.
#[derive(Clone, Copy)]
pub enum Question {
    /// Which it is.
    Next,
    /// At which offset, or to which length.
    Place,
    /// Of how many bytes.
    Size,
    /// For these bytes, from one on.
    Bytes,
}

/// What a device in memory is asked for.
#[derive(Clone, Copy)]
pub enum MemoryKind {
    /// To do an event.
    Event,
    /// For its lowest active run.
    LowestRun,
    /// For the image as it is now.
    Save,
    /// To give a run turns.
    Turns,
}

impl MemoryKind {
    /// The kind with a number.
    #[inline(always)]
    pub fn from_number(number: u32) -> Option<MemoryKind>
        ensures { result ≡ memory_kind number }
    {
        match number {
            1 => Some(MemoryKind::Event),
            2 => Some(MemoryKind::LowestRun),
            3 => Some(MemoryKind::Save),
            22 => Some(MemoryKind::Turns),
            _ => None,
        }
    }
}

/// What a device in a file is asked for.
#[derive(Clone, Copy)]
pub enum KeptKind {
    /// To do what frames ask for.
    Serve,
    /// For the frames of the replies, from a byte on.
    Replies,
    /// To fold the journal into a new file of at most so many bytes.
    Fold,
    /// What came of the last fold.
    Folded,
    /// About the call that C is to make next.
    Ask(Question),
    /// To take it for done.
    Done,
    /// To take it for failed.
    Failed,
}

impl KeptKind {
    /// The kind with a number.
    pub fn from_number(number: u32) -> Option<KeptKind>
        ensures { result ≡ kept_kind number }
    {
        match number {
            4 => Some(KeptKind::Serve),
            5 => Some(KeptKind::Replies),
            6 => Some(KeptKind::Fold),
            7 => Some(KeptKind::Folded),
            8 => Some(KeptKind::Ask(Question::Next)),
            9 => Some(KeptKind::Ask(Question::Place)),
            10 => Some(KeptKind::Ask(Question::Size)),
            11 => Some(KeptKind::Ask(Question::Bytes)),
            12 => Some(KeptKind::Done),
            13 => Some(KeptKind::Failed),
            _ => None,
        }
    }
}

/// What a target is asked for, before a loop serves it.
#[derive(Clone, Copy)]
pub enum TargetKind {
    /// About the call that C is to make next.
    Ask(Question),
    /// To take it for done.
    Done,
    /// To take it for failed.
    Failed,
    /// To take the names that come of a UUID.
    Name,
    /// For the name of the subsystem.
    Nqn,
}

impl TargetKind {
    /// The kind with a number.
    pub fn from_number(number: u32) -> Option<TargetKind>
        ensures { result ≡ target_kind number }
    {
        match number {
            8 => Some(TargetKind::Ask(Question::Next)),
            9 => Some(TargetKind::Ask(Question::Place)),
            10 => Some(TargetKind::Ask(Question::Size)),
            11 => Some(TargetKind::Ask(Question::Bytes)),
            12 => Some(TargetKind::Done),
            13 => Some(TargetKind::Failed),
            14 => Some(TargetKind::Name),
            15 => Some(TargetKind::Nqn),
            _ => None,
        }
    }
}

/// What a loop is asked for.
#[derive(Clone, Copy)]
pub enum LoopKind {
    /// For the operation that is to be made.
    Operation,
    /// On which connections bytes may come, where it waits.
    Reads,
    /// Which may take bytes.
    Writes,
    /// For the bytes that it carries, from one on.
    Carried,
    /// To take what came of it.
    Step,
}

impl LoopKind {
    /// The kind with a number.
    pub fn from_number(number: u32) -> Option<LoopKind>
        ensures { result ≡ loop_kind number }
    {
        match number {
            17 => Some(LoopKind::Operation),
            18 => Some(LoopKind::Reads),
            19 => Some(LoopKind::Writes),
            20 => Some(LoopKind::Carried),
            21 => Some(LoopKind::Step),
            _ => None,
        }
    }
}

/// What is answered where nothing is done, since a handle has nothing that knows a kind.
pub fn nothing(number: u32) -> usize
    ensures { result ≡ nothing_of number }
{
    if number == EVENT || number == TURNS {
        NO_DEVICE
    } else if number == LOWEST_RUN {
        NO_RUN
    } else {
        0
    }
}
