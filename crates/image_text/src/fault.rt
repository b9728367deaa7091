//! Why an image could not be loaded.

ghost use Rattle.std.specs.Prelude.{◌≡◌};
ghost use Rattle.image_text.specs.Fault.{load_number};
ghost use Rattle.image_text.specs.declared.fault.LoadFault.TheVariants as load_fault;

use crate::streams::StreamFault;
use crate::version::Version;
use image_store::{GeometryRefusal, Limits};
use std::alloc::{AllocError, AllocFailed};
use thiserror::Error;
use zone_state::ZoneState;

/// What is wrong with a header behind its magic.
#[derive(Clone, Copy, Debug, PartialEq, Eq, Error)]
pub enum HeaderFault {
    /// Those of its numbers that are none of a geometry.
    #[error("{0}")]
    Numbers(GeometryRefusal),
    /// A size that blocks can have, but none of its version.
    #[error("a block of {bytes} bytes: version {} has no such size", .version.number())]
    VersionBlock { version: Version, bytes: u32 },
    /// More zones than its version has.
    #[error("{zones} zones: version {} has at most {}", .version.number(), .version.most_zones())]
    VersionZones { version: Version, zones: u32 },
    /// Bytes at its end that are zero in its version.
    #[error("bytes {} to 63 are not zero", .0.zeros_from())]
    Reserved(Version),
}

/// Why the row of a zone tells none.
#[derive(Clone, Copy, Debug, PartialEq, Eq, Error)]
pub enum ZoneRowFault {
    /// Bytes that are zero in each row.
    #[error("bytes 1 to 3 are not zero")]
    Reserved,
    /// The code that stands for no state.
    #[error("no state has code {0:x}h")]
    State(u8),
    /// A number of written blocks that the state doesn't allow.
    #[error("{state}, with {written} of {capacity} blocks written")]
    Blocks {
        state: ZoneState,
        written: u32,
        capacity: u32,
    },
}

/// Why an image could not be loaded.
#[derive(Clone, Copy, Debug, PartialEq, Eq, Error)]
pub enum LoadFault {
    /// The text ends before its header, its zone rows or its written blocks do.
    #[error("the file is no whole image: its header, a zone row or a block is cut")]
    Truncated,
    /// The text begins as that of no version.
    #[error("the first 8 bytes are neither ZNSIMG01 nor ZNSIMG02")]
    Magic,
    /// What is wrong with the header behind its magic.
    #[error("header: {0}")]
    Header(HeaderFault),
    /// The lowest zone whose row tells none, and why.
    #[error("row of zone {zone}: {fault}")]
    ZoneRow {
        zone: u32,
        fault: ZoneRowFault,
    },
    /// The header tells another number of written blocks than the zone rows have in all.
    #[error("the header tells of {told} written blocks, the zone rows of {counted}")]
    Total {
        told: u64,
        counted: u64,
    },
    /// More zones are open or active than may be.
    #[error("{opened} open and {active} active zones, of at most {} and {}", .limits.open_limit, .limits.active_limit)]
    Limits {
        opened: usize,
        active: usize,
        limits: Limits,
    },
    /// The text goes on behind its written blocks.
    #[error("bytes follow the last block")]
    Trailing,
    /// The source failed, which says nothing of the text.
    #[error("the stream failed")]
    Stream,
    /// Memory was refused, which is no fault of the text.
    #[error("no memory")]
    Memory,
}

impl LoadFault {
    /// The fault's number (profile). A user is told those of a text's faults, 10 to 15 and 18; that the stream failed
    /// or memory was wanting is none of these, and is told in words alone.
    pub fn number(self) -> u8
        ensures { result ≡ load_number self }
    {
        match self {
            LoadFault::Truncated => 10,
            LoadFault::Magic => 11,
            LoadFault::Header(_) => 12,
            LoadFault::ZoneRow { .. } => 13,
            LoadFault::Total { .. } => 18,
            LoadFault::Limits { .. } => 14,
            LoadFault::Trailing => 15,
            LoadFault::Stream => 16,
            LoadFault::Memory => 17,
        }
    }
}

impl From<StreamFault> for LoadFault {
    /// The stream failed, which says nothing of the text.
    ghost from_gives = { λ _ e. e ≡ load_fault.Stream };

    fn from(_fault: StreamFault) -> LoadFault {
        LoadFault::Stream
    }
}

impl From<AllocError> for LoadFault {
    ghost from_gives = { λ _ e. e ≡ load_fault.Memory };

    fn from(_fault: AllocError) -> LoadFault {
        LoadFault::Memory
    }
}

impl<T: Drop> From<AllocFailed<T>> for LoadFault {
    ghost from_gives = { λ _ e. e ≡ load_fault.Memory };

    fn from(_fault: AllocFailed<T>) -> LoadFault {
        LoadFault::Memory
    }
}
