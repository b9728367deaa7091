//! The zones that active runs use.

ghost use Rattle.std.specs.Prelude.{◌≡◌};
ghost use Rattle.zone_resources.specs.Holds.{no_holds, is_source, is_destination, is_held, refuses};

use zone_state::Action;

/// How many runs can be active at one time (profile).
pub const RUNS: usize = 8;

/// The zones that each active run reads from and appends to (profile). A zone may be the source of
/// several runs, and also the destination of one.
///
/// A source is kept from what would forget its blocks, Reset and Offline, and from faults. A destination is
/// kept from whatever is not its run's: Write, Append, every Zone Send Action, faults, the close
/// that makes room for another zone, and a second run to it.
#[derive(Clone, Copy, Debug, PartialEq, Eq)]
pub struct Holds {
    /// The number of the zone that each run reads from; None for a run that is not active.
    pub sources: [Option<u32>; RUNS],
    /// The number of the zone that each run appends to; None for a run that is not active.
    pub destinations: [Option<u32>; RUNS],
}

impl Holds {
    /// The holds of no run.
    pub fn none() -> Holds
        ensures { result ≡ no_holds }
    {
        Holds {
            sources: [None; RUNS],
            destinations: [None; RUNS],
        }
    }

    /// Does a run read from this zone?
    pub(crate) fn is_source(&self, zone: u32) -> bool
        ensures { result ≡ is_source self.now zone }
    {
        self.sources.iter().any(|held| *held == Some(zone))
    }

    /// Does a run append to this zone? Then it refuses a Write, an Append and a second run.
    pub fn is_destination(&self, zone: u32) -> bool
        ensures { result ≡ is_destination self.now zone }
    {
        self.destinations.iter().any(|held| *held == Some(zone))
    }

    /// Does a run use this zone? Then it refuses a fault.
    pub fn is_held(&self, zone: u32) -> bool
        ensures { result ≡ is_held self.now zone }
    {
        self.is_source(zone) || self.is_destination(zone)
    }

    /// Is this zone held against a Zone Send Action? A destination is against all of them, a zone that is only a source
    /// against Reset and Offline, which forget its blocks, and one that no run uses against none.
    pub fn refuses(&self, action: Action, zone: u32) -> bool
        ensures { result ≡ refuses self.now action zone }
    {
        let forgets = action == Action::Reset || action == Action::Offline;
        self.is_destination(zone) || forgets && self.is_source(zone)
    }
}
