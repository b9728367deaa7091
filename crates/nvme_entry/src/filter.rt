//! Which zones a report lists.

ghost use Rattle.std.specs.Prelude.{◌≡◌, ◌↔◌, true};
ghost use Rattle.nvme_entry.specs.Filter.{filter_of, filter_for, lists};

use zone_state::ZoneState;

/// The zones that a report lists: all, or those of one state (the field Zone Receive Action
/// Specific of a Report Zones; ZNS 1.1, 3.4.2).
#[derive(Clone, Copy, Debug, PartialEq, Eq)]
pub enum ZoneFilter {
    /// 00h: every zone.
    All,
    /// 01h: zones in the state Empty.
    Empty,
    /// 02h: zones in the state Implicitly Opened.
    ImplicitlyOpened,
    /// 03h: zones in the state Explicitly Opened.
    ExplicitlyOpened,
    /// 04h: zones in the state Closed.
    Closed,
    /// 05h: zones in the state Full.
    Full,
    /// 06h: zones in the state Read Only.
    ReadOnly,
    /// 07h: zones in the state Offline.
    Offline,
}

impl ZoneFilter {
    /// The filter that lists the zones of this state, and no others.
    #[tactic(auto, using(crate::proofs::ListedStates::lists_alone))]
    pub fn of(state: ZoneState) -> ZoneFilter
        ensures value { result ≡ filter_for state }
        ensures alone { (other : ZoneState) → (lists result other ≡ true) ↔ (other ≡ state) }
    {
        match state {
            ZoneState::Empty => ZoneFilter::Empty,
            ZoneState::ImplicitlyOpened => ZoneFilter::ImplicitlyOpened,
            ZoneState::ExplicitlyOpened => ZoneFilter::ExplicitlyOpened,
            ZoneState::Closed => ZoneFilter::Closed,
            ZoneState::ReadOnly => ZoneFilter::ReadOnly,
            ZoneState::Full => ZoneFilter::Full,
            ZoneState::Offline => ZoneFilter::Offline,
        }
    }

    /// The filter with this code; `None` for a code that isn't supported.
    pub(crate) fn from_code(code: u8) -> Option<ZoneFilter>
        ensures { result ≡ filter_of code }
    {
        match code {
            0x00 => Some(ZoneFilter::All),
            0x01 => Some(ZoneFilter::Empty),
            0x02 => Some(ZoneFilter::ImplicitlyOpened),
            0x03 => Some(ZoneFilter::ExplicitlyOpened),
            0x04 => Some(ZoneFilter::Closed),
            0x05 => Some(ZoneFilter::Full),
            0x06 => Some(ZoneFilter::ReadOnly),
            0x07 => Some(ZoneFilter::Offline),
            _ => None,
        }
    }

    /// The filter's code.
    pub(crate) fn code(self) -> u8
        ensures { filter_of result ≡ Some self }
    {
        match self {
            ZoneFilter::All => 0x00,
            ZoneFilter::Empty => 0x01,
            ZoneFilter::ImplicitlyOpened => 0x02,
            ZoneFilter::ExplicitlyOpened => 0x03,
            ZoneFilter::Closed => 0x04,
            ZoneFilter::Full => 0x05,
            ZoneFilter::ReadOnly => 0x06,
            ZoneFilter::Offline => 0x07,
        }
    }

    /// Does a report with this filter list a zone of that state?
    pub fn lists(self, state: ZoneState) -> bool
        ensures { result ≡ lists self state }
    {
        self == ZoneFilter::All || self == ZoneFilter::of(state)
    }
}
