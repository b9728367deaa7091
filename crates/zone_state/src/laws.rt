//! Laws of the definitions that the contracts of this crate cite. Each function does nothing: what
//! it ensures is the law.

ghost use Rattle.zone_state.specs.State.{CodesAreDistinct};
ghost use Rattle.zone_state.specs.Numbers.{StatesAreInOrder, StatusesAreTheStandards};
ghost use Rattle.zone_state.specs.Transition.{ActionsRepeat, OfflineIsFinal};
ghost use Rattle.zone_state.specs.Zone.{WritesJoin};

/// The state of a state's code is that state, and no other number is a code.
pub fn codes_are_distinct()
    ensures { CodesAreDistinct }
{}

/// An action that a zone has taken changes nothing of the zone, neither its state nor its written blocks, when it is taken
/// again.
pub fn actions_repeat()
    ensures { ActionsRepeat }
{}

/// A zone that is Offline stays so, whatever actions it takes.
pub fn offline_is_final()
    ensures { OfflineIsFinal }
{}

/// Where a write fits, two writes of its blocks, one behind the other, fit too, and leave the zone that it leaves.
pub fn writes_join()
    ensures { WritesJoin }
{}

/// Each status has the type and the code that the standards give it, those of runs and programs the profile's.
pub fn statuses_are_the_standards()
    ensures { StatusesAreTheStandards }
{}

/// All seven states are listed in the order of their codes, each once.
pub fn states_are_in_order()
    ensures { StatesAreInOrder }
{}
