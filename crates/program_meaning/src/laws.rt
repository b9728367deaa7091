//! Laws of the definitions. Each function does nothing: what it ensures is the law.

ghost use Rattle.program_meaning.specs.Granted.{ExitsKeepToGrantedAreas};
ghost use Rattle.program_meaning.specs.Laws.{AccessIsMapped, EmitsFromMap, EndsInRun, KeepsReadOnly, LoadsFromMap, MoreFuelIsTheSame, StepsChangeOnlyWhatTheyWrite, StoresIntoMap, StuckByLeast};

/// Bytes, at least one, lie in one area exactly where each of them is in the map from addresses to bytes.
pub fn access_is_mapped()
    ensures { AccessIsMapped }
{}

/// A load gives the number that the map's bytes spell, the lowest first.
pub fn loads_from_map()
    ensures { LoadsFromMap }
{}

/// After a store the map has the word's low bytes, the lowest first, and is else as before.
pub fn stores_into_map()
    ensures { StoresIntoMap }
{}

/// A step changes no register but its destination and those that a call clears, and no byte but
/// those that it stores.
pub fn steps_change_only_what_they_write()
    ensures { StepsChangeOnlyWhatTheyWrite }
{}

/// A step is stuck with a cause exactly where that cause hinders it and none with a smaller number does.
pub fn stuck_by_least()
    ensures { StuckByLeast }
{}

/// A step writes neither the context nor the block.
pub fn keeps_read_only()
    ensures { KeepsReadOnly }
{}

/// A call that goes on adds to the group the frame of the bytes that the map has from R1 on, as many as
/// R2 says, and no other instruction changes the group.
pub fn emits_from_map()
    ensures { EmitsFromMap }
{}

/// A block run that starts in a state whose group is bytes that are as many whole frames as it counts,
/// within the limit, ends in such a state, however it ends.
pub fn ends_in_run()
    ensures { EndsInRun }
{}

/// A block run that ends by EXIT or by a trap with some fuel is the same with any more: how it ends, its steps and its
/// state. So it isn't the fuel that bounds its steps.
pub fn more_fuel_is_the_same()
    ensures { MoreFuelIsTheSame }
{}

/// A block run that ends by EXIT neither reads nor changes memory outside the granted areas: each access lies in one of them, and
/// whatever stands outside, a machine that checks nothing comes to the same states and leaves that as it was.
pub fn exits_keep_to_granted_areas()
    ensures { ExitsKeepToGrantedAreas }
{}
