//! Laws of the machine that reads at its turn. Each function does nothing: what it ensures is the law.

ghost use Rattle.turn_machine.specs.Laws.{FixedAtAdmission, FixedFromAnyBeginning, TurnsMayWait, TurnsMayWaitFromAnyBeginning};

/// What a run does is fixed when it is admitted: a machine that keeps only how far a run has come, and at each turn reads the source
/// block and the program as they are then, gives the same replies to every list of events, from every namespace on, as one
/// that keeps the turns which were fixed at admission. After them both have the same namespace, the same slots and the same
/// runs, and the turns that the one has left are the rest of the run from where the other has come to.
pub fn fixed_at_admission()
    ensures { FixedAtAdmission }
{}

/// However long a run waits, its next turn is the same: whatever events come to a machine that reads at its turn, but for turns of
/// the run itself, they leave the run as far as it has come, and what it does at its turn then is what it would have done before
/// them.
pub fn turns_may_wait()
    ensures { TurnsMayWait }
{}

/// The same from every state on that a device may begin with, one out of a journal with runs that were begun among them: a machine that
/// begins with the same namespace and programs, and of each run with how far it has come, gives the same replies to every list
/// of events, and corresponds to the state after them.
pub fn fixed_from_any_beginning()
    ensures { FixedFromAnyBeginning }
{}

/// However long a run waits there, one that was begun before or one that was admitted since, its next turn is the same.
pub fn turns_may_wait_from_any_beginning()
    ensures { TurnsMayWaitFromAnyBeginning }
{}
