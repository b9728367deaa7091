//! The theorem, and laws beside it. Each function does nothing: what it ensures is the law.

ghost use Rattle.device_meaning.specs.Judging.{judge_by};
ghost use Rattle.pushdown.specs.AnyOrder.{TurnsInAnyOrder};
ghost use Rattle.pushdown.specs.Laws.{AdmittedStarts, ForeignLeavesTurns, LastTurnCompletes, OnlyLoadsChangeSlots, OutcomeUnpacks, PendingIsAdmitted, RefusedEventsLeaveState, RefusedLeavesState, TurnTakesFirst};
ghost use Rattle.pushdown.specs.Pushdown.{Pushdown, PushdownFromAnyBeginning, SoundJudgesPushDown};
ghost use Rattle.pushdown.specs.ReadBack.{AppendedBlocksReadBack, AppendedByRunsReadsBack, EventsKeepShapes, ResultsReadBack, UnclearedZonesKeepBlocks, WrittenBlocksReadBack, WrittenIsRead};

use device_meaning::laws::domains_judge_soundly;
use word_domain::Domain;

/// In each state that events leave, what a Run that is admitted there appends to its destination, unpacked, is the records
/// that its program emitted, in order.
pub fn outcome_unpacks<D: Domain>()
    ensures { OutcomeUnpacks (judge_by D.operations) }
{
    domains_judge_soundly::<D>();
}

/// The reply to a Run that is admitted is Pending with its number. It takes that place, with its whole outcome,
/// and all else is as it was.
pub fn admitted_starts<D: Domain>()
    ensures { AdmittedStarts (judge_by D.operations) }
{}

/// Where the reply to an entry is Pending, a Run was admitted.
pub fn pending_is_admitted<D: Domain>()
    ensures { PendingIsAdmitted (judge_by D.operations) }
{}

/// Every event that is no turn of a run leaves its turns as they are.
pub fn foreign_leaves_turns<D: Domain>()
    ensures { ForeignLeavesTurns (judge_by D.operations) }
{}

/// A turn of a run takes the first of its turns; one that ends the run leaves its place empty.
pub fn turn_takes_first()
    ensures { TurnTakesFirst }
{}

/// In each state that events leave, the last turn of a run is answered with the run's completion, a success, and leaves its place
/// empty. Any other is answered with Pending, and leaves those after it.
pub fn last_turn_completes<D: Domain>()
    ensures { LastTurnCompletes (judge_by D.operations) }
{
    domains_judge_soundly::<D>();
}

/// The reply to an entry is Pending, or its completion with a status. One whose status isn't success leaves the
/// state as it was, whatever its command is.
pub fn refused_leaves_state<D: Domain>()
    ensures { RefusedLeavesState (judge_by D.operations) }
{}

/// In each state that events leave, an event that is refused leaves the state as it was: a turn of no run, a fault that isn't
/// taken, and what is completed with a status that isn't success.
pub fn refused_events_leave_state<D: Domain>()
    ensures { RefusedEventsLeaveState (judge_by D.operations) }
{
    domains_judge_soundly::<D>();
}

/// An entry leaves the slots as they were, unless it is a Load that succeeds: it changes its own slot and nothing
/// else, to the program that is made of its data, with zeros as its result.
pub fn only_loads_change_slots<D: Domain>()
    ensures { OnlyLoadsChangeSlots (judge_by D.operations) }
{}

/// No event changes the shape of the namespace.
pub fn events_keep_shapes<D: Domain>()
    ensures { EventsKeepShapes (judge_by D.operations) }
{}

/// A zone that isn't cleared keeps its blocks, and perhaps has some behind them.
pub fn uncleared_zones_keep_blocks<D: Domain>()
    ensures { UnclearedZonesKeepBlocks (judge_by D.operations) }
{}

/// A Read of written blocks of a zone, no more than a transfer may be, gives them, in every state with a sound
/// namespace.
pub fn written_is_read<D: Domain>()
    ensures { WrittenIsRead (judge_by D.operations) }
{}

/// The data of an Append that succeeds is what a Read of the assigned address gives, whatever events
/// happen in between, until the zone is reset or goes offline. It holds in every state with a sound namespace.
pub fn appended_blocks_read_back<D: Domain>()
    ensures { AppendedBlocksReadBack (judge_by D.operations) }
{}

/// The data of a Write that succeeds is what a Read of its own address gives, in the same way.
pub fn written_blocks_read_back<D: Domain>()
    ensures { WrittenBlocksReadBack (judge_by D.operations) }
{}

/// What a run has appended that was admitted in a state that events leave is read from where its destination ended at
/// admission, after each of its turns and whatever events happen then, until the destination is reset or goes offline.
/// After its last turn the blocks that are read there unpack to the records that its program emitted, in order.
pub fn appended_by_runs_reads_back<D: Domain>()
    ensures { AppendedByRunsReadsBack (judge_by D.operations) }
{
    domains_judge_soundly::<D>();
}

/// After the last turn of a run that was admitted in a state that events leave, a Result of its slot gives the 1024 scratch
/// bytes that its last block run left, whatever events happen then, until a run of the slot ends or a Load of it succeeds.
pub fn results_read_back<D: Domain>()
    ensures { ResultsReadBack (judge_by D.operations) }
{
    domains_judge_soundly::<D>();
}

/// In each state that events leave, turns come to the same in any order, but for the result of a slot that two
/// active runs share: the same namespace, runs, programs and replies to each run, and in every other slot the
/// same result.
pub fn turns_in_any_order<D: Domain>()
    ensures { TurnsInAnyOrder (judge_by D.operations) }
{
    domains_judge_soundly::<D>();
}

/// The pushdown theorem, for every sound judge of programs: in each state that events leave of a new device, whatever Run is admitted
/// there, and whatever events follow, no turn traps; each takes at most as many steps as the program has instructions;
/// within each, memory outside the granted areas is neither read nor changed, whatever stands there;
/// each changes no zone but its destination, and that one by blocks at its end, as a Zone Append does that meets
/// no hold (law `states_are_sound`), leaves other runs' places and other slots, and reads nothing but source blocks;
/// the appended blocks, the completion, and what a turn leaves at the run's place and in the slots are those that
/// are fixed at admission; and the numbers of frames and of blocks that the completion tells fit into its 32 bits.
pub fn sound_judges_push_down()
    ensures { SoundJudgesPushDown }
{}

/// So it holds where programs are judged by the facts of any domain.
pub fn pushdown<D: Domain>()
    ensures { Pushdown (judge_by D.operations) }
{
    domains_judge_soundly::<D>();
}

/// It holds of a device that was kept, too: in each state that events leave of what a device may begin with, programs and begun runs
/// among it.
pub fn pushdown_from_any_beginning<D: Domain>()
    ensures { PushdownFromAnyBeginning (judge_by D.operations) }
{
    domains_judge_soundly::<D>();
}
