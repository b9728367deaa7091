//! Laws of the definitions. Each function does nothing: what it ensures is the law.

ghost use Rattle.device_meaning.specs.Beginning.{LeftIsWithinNeed};
ghost use Rattle.device_meaning.specs.Completions.{EachIsCompletedOnce, NoCompletionIsLost};
ghost use Rattle.device_meaning.specs.JoinedEvents.{DrainedByTurns, DrainedInOneWay, EventsInParts, EventsJoin, OneReplyEach, ServedAndDrained, ServedInParts};
ghost use Rattle.device_meaning.specs.Judging.{IsSoundJudge, JudgedIsFirst, JudgedIsSpelled, JudgedIsUnrefused, judge_by};
ghost use Rattle.device_meaning.specs.Laws.{BlocksLeaveOthers, DrainingEnds, EventsKeepForRuns, NoReplyIsTrapped, OutcomeIsPacked, RestAtAdmission, RestEnds, RestGoesOn, RestIsFew, RoomIsOpen, RoomStays, StatesAreSound, TurnsLeaveFewer};
ghost use Rattle.device_meaning.specs.Reached.{BeginningIsReached, EventsKeepReached, NewIsReached, TurnsKeepReached};
ghost use Rattle.device_meaning.specs.View.{SeenAtAdmission, SeenStays};
ghost use Rattle.device_meaning.specs.WantOfMemory.{OnlyLoadsWantMemory};

use accepted_programs::laws::{accepted_never_traps, refusal_is_first};
use device_events::Out;
use ebpf_decode::laws::fault_is_first;
use word_domain::Domain;

/// A domain judges soundly: each program that its facts give no reason to refuse never traps, over blocks of the sizes for which it
/// is judged.
pub fn domains_judge_soundly<D: Domain>()
    ensures { IsSoundJudge (judge_by D.operations) }
{
    accepted_never_traps::<D>();
}

/// What is accepted by the facts of a domain is a program, and the bytes spell it, as RFC 9669 spells programs.
pub fn judged_is_spelled<D: Domain>()
    ensures { JudgedIsSpelled D.operations }
{}

/// What is accepted by the facts of a domain is what the bytes decode to, and no reason refuses it. Of what is refused the first
/// fault is told, or where the bytes decode the first refusal.
pub fn judged_is_first<D: Domain>()
    ensures accepted { JudgedIsUnrefused D.operations }
    ensures refused { JudgedIsFirst D.operations }
{
    fault_is_first();
    refusal_is_first::<D>();
}

/// The rest of a run at its admission is its outcome.
pub fn rest_at_admission()
    ensures { RestAtAdmission }
{}

/// The rest of a run that goes on is its next turn, and the rest after that.
pub fn rest_goes_on()
    ensures { RestGoesOn }
{}

/// Where a run ends with a block, its last turn alone is left.
pub fn rest_ends()
    ensures { RestEnds }
{}

/// A run has no more turns than source blocks are left.
pub fn rest_is_few()
    ensures { RestIsFew }
{}

/// Where each block run of a run ends by EXIT, the run has as many turns as block runs, all that it appends is the
/// packing of their groups, and its completion tells their frames and blocks.
pub fn outcome_is_packed()
    ensures { OutcomeIsPacked }
{}

/// What is seen of a run at its admission is its place.
pub fn seen_at_admission()
    ensures { SeenAtAdmission }
{}

/// What is seen of a run whose source blocks are written stays, whatever is written behind these, and whatever result its
/// slot is given.
pub fn seen_stays()
    ensures { SeenStays }
{}

/// Every event keeps, for each active run, the blocks of its source, its program and the namespace's shape.
pub fn events_keep_for_runs<D: Domain>()
    ensures { EventsKeepForRuns (judge_by D.operations) }
{}

/// What is left of a run that was begun comes to no more blocks than its source blocks still to come may need, whatever its program.
pub fn left_is_within_need<D: Domain>()
    ensures { LeftIsWithinNeed (judge_by D.operations) }
{
    domains_judge_soundly::<D>();
}

/// What a device may begin with is a state that events leave, none of them: so what holds of these holds of all that a device
/// comes to which begins with what another kept.
pub fn beginning_is_reached<D: Domain>()
    ensures { BeginningIsReached (judge_by D.operations) }
{}

/// A device that was just made is in a state that events leave.
pub fn new_is_reached<D: Domain>()
    ensures { NewIsReached (judge_by D.operations) }
{}

/// From each state that events leave, events lead to another.
pub fn events_keep_reached<D: Domain>()
    ensures { EventsKeepReached (judge_by D.operations) }
{}

/// So do turns, since they are events.
pub fn turns_keep_reached<D: Domain>()
    ensures { TurnsKeepReached (judge_by D.operations) }
{}

/// In each state that events leave, the namespace is sound, each loaded program is accepted, and what is left of
/// each run fits into its destination, which is open as long as it isn't filled: a turn's blocks come there as by
/// a Zone Append that meets no hold, and no check refuses that. The last turn of each run ends it, with success.
pub fn states_are_sound<D: Domain>()
    ensures { StatesAreSound (judge_by D.operations) }
{
    domains_judge_soundly::<D>();
}

/// In each state that events leave, no reply to any event is a completion with Program Trapped.
pub fn no_reply_is_trapped<D: Domain>()
    ensures { NoReplyIsTrapped (judge_by D.operations) }
{
    domains_judge_soundly::<D>();
}

/// The blocks of a turn leave each other zone and the namespace's shape.
pub fn blocks_leave_others()
    ensures { BlocksLeaveOthers }
{}

/// A zone with room for turns, of which the first appends, is open.
pub fn room_is_open()
    ensures { RoomIsOpen }
{}

/// After the first of these turns it has room for the others.
pub fn room_stays()
    ensures { RoomStays }
{}

/// Only a Load asks for memory: that it is refused changes nothing of what any other event comes to.
pub fn only_loads_want_memory<D: Domain>()
    ensures { OnlyLoadsWantMemory (judge_by D.operations) }
{}

/// Each event has one reply.
pub fn one_reply_each<D: Domain>()
    ensures { OneReplyEach (judge_by D.operations) }
{}

/// Two lists of events whose data is bytes are such a list together.
pub fn events_join()
    ensures { EventsJoin }
{}

/// The later of two lists of events happens to what the earlier leaves.
pub fn events_in_parts<D: Domain>()
    ensures { EventsInParts (judge_by D.operations) }
{}

/// A device that is served one list of events and then another has been served both joined.
pub fn served_in_parts<D: Domain, O: Out>()
    ensures { ServedInParts (judge_by D.operations) O.took }
{}

/// A device that is drained does turns that are events like any other.
pub fn drained_by_turns<D: Domain>()
    ensures { DrainedByTurns (judge_by D.operations) }
{}

/// No two lists of turns drain one state.
pub fn drained_in_one_way()
    ensures { DrainedInOneWay }
{}

/// A device that is served events and then drained has done both, and no run is left.
pub fn served_and_drained<D: Domain, O: Out>()
    ensures { ServedAndDrained (judge_by D.operations) O.took }
{}

/// Whatever events come, what is submitted is completed once, to its queue and with its identifier, or is an active run still,
/// and nothing else is completed: of each queue and identifier the completions, and the runs that are active then, are as many
/// as the submissions, and the runs that were active before. Once turns have drained the device, each has its one completion.
pub fn each_is_completed_once<D: Domain>()
    ensures so_far { NoCompletionIsLost (judge_by D.operations) }
    ensures drained { EachIsCompletedOnce (judge_by D.operations) }
{}

/// In each state that events leave, a turn of an active run leaves fewer turns.
pub fn turns_leave_fewer<D: Domain>()
    ensures { TurnsLeaveFewer (judge_by D.operations) }
{
    domains_judge_soundly::<D>();
}

/// In each state that events leave, turns of the lowest active run come to an end: no run is left, after at
/// most as many turns as are left of all.
pub fn draining_ends<D: Domain>()
    ensures { DrainingEnds (judge_by D.operations) }
{
    domains_judge_soundly::<D>();
}
