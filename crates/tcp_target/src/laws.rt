//! Laws of the definitions. Each function does nothing: what it ensures is the law.

ghost use Rattle.tcp_target.specs.Apart.{QueuesStayApart};
ghost use Rattle.tcp_target.specs.ConnectStatuses.{StatusesAreTheStandards};
ghost use Rattle.tcp_target.specs.Counted.{TimeIsCounted};
ghost use Rattle.tcp_target.specs.Laws.{ConnectionsStay};
ghost use Rattle.tcp_target.specs.PlaceLaws.{NothingBehindTheEnd};
ghost use Rattle.tcp_target.specs.PlaceOrder.{PlacesKeepOrder};
ghost use Rattle.tcp_target.specs.QueueLaws.{GivenAreLive, OthersStay, PlacesStay};

/// Each status has the type and the code that the standards give it.
pub fn statuses_are_the_standards()
    ensures { StatusesAreTheStandards }
{}

/// Behind the end of a connection nothing is taken, and nothing more is sent.
pub fn nothing_behind_the_end()
    ensures { NothingBehindTheEnd }
{}

/// Where capsules have no data, as those of I/O queues, commands go from a place in the order of their capsules, each once, and none is
/// skipped.
pub fn places_keep_order()
    ensures { PlacesKeepOrder }
{}

/// What happens on one connection leaves all others as they were.
pub fn others_stay()
    ensures { OthersStay }
{}

/// What happens to controllers changes nothing of what has come on connections, nor of what is to be sent.
pub fn places_stay()
    ensures { PlacesStay }
{}

/// An entry that goes to the device is that of the command which is ready on a connection with an I/O queue of a ready controller.
pub fn given_are_live()
    ensures { GivenAreLive }
{}

/// What happens on one connection leaves what has come on all others, and what is to be sent on them, as it was.
pub fn connections_stay()
    ensures { ConnectionsStay }
{}

/// No two connections have one queue of one controller (NVMe Base 2.0, 6.3), in every state that a target comes to; and each has a
/// queue of a controller that there is, an I/O queue only of one that is ready.
pub fn queues_stay_apart()
    ensures { QueuesStayApart }
{}

/// Time is counted exactly: a clock that was started is past a limit just where the ticks since then, without the first, took as long; and
/// a tick changes clocks alone.
pub fn time_is_counted()
    ensures { TimeIsCounted }
{}
