//! Laws of the definitions. Each function does nothing: what it ensures is the law.

ghost use Rattle.tcp_device.specs.Answering.{CommandsAreAnswered};
ghost use Rattle.tcp_device.specs.Counting.{RunsAreAlwaysCounted};
ghost use Rattle.tcp_device.specs.Explained.{DevicesAreExplained, MemoriesAreExplained};
ghost use Rattle.tcp_device.specs.HostsWaiting.{HostsAreWaitedFor};
ghost use Rattle.tcp_device.specs.Laws.{DeedsAreEvents, QueuesAreApart, RunsHaveTheirCommands};
ghost use Rattle.tcp_device.specs.Order.{CommandsAreInOrder};
ghost use Rattle.tcp_device.specs.Orderly.{TargetsAreOrderly};
ghost use Rattle.tcp_device.specs.Outcome.{OutcomesAreTold};
ghost use Rattle.tcp_device.specs.Rounds.{NextIsAnswered, RoundsGoOn};
ghost use Rattle.tcp_device.specs.Taking.{BytesAreAlwaysTaken};
ghost use Rattle.tcp_device.specs.Turning.{RunsTakeTurns};
ghost use Rattle.tcp_device.specs.Waiting.{RunsGoOn};

use nvme_entry::laws::completions_tell;
use tcp_admin::structures_are_whole;
use tcp_pdus::data_begins_aligned;
use tcp_target::{connections_stay, queues_stay_apart, time_is_counted};

/// Whatever is done with a served target, its device did a list of events: the entries that were handed over, each with just its data
/// and on the queue that has its connection's number, and turns, in this order; and what hosts are answered is made of its replies to
/// these.
pub fn deeds_are_events()
    ensures { DeedsAreEvents }
{}

/// No two connections have one queue of one controller (NVMe Base 2.0, 6.3), in every state that a served target comes to.
pub fn queues_are_apart()
    ensures { QueuesAreApart }
{
    queues_stay_apart();
}

/// Each command that is pending is that of the device's run of its number: so a run that ends completes the command that started it.
/// Where no run was kept with the device, the commands that are pending are those of all its active runs.
pub fn runs_have_their_commands()
    ensures { RunsHaveTheirCommands }
{}

/// A host is told the status and Dwords 0 and 1 of the device's completion.
pub fn outcomes_are_told()
    ensures { OutcomesAreTold }
{
    completions_tell();
}

/// The device gets the commands of an I/O queue in the order of their capsules, each once, and none is skipped but those that the target
/// answers itself.
pub fn commands_are_in_order()
    ensures { CommandsAreInOrder }
{
    connections_stay();
}

/// Of any eight turns one is that of a run which may have it: no other run, and no host that doesn't read, keeps it from that.
pub fn runs_take_turns()
    ensures { RunsTakeTurns }
{}

/// A command that is ready on a connection stays next there, whatever else is done, and the first service of the connection answers it.
pub fn commands_are_answered()
    ensures { CommandsAreAnswered }
{
    connections_stay();
}

/// Bytes that come on a connection wait for no other: at least one is taken, unless the connection has ended, a command is ready on it or its
/// host doesn't read; and a command that is ready is the next of its connection.
pub fn bytes_are_taken()
    ensures { BytesAreAlwaysTaken }
{}

/// In so many rounds in which bytes of a connection come, at least as many of them are taken and commands of it go, together.
pub fn rounds_go_on()
    ensures { RoundsGoOn }
{
    connections_stay();
}

/// The commands that the device has of a connection are its runs, 8 at most: so they never keep it from taking more.
pub fn runs_are_counted()
    ensures { RunsAreAlwaysCounted }
{
    connections_stay();
}

/// A run waits for no host to read: there is always room for its completion, so of any eight turns one is its own until it ends.
pub fn runs_go_on()
    ensures { RunsGoOn }
{
    connections_stay();
    data_begins_aligned();
    structures_are_whole();
}

/// The first deed that serves a connection answers the command that was next there, whatever is done for others, unless the connection is
/// closed or cut off by then, or its host has left more than 256 KiB unread.
pub fn next_is_answered()
    ensures { NextIsAnswered }
{
    connections_stay();
}

/// What explains the operations of a loop before a device that is kept in a file says that the device did just the events that the
/// deeds are, in order, that whatever a crash leaves stands for the device that has all that was answered, and that each round answers
/// the commands that were next as it began and gives a turn.
pub fn devices_are_explained()
    ensures in_file { DevicesAreExplained }
    ensures in_memory { MemoriesAreExplained }
{
    deeds_are_events();
    commands_are_in_order();
    commands_are_answered();
    next_is_answered();
    runs_go_on();
}

/// A host is taken for lost only once as much time was counted since it was heard as its controller waits for it. What a loop lets a
/// target count is no more than the time in which hosts could be heard.
pub fn hosts_are_waited_for()
    ensures { HostsAreWaitedFor }
{
    time_is_counted();
}

/// A connection is there from its beginning to its end, what is to be sent on it only grows until it is sent, and none is refused while
/// there is a number that is neither taken nor held.
pub fn targets_are_orderly()
    ensures { TargetsAreOrderly }
{}
