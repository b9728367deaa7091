//! Laws of the definitions that the contracts of this crate cite. Each function does nothing: what
//! it ensures is the law.

ghost use Rattle.zns_commands.specs.Held.{HeldCommandsAreRefused};
ghost use Rattle.zns_commands.specs.Left.{HeldDestinationsAreLeft, HeldSourcesKeepBlocks, OtherZonesAreLeft, QueriesChangeNothing, ShapesAreKept};
ghost use Rattle.zns_commands.specs.SelectAll.{SelectAllIsEachAlone, SelectAllIsRefusedByHoldsAndLimits, TakenZonesMove};
ghost use Rattle.zns_commands.specs.Laws.{AddedBlocksAreAppended, AddedBlocksKeepNamespacesSound, AppendedBlocksReadBack, ConsecutiveBlocksAreAPart, EachBlockIsRead, EmptyIsNamespace, EventsKeepNamespacesSound, JustOneCase, RefusedCommandsChangeNothing, ReportsEveryZone, ReportsWhatMatches, StatusesAreStandard, WrittenBlocksReadBack};

/// A namespace stays one, whatever commands that entries can spell, and whatever faults, come: its open and
/// active zones are within the limits, each zone's state fits its written blocks, and each block is whole. One of
/// which nothing is written is one.
pub fn events_keep_namespaces_sound()
    ensures kept { EventsKeepNamespacesSound }
    ensures start { EmptyIsNamespace }
{}

/// A namespace stays one where blocks of bytes are put, without a check, into an open zone that has
/// room for them.
pub fn added_blocks_keep_namespaces_sound()
    ensures { AddedBlocksKeepNamespacesSound }
{}

/// Such blocks come to the zone as by an Append that meets no hold, and which no check refuses, where they are no more
/// than a transfer may be.
pub fn added_blocks_are_appended()
    ensures { AddedBlocksAreAppended }
{}

/// Just one case of a command holds: each check passes and it takes effect, or the first check that
/// fails refuses it.
pub fn just_one_case()
    ensures { JustOneCase }
{}

/// A command whose status is not success leaves the namespace as it was, and gives nothing.
pub fn refused_commands_change_nothing()
    ensures { RefusedCommandsChangeNothing }
{}

/// A command of the standards ends with a status of theirs, or with Zone Held.
pub fn statuses_are_standard()
    ensures { StatusesAreStandard }
{}

/// Each block that a Read gives is the zone's block of that offset where it is written, and zeros where it isn't.
pub fn each_block_is_read()
    ensures { EachBlockIsRead }
{}

/// Written blocks that follow one another in a zone are a part of the list of its blocks.
pub fn consecutive_blocks_are_a_part()
    ensures { ConsecutiveBlocksAreAPart }
{}

/// The data of an Append that succeeds is what a Read of the assigned address gives, whatever commands
/// and faults come in between, until the zone is reset or goes offline.
pub fn appended_blocks_read_back()
    ensures { AppendedBlocksReadBack }
{}

/// The same of a Write, at its own address.
pub fn written_blocks_read_back()
    ensures { WrittenBlocksReadBack }
{}

/// A report from any address of the namespace on, with room for its header, tells how many zones match, or with Partial how
/// many it gives, and then of these zones, in order, as many as there is room for, with zeros behind. Partial reports of all
/// zones, each from the first zone on that the one before left out, list every zone once, in order, where together they have
/// room for all.
pub fn reports_list_every_zone()
    ensures matching { ReportsWhatMatches }
    ensures every { ReportsEveryZone }
{}

/// A command changes no zone but the one that it names, the one that gives way to that, and those that
/// Select All takes; a fault none but the zone that has it.
pub fn other_zones_are_left()
    ensures { OtherZonesAreLeft }
{}

/// A command that only reads, as Read and Zone Management Receive do, leaves the namespace as it was.
pub fn queries_change_nothing()
    ensures { QueriesChangeNothing }
{}

/// No command or fault changes the state or the blocks of a zone that an active run appends to.
pub fn held_destinations_are_left()
    ensures { HeldDestinationsAreLeft }
{}

/// What is written in a zone that an active run reads from stays the beginning of what is, whatever
/// command or fault comes.
pub fn held_sources_keep_blocks()
    ensures { HeldSourcesKeepBlocks }
{}

/// No command or fault changes the shape of the namespace.
pub fn shapes_are_kept()
    ensures { ShapesAreKept }
{}

/// A Write, an Append or an action is refused on a zone that an active run appends to, and Reset and Offline on one
/// that a run reads from, and so is Select All where it would take a zone that is held against its action: with Zone
/// Held where the data and the address are right.
pub fn held_commands_are_refused()
    ensures { HeldCommandsAreRefused }
{}

/// The action leads on from each state of which Select All takes zones. Where it isn't refused, each
/// zone that it takes is left as the action on that zone alone leaves it, which isn't refused either, and
/// any other as it was.
pub fn select_all_is_each_alone()
    ensures moves { TakenZonesMove }
    ensures alone { SelectAllIsEachAlone }
{}

/// Select All that comes without data is refused where a zone that it takes is held against the action, or where more zones
/// would be open after it than may be, and for no other reason.
pub fn select_all_is_refused_by_holds_and_limits()
    ensures { SelectAllIsRefusedByHoldsAndLimits }
{}
