//! Laws of the definitions. Each function does nothing: what it ensures is the law.

ghost use Rattle.tcp_connection.specs.Laws.{CompletedOnce, IdentifiersDiffer, StepsJoin, TransfersAreKept};
ghost use Rattle.tcp_connection.specs.Order.{CommandsGoInOrder};
ghost use Rattle.tcp_connection.specs.ReceiverLaws.{PiecesJoin, TransfersStayApart};

/// What a receiver comes to doesn't depend on how the stream is cut into pieces.
pub fn pieces_join()
    ensures { PiecesJoin }
{}

/// What comes for one R2T changes nothing of what came for another.
pub fn transfers_stay_apart()
    ensures { TransfersStayApart }
{}

/// What a connection comes to, and what it sends, doesn't depend on how its stream is cut into pieces.
pub fn steps_join()
    ensures { StepsJoin }
{}

/// No two commands without a completion have one identifier.
pub fn identifiers_differ()
    ensures { IdentifiersDiffer }
{}

/// A command is completed once.
pub fn completed_once()
    ensures { CompletedOnce }
{}

/// Commands go in the order of their capsules, each once, and none is skipped.
pub fn commands_go_in_order()
    ensures { CommandsGoInOrder }
{}

/// Until the command of an R2T goes, the data that comes for its tag joins what came for it before, and no other data does.
pub fn transfers_are_kept()
    ensures { TransfersAreKept }
{}
