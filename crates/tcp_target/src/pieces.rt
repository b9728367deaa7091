//! How what comes on connections is cut into pieces changes nothing. Each function does nothing: what it ensures is a law of the
//! definitions.

ghost use Rattle.tcp_target.specs.Pieces.{PiecesJoin};
ghost use Rattle.tcp_target.specs.PlacePieces.{PlacePiecesJoin};
ghost use Rattle.tcp_target.specs.QueuePieces.{QueuePiecesJoin};

use tcp_connection::steps_join;

/// What a connection comes to, what is sent on it, and how many bytes are taken don't depend on how its stream is cut into pieces.
pub fn place_pieces_join()
    ensures { PlacePiecesJoin }
{
    steps_join();
}

/// What the connections come to, what is sent on them, and how many bytes are taken don't depend on how their streams are cut into
/// pieces.
pub fn queue_pieces_join()
    ensures { QueuePiecesJoin }
{
    place_pieces_join();
}

/// What a target comes to, what is sent, and how many bytes are taken don't depend on how the streams of its connections are cut into
/// pieces.
pub fn pieces_join()
    ensures { PiecesJoin }
{
    queue_pieces_join();
}
