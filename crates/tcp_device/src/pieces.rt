//! A law of the definitions: the function does nothing, and what it ensures is the law.

ghost use Rattle.tcp_device.specs.Pieces.{PiecesJoin};

/// What a served target comes to, what it sends, and how many bytes it takes don't depend on how the streams of its connections are cut
/// into pieces.
pub fn pieces_join()
    ensures { PiecesJoin }
{
    tcp_target::pieces_join();
}
