//! What goes with a call, beside its kind.

/// A number, as of a connection or a queue; a count, as of bytes, or the kind of an event; and two pieces of bytes. What a kind doesn't
/// speak of is 0, or no bytes.
#[derive(Clone, Copy)]
pub struct AskedBy<'a> {
    /// The number.
    pub number: usize,
    /// The count.
    pub count: usize,
    /// The first piece.
    pub piece: &'a [u8],
    /// The other.
    pub beside: &'a [u8],
}
