//! What changed a file.

/// A change of a file.
#[derive(Drop)]
pub(crate) enum Change {
    /// Bytes were written at an offset.
    Written { at: usize, bytes: Vec<u8> },
    /// Its length was set.
    Shortened(usize),
    /// Bytes that it had at an offset were written again.
    Renewed { at: usize, bytes: Vec<u8> },
    /// It has these bytes on the disk, by a sync, or since it took another's place.
    Settled(Vec<u8>),
}
