//! What a program emits.

/// The number of the helper that emits a record, the only one that there is (profile).
pub const EMIT: i32 = 1;

/// The bytes of a frame that stand before its record and have the record's length (profile).
pub const FRAME_LENGTH_BYTES: usize = 2;
