//! The fields of a slot.

/// The fields of a slot of 8 bytes (RFC 9669, 3.1, of whose two byte orders it is the little-endian one: profile).
#[derive(Clone, Copy, Debug, PartialEq, Eq)]
pub struct Fields {
    /// The opcode: what the instruction does.
    pub opcode: u8,
    /// The number in the low four bits of the second byte.
    pub dst: u8,
    /// The number in the high four bits of the second byte.
    pub src: u8,
    /// Bytes to add to an address, or slots to jump by; of some arithmetic a part of the opcode.
    pub offset: i16,
    /// The number that the instruction has in itself.
    pub immediate: i32,
}
