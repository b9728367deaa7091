//! What memory an instruction accesses.

use crate::register::Register;

/// Which way the bytes of an access go.
#[derive(Clone, Copy, Debug, PartialEq, Eq)]
pub enum AccessKind {
    /// From memory to a register.
    Load,
    /// To memory.
    Store,
}

/// A memory access (RFC 9669, 5): its bytes begin at the address that the base register has, and an offset on.
#[derive(Clone, Copy, Debug, PartialEq, Eq)]
pub struct Access {
    /// Whether it loads or stores.
    pub kind: AccessKind,
    /// The register with an address.
    pub base: Register,
    /// How many bytes behind that address the first byte is.
    pub offset: i16,
    /// The number of bytes: 1, 2, 4 or 8.
    pub size: u8,
}
