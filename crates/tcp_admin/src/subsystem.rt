//! What a target is, and what its namespace is like.

ghost use Rattle.std.specs.Prelude.{◌≡◌, ◌≤◌, IfOk, length};

use std::alloc::{AllocError, Global};
use std::marker::Model;

/// The most bytes of an NVMe Qualified Name (NVMe Base 2.0, 4.5).
pub const MOST_NAME_BYTES: usize = 223;

/// An NVMe Qualified Name (NVMe Base 2.0, 4.5). A clause sees its bytes.
#[derive(Drop)]
pub struct QualifiedName {
    bytes: Vec<u8>,
}

impl Model for QualifiedName {
    ghost use Rattle.std.specs.Prelude.{ℕ, ◌≤◌, List, length};
    ghost use Rattle.tcp_admin.specs.declared.subsystem.TheConstants.{MOST_NAME_BYTES};

    ghost Value = { List ℕ };

    ghost view = { λ name. name.bytes.items };

    ghost invariant = { λ name. length name.bytes.items ≤ MOST_NAME_BYTES };
}

impl QualifiedName {
    /// The name of these bytes.
    ///
    /// # Errors
    ///
    /// No memory for them.
    pub fn new(alloc: Global, bytes: &[u8]) -> Result<QualifiedName, AllocError>
        requires { length bytes.now ≤ MOST_NAME_BYTES }
        ensures { IfOk result (λ name. name ≡ bytes.now) }
    {
        Ok(QualifiedName {
            bytes: Vec::from_slice(alloc, bytes)?,
        })
    }

    /// Its bytes.
    pub fn as_bytes(&self) -> &[u8]
        ensures value { result.now ≡ self.now }
        ensures few { length result.now ≤ MOST_NAME_BYTES }
    {
        self.bytes.as_slice()
    }
}

/// What a target is. Texts are ASCII, with spaces behind them (NVMe Base 2.0, 5.17.2.1).
#[derive(Drop)]
pub struct Subsystem {
    /// SUBNQN, the NVM Subsystem NVMe Qualified Name.
    pub nqn: QualifiedName,
    /// SN, the Serial Number.
    pub serial_number: [u8; 20],
    /// MN, the Model Number.
    pub model: [u8; 40],
    /// FR, the Firmware Revision.
    pub firmware: [u8; 8],
    /// NGUID, the Namespace Globally Unique Identifier of namespace 1.
    pub nguid: [u8; 16],
}

/// What the namespace is like: all zones have as many blocks.
#[derive(Clone, Copy, Debug, PartialEq, Eq)]
pub struct NamespaceFormat {
    /// The blocks of all zones together.
    pub blocks: u64,
    /// The logarithm to base 2 of the bytes of a block.
    pub block_size_log2: u8,
    /// The blocks of a zone.
    pub zone_blocks: u64,
    /// How many zones can be active at a time, at least one.
    pub active_limit: u32,
    /// How many zones can be open at a time, at least one.
    pub open_limit: u32,
}
