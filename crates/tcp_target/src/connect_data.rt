//! The data of a Connect.

ghost use Rattle.std.specs.Prelude.{◌≡◌, ◌≤◌, length, take};
ghost use Rattle.std.specs.Str.{bytes_eq};
ghost use Rattle.tcp_target.specs.ConnectData.{connect_data_in, is_same_host};

use crate::qualified_name::{NQN_BYTES, name};
use byteorder::{ByteOrder, LittleEndian};

/// The bytes of a Connect's data (NVMe Base 2.0, 6.3).
pub const CONNECT_DATA_BYTES: usize = 1024;

/// Who connects.
#[derive(Clone, Copy)]
pub struct Host {
    /// HOSTID, the Host Identifier.
    pub identifier: [u8; 16],
    /// HOSTNQN, the field with the host's name.
    pub nqn: [u8; NQN_BYTES],
}

/// The data of a Connect (NVMe Base 2.0, 6.3).
#[derive(Clone, Copy)]
pub struct ConnectData {
    /// Who connects.
    pub host: Host,
    /// CNTLID, the controller whose queue it is to be.
    pub controller: u16,
    /// SUBNQN, the field with the name of the NVM subsystem that is meant.
    pub subsystem_nqn: [u8; NQN_BYTES],
}

impl ConnectData {
    /// What these bytes say.
    pub fn read(bytes: &[u8]) -> ConnectData
        requires { length bytes.now ≡ CONNECT_DATA_BYTES }
        ensures { result ≡ connect_data_in bytes.now }
    {
        ConnectData {
            host: Host {
                identifier: identifier_at(bytes),
                nqn: nqn_at(&bytes[512..768]),
            },
            controller: LittleEndian::read_u16(&bytes[16..]),
            subsystem_nqn: nqn_at(&bytes[256..512]),
        }
    }
}

/// The 16 bytes of a Host Identifier in front of these bytes.
fn identifier_at(bytes: &[u8]) -> [u8; 16]
    requires { 16 ≤ length bytes.now }
    ensures { result ≡ take 16 bytes.now }
{
    let mut identifier = [0; 16];
    identifier.copy_from_slice(&bytes[..16]);
    identifier
}

/// The bytes of a field that holds an NQN.
fn nqn_at(bytes: &[u8]) -> [u8; NQN_BYTES]
    requires { length bytes.now ≡ NQN_BYTES }
    ensures { result ≡ bytes.now }
{
    let mut nqn = [0; NQN_BYTES];
    nqn.copy_from_slice(bytes);
    nqn
}

/// Are both the same host: do the Host Identifiers agree, and the hosts' names?
pub fn is_same_host(one: &Host, other: &Host) -> bool
    ensures { result ≡ is_same_host one.now other.now }
{
    is_equal(&one.identifier, &other.identifier) && is_equal(name(&one.nqn), name(&other.nqn))
}

/// Are these the same bytes?
pub(crate) fn is_equal(one: &[u8], other: &[u8]) -> bool
    ensures { result ≡ bytes_eq one.now other.now }
{
    one == other
}
