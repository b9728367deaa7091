//! Which way a command's data goes.

ghost use Rattle.std.specs.Prelude.{◌≡◌, ◌≤◌, length};
ghost use Rattle.tcp_pdus.specs.Direction.{direction, identifier_of, is_from_host, transfer_bits, uses_sgls};

use byteorder::{ByteOrder, LittleEndian};

/// The bytes of a submission queue entry (NVMe Base 2.0, 3.3.3.1).
pub const ENTRY_BYTES: usize = 64;

/// The opcode of Fabrics commands (NVMe Base 2.0, 6.1).
const FABRICS_COMMAND: u8 = 0x7F;

/// Which way a command's data goes, as its opcode says (NVMe Base 2.0, 3.3.3.1), whatever command it is.
#[derive(Clone, Copy, Debug, PartialEq, Eq)]
pub enum Direction {
    /// It has none.
    Neither,
    /// From the host to the controller.
    FromHost,
    /// From the controller to the host.
    ToHost,
}

impl Direction {
    /// The direction that bits 1:0 of the opcode tell, of a Fabrics command those of its type.
    pub fn of(entry: &[u8]) -> Direction
        requires { ENTRY_BYTES ≤ length entry.now }
        ensures { result ≡ direction entry.now }
    {
        match transfer_bits(entry) {
            1 => Direction::FromHost,
            2 => Direction::ToHost,
            _ => Direction::Neither,
        }
    }

    /// Does the host send data?
    pub fn is_from_host(self) -> bool
        ensures { result ≡ is_from_host self }
    {
        matches!(self, Direction::FromHost)
    }
}

/// The two bits that tell the direction.
fn transfer_bits(entry: &[u8]) -> u8
    requires { ENTRY_BYTES ≤ length entry.now }
    ensures { result ≡ transfer_bits entry.now }
{
    let told = if entry[0] == FABRICS_COMMAND {
        entry[4]
    } else {
        entry[0]
    };
    told % 4
}

/// The identifier of an entry's command, which its completion repeats.
pub fn identifier(entry: &[u8]) -> u16
    requires { ENTRY_BYTES ≤ length entry.now }
    ensures { result ≡ identifier_of entry.now }
{
    LittleEndian::read_u16(&entry[2..])
}

/// Does an SGL tell where the data is?
pub(crate) fn uses_sgls(entry: &[u8]) -> bool
    requires { ENTRY_BYTES ≤ length entry.now }
    ensures { result ≡ uses_sgls entry.now }
{
    entry[1] / 64 == 1
}
