//! What the entry of a Connect says.

ghost use Rattle.std.specs.Prelude.{◌≡◌, ◌≤◌, ◌<◌, ◌+◌, ◌^◌, length};
ghost use Rattle.tcp_target.specs.ConnectRequest.{has_flow_control, has_size, most_entries, request_in};

use byteorder::{ByteOrder, LittleEndian};
use tcp_pdus::ENTRY_BYTES;

/// CNTLID of a Connect of an admin queue: any controller, which the target picks (NVMe Base 2.0, 6.3; the dynamic controller model).
pub const ANY_CONTROLLER: u16 = 0xFFFF;

/// What the entry of a Connect says (NVMe Base 2.0, 6.3).
#[derive(Clone, Copy, Debug, PartialEq, Eq)]
pub struct ConnectRequest {
    /// RECFMT, the format of the entry and the data; 0 is the only one.
    pub record_format: u16,
    /// QID, the identifier of the queue; 0 is the admin queue's.
    pub queue: u16,
    /// SQSIZE, the number of its entries, zero-based.
    pub size: u16,
    /// CATTR; bit 2 disables flow control of the submission queue.
    pub attributes: u8,
    /// KATO, the keep alive timeout, in milliseconds; 0 is none.
    pub keep_alive_timeout: u32,
}

impl ConnectRequest {
    /// What an entry says.
    pub fn read(entry: &[u8]) -> ConnectRequest
        requires { ENTRY_BYTES ≤ length entry.now }
        ensures { result ≡ request_in entry.now }
    {
        ConnectRequest {
            record_format: LittleEndian::read_u16(&entry[40..]),
            queue: LittleEndian::read_u16(&entry[42..]),
            size: LittleEndian::read_u16(&entry[44..]),
            attributes: entry[46],
            keep_alive_timeout: LittleEndian::read_u32(&entry[48..]),
        }
    }

    /// May a queue have so many entries?
    pub(crate) fn has_size(self) -> bool
        ensures { result ≡ has_size self }
    {
        self.size > 0 && self.size < most_entries(self.queue)
    }

    /// Does SQHD tell how many commands are done?
    pub(crate) fn has_flow_control(self) -> bool
        ensures { result ≡ has_flow_control self }
    {
        self.attributes / 4 % 2 == 0
    }
}

/// The most entries of a queue.
fn most_entries(queue: u16) -> u16
    ensures { result ≡ most_entries queue }
{
    if queue == 0 { 32 } else { 128 }
}
