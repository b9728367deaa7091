//! Completions.

ghost use Rattle.std.specs.Prelude.{◌≡◌, ◌<◌, ◌^◌};
ghost use Rattle.tcp_pdus.specs.Answer.{answer_bytes, is_final, status_field};

use byteorder::{ByteOrder, LittleEndian};
use zone_state::{Status, StatusType};

/// A completion queue entry, as a capsule of NVMe over Fabrics has it (NVMe Base 2.0, 3.3.3.2).
#[derive(Clone, Copy, Debug, PartialEq, Eq)]
pub struct Answer {
    /// Dword 0: command specific.
    pub dw0: u32,
    /// Dword 1: command specific.
    pub dw1: u32,
    /// SQHD, the submission queue head pointer; FFFFh without flow control.
    pub head: u16,
    /// The identifier of the queue.
    pub queue: u16,
    /// The identifier of the command.
    pub command: u16,
    /// How the command ended.
    pub status: Status,
}

impl Answer {
    /// The 16 bytes of the entry.
    pub fn encode(self) -> [u8; 16]
        ensures { result ≡ answer_bytes self }
    {
        let mut bytes = [0; 16];
        LittleEndian::write_u32(&mut bytes[0..], self.dw0);
        LittleEndian::write_u32(&mut bytes[4..], self.dw1);
        LittleEndian::write_u16(&mut bytes[8..], self.head);
        LittleEndian::write_u16(&mut bytes[10..], self.queue);
        LittleEndian::write_u16(&mut bytes[12..], self.command);
        LittleEndian::write_u16(&mut bytes[14..], status_field(self.status));
        bytes
    }
}

/// The last two bytes of an entry: the status, and Do Not Retry.
fn status_field(status: Status) -> u16
    ensures { result ≡ status_field status }
{
    let told = u16::from(status.code) * 2 + u16::from(status.kind.number()) * 512;
    if is_final(status) {
        told + 32_768
    } else {
        told
    }
}

/// Would the command come to the same if it was tried again?
fn is_final(status: Status) -> bool
    ensures { result ≡ is_final status }
{
    match status.kind {
        StatusType::Generic => status.code != 0x00,
        StatusType::CommandSpecific => status.code != 0x81,
        StatusType::VendorSpecific => true,
    }
}
