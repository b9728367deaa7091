//! Completion queue entries.

ghost use Rattle.std.specs.Prelude.{◌≡◌, ◌/◌, ◌%◌, ◌^◌, IfSome};
ghost use Rattle.nvme_entry.specs.Completion.{completion_bytes, status_dword};
ghost use Rattle.nvme_entry.specs.CompletionFields.{AreCompletionFields, completion_in};

use crate::dwords::dword;
use byteorder::{ByteOrder, LittleEndian};
use zone_state::{Status, StatusType};

/// A completion queue entry (NVMe Base 2.0, 3.3.3.2). The submission queue head pointer, the phase
/// tag, the retry delay, More and Do Not Retry are 0 (profile).
#[derive(Clone, Copy, Debug, PartialEq, Eq)]
pub struct Completion {
    /// Dword 0: command specific.
    pub dw0: u32,
    /// Dword 1: command specific.
    pub dw1: u32,
    /// The identifier of the submission queue that the command came from.
    pub queue: u16,
    /// The identifier of the command.
    pub cid: u16,
    /// How the command ended.
    pub status: Status,
}

impl Completion {
    /// The 16 bytes of the entry, little-endian: they tell its dwords, its queue, the command's identifier and the
    /// status.
    pub fn encode(&self) -> [u8; 16]
        ensures { result ≡ completion_bytes self.now }
    {
        let queue = u32::from(self.queue) << 16;
        let status = status_dword(self.cid, self.status);
        let mut bytes = [0; 16];
        LittleEndian::write_u32_into(&[self.dw0, self.dw1, queue, status], &mut bytes);
        bytes
    }

    /// The completion that 16 bytes spell: what [`Completion::encode`] gives is read back as what it was, and no other
    /// bytes are read. `None` where no completion has them: the status code type is none of [`StatusType`], or a field
    /// that is 0 (profile) isn't.
    pub fn decode(bytes: &[u8; 16]) -> Option<Completion>
        ensures spelled { IfSome result (λ completion. bytes.now ≡ completion_bytes completion) }
        ensures read_back { (completion : Completion) → AreCompletionFields completion → bytes.now ≡ completion_bytes completion → result ≡ Some completion }
    {
        let completion = fields(bytes)?;
        if completion.encode() == *bytes {
            Some(completion)
        } else {
            None
        }
    }
}

/// The fields of a completion, where the type of its status is known.
fn fields(bytes: &[u8; 16]) -> Option<Completion>
    ensures { result ≡ completion_in bytes.now }
{
    let status = dword(bytes, 3);
    let kind = StatusType::from_number(kind_of(status))?;
    Some(Completion {
        dw0: dword(bytes, 0),
        dw1: dword(bytes, 1),
        queue: high_half(dword(bytes, 2)),
        cid: low_half(status),
        status: Status {
            kind,
            code: code_of(status),
        },
    })
}

fn high_half(dword: u32) -> u16
    ensures { result ≡ dword / 2 ^ 16 }
{
    (dword >> 16) as u16
}

fn low_half(dword: u32) -> u16
    ensures { result ≡ dword % 2 ^ 16 }
{
    (dword % 0x1_0000) as u16
}

/// The status code type of Dword 3, of three bits.
fn kind_of(status: u32) -> u8
    ensures { result ≡ status / 2 ^ 25 % 2 ^ 3 }
{
    ((status >> 25) % 8) as u8
}

/// The status code of Dword 3.
fn code_of(status: u32) -> u8
    ensures { result ≡ status / 2 ^ 17 % 2 ^ 8 }
{
    ((status >> 17) % 0x100) as u8
}

/// Dword 3: the command identifier and the status field.
fn status_dword(cid: u16, status: Status) -> u32
    ensures { result ≡ status_dword cid status }
{
    let code = u32::from(status.code) << 17;
    let kind = u32::from(status.kind.number()) << 25;
    u32::from(cid) + code + kind
}
