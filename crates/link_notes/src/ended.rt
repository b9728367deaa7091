//! Where a run ended.

ghost use Rattle.std.specs.Prelude.{◌≡◌, drop};
ghost use Rattle.link_notes.specs.Ended.{ended_of};

use byteorder::{ByteOrder, LittleEndian};

/// How many bytes of scratch a guard that ends a run writes.
pub const ENDED_BYTES: usize = 16;

/// The guard that ended a run.
#[derive(Clone, Copy, Debug, PartialEq, Eq)]
pub struct Ended {
    /// Its number.
    pub number: u32,
    /// Its slot in the program.
    pub slot: u32,
    /// The block's index in the run.
    pub block: u64,
}

/// The guard that the scratch of a run says has ended it, where guards write from a byte of scratch on: its number, 4 bytes, its
/// slot, 4, and the block's index, 8, each the lowest byte first. `None` where the number is 0, or scratch ends before.
pub fn ended_at(scratch: &[u8], guard_at: u32) -> Option<Ended>
    ensures { result ≡ ended_of (drop guard_at scratch.now) }
{
    ended_of(from(scratch, guard_at as usize))
}

/// The bytes from one on.
fn from(bytes: &[u8], at: usize) -> &[u8]
    ensures { result.now ≡ drop at bytes.now }
{
    bytes.split_at(at.min(bytes.len())).1
}

/// The guard that these bytes say has ended a run.
fn ended_of(written: &[u8]) -> Option<Ended>
    ensures { result ≡ ended_of written.now }
{
    if written.len() < ENDED_BYTES {
        return None;
    }
    let number = LittleEndian::read_u32(written);
    if number == 0 {
        return None;
    }
    let slot = LittleEndian::read_u32(&written[4..]);
    let block = LittleEndian::read_u64(&written[8..]);
    Some(Ended {
        number,
        slot,
        block,
    })
}
