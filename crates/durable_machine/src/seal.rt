//! The seal of a batch, by which damage is found. What a crash leaves doesn't rest on it.

ghost use Rattle.std.specs.Prelude.{◌≡◌, ◌≤◌, ◌+◌, ◌++◌, length, take, drop};
ghost use Rattle.durable_machine.specs.Seals.{seal_of};

use crc32c::Sums;

/// The first byte of a seal. All of its bits differ from those of the 1 before an event, so that no few of them that change make a sealed
/// batch one of the earlier version of the format.
pub(crate) const SEALED: u8 = 254;

/// How many bytes a seal has.
pub(crate) const SEAL: usize = 21;

/// The seal of events whose gate is at this offset.
pub(crate) fn seal_bytes(sums: &Sums, at: usize, events: &[u8]) -> [u8; 21]
    ensures { result ≡ seal_of at events.now }
{
    let number = (at as u64).to_le_bytes();
    let length = (events.len() as u64).to_le_bytes();
    let numbers = sums.extended(sums.sum(&number), &length);
    let sum = sums.extended(numbers, events).to_le_bytes();
    let mut seal = [SEALED; 21];
    put(&mut seal, 1, &number);
    put(&mut seal, 9, &length);
    put(&mut seal, 17, &sum);
    seal
}

/// Puts bytes in their place from one on.
pub(crate) fn put(bytes: &mut [u8], at: usize, new: &[u8])
    requires { at + length new.now ≤ length bytes.old }
    ensures { bytes.new ≡ take at bytes.old ++ new.now ++ drop (at + length new.now) bytes.old }
{
    bytes[at..at + new.len()].copy_from_slice(new);
}
