//! Which words of scratch a store may change.

ghost use Rattle.std.specs.Prelude.{◌≡◌, ◌+◌, ◌*◌, ◌<◌, ◌≤◌, ◌/◌, ◌^◌, ◌+ℤ◌, ◌-ℤ◌, ◌≤ℤ◌, pos};
ghost use Rattle.ebpf_link.specs.ScratchWords.{AreNearWords, AreWords, AreWordsBetween, CoverStores, CoverStoresOf};

use crate::known::Known;
use crate::within::offset_of;
use instruction_set::{AccessKind, Instruction};
use program_interface::{Area, SCRATCH_BYTES};
use word_domain::{Domain, Offsets};

/// A set of words of scratch: a bit for each.
pub(crate) type ScratchWords = u128;

/// How many words of 8 bytes scratch has.
pub(crate) const WORDS: usize = SCRATCH_BYTES / 8;

/// No address is known to be farther from an area's first one.
const FAR: i64 = 1 << 20;

/// The words from one on to another.
fn words_from_to(first: u32, last: u32) -> ScratchWords
    requires first { first < 128 }
    requires last { last < 128 }
    ensures { AreWords first last result }
{
    (u128::MAX << first) & (u128::MAX >> (127 - last))
}

/// The word of a byte of scratch.
fn word_of(byte: i64) -> u32
    requires some { pos 0 ≤ℤ byte }
    requires inside { byte ≤ℤ pos 1023 }
    ensures least { pos (8 * result) ≤ℤ byte }
    ensures most { byte ≤ℤ pos (8 * result + 7) }
{
    byte as u32 / 8
}

/// The words that have a byte from one distance from scratch on to another.
fn words_between(first: i64, last: i64) -> ScratchWords
    ensures { AreWordsBetween first last result }
{
    if last < 0 || first >= SCRATCH_BYTES as i64 {
        return 0;
    }
    let from = if first < 0 { 0 } else { first };
    let to = if last > 1023 { 1023 } else { last };
    words_from_to(word_of(from), word_of(to))
}

/// A distance that is no farther than what is known is.
fn near(distance: i64) -> i64
    ensures low { (pos 0 -ℤ pos (2 ^ 20)) ≤ℤ result }
    ensures high { result ≤ℤ pos (2 ^ 20) }
    ensures same { (pos 0 -ℤ pos (2 ^ 20)) ≤ℤ distance → distance ≤ℤ pos (2 ^ 20) → result ≡ distance }
{
    if distance < -FAR {
        -FAR
    } else if distance > FAR {
        FAR
    } else {
        distance
    }
}

/// The words into which bytes at an offset from an address in scratch may be stored.
fn words_in_scratch(low: i64, high: i64, offset: i16, size: u8) -> ScratchWords
    ensures { AreNearWords low high offset size result }
{
    let least = near(low);
    let most = near(high);
    let offset = i64::from(offset);
    let bytes = i64::from(size);
    words_between(least + offset, most + offset + bytes - 1)
}

/// The least distance of an address.
fn least(told: Offsets) -> i64
    ensures { result ≡ told.low }
{
    told.low
}

/// The greatest.
fn greatest(told: Offsets) -> i64
    ensures { result ≡ told.high }
{
    told.high
}

/// The words into which bytes at an offset from an address may be stored.
pub(crate) fn words_at(told: Option<Offsets>, offset: i16, size: u8) -> ScratchWords
    ensures { CoverStores told offset size result }
{
    match told {
        None => u128::MAX,
        Some(told) if told.area != Area::Scratch => 0,
        Some(told) => words_in_scratch(least(told), greatest(told), offset, size),
    }
}

/// The words into which an instruction may store.
pub(crate) fn words_stored(known: &Known, instruction: &Instruction) -> ScratchWords
    ensures { CoverStoresOf known.now.facts instruction.now result }
{
    match instruction.access() {
        Some(access) => match access.kind {
            AccessKind::Store => {
                let told = known.get(access.base).offsets();
                let size = access.size;
                words_at(told, offset_of(access), size)
            }
            AccessKind::Load => 0,
        },
        None => 0,
    }
}
