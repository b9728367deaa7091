//! Reading output blocks back.

ghost use Rattle.std.specs.Prelude.{◌≡◌, ◌+◌, ◌^◌, ◌<◌, [], length};
ghost use Rattle.common_definitions.specs.Gives.{Gives};
ghost use Rattle.common_definitions.specs.Readings.{with_front};
ghost use Rattle.emit_append.specs.Unpacking.{output_block_at, frame_length as length_in_front, byte_told, record_bytes, unpacked, zeros_at};

use crate::fault::UnpackFault;
use byteorder::{ByteOrder, LittleEndian};
use program_interface::{BlockSize, FRAME_LENGTH_BYTES};
use std::alloc::Global;

/// The records of the frames in output blocks of this size, in order. Other bytes are refused, and the lowest that
/// can't stand there is told, counted from 0, or the first behind all whole blocks.
///
/// Frames stand at the front of a block: two bytes of length, the lower first, and as many bytes.
/// Where the length is 0, or fewer than two bytes are left, the rest of the block is zeros.
///
/// # Errors
///
/// [`UnpackFault::At`] the lowest byte that is refused, counted from the first of `bytes`; [`UnpackFault::Memory`] where there
/// was none for the records.
pub fn unpack(alloc: Global, bytes: &[u8], block: BlockSize) -> Result<Vec<Vec<u8>>, UnpackFault>
    ensures { Gives byte_told (λ records. record_bytes records.items) result (unpacked block bytes.now) }
{
    let size = block.bytes() as usize;
    let mut records = Vec::new(alloc);
    let mut rest = bytes;
    while rest.len() >= size {
        let (front, back) = rest.split_at(size);
        read_block(alloc, front, bytes.len() - rest.len(), &mut records)?;
        rest = back;
    }
    if !rest.is_empty() {
        return Err(UnpackFault::At(bytes.len() - rest.len()));
    }
    Ok(records)
}

/// Adds the records of a block, whose first byte is byte `at`.
fn read_block(
    alloc: Global,
    block: &[u8],
    at: usize,
    records: &mut Vec<Vec<u8>>,
) -> Result<(), UnpackFault>
    requires { at + length block.now < 2 ^ 64 }
    ensures { Gives byte_told (λ _. record_bytes records.new.items) result (with_front (record_bytes records.old.items) (output_block_at at block.now)) }
{
    let mut rest = block;
    let mut byte = at;
    let mut length = frame_length(rest);
    while length > 0 {
        if rest.len() < FRAME_LENGTH_BYTES + length {
            return Err(UnpackFault::At(byte));
        }
        let (frame, after) = rest.split_at(FRAME_LENGTH_BYTES + length);
        records.push(Vec::from_slice(alloc, &frame[FRAME_LENGTH_BYTES..])?)?;
        rest = after;
        byte += FRAME_LENGTH_BYTES + length;
        length = frame_length(rest);
    }
    check_zeros(rest, byte)
}

/// The length of the frame in front; 0 where no frame follows.
fn frame_length(rest: &[u8]) -> usize
    ensures value { result ≡ length_in_front rest.now }
    ensures small { result < 2 ^ 16 }
{
    if rest.len() < FRAME_LENGTH_BYTES {
        return 0;
    }
    usize::from(LittleEndian::read_u16(rest))
}

/// Refuses the first byte that isn't zero.
fn check_zeros(rest: &[u8], at: usize) -> Result<(), UnpackFault>
    requires { at + length rest.now < 2 ^ 64 }
    ensures { Gives byte_told (λ _. []) result (zeros_at at rest.now) }
{
    for (i, byte) in rest.iter().enumerate() {
        if *byte != 0 {
            return Err(UnpackFault::At(at + i));
        }
    }
    Ok(())
}
