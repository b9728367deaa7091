//! The code that compares bytes.

ghost use Rattle.std.specs.Prelude.{◌≡◌, ◌<◌, ◌≤◌, ◌++◌, ◌+◌, ◌-◌, ◌^◌, pos, true, drop, length, OnOk};
ghost use Rattle.instruction_set.specs.Instruction.{size_of};
ghost use Rattle.record_questions.specs.Asked.{IsField};
ghost use Rattle.record_questions.specs.Code.{counted, bytes_code, bytes_slots, chunk_field, chunk_operand, chunk_size, chunk_sizes, chunks_code, chunks_slots, comparison_code, comparison_slots};
ghost use Rattle.record_questions.specs.declared.question.Comparison.TheVariants.{Equal};

use crate::check::bytes_of;
use crate::comparing::{comparison_slots, push_comparison};
use crate::emitting::{push, short};
use crate::question::{ByteOrder, Comparison, Field, Operand, Sign};
use byteorder::{ByteOrder as _, LittleEndian};
use instruction_set::{Instruction, Size};
use std::alloc::AllocError;

/// The widest chunk of so many bytes.
pub(crate) fn chunk_size(count: usize) -> Size
    requires { 1 ≤ count }
    ensures value { result ≡ chunk_size count }
    ensures inside { size_of result ≤ count }
{
    if count >= 8 {
        Size::DoubleWord
    } else if count >= 4 {
        Size::Word
    } else if count >= 2 {
        Size::HalfWord
    } else {
        Size::Byte
    }
}

/// A chunk as a field of a record: unsigned, and the lowest byte first.
fn chunk_field(size: Size, offset: u16) -> Field
    ensures { result ≡ chunk_field size offset }
{
    Field {
        size,
        offset,
        sign: Sign::Unsigned,
        order: ByteOrder::Little,
    }
}

/// The number that a chunk is compared with.
fn chunk_operand(size: Size, bytes: &[u8]) -> Operand
    requires { size_of size ≤ length bytes.now }
    ensures { result ≡ chunk_operand size bytes.now }
{
    let number = LittleEndian::read_uint(bytes, usize::from(bytes_of(size)));
    Operand::Number(i128::from(number))
}

/// The bytes after the first chunk.
#[tactic(auto, using(crate::proofs::ChunkSizes::slots_after))]
fn after_chunk(size: Size, bytes: &[u8]) -> &[u8]
    requires some { 1 ≤ length bytes.now }
    requires first { size ≡ chunk_size (length bytes.now) }
    requires inside { size_of size ≤ length bytes.now }
    ensures value { result.now ≡ drop (size_of size) bytes.now }
    ensures slots { chunks_slots (chunk_sizes (length bytes.now)) bytes.now
        ≡ comparison_slots (chunk_field size 0) (chunk_operand size bytes.now) + chunks_slots (chunk_sizes (length result.now)) result.now }
{
    &bytes[usize::from(bytes_of(size))..]
}

/// How many slots the comparison of a chunk takes.
fn chunk_slots(size: Size, bytes: &[u8]) -> u64
    requires { size_of size ≤ length bytes.now }
    ensures value { result ≡ comparison_slots (chunk_field size 0) (chunk_operand size bytes.now) }
    ensures few { result ≤ 7 }
{
    comparison_slots(chunk_field(size, 0), chunk_operand(size, bytes))
}

/// How many slots the comparisons of all chunks take.
#[tactic(auto, using(crate::proofs::ChunkSizes::counted_next))]
fn chunks_slots(bytes: &[u8]) -> u64
    ensures { result ≡ counted (chunks_slots (chunk_sizes (length bytes.now)) bytes.now) }
{
    if bytes.is_empty() {
        return 0;
    }
    let size = chunk_size(bytes.len());
    let rest = chunks_slots(after_chunk(size, bytes));
    chunk_slots(size, bytes).saturating_add(rest)
}

/// Compares a chunk of the record at a byte of the block.
#[tactic(auto, using(crate::proofs::Reach::chunk_near))]
fn push_chunk(
    code: &mut Vec<Instruction>,
    byte: u32,
    offset: u16,
    size: Size,
    bytes: &[u8],
    skip: u64,
) -> Result<(), AllocError>
    requires inside { size_of size ≤ length bytes.now }
    requires near { offset + size_of size ≤ 2 ^ 15 - byte }
    requires skip { skip < 2 ^ 15 }
    ensures { OnOk result (code.new.items ≡ code.old.items
        ++ comparison_code byte true (chunk_field size offset) Equal (chunk_operand size bytes.now) skip) }
{
    let field = chunk_field(size, offset);
    let operand = chunk_operand(size, bytes);
    push_comparison(code, byte, true, field, Comparison::Equal, operand, skip)
}

/// Compares all chunks of the record at a byte of the block, from an offset on.
fn push_chunks(
    code: &mut Vec<Instruction>,
    byte: u32,
    offset: u16,
    bytes: &[u8],
    skip: u64,
) -> Result<(), AllocError>
    requires near { offset + length bytes.now ≤ 2 ^ 15 - byte }
    requires room { chunks_slots (chunk_sizes (length bytes.now)) bytes.now + skip < 2 ^ 15 }
    ensures { OnOk result (code.new.items
        ≡ code.old.items ++ chunks_code byte offset (chunk_sizes (length bytes.now)) bytes.now skip) }
{
    if bytes.is_empty() {
        return Ok(());
    }
    let size = chunk_size(bytes.len());
    let rest = after_chunk(size, bytes);
    let further = chunks_slots(rest) + skip;
    push_chunk(code, byte, offset, size, bytes, further)?;
    push_chunks(code, byte, offset + bytes_of(size), rest, skip)
}

/// How many slots a test of bytes takes.
pub(crate) fn bytes_slots(goes_on: bool, bytes: &[u8]) -> u64
    ensures { result ≡ counted (bytes_slots goes_on bytes.now) }
{
    let slots = chunks_slots(bytes);
    if goes_on {
        slots
    } else {
        slots.saturating_add(1)
    }
}

/// Of the record at a byte of the block: after this code the program goes on where the record has these bytes from an offset on
/// (`goes_on`), or where it hasn't; else it jumps so many slots further.
pub(crate) fn push_bytes(
    code: &mut Vec<Instruction>,
    byte: u32,
    goes_on: bool,
    offset: u16,
    bytes: &[u8],
    skip: u64,
) -> Result<(), AllocError>
    requires near { offset + length bytes.now ≤ 2 ^ 15 - byte }
    requires room { bytes_slots goes_on bytes.now + skip < 2 ^ 15 }
    ensures { OnOk result (code.new.items ≡ code.old.items ++ bytes_code byte goes_on offset bytes.now skip) }
{
    if goes_on {
        push_chunks(code, byte, offset, bytes, skip)
    } else {
        push_chunks(code, byte, offset, bytes, 1)?;
        let distance = short(skip);
        push(code, Instruction::Jump { distance })?;
        Ok(())
    }
}
