//! The code that emits what is wanted of a record, in one frame.

ghost use Rattle.std.specs.Prelude.{◌≡◌, ◌<◌, ◌≤◌, ◌+◌, ◌*◌, ◌-◌, ◌++◌, ◌^◌, pos, neg_ℤ, length, OnOk};
ghost use Rattle.program_interface.specs.declared.area.TheConstants.{STACK_BYTES};
ghost use Rattle.instruction_set.specs.Instruction.{size_of};
ghost use Rattle.record_questions.specs.Asked.{AreRanges, emitted_bytes, stacked_bytes};
ghost use Rattle.record_questions.specs.Code.{chunk_sizes, copies_code, copy_code, counted, emit_code, emit_stacked_code, emitted_code, emitted_slots, ranges_code, ranges_slots, stacked_code};

use crate::check::{bytes_of, emitted_bytes};
use crate::chunks::chunk_size;
use crate::emitting::{arithmetic, from_register, load, long, push, short};
use crate::question::ByteRange;
use instruction_set::{Instruction, Operation, Register, Size, Source};
use program_interface::EMIT;
use std::alloc::AllocError;

/// A number before the end of the stack, as an offset.
fn before_end(left: u64) -> i16
    requires { left < 2 ^ 15 }
    ensures { result ≡ neg_ℤ (pos left) }
{
    -short(left)
}

/// Copies a chunk from a byte of the block on to the stack, so many bytes before its end.
fn push_copy(
    code: &mut Vec<Instruction>,
    from: u64,
    left: u64,
    size: Size,
) -> Result<(), AllocError>
    requires from { from < 2 ^ 15 }
    requires left { left < 2 ^ 15 }
    ensures { OnOk result (code.new.items ≡ code.old.items ++ copy_code from left size) }
{
    push(code, load(size, 4, 6, short(from)))?;
    push(
        code,
        Instruction::StoreRegister {
            size,
            dst: Register::from_number(10),
            src: Register::from_number(4),
            offset: before_end(left),
        },
    )?;
    Ok(())
}

/// Copies so many bytes from one of the block on, in chunks.
#[tactic(auto, using(crate::proofs::ChunkSizes::next_copies))]
fn push_copies(
    code: &mut Vec<Instruction>,
    from: u64,
    left: u64,
    count: u16,
) -> Result<(), AllocError>
    requires from { from + count ≤ 2 ^ 15 }
    requires left { left < 2 ^ 15 }
    requires inside { count ≤ left }
    ensures { OnOk result (code.new.items ≡ code.old.items ++ copies_code from left (chunk_sizes count)) }
{
    if count == 0 {
        return Ok(());
    }
    let size = chunk_size(usize::from(count));
    let bytes = bytes_of(size);
    push_copy(code, from, left, size)?;
    push_copies(
        code,
        from + u64::from(bytes),
        left - u64::from(bytes),
        count - bytes,
    )
}

/// Copies ranges of the record at a byte of the block, one after another.
fn push_ranges(
    code: &mut Vec<Instruction>,
    byte: u32,
    left: u64,
    ranges: &[ByteRange],
) -> Result<(), AllocError>
    requires near { AreRanges (2 ^ 15 - byte) ranges.now }
    requires left { left < 2 ^ 15 }
    requires inside { emitted_bytes ranges.now ≤ left }
    ensures { OnOk result (code.new.items ≡ code.old.items ++ ranges_code byte left ranges.now) }
{
    match ranges {
        [] => Ok(()),
        [first, rest @ ..] => {
            let from = u64::from(byte) + u64::from(first.offset);
            push_copies(code, from, left, first.size)?;
            push_ranges(code, byte, left - u64::from(first.size), rest)
        }
    }
}

/// Emits so many bytes at the end of the stack.
fn push_emit_stacked(code: &mut Vec<Instruction>, size: u64) -> Result<(), AllocError>
    requires { size < 2 ^ 15 }
    ensures { OnOk result (code.new.items ≡ code.old.items ++ emit_stacked_code size) }
{
    let back = Source::Immediate(-long(size));
    push(code, arithmetic(Operation::Move, 1, from_register(10)))?;
    push(code, arithmetic(Operation::Add, 1, back))?;
    push(
        code,
        arithmetic(Operation::Move, 2, Source::Immediate(long(size))),
    )?;
    push(code, Instruction::Call { helper: EMIT })?;
    Ok(())
}

/// How many bytes ranges have that fit the stack.
fn frame_bytes(ranges: &[ByteRange]) -> u64
    requires { emitted_bytes ranges.now ≤ STACK_BYTES }
    ensures { result ≡ emitted_bytes ranges.now }
{
    emitted_bytes(ranges)
}

/// Puts ranges of the record at a byte of the block together on the stack, and emits them.
fn push_stacked(
    code: &mut Vec<Instruction>,
    byte: u32,
    ranges: &[ByteRange],
) -> Result<(), AllocError>
    requires near { AreRanges (2 ^ 15 - byte) ranges.now }
    requires room { emitted_bytes ranges.now ≤ STACK_BYTES }
    ensures { OnOk result (code.new.items ≡ code.old.items ++ stacked_code byte ranges.now) }
{
    let bytes = frame_bytes(ranges);
    push_ranges(code, byte, bytes, ranges)?;
    push_emit_stacked(code, bytes)
}

/// Emits so many bytes from one of the block on.
fn push_emit(code: &mut Vec<Instruction>, at: u64, size: u16) -> Result<(), AllocError>
    requires { at < 2 ^ 31 }
    ensures { OnOk result (code.new.items ≡ code.old.items ++ emit_code at size) }
{
    let at = Source::Immediate(long(at));
    let size = Source::Immediate(long(u64::from(size)));
    push(code, arithmetic(Operation::Move, 1, from_register(6)))?;
    push(code, arithmetic(Operation::Add, 1, at))?;
    push(code, arithmetic(Operation::Move, 2, size))?;
    push(code, Instruction::Call { helper: EMIT })?;
    Ok(())
}

/// Emits ranges of the record at a byte of the block in one frame, a single one from where it is.
pub(crate) fn push_emitted(
    code: &mut Vec<Instruction>,
    byte: u32,
    ranges: &[ByteRange],
) -> Result<(), AllocError>
    requires near { AreRanges (2 ^ 15 - byte) ranges.now }
    requires room { stacked_bytes ranges.now ≤ STACK_BYTES }
    ensures { OnOk result (code.new.items ≡ code.old.items ++ emitted_code byte ranges.now) }
{
    match ranges {
        [] => Ok(()),
        [range] => push_emit(code, u64::from(byte) + u64::from(range.offset), range.size),
        _ => push_stacked(code, byte, ranges),
    }
}

/// How many slots the copies of so many bytes take.
#[tactic(auto, using(crate::proofs::ChunkSizes::next_copies_slots))]
fn copies_slots(count: u16) -> u64
    ensures value { result ≡ 2 * length (chunk_sizes count) }
    ensures few { result ≤ 2 * count }
{
    if count == 0 {
        return 0;
    }
    let bytes = bytes_of(chunk_size(usize::from(count)));
    copies_slots(count - bytes) + 2
}

/// How many slots the copies of ranges take.
fn ranges_slots(ranges: &[ByteRange]) -> u64
    ensures { result ≡ counted (ranges_slots ranges.now) }
{
    match ranges {
        [] => 0,
        [first, rest @ ..] => copies_slots(first.size).saturating_add(ranges_slots(rest)),
    }
}

/// How many slots it takes to emit ranges of a record.
pub(crate) fn emitted_slots(ranges: &[ByteRange]) -> u64
    ensures { result ≡ counted (emitted_slots ranges.now) }
{
    match ranges {
        [] => 0,
        [_] => 4,
        _ => ranges_slots(ranges).saturating_add(4),
    }
}
