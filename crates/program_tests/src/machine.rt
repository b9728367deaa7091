//! Worked examples, and what gcc makes of loads and stores.

mod context;
mod vectors;
mod words;

use crate::slots::{EXIT, bytes_of};
use ebpf_asm::assemble;
use ebpf_decode::decode;
use instruction_set::Program;
use interp::Machine;
use program_interface::{CONTEXT_BYTES, SCRATCH_BYTES, STACK_BYTES};
use program_meaning::{Cause, End};
use std::alloc::Global;
use std::process::Abort;
use std::test::Fail;
use test_inputs::programs::MATCHING;
use vectors::{IMMEDIATE_STORES, LOADS, STORES};

/// The program that a text spells.
fn program(alloc: Global, text: &str) -> Result<Program, Fail> {
    let bytes = assemble(alloc, text.as_bytes())?;
    Ok(decode(alloc, &bytes)?)
}

/// A block run, and the number of steps.
fn run(rt: &impl Abort, program: &Program, block: &[u8; 512]) -> (End, u64) {
    let (mut scratch, mut stack) = ([0; SCRATCH_BYTES], [0; STACK_BYTES]);
    let context = [0; CONTEXT_BYTES];
    let mut machine = Machine::new(block, &context, &mut scratch, &mut stack);
    assert!(rt; program.at(machine.slot()).is_some());
    let end = machine.run_checked(program, 0, 100, &mut []);
    (end, machine.steps())
}

/// The block whose byte i is 37 i + 11.
fn block_of_gcc() -> [u8; 512] {
    let mut block = [0; 512];
    let mut byte = 11u8;
    for place in block.iter_mut() {
        *place = byte;
        byte = byte.wrapping_add(37);
    }
    block
}

/// Runs the program of each line, and compares R0 at its end with the last word of the line.
fn check_lines(rt: &impl Abort, alloc: Global, lines: &str) -> Result<(), Fail> {
    let block = block_of_gcc();
    for line in lines.lines() {
        let (told, r0) = line.rsplit_once(' ').ok_or("no R0")?;
        let r0 = u64::from_str_radix(r0, 16)?;
        let mut slots = Vec::new(alloc);
        for slot in told.split(' ') {
            slots.push(u64::from_str_radix(slot, 16)?)?;
        }
        slots.push(EXIT)?;
        let bytes = bytes_of(alloc, &slots)?;
        let (end, _) = run(rt, &decode(alloc, &bytes)?, &block);
        assert_eq!(rt; end, End::Exit { r0 }, "{line}");
    }
    Ok(())
}

#[test]
fn memory_as_gcc_has_it(rt: HostRuntime) -> Result<(), Fail> {
    for lines in [LOADS, STORES, IMMEDIATE_STORES] {
        check_lines(&rt, rt.alloc(), lines)?;
    }
    Ok(())
}

const NO_ROOM: End = End::Trap {
    slot: 4,
    cause: Cause::EmitLength,
};

/// A block run of `MATCHING`: the most bytes that it may emit and its fuel; how it ends, after how many steps, and the bytes
/// and the frames that it has emitted by then.
type BlockRun = (usize, u64, End, u64, usize, u64);

const BLOCK_RUNS: &[BlockRun] = &[
    (10, 7, End::Exit { r0: 0 }, 7, 10, 1),
    (10, 100, End::Exit { r0: 0 }, 7, 10, 1),
    (9, 100, NO_ROOM, 4, 0, 0),
    (10, 4, End::OutOfFuel, 4, 0, 0),
    (9, 4, End::OutOfFuel, 4, 0, 0),
];

/// Runs the filter over a block that begins with 7.
fn check_filter(rt: &impl Abort, filter: &Program, run: BlockRun) {
    let (limit, fuel, end, steps, group_length, frames) = run;
    let mut block = [0; 512];
    block[0] = 7;
    let context = [0; CONTEXT_BYTES];
    let (mut scratch, mut stack) = ([0; SCRATCH_BYTES], [0; STACK_BYTES]);
    let mut group = [9; 12];
    let mut machine = Machine::new(&block, &context, &mut scratch, &mut stack);
    assert!(rt; filter.at(machine.slot()).is_some());
    assert!(rt; limit <= 10 && fuel <= 100);
    assert_eq!(rt; machine.run_checked(filter, limit, fuel, &mut group), end);
    assert_eq!(rt; machine.steps(), steps);
    assert_eq!(rt; machine.group_length(), group_length);
    assert_eq!(rt; machine.frames(), frames);
    if frames == 1 {
        assert_eq!(rt; group, [8, 0, 7, 0, 0, 0, 0, 0, 0, 0, 9, 9]);
    } else {
        assert_eq!(rt; group, [9; 12]);
    }
}

#[test]
fn a_frame_of_a_block_that_matches(rt: HostRuntime) -> Result<(), Fail> {
    let filter = program(rt.alloc(), MATCHING)?;
    for run in BLOCK_RUNS {
        check_filter(&rt, &filter, *run);
    }
    assert_eq!(rt; run(&rt, &filter, &[0; 512]), (End::Exit { r0: 0 }, 4));
    Ok(())
}

/// Programs, each with the slot that traps in it, and for which cause.
const TRAPS: &[(&str, usize, Cause)] = &[
    ("mov r10, 1", 0, Cause::NextOutside),
    ("mov r10, 1\nexit", 0, Cause::WriteToFramePointer),
    ("ja +1\nlddw r1, 0\nexit", 0, Cause::NextInsideWide),
    ("stxdw [r1+0], r0\nexit", 0, Cause::StoreOutside),
    ("ldxb r0, [r10+0]\nexit", 0, Cause::LoadOutside),
    ("call 2\nexit", 0, Cause::UnknownHelper),
    ("mov r2, -1\ncall 1\nexit", 1, Cause::EmitOutside),
    ("mov r2, 0\ncall 1\nexit", 1, Cause::EmitLength),
];

#[test]
fn the_least_cause_of_a_trap(rt: HostRuntime) -> Result<(), Fail> {
    for (text, slot, cause) in TRAPS {
        let (end, steps) = run(&rt, &program(rt.alloc(), text)?, &[0; 512]);
        let (slot, cause) = (*slot, *cause);
        assert_eq!(rt; end, End::Trap { slot, cause }, "of {text:?}");
        assert_eq!(rt; steps, slot as u64, "of {text:?}");
    }
    Ok(())
}
