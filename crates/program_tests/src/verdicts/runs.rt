//! Accepted programs end the same with every check and over their superinstructions.

use super::program;
use crate::sizes::sizes;
use interp::Machine;
use interval_domain::Intervals;
use program_interface::{BlockSize, CONTEXT_BYTES, Context, SCRATCH_BYTES, STACK_BYTES};
use program_meaning::End;
use std::process::Abort;
use std::test::Fail;
use test_inputs::programs::{ADDING_THREE, GROWING, MATCHING, Text};
use verified_run::{Prepared, Stack, StepCount};
use verifier::{Verified, verify};

/// The most bytes that a program of these tests emits for a block of 512 bytes.
const LIMIT: usize = 10;

/// Programs, each with the first bytes of the blocks that it is run on, which are zeros but for these.
const SCENES: &[(Text, &[u8])] = &[
    (MATCHING, &[7; 52]),
    (MATCHING, &[7, 8, 7, 0]),
    (ADDING_THREE, &[1, 2, 3, 4, 5, 6, 7, 8, 9, 10]),
];

/// The context of a block of a run over so many blocks, which begins at block 0.
fn context_of(size: BlockSize, index: u32, count: u32) -> [u8; CONTEXT_BYTES] {
    let context = Context {
        lba: u64::from(index),
        index,
        count,
        block: size,
        argument: 0,
    };
    context.encode()
}

/// Runs a program both ways on a block, with the scratch bytes that each way left on the one before, and the stack that one of them
/// has for all blocks.
fn compare_on(
    rt: &impl Abort,
    prepared: &Prepared<Verified<Intervals>>,
    count: &mut StepCount,
    block: &[u8],
    context: &[u8; CONTEXT_BYTES],
    scratch: &mut [u8; SCRATCH_BYTES],
    other_scratch: &mut [u8; SCRATCH_BYTES],
    other_stack: &mut Stack,
) {
    let (program, sizes) = (prepared.verified().program(), prepared.verified().sizes());
    let limit = sizes.limit() as usize;
    assert!(rt; block.len() == sizes.block().bytes() as usize);
    assert!(rt; limit <= LIMIT);
    let (mut group, mut other_group) = ([9; LIMIT], [9; LIMIT]);
    let mut stack = [0; STACK_BYTES];
    let mut machine = Machine::new(block, context, scratch, &mut stack);
    assert!(rt; program.at(machine.slot()).is_some());
    let fuel = program.instruction_count() as u64;
    let end = machine.run_checked(program, limit, fuel, &mut group);
    let exit = prepared.run_over(
        block,
        context,
        other_scratch,
        other_stack,
        &mut other_group,
        count,
    );
    assert_eq!(rt; end, End::Exit { r0: exit.r0 });
    assert_eq!(rt; machine.steps(), exit.steps);
    assert_eq!(rt; machine.group_length(), exit.group_length);
    assert_eq!(rt; machine.frames(), exit.frames);
    assert_eq!(rt; group, other_group);
    assert_eq!(rt; scratch, other_scratch);
}

#[test]
fn with_every_check_and_over_superinstructions(rt: HostRuntime) -> Result<(), Fail> {
    let alloc = rt.alloc();
    let sizes = sizes(512, 10)?;
    for (text, firsts) in SCENES {
        let verified = verify::<Intervals>(alloc, program(alloc, text)?, sizes)?;
        let (prepared, mut count) = Prepared::new(alloc, verified)?;
        let (mut scratch, mut other_scratch) = ([0; SCRATCH_BYTES], [0; SCRATCH_BYTES]);
        let mut stack = Stack::new();
        let blocks = u32::try_from(firsts.len())?;
        for (index, first) in (0..blocks).zip(*firsts) {
            let mut block = [0; 512];
            block[0] = *first;
            let context = context_of(sizes.block(), index, blocks);
            compare_on(
                &rt,
                &prepared,
                &mut count,
                &block,
                &context,
                &mut scratch,
                &mut other_scratch,
                &mut stack,
            );
        }
    }
    Ok(())
}

#[test]
fn a_record_as_long_as_the_block_says(rt: HostRuntime) -> Result<(), Fail> {
    let verified = verify::<Intervals>(rt.alloc(), program(rt.alloc(), GROWING)?, sizes(512, 10)?)?;
    let (prepared, mut count) = Prepared::new(rt.alloc(), verified)?;
    let mut block = [0; 512];
    block[0] = 3;
    let (context, mut scratch) = ([0; CONTEXT_BYTES], [0; SCRATCH_BYTES]);
    let mut stack = [0; STACK_BYTES];
    let mut group = [9; 10];
    let exit = prepared.run(
        &mut Machine::new(&block, &context, &mut scratch, &mut stack),
        &mut group,
        &mut count,
    );
    assert_eq!(rt;
        (exit.r0, exit.steps, exit.group_length, exit.frames),
        (0, 8, 6, 1)
    );
    assert_eq!(rt; group, [4, 0, 3, 0, 0, 0, 9, 9, 9, 9]);
    Ok(())
}
