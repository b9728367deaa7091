//! Entries that were worked out apart from any program: a loop that isn't laid out to its end, a remainder and `memcmp`.

use super::{program_of, slots_of};
use ebpf_link::{LoopRule, ROUNDS_GUARD, Target, link};
use instruction_set::Program;
use interp::Machine;
use program_interface::{BlockSize, CONTEXT_BYTES, SCRATCH_BYTES, STACK_BYTES};
use program_meaning::End;
use std::alloc::Global;
use std::process::Abort;
use std::test::Fail;

/// What clang 14 makes of `vectors/entries.c`, by `-target bpf -mcpu=v3 -O2 -fno-addrsig -c`, after `llvm-strip --strip-unneeded`.
const ENTRIES: &str = "\
7f454c460201010000000000000000000100f70001000000000000000000000000000000000000002802000000000000000000004000000000004000060001007b3af8ff00000000bf26000000000000b409000000000000bf670000000000000f97000000000000717100000000000016011b0000000000bf780000000000000708000001000000bf8100000000000018020000000000000000000000000000\
b70300000300000085100000ffffffff5600040000000000bf81000000000000b702000004000000850000000100000005000b00000000007181000000000000bc12000000000000340200000500000024020000050000001c21000000000000670100000300000079a2f8ff000000000f12000000000000792100000000000007010000010000007b1200000000000071710000000000000c19000000000000\
0409000001000000a609e1fff5010000b70000000000000095000000000000006b657900000000000000000000000000000000000000000000000000000000000000000003000400000000000000000000000000000000000b0000001200020000000000000000002001000000000000130000001000000000000000000000000000000000000000500000000000000001000000010000006800000000000000\
0a00000003000000002e72656c2e7465787400656e7472696573006d656d636d70002e737472746162002e73796d746162002e726f646174612e737472312e310000000000000000000000000000000000000000000000000000000000000000000000000000000000000000000000000000000000000000000000000000000000000000000000001a0000000300000000000000000000000000000000000000\
e801000000000000390000000000000000000000000000000100000000000000000000000000000005000000010000000600000000000000000000000000000040000000000000002001000000000000000000000000000008000000000000000000000000000000010000000900000040000000000000000000000000000000c801000000000000200000000000000005000000020000000800000000000000\
10000000000000002a00000001000000320000000000000000000000000000006001000000000000040000000000000000000000000000000100000000000000010000000000000022000000020000000000000000000000000000000000000068010000000000006000000000000000010000000200000008000000000000001800000000000000";

/// The bytes of a block.
pub(super) const BLOCK: usize = 512;

/// The first bytes of a block, with zeros after them, and what it leaves: the group, and how many entries have each remainder.
type Row = (&'static str, &'static str, [u64; 5]);

/// Their answers are those of a program in Python, which reads the entries as the comment in `entries.c` says.
const ROWS: &[Row] = &[
    ("", "", [0, 0, 0, 0, 0]),
    (
        "046b657931056162636465036b6579017a056b65796564026b65036b6578",
        "04006b65793104006b65790104006b657965",
        [0, 0, 4, 0, 0],
    ),
    (
        "\
066f74686572ee066f7468657261046b6179f30a6b65792076616c75655f046b6579e4026b48046b6579150a6b65792076616c7565ca066f74686572500a6b65792076616c7565070a6b65792076616c756520046b657912046b61797b0a6b65792076616c75650f066f74686572a7066f74686572640a6b65792076616c756577026bff046b65792b066f746865728e066f746865722a026ba1046b61799304\
6b6579230a6b65792076616c756537066f7468657237026bc5046b657908046b65796d046b61791a066f74686572c0066f74686572d6046b657965026bac046b65799f026b07066f746865723c046b61797e046b657905046b6579ee066f746865725a0a6b65792076616c756560066f7468657261046b6179d6066f746865723b066f74686572d7046b617900026b9b046b65796b046b6179c90a6b65792076\
616c756533046b65794a046b6179e2026b040a6b65792076616c7565a8026bc5046b657926046b65796a0a6b65792076616c75657c046b6579bc",
        "\
04006b65792004006b6579e404006b65791504006b65792004006b65792004006b65792004006b65791204006b65792004006b65792004006b65792b04006b65792304006b65792004006b65790804006b65796d04006b65796504006b65799f04006b65790504006b6579ee04006b65792004006b65796b04006b65792004006b65794a04006b65792004006b65792604006b65796a04006b65792004006b65\
79bc",
        [0, 15, 18, 0, 0],
    ),
];

/// The program.
fn linked(alloc: Global) -> Result<Program, Fail> {
    let block = BlockSize::new(512).ok_or("no block")?;
    let (slots, own) = slots_of(alloc, ENTRIES)?;
    let target = Target {
        rule: LoopRule::Cut,
        ..Target::of(block)
    };
    let linked = link(alloc, &slots, own, target, &[])?;
    program_of(alloc, &linked.slots)
}

/// A block that begins with these bytes.
pub(super) fn block_of(alloc: Global, digits: &str) -> Result<Vec<u8>, Fail> {
    let mut block = hex::decode(alloc, digits)?;
    block.resize(BLOCK, 0)?;
    Ok(block)
}

/// How a block run ends; what it emits is put into the group, and what it counts into scratch.
pub(super) fn run(
    rt: &impl Abort,
    program: &Program,
    block: &[u8],
    scratch: &mut [u8; SCRATCH_BYTES],
    group: &mut [u8; BLOCK],
) -> (End, usize) {
    let mut stack = [0; STACK_BYTES];
    let mut context = [0; CONTEXT_BYTES];
    // the size of the block, in bytes 16 to 19
    context[17] = 2;
    assert!(rt; block.len() == BLOCK);
    let mut machine = Machine::new(block, &context, scratch, &mut stack);
    assert!(rt; program.at(machine.slot()).is_some());
    let end = machine.run_checked(program, BLOCK, 5000, group);
    (end, machine.group_length())
}

/// The bytes of counts, with zeros behind them.
fn scratch_of(counts: &[u64; 5]) -> [u8; SCRATCH_BYTES] {
    let mut scratch = [0; SCRATCH_BYTES];
    for (number, count) in counts.iter().enumerate() {
        for (place, byte) in count.to_le_bytes().iter().enumerate() {
            if let Some(found) = scratch.get_mut(8 * number + place) {
                *found = *byte;
            }
        }
    }
    scratch
}

#[test]
fn entries_that_were_worked_out(rt: HostRuntime) -> Result<(), Fail> {
    let alloc = rt.alloc();
    let program = linked(alloc)?;
    for (block, group, counts) in ROWS {
        let block = block_of(alloc, block)?;
        let wanted = block_of(alloc, group)?;
        let (mut left, mut emitted) = ([0; SCRATCH_BYTES], [0; BLOCK]);
        let (end, length) = run(&rt, &program, &block, &mut left, &mut emitted);
        assert_eq!(&rt; end, End::Exit { r0: 0 });
        assert_eq!(&rt; length, group.len() / 2);
        assert!(&rt; emitted.as_slice() == wanted.as_slice());
        assert!(&rt; left == scratch_of(counts));
    }
    Ok(())
}

/// Of 200 entries of one byte each there are more than the program has room for.
#[test]
fn more_entries_than_there_is_room_for(rt: HostRuntime) -> Result<(), Fail> {
    let program = linked(rt.alloc())?;
    let mut block = [0; BLOCK];
    for entry in 0..200 {
        block[2 * entry] = 1;
        block[2 * entry + 1] = 97;
    }
    let (mut left, mut emitted) = ([0; SCRATCH_BYTES], [0; BLOCK]);
    let (end, length) = run(&rt, &program, &block, &mut left, &mut emitted);
    let r0 = u64::from(ROUNDS_GUARD.cast_unsigned());
    assert_eq!(&rt; end, End::Exit { r0 });
    assert_eq!(&rt; length, 0);
    Ok(())
}
