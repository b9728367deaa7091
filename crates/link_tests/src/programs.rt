//! The program of the object, on blocks for which `vectors/calls.c` says by hand what is emitted.

use crate::calls_object::calls;
use ebpf_decode::{decode, push_instruction};
use ebpf_gather::{called_slots, gather, named_function, only_function};
use ebpf_inline::inline;
use ebpf_link::{Target, link};
use ebpf_object::Object;
use instruction_set::{Instruction, Program};
use interp::Machine;
use interval_domain::Intervals;
use program_interface::{BlockSize, CONTEXT_BYTES, RunSizes, SCRATCH_BYTES, STACK_BYTES};
use program_meaning::End;
use std::alloc::{AllocError, Global};
use std::process::Abort;
use std::test::Fail;
use verifier::verify;

/// The bytes of instructions.
fn bytes_of(alloc: Global, slots: &[Option<Instruction>]) -> Result<Vec<u8>, AllocError> {
    let mut bytes = Vec::new(alloc);
    for slot in slots {
        if let Some(instruction) = slot {
            push_instruction(&mut bytes, instruction)?;
        }
    }
    Ok(bytes)
}

/// The program that starts with the object's function `filter`, for blocks of this size.
fn linked(alloc: Global, block: BlockSize) -> Result<Vec<u8>, Fail> {
    let bytes = calls(alloc)?;
    let object = Object::read(&bytes)?;
    let filter = named_function(&object, b"filter").ok_or("no filter")?;
    let gathered = gather(alloc, &object, filter)?;
    let slots = inline(alloc, &gathered.unit)?;
    let linked = link(alloc, &slots, gathered.own, Target::of(block), &[])?;
    Ok(bytes_of(alloc, &linked.slots)?)
}

/// How a block run ends, and how many bytes it emits, of a block whose bytes 1 and 2 these are.
fn run(rt: &impl Abort, program: &Program, first: u8, second: u8) -> (End, usize) {
    let mut block = [0; 512];
    block[1] = first;
    block[2] = second;
    let (mut scratch, mut stack) = ([0; SCRATCH_BYTES], [0; STACK_BYTES]);
    let context = [0; CONTEXT_BYTES];
    let mut group = [0; 512];
    let mut machine = Machine::new(&block, &context, &mut scratch, &mut stack);
    assert!(rt; program.at(machine.slot()).is_some());
    let end = machine.run_checked(program, 512, 200, &mut group);
    (end, machine.group_length())
}

/// Two functions of the object can be seen from outside, so that it has to be said which is the program. `filter` has 16 slots, and twice
/// 8 of `weight` with 7 of `prime`.
#[test]
fn the_functions_of_the_program(rt: HostRuntime) -> Result<(), Fail> {
    let bytes = calls(rt.alloc())?;
    let object = Object::read(&bytes)?;
    assert!(rt; only_function(&object).is_err());
    let filter = named_function(&object, b"filter").ok_or("no filter")?;
    assert_eq!(rt; called_slots(&object, filter), Ok(46));
    Ok(())
}

/// It is accepted, with a limit that has room for what is emitted. It emits "hello", of 5 bytes after 2, where 11 times byte 1 and 13 times
/// byte 2 come to 55.
#[test]
fn the_program_does_what_the_functions_do(rt: HostRuntime) -> Result<(), Fail> {
    let block = BlockSize::new(512).ok_or("no block")?;
    let program = decode(rt.alloc(), &linked(rt.alloc(), block)?)?;
    assert_eq!(rt; run(&rt, &program, 5, 0), (End::Exit { r0: 0 }, 7));
    assert_eq!(rt; run(&rt, &program, 0, 5), (End::Exit { r0: 0 }, 0));
    assert_eq!(rt; run(&rt, &program, 4, 1), (End::Exit { r0: 0 }, 0));
    let sizes = RunSizes::new(block, 7).ok_or("no sizes")?;
    assert!(rt; verify::<Intervals>(rt.alloc(), program, sizes).is_ok());
    Ok(())
}
