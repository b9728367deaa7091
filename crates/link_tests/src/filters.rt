//! Filters whose C has loops, functions and tables, and what `link` makes of these: the first drafts of `examples/drafts`, those of
//! `examples/refused` that it mends, and a vector that was worked out by hand.
//!
//! The objects are those that clang 14 makes by the flags of `examples/Makefile` for v3 with `-fno-addrsig`, after `llvm-strip
//! --strip-unneeded`. `make check` in `examples/` compares their digits with what clang makes today.

mod entries;
mod linux;
mod refused;
mod sql;
mod storage;

use crate::runs::compare;
use ebpf_decode::{decode, push_instruction};
use ebpf_gather::{gather, only_function};
use ebpf_inline::inline;
use ebpf_link::{LinkFault, Linked, MarkRule, Target, link};
use ebpf_object::Object;
use instruction_set::{Instruction, Program};
use interval_domain::Intervals;
use program_interface::{BlockSize, RunSizes};
use std::alloc::Global;
use std::process::Abort;
use std::test::Fail;
use verifier::verify;

/// How many blocks each program runs on.
const BLOCKS: usize = 24;

/// A draft in hexadecimal.
struct Draft {
    name: &'static str,
    /// The bytes of a block.
    block: u32,
    /// So many of the block runs end by a guard, or no program is made of the draft.
    ended: Option<usize>,
    object: &'static str,
}

/// The slots of the functions of an object as one program, and how many bytes of the stack it uses.
fn slots_of(alloc: Global, object: &str) -> Result<(Vec<Option<Instruction>>, usize), Fail> {
    let bytes = hex::decode(alloc, object)?;
    let object = Object::read(&bytes)?;
    let function = only_function(&object)?;
    let gathered = gather(alloc, &object, function)?;
    Ok((inline(alloc, &gathered.unit)?, gathered.own))
}

/// The program of slots.
fn program_of(alloc: Global, slots: &[Option<Instruction>]) -> Result<Program, Fail> {
    let mut bytes = Vec::new(alloc);
    for slot in slots {
        if let Some(instruction) = slot {
            push_instruction(&mut bytes, instruction)?;
        }
    }
    Ok(decode(alloc, &bytes)?)
}

/// Is a program accepted for blocks of a size, with the greatest limit?
fn is_accepted(alloc: Global, linked: &Linked, block: BlockSize) -> Result<bool, Fail> {
    let program = program_of(alloc, &linked.slots)?;
    let sizes = RunSizes::new(block, block.bytes()).ok_or("no sizes")?;
    Ok(verify::<Intervals>(alloc, program, sizes).is_ok())
}

/// The program of slots, whose guards write where there is room.
fn made(
    alloc: Global,
    slots: &[Option<Instruction>],
    own: usize,
    block: BlockSize,
) -> Result<Linked, LinkFault> {
    let mut target = Target::of(block);
    let found = link(alloc, slots, own, target, &[]);
    if !matches!(found, Err(LinkFault::NoMark(_))) {
        return found;
    }
    target.marks = MarkRule::Silent;
    link(alloc, slots, own, target, &[])
}

/// The program that is made of a draft does what the draft does, but on so many blocks; or none is made.
fn check(rt: &impl Abort, alloc: Global, draft: &Draft) -> Result<(), Fail> {
    let name = draft.name;
    let block = BlockSize::new(draft.block).ok_or("no block")?;
    let (slots, own) = slots_of(alloc, draft.object)?;
    let linked = match made(alloc, &slots, own, block) {
        Ok(linked) => linked,
        Err(LinkFault::Loop { .. } | LinkFault::TooLong { .. }) => {
            assert!(rt; draft.ended.is_none(), "{name} isn't made");
            return Ok(());
        }
        Err(fault) => return Err(Fail::from(fault)),
    };
    assert!(rt; is_accepted(alloc, &linked, block)?, "{name} is refused");
    let ended = compare(alloc, &slots, &linked.slots, block, BLOCKS)?.ended;
    assert_eq!(rt; Some(ended), draft.ended, "{name}: ended by a guard");
    Ok(())
}

fn check_all(rt: &impl Abort, alloc: Global, drafts: &[Draft]) -> Result<(), Fail> {
    for draft in drafts {
        check(rt, alloc, draft)?;
    }
    Ok(())
}

#[test]
fn drafts_of_a_storage_engineer(rt: HostRuntime) -> Result<(), Fail> {
    check_all(&rt, rt.alloc(), storage::DRAFTS)
}

#[test]
fn drafts_for_linux(rt: HostRuntime) -> Result<(), Fail> {
    check_all(&rt, rt.alloc(), linux::DRAFTS)
}

#[test]
fn drafts_of_sql(rt: HostRuntime) -> Result<(), Fail> {
    check_all(&rt, rt.alloc(), sql::DRAFTS)
}
