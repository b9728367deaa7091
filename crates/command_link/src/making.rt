//! A program of an object's bytes.

use crate::guard_lines::{guard_lines, of_cut, of_guard};
use crate::notes::notes_of;
use crate::refusal::{
    Refusal, of_gathering, of_inlining, of_linking, of_object, of_start, of_verdict,
};
use crate::source::{Source, origin_of_slot, source_of};
use accepted_programs::Refusal as Verdict;
use address_domain::Addresses;
use ebpf_decode::{decode, push_instruction};
use ebpf_gather::{Gathered, Origin, gather, named_function, only_function, origins};
use ebpf_inline::inline;
use ebpf_link::{GuardPlace, Linked, Target, link};
use ebpf_object::{Function, Object};
use instruction_set::{Instruction, Program};
use interval_domain::Intervals;
use program_interface::RunSizes;
use std::alloc::{AllocError, Global};
use verifier::{Judgement, judge};
use word_domain::Domain;

/// What is made of an object.
#[derive(Drop)]
pub(crate) struct LinkedProgram {
    pub linked: Linked,
    /// Those of the program.
    pub bytes: Vec<u8>,
    /// What is told of its guards, and of loops that are cut.
    pub told: String,
    /// What is noted of it in a file of its own.
    pub notes: String,
}

/// What is asked for of a program.
#[derive(Drop)]
pub(crate) struct Asked {
    /// What it is made for.
    pub target: Target,
    /// The most bytes that are emitted for a block, if they are told.
    pub emit: Option<u32>,
    /// The number of the profile that judges it.
    pub profile: u32,
    /// May no guard end a run?
    pub is_strict: bool,
}

/// The function with a name, or the only one that can be seen from outside where none is given.
fn start(alloc: Global, object: &Object<'_>, name: &str) -> Result<Function, Refusal> {
    if name.is_empty() {
        return match only_function(object) {
            Ok(function) => Ok(function),
            Err(fault) => Err(Refusal::of(of_start(alloc, object, fault))),
        };
    }
    match named_function(object, name.as_bytes()) {
        Some(function) => Ok(function),
        None => Err(Refusal::of(format!(in alloc; "no function {name}"))),
    }
}

/// The bytes of instructions.
fn bytes_of(alloc: Global, slots: &[Option<Instruction>]) -> Result<Vec<u8>, AllocError> {
    let mut bytes = Vec::new(alloc);
    for slot in slots {
        if let Some(instruction) = slot {
            push_instruction(&mut bytes, instruction)?;
        }
    }
    Ok(bytes)
}

/// What a verifier refuses of a program.
fn judged<D: Domain>(
    alloc: Global,
    program: &Program,
    sizes: RunSizes,
) -> Result<Option<Verdict>, AllocError> {
    D::fact_fits();
    match judge::<D>(alloc, program, sizes)? {
        Judgement::Accepted { .. } => Ok(None),
        Judgement::Refused(refused) => Ok(Some(refused.refusal)),
    }
}

/// What the verifier of a profile refuses of a program, with the limit that it is made for.
fn verdict(alloc: Global, bytes: &[u8], asked: &Asked) -> Result<Option<Verdict>, Refusal> {
    let Ok(program) = decode(alloc, bytes) else {
        return Err(Refusal::Memory);
    };
    let block = asked.target.block;
    let limit = asked.emit.unwrap_or(block.bytes());
    let Some(sizes) = RunSizes::new(block, limit) else {
        return Ok(None);
    };
    let found = match asked.profile {
        3 => judged::<Addresses>(alloc, &program, sizes)?,
        _ => judged::<Intervals>(alloc, &program, sizes)?,
    };
    Ok(found)
}

/// The slots of all functions as one.
fn inlined(
    alloc: Global,
    source: &Source<'_, '_>,
    gathered: &Gathered,
) -> Result<Vec<Option<Instruction>>, Refusal> {
    match inline(alloc, &gathered.unit) {
        Ok(slots) => Ok(slots),
        Err(fault) => Err(Refusal::of(of_inlining(alloc, source, gathered, fault))),
    }
}

/// Slots of which a program is to be made, what they were made of, and what is asked for.
#[derive(Drop)]
struct Given<'a, 'b, 'c> {
    source: &'c Source<'a, 'b>,
    origins: &'c [Option<Origin>],
    slots: Vec<Option<Instruction>>,
    own: usize,
    asked: &'c Asked,
}

/// A program, its bytes, and what the verifier refuses of it.
#[derive(Drop)]
struct Attempt {
    linked: Linked,
    bytes: Vec<u8>,
    verdict: Option<Verdict>,
}

/// The program of slots, of which some need no guard of a position.
fn tried(alloc: Global, given: &Given<'_, '_, '_>, free: &[bool]) -> Result<Attempt, Refusal> {
    let Given {
        source,
        origins,
        slots,
        own,
        asked,
    } = given;
    let linked = match link(alloc, slots, *own, asked.target, free) {
        Ok(linked) => linked,
        Err(fault) => {
            let rule = asked.target.rule;
            return Err(Refusal::of(of_linking(alloc, source, origins, rule, fault)));
        }
    };
    let bytes = bytes_of(alloc, &linked.slots)?;
    let verdict = verdict(alloc, bytes.as_slice(), asked)?;
    Ok(Attempt {
        linked,
        bytes,
        verdict,
    })
}

/// So many guards of positions are put back at most.
const MOST_BACK: usize = 24;

/// The slot that was given of what the verifier refuses, where it has no guard of its position: there it gets one.
fn put_back(attempt: &Attempt, free: &mut [bool]) -> bool {
    let Some(verdict) = attempt.verdict else {
        return false;
    };
    let Some(origin) = attempt.linked.origins.get(verdict.slot) else {
        return false;
    };
    match free.get_mut(*origin) {
        Some(found) if *found => {
            *found = false;
            true
        }
        _ => false,
    }
}

/// A program that profile 3 accepts, with guards of positions only where it accepts none without; nothing, where none is found.
fn freed(alloc: Global, given: &Given<'_, '_, '_>) -> Result<Option<Attempt>, Refusal> {
    let mut free = vec![in alloc; true; given.slots.len()]?;
    for _ in 0..MOST_BACK {
        match tried(alloc, given, &free) {
            Ok(found) => {
                if found.verdict.is_none() {
                    return Ok(Some(found));
                }
                if !put_back(&found, &mut free) {
                    return Ok(None);
                }
            }
            Err(Refusal::Memory) => return Err(Refusal::Memory),
            Err(Refusal::Told(_)) => return Ok(None),
        }
    }
    Ok(None)
}

/// The program that functions are laid out as.
fn laid_out(
    alloc: Global,
    source: &Source<'_, '_>,
    gathered: &Gathered,
    origins: &[Option<Origin>],
    asked: &Asked,
) -> Result<Attempt, Refusal> {
    let given = Given {
        source,
        origins,
        slots: inlined(alloc, source, gathered)?,
        own: gathered.own,
        asked,
    };
    if asked.profile == 3 {
        if let Some(found) = freed(alloc, &given)? {
            return Ok(found);
        }
    }
    tried(alloc, &given, &[])
}

/// What a slot of a program was made of.
fn origin_at(linked: &Linked, origins: &[Option<Origin>], slot: usize) -> Option<Origin> {
    origin_of_slot(origins, *linked.origins.get(slot)?)
}

/// Refuses a program that the verifier refuses.
fn check_verdict(
    alloc: Global,
    source: &Source<'_, '_>,
    linked: &Linked,
    origins: &[Option<Origin>],
    verdict: Option<Verdict>,
) -> Result<(), Refusal> {
    match verdict {
        None => Ok(()),
        Some(refusal) => {
            let origin = origin_at(linked, origins, refusal.slot);
            Err(Refusal::of(of_verdict(alloc, source, origin, refusal)))
        }
    }
}

/// Refuses a program with a loop that is cut or with a guard, also of the block's size, where there may be none.
fn check_strict(
    alloc: Global,
    source: &Source<'_, '_>,
    linked: &Linked,
    origins: &[Option<Origin>],
    asked: &Asked,
) -> Result<(), Refusal> {
    if !asked.is_strict {
        return Ok(());
    }
    if let Some(cut) = linked.cuts.first() {
        let origin = origin_of_slot(origins, cut.back);
        return Err(Refusal::of(of_cut(alloc, source, origin, *cut)));
    }
    match linked.guards.first() {
        Some(guard) => {
            let GuardPlace { slot, need } = guard.place;
            let origin = origin_of_slot(origins, slot);
            Err(Refusal::of(of_guard(alloc, source, origin, need)))
        }
        None => Ok(()),
    }
}

/// The program of an object.
fn program(
    alloc: Global,
    object: &Object<'_>,
    function: Function,
    asked: &Asked,
) -> Result<LinkedProgram, Refusal> {
    let source = source_of(alloc, object)?;
    let gathered = match gather(alloc, object, function) {
        Ok(found) => found,
        Err(fault) => return Err(Refusal::of(of_gathering(alloc, &source, fault))),
    };
    let origins = origins(alloc, &gathered)?;
    let attempt = laid_out(alloc, &source, &gathered, &origins, asked)?;
    check(alloc, &source, &attempt, &origins, asked)?;
    told_of(alloc, &source, attempt, &origins, asked)
}

/// Refuses a program that isn't what is asked for.
fn check(
    alloc: Global,
    source: &Source<'_, '_>,
    attempt: &Attempt,
    origins: &[Option<Origin>],
    asked: &Asked,
) -> Result<(), Refusal> {
    check_strict(alloc, source, &attempt.linked, origins, asked)?;
    check_verdict(alloc, source, &attempt.linked, origins, attempt.verdict)
}

/// A program, with what is told and noted of it.
fn told_of(
    alloc: Global,
    source: &Source<'_, '_>,
    attempt: Attempt,
    origins: &[Option<Origin>],
    asked: &Asked,
) -> Result<LinkedProgram, Refusal> {
    let told = guard_lines(alloc, source, &attempt.linked, origins)?;
    let notes = notes_of(
        alloc,
        source,
        &attempt.linked,
        &attempt.bytes,
        origins,
        asked,
    )?;
    let Attempt { linked, bytes, .. } = attempt;
    Ok(LinkedProgram {
        linked,
        bytes,
        told,
        notes,
    })
}

/// The program of the object of these bytes, of the file with this name, that starts with the function of a name.
pub(crate) fn made(
    alloc: Global,
    path: &str,
    bytes: &[u8],
    name: &str,
    asked: &Asked,
) -> Result<LinkedProgram, Refusal> {
    let object = match Object::read(bytes) {
        Ok(object) => object,
        Err(fault) => return Err(Refusal::of(of_object(alloc, path, fault))),
    };
    let function = start(alloc, &object, name)?;
    program(alloc, &object, function, asked)
}
