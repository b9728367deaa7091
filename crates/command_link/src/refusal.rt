//! What the user is told of an object that no program is made of, or one that `verify` refuses.

use crate::guard_lines::of_end;
use crate::source::{Place, Source, origin_of_slot, symbol_name};
use crate::variables::variable_name;
use accepted_programs::{Reason, Refusal as Verdict};
use command_files::Shown;
use ebpf_gather::{GatherFault, Gathered, Origin, SlotProblem, StartFault, Wanted};
use ebpf_inline::{InlineFault, UnitFault};
use ebpf_link::{CELLS_BYTES, GuardPlace, LinkFault, LoopRule, MARK_BYTES, Widest};
use ebpf_object::{HeaderFault, Object, ObjectFault};
use program_interface::STACK_BYTES;
use std::alloc::{AllocError, Global};

/// Why no program is made.
#[derive(Drop)]
pub(crate) enum Refusal {
    /// There is no memory for it.
    Memory,
    /// In a sentence.
    Told(String),
}

impl From<AllocError> for Refusal {
    fn from(_error: AllocError) -> Refusal {
        Refusal::Memory
    }
}

/// What to write in place of what a slot has.
fn advice(problem: SlotProblem) -> &'static str {
    match problem {
        SlotProblem::Reference(_) => {
            "call functions of this file, and keep what changes on the stack or in scratch"
        }
        SlotProblem::Missing(_) => {
            "write the function into the file; of the C library there are memcpy, memset and memcmp"
        }
        SlotProblem::Length(_) => "give it a constant up to 512, or write a loop",
        SlotProblem::FunctionAddress | SlotProblem::CallByAddress => {
            "call by address isn't possible: call the functions by their names, as in a switch"
        }
        SlotProblem::OtherAddress => "keep in constant data only addresses of constant data",
        SlotProblem::Instruction(_) => "write it without atomics, and for -mcpu=v2, v3 or v4",
    }
}

/// What to write in place of what can't be a part of a program.
fn unit_advice(fault: UnitFault) -> &'static str {
    match fault {
        UnitFault::TooDeep(_) => "write it as a loop, or let fewer functions call one another",
        UnitFault::NoRoom(_) => "put less on the stack, or into scratch",
        UnitFault::TooMuchData => "write shorter tables and texts, or smaller numbers in them",
        UnitFault::TooLong => "call the function in fewer places, or in a loop",
        UnitFault::NoStart | UnitFault::Slot(..) | UnitFault::Empty(_) => {
            "compile the file by `clang -target bpf -O2 -c`"
        }
    }
}

/// What to write in place of what a verifier refuses.
fn verdict_advice(reason: Reason) -> &'static str {
    match reason {
        Reason::LoadOutside => {
            "load at an offset that is compared with a constant or masked just before"
        }
        Reason::StoreOutside => {
            "store to the stack or to scratch, at an offset that is compared with a constant or masked just before"
        }
        Reason::EmitAddress | Reason::EmitLength => {
            "compare the offset and the length of what is emitted with constants, each by itself, just before"
        }
        Reason::EmitLimit => {
            "emit fewer records, or less of each: with 2 bytes for each all of a block's have to fit a block"
        }
        Reason::UnknownHelper => "call no helper but emit",
        Reason::JumpBack | Reason::JumpOutside | Reason::FallsOff | Reason::WriteToFramePointer =>
            "compile the file by `clang -target bpf -O2 -c`",
    }
}

/// What to write in place of a loop of which not all rounds have room: how many it has is known.
fn loop_advice(rule: LoopRule) -> &'static str {
    match rule {
        LoopRule::Whole => "give it fewer rounds, or less in each, or link with --cut-loops",
        LoopRule::Cut => "give it fewer rounds, or less in each",
    }
}

/// What to write in place of a loop of which it isn't known how many rounds it has: too many, or any number.
fn long_loop_advice(rule: LoopRule) -> &'static str {
    match rule {
        LoopRule::Whole => {
            "give it fewer rounds, or less in each, and a constant bound if it has none; one that can be left early can be linked with --cut-loops"
        }
        LoopRule::Cut => {
            "give it fewer rounds, or less in each, and a constant bound if it has none"
        }
    }
}

/// What is told: where it is, if that is known, what is wrong, and what to write instead.
pub(crate) fn sentence(
    alloc: Global,
    source: &Source<'_, '_>,
    place: Option<Place<'_>>,
    problem: &str,
    advice: &str,
) -> Result<String, AllocError> {
    match place {
        Some(place) => {
            let hint = source.hint();
            format!(in alloc; "{place}: {problem}; {advice}{hint}")
        }
        None => format!(in alloc; "{problem}; {advice}"),
    }
}

/// What is wrong with a slot, and of which function it calls, or which variable it has the address of.
fn slot_problem(
    alloc: Global,
    object: &Object<'_>,
    origin: Origin,
    problem: SlotProblem,
) -> Result<String, AllocError> {
    match problem {
        SlotProblem::Reference(_) => match variable_name(object, origin) {
            Some(name) => format!(in alloc; "{name}: {problem}"),
            None => format!(in alloc; "{problem}"),
        },
        SlotProblem::Missing(symbol) | SlotProblem::Length(symbol) => {
            let called = symbol_name(object, symbol);
            format!(in alloc; "{called}: {problem}")
        }
        _ => format!(in alloc; "{problem}"),
    }
}

/// The slot of a function of a unit, as one of the object.
fn origin_of(gathered: &Gathered, function: usize, slot: usize) -> Option<Origin> {
    let before = if function == gathered.unit.start {
        gathered.before
    } else {
        0
    };
    match gathered.functions.get(function)? {
        Wanted::Symbol(symbol) => Some(Origin {
            symbol: *symbol,
            slot: slot.saturating_sub(before),
        }),
        Wanted::Library(_) => None,
    }
}

/// Where what hinders functions stands, if it is in one of the object's.
fn unit_origin(gathered: &Gathered, fault: UnitFault) -> Option<Origin> {
    match fault {
        UnitFault::Slot(function, slot, _) => origin_of(gathered, function, slot),
        UnitFault::Empty(function) | UnitFault::TooDeep(function) | UnitFault::NoRoom(function) => {
            origin_of(gathered, function, 0)
        }
        UnitFault::NoStart | UnitFault::TooMuchData | UnitFault::TooLong => None,
    }
}

/// What hinders functions, without their numbers.
fn unit_problem(fault: UnitFault) -> &'static str {
    match fault {
        UnitFault::NoStart => "no function to start with",
        UnitFault::Slot(..) => "an instruction that can't be put into another function",
        UnitFault::Empty(_) => "a function without instructions",
        UnitFault::TooDeep(_) => "calls that are too deep, or that lead in a circle",
        UnitFault::NoRoom(_) =>
            "no room on the stack for its variables, beside those of its callers",
        UnitFault::TooMuchData => "more constant data than the stack has room for",
        UnitFault::TooLong =>
            "more slots than a program can have, with each function where it is called",
    }
}

/// What is told of a program of so many slots, most of them perhaps of a loop.
fn of_length(
    alloc: Global,
    source: &Source<'_, '_>,
    origins: &[Option<Origin>],
    rule: LoopRule,
    count: usize,
    widest: Option<Widest>,
) -> Result<String, AllocError> {
    match widest {
        Some(
            Widest {
                back,
                rounds,
                slots,
            },
        ) => {
            let place = source.place_of(origin_of_slot(origins, back));
            let problem = format!(in alloc;
                "a loop of {rounds} rounds, which take {slots} of {count} slots, and a program has 4096 at most"
            )?;
            sentence(alloc, source, place, problem.as_str(), loop_advice(rule))
        }
        None => {
            let problem = format!(in alloc; "{count} slots, and a program has 4096 at most")?;
            sentence(
                alloc,
                source,
                None,
                problem.as_str(),
                "write less; leave out `#pragma unroll`, where clang unrolled a loop",
            )
        }
    }
}

/// What is told of a slot of a program that the verifier refuses, and that was made of another one.
pub(crate) fn of_verdict(
    alloc: Global,
    source: &Source<'_, '_>,
    origin: Option<Origin>,
    refusal: Verdict,
) -> Result<String, AllocError> {
    let (slot, reason) = (refusal.slot, refusal.reason);
    let problem = format!(in alloc; "verify refuses slot {slot} of the program, {reason}")?;
    let place = source.place_of(origin);
    sentence(
        alloc,
        source,
        place,
        problem.as_str(),
        verdict_advice(reason),
    )
}

/// What is told of a file that is no object.
pub(crate) fn of_object(
    alloc: Global,
    path: &str,
    fault: ObjectFault,
) -> Result<String, AllocError> {
    let path = Shown(path);
    match fault {
        ObjectFault::Header(HeaderFault::Short | HeaderFault::Magic) => {
            format!(in alloc; "{path}: not an ELF file")
        }
        _ => format!(in alloc; "{path}: {fault}"),
    }
}

/// What is told of an object in which a program could start with several functions, or with none.
pub(crate) fn of_start(
    alloc: Global,
    object: &Object<'_>,
    fault: StartFault,
) -> Result<String, AllocError> {
    match fault {
        StartFault::NoFunction => String::from_str(
            alloc,
            "no function that isn't static; write one, which is given the context, the block and scratch",
        ),
        StartFault::Several(first, second) => {
            let (first, second) = (symbol_name(object, first), symbol_name(object, second));
            format!(in alloc;
                "several functions that aren't static, as {first} and {second}; name the one to start with by --function"
            )
        }
    }
}

/// What is told of functions that can't be gathered.
pub(crate) fn of_gathering(
    alloc: Global,
    source: &Source<'_, '_>,
    fault: GatherFault,
) -> Result<String, AllocError> {
    match fault {
        GatherFault::Memory(error) => Err(error),
        GatherFault::NoStart => String::from_str(alloc, "no function to start with"),
        GatherFault::TooMany => String::from_str(
            alloc,
            "more functions, or slots in one, than a program can have; write fewer",
        ),
        GatherFault::Slot {
            function,
            slot,
            problem,
        } => {
            let origin = Origin {
                symbol: function,
                slot,
            };
            let place = source.place(origin);
            let told = slot_problem(alloc, source.object, origin, problem)?;
            sentence(alloc, source, Some(place), told.as_str(), advice(problem))
        }
    }
}

/// What is told of functions that can't be made one.
pub(crate) fn of_inlining(
    alloc: Global,
    source: &Source<'_, '_>,
    gathered: &Gathered,
    fault: InlineFault,
) -> Result<String, AllocError> {
    match fault {
        InlineFault::Memory(error) => Err(error),
        InlineFault::Hindered(fault) => {
            let place = source.place_of(unit_origin(gathered, fault));
            sentence(
                alloc,
                source,
                place,
                unit_problem(fault),
                unit_advice(fault),
            )
        }
    }
}

/// What is told where guards have no bytes of scratch to write to.
fn of_no_mark(alloc: Global, at: Option<usize>) -> Result<String, AllocError> {
    match at {
        Some(at) if at % 8 != 0 => format!(in alloc;
            "guards can't write from byte {at} of scratch on, which is no multiple of 8; name another by --guard-at, or link with --silent-guards"
        ),
        Some(at) => format!(in alloc;
            "guards can't write {MARK_BYTES} bytes from byte {at} of scratch on, since the program may store there; name another multiple of 8 by --guard-at, or link with --silent-guards"
        ),
        None => format!(in alloc;
            "guards need {MARK_BYTES} bytes of scratch, and the program may store into all of it; bound the offsets at which it stores, or link with --silent-guards"
        ),
    }
}

/// What is told of loops that can't be laid out.
pub(crate) fn of_linking(
    alloc: Global,
    source: &Source<'_, '_>,
    origins: &[Option<Origin>],
    rule: LoopRule,
    fault: LinkFault,
) -> Result<String, AllocError> {
    match fault {
        LinkFault::Memory(error) => Err(error),
        LinkFault::Leaves(slot) => {
            format!(in alloc;
                "an instruction leads to slot {slot}, where none begins; compile the file by `clang -target bpf -O2 -c`"
            )
        }
        LinkFault::Loop { back, rounds, .. } => {
            let place = source.place_of(origin_of_slot(origins, back));
            let problem = format!(in alloc;
                "a loop that isn't over after {rounds} rounds, for which a program of 4096 slots has no room"
            )?;
            sentence(
                alloc,
                source,
                place,
                problem.as_str(),
                long_loop_advice(rule),
            )
        }
        LinkFault::TooLong { count, widest } => of_length(
            alloc, source, origins, rule, count, widest,
        ),
        LinkFault::Ends(GuardPlace { slot, need }) => {
            of_end(alloc, source, origin_of_slot(origins, slot), need)
        }
        LinkFault::NoMark(at) => of_no_mark(alloc, at),
        LinkFault::NoStack(own) => {
            let left = STACK_BYTES.saturating_sub(own);
            format!(in alloc;
                "the functions and their constant data leave {left} bytes of the stack, and guards need {CELLS_BYTES}; put less there, or link with --silent-guards"
            )
        }
        LinkFault::Address(slot) => sentence(
            alloc,
            source,
            source.place_of(origin_of_slot(origins, slot)),
            "an address that may be the context's or another one",
            "read what is needed of the context before",
        ),
    }
}

impl Refusal {
    /// That of a text.
    pub fn of(text: Result<String, AllocError>) -> Refusal {
        match text {
            Ok(text) => Refusal::Told(text),
            Err(_) => Refusal::Memory,
        }
    }
}
