//! The lines.

use super::forgotten::{Forgotten, forgotten_by, unknown_word};
use super::reads::{ReadRegister, read_registers};
use super::register_set::RegisterSet;
use super::told::Told;
use super::wanted::registers_wanted;
use super::ways::{Known, Meeting};
use accepted_programs::{Facts, Refusal};
use ebpf_asm::instruction_text;
use instruction_set::{Instruction, Program, Register};
use program_interface::{Area, RunSizes};
use std::alloc::{AllocError, Global};
use verifier::known_facts;
use word_domain::Domain;

/// What is known at each slot of a program, up to the first that is refused: a line with the instruction behind its slot, as
/// `disasm` lists it, and what is known of each register that it reads; behind the slot of the refusal a `>` stands. Lines
/// behind that one say which addresses are forgotten there, in which register, and why: where ways meet, of the registers that
/// are read from there on, and by the instruction; and that nothing is known of the word of the stack that it loads.
///
/// # Errors
///
/// Want of memory.
#[tactic(auto, using(crate::proofs::FactSizes::facts_fit))]
pub fn fact_lines<D: Domain>(
    alloc: Global,
    program: &Program,
    sizes: RunSizes,
    refusal: Option<Refusal>,
) -> Result<String, AllocError> {
    D::fact_fits();
    let facts = known_facts::<D>(alloc, program, sizes)?;
    let wanted = registers_wanted(alloc, program)?;
    let known = Known {
        program,
        facts: &facts,
    };
    let refused = match refusal {
        Some(refusal) => Some(refusal.slot),
        None => None,
    };
    lines(alloc, &known, &wanted, refused)
}

/// The lines of all slots, of which one may be refused.
fn lines<D: Domain>(
    alloc: Global,
    known: &Known<'_, D>,
    wanted: &[RegisterSet],
    refused: Option<usize>,
) -> Result<String, AllocError> {
    let mut text = String::new(alloc);
    for slot in 0..known.facts.len() {
        let mark = if refused == Some(slot) { "> " } else { "  " };
        let wanted = wanted.get(slot).copied().unwrap_or(RegisterSet::NONE);
        push_slot(alloc, known, slot, mark, wanted, &mut text)?;
    }
    Ok(text)
}

/// The lines of a slot, if an instruction is there.
fn push_slot<D: Domain>(
    alloc: Global,
    known: &Known<'_, D>,
    slot: usize,
    mark: &str,
    wanted: RegisterSet,
    text: &mut String,
) -> Result<(), AllocError> {
    let Some(instruction) = known.program.at(slot) else {
        return Ok(());
    };
    push_instruction(alloc, slot, mark, instruction, text)?;
    push_known(known, slot, instruction, wanted, text)
}

/// An instruction behind its slot and a mark.
fn push_instruction(
    alloc: Global,
    slot: usize,
    mark: &str,
    instruction: &Instruction,
    text: &mut String,
) -> Result<(), AllocError> {
    let listed = instruction_text(alloc, instruction)?;
    write!(text, "{slot:4}{mark}{listed}")
}

/// What is known where an instruction is, and the end of its line; and lines that say what is forgotten there.
#[tactic(auto, using(crate::proofs::FactSizes::facts_fit))]
fn push_known<D: Domain>(
    known: &Known<'_, D>,
    slot: usize,
    instruction: &Instruction,
    wanted: RegisterSet,
    text: &mut String,
) -> Result<(), AllocError> {
    D::fact_fits();
    let Some(facts) = known.at(slot) else {
        return text.push_str("  no slot leads here\n");
    };
    push_read(instruction, facts, text)?;
    push_meetings(known, slot, facts, wanted, text)?;
    push_lost(instruction, facts, text)
}

/// What is known of what an instruction reads, and the end of its line.
fn push_read<D: Domain>(
    instruction: &Instruction,
    facts: &Facts<D>,
    text: &mut String,
) -> Result<(), AllocError> {
    push_registers(read_registers(instruction, facts), text)?;
    if instruction.is_emit() {
        let emitted = facts.emitted;
        write!(text, ", emitted at most {emitted}")?;
    }
    text.push_str("\n")
}

/// What an instruction forgets, or loads without knowing it.
fn push_lost<D: Domain>(
    instruction: &Instruction,
    facts: &Facts<D>,
    text: &mut String,
) -> Result<(), AllocError> {
    push_forgotten(forgotten_by(instruction, facts), text)?;
    push_unknown(unknown_word(instruction, facts), text)
}

/// What is known of registers.
fn push_registers(
    registers: [Option<ReadRegister>; 2],
    text: &mut String,
) -> Result<(), AllocError> {
    let [first, second] = registers;
    if let Some(read) = first {
        write!(text, "  {read}")?;
    }
    if let Some(read) = second {
        write!(text, ", {read}")?;
    }
    Ok(())
}

/// The addresses that are forgotten where ways meet at a slot, in these registers.
fn push_meetings<D: Domain>(
    known: &Known<'_, D>,
    slot: usize,
    facts: &Facts<D>,
    wanted: RegisterSet,
    text: &mut String,
) -> Result<(), AllocError> {
    if !known.is_target(slot) {
        return Ok(());
    }
    for number in 0..11 {
        let register = Register::from_number(number);
        if wanted.has(register) && is_where_addresses_are(Told::of(facts.get(register))) {
            push_meeting(register, known.meeting(slot, register), text)?;
        }
    }
    Ok(())
}

/// The address that is forgotten in a register where ways meet, if one is.
fn push_meeting(
    register: Register,
    meeting: Option<Meeting>,
    text: &mut String,
) -> Result<(), AllocError> {
    let Some(meeting) = meeting else {
        return Ok(());
    };
    let (number, address, other) = (register.number(), meeting.address, meeting.other);
    let (from, other_from) = (meeting.from, meeting.other_from);
    writeln!(
        text,
        "      forgotten in r{number}: {address} from slot {from}, {other} from slot {other_from}"
    )
}

/// The address that an instruction forgets, if it does.
fn push_forgotten(forgotten: Option<Forgotten>, text: &mut String) -> Result<(), AllocError> {
    let Some(forgotten) = forgotten else {
        return Ok(());
    };
    let (number, address) = (forgotten.register.number(), forgotten.address);
    let cause = forgotten.cause;
    writeln!(text, "      forgotten in r{number}: {address}; {cause}")
}

/// That nothing is known of a word that is loaded, if that is so: its distance.
fn push_unknown(distance: Option<usize>, text: &mut String) -> Result<(), AllocError> {
    let Some(distance) = distance else {
        return Ok(());
    };
    writeln!(
        text,
        "      nothing is known of the word at stack + {distance}"
    )
}

/// May it be a number that is an address? So are those that addresses in two areas are joined to.
fn is_where_addresses_are(told: Told) -> bool {
    match told {
        Told::Words(bounds) => bounds.high >= Area::Context.address(),
        Told::Address(_) => false,
    }
}
