//! What `verify` finds of a program, and the words that say it.

ghost use Rattle.std.specs.Prelude.{◌≡◌, IfOk};
ghost use Rattle.std.specs.String.{string_bytes};
ghost use Rattle.command_files.specs.Profile.{operations_of};
ghost use Rattle.command_programs.specs.Printed.{refused_front, refused_line};
ghost use Rattle.command_programs.specs.steps.Verdict.{IsVerdict, acceptance_text, refusal_text};

use crate::facts::fact_lines;
use crate::refused_instruction::{Known, RefusedInstruction, known_of};
use crate::verify::Form;
use accepted_programs::Refusal;
use address_domain::Addresses;
use command_files::{Counted, Profile};
use ebpf_asm::instruction_text;
use instruction_set::Program;
use interval_domain::Intervals;
use program_interface::RunSizes;
use std::alloc::{AllocError, Global};
use verifier::{Judgement, Refused, judge};
use word_domain::Domain;

/// Whether a program is accepted, with the words that are asked for.
#[derive(Drop)]
pub(crate) enum Verdict {
    /// It is.
    Accepted {
        /// It emits at most so many bytes for a block.
        most_emitted: usize,
        /// The lines that say more.
        words: String,
    },
    /// It isn't.
    Refused {
        /// The first refusal.
        refusal: Refusal,
        /// The lines or the fields that say more.
        words: String,
    },
}

/// Judges a program by a profile; this line goes with the words that say why, or how much a block takes.
pub(crate) fn judged(
    alloc: Global,
    program: &Program,
    sizes: RunSizes,
    profile: Profile,
    form: Form,
    linked: &str,
) -> Result<Verdict, AllocError>
    ensures { IfOk result (IsVerdict (operations_of profile) program.now sizes) }
{
    match profile {
        Profile::Two => judged_over::<Intervals>(alloc, program, sizes, form, linked),
        Profile::Three => judged_over::<Addresses>(alloc, program, sizes, form, linked),
    }
}

/// Judges a program over a domain.
#[tactic(auto, using(crate::proofs::FactSizes::facts_fit))]
fn judged_over<D: Domain>(
    alloc: Global,
    program: &Program,
    sizes: RunSizes,
    form: Form,
    linked: &str,
) -> Result<Verdict, AllocError>
    ensures { IfOk result (IsVerdict D.operations program.now sizes) }
{
    D::fact_fits();
    match judge::<D>(alloc, program, sizes)? {
        Judgement::Accepted { most_emitted, .. } => {
            let lines = lines_behind::<D>(alloc, program, sizes, None, form, linked)?;
            let words = words_of_acceptance(alloc, program, most_emitted, form, lines.as_str())?;
            Ok(Verdict::Accepted {
                most_emitted,
                words,
            })
        }
        Judgement::Refused(Refused { refusal, facts }) => {
            let known = known_of(program.at(refusal.slot), &*facts);
            let lines = lines_behind::<D>(alloc, program, sizes, Some(refusal), form, linked)?;
            let words = words_of_refusal(
                alloc,
                program,
                sizes,
                refusal,
                known,
                form,
                lines.as_str(),
            )?;
            Ok(Verdict::Refused { refusal, words })
        }
    }
}

/// This line, and those that say what is known at each slot, if they are asked for.
fn lines_behind<D: Domain>(
    alloc: Global,
    program: &Program,
    sizes: RunSizes,
    refusal: Option<Refusal>,
    form: Form,
    linked: &str,
) -> Result<String, AllocError> {
    let mut lines = String::from_str(alloc, linked)?;
    if let Form::Worded { facts: true, .. } = form {
        let facts = fact_lines::<D>(alloc, program, sizes, refusal)?;
        lines.push_str(facts.as_str())?;
    }
    Ok(lines)
}

/// The lines behind that of an accepted program: how many steps and bytes a block takes at most, if that is asked for, and these.
fn words_of_acceptance(
    alloc: Global,
    program: &Program,
    most_emitted: usize,
    form: Form,
    lines: &str,
) -> Result<String, AllocError> {
    let mut words = String::new(alloc);
    if let Form::Worded {
        explained: true,
        ..
    } = form
    {
        let taken = Counted(program.instruction_count() as u64, "step");
        let emitted = Counted(most_emitted as u64, "byte");
        writeln!(words, "for a block at most {taken}, and {emitted} emitted")?;
    }
    words.push_str(lines)?;
    Ok(words)
}

/// The lines behind that of a refusal, or its fields: the instruction, the reason and what is known there, if they are asked
/// for, and these.
fn words_of_refusal(
    alloc: Global,
    program: &Program,
    sizes: RunSizes,
    refusal: Refusal,
    known: Known,
    form: Form,
    lines: &str,
) -> Result<String, AllocError> {
    let Refusal { slot, reason } = refusal;
    let mut words = String::new(alloc);
    if let Some(instruction) = program.at(slot) {
        let refused = RefusedInstruction {
            slots: program.slots(),
            slot,
            instruction: *instruction,
            reason,
            sizes,
            known,
        };
        let text = instruction_text(alloc, instruction)?;
        match form {
            Form::Json => refused.push_fields(text.as_str(), &mut words)?,
            Form::Worded {
                explained: true,
                ..
            } => refused.push_lines(text.as_str(), &mut words)?,
            _ => {}
        }
    }
    words.push_str(lines)?;
    Ok(words)
}

/// What says that a program of so many instructions is accepted, with these words behind it, where there may be some.
pub(crate) fn acceptance_text(
    alloc: Global,
    instructions: usize,
    most_emitted: usize,
    words: &str,
    form: Form,
) -> Result<String, AllocError>
    ensures { IfOk result (λ text. string_bytes text ≡ acceptance_text form instructions most_emitted words.now) }
{
    match form {
        Form::Line => format!(in alloc; "accepted {instructions}\n"),
        Form::Worded { .. } => {
            let mut text = format!(in alloc; "accepted {instructions}\n")?;
            text.push_str(words)?;
            Ok(text)
        }
        Form::Json => {
            let mut text = String::new(alloc);
            writeln!(
                text,
                "{{\"accepted\":true,\"instruction_count\":{instructions},\"most_emitted\":{most_emitted}}}"
            )?;
            Ok(text)
        }
    }
}

/// What says that one is refused, with these words or fields.
pub(crate) fn refusal_text(
    alloc: Global,
    instructions: usize,
    refusal: Refusal,
    words: &str,
    form: Form,
) -> Result<String, AllocError>
    ensures { IfOk result (λ text. string_bytes text ≡ refusal_text form instructions refusal words.now) }
{
    match form {
        Form::Line => refused_line(alloc, refusal),
        Form::Worded { .. } => {
            let mut text = refused_line(alloc, refusal)?;
            text.push_str(words)?;
            Ok(text)
        }
        Form::Json => {
            let mut text = refused_front(alloc, instructions, refusal)?;
            text.push_str(words)?;
            text.push_str("}\n")?;
            Ok(text)
        }
    }
}

/// The slot of a refusal, and the number of its reason, on a line.
fn refused_line(alloc: Global, refusal: Refusal) -> Result<String, AllocError>
    ensures { IfOk result (λ text. string_bytes text ≡ refused_line refusal) }
{
    let (slot, number) = (refusal.slot, refusal.reason.number());
    let mut text = String::new(alloc);
    writeln!(text, "refused {slot} {number}")?;
    Ok(text)
}

/// The same as the first fields of a JSON object.
fn refused_front(alloc: Global, instructions: usize, refusal: Refusal) -> Result<String, AllocError>
    ensures { IfOk result (λ text. string_bytes text ≡ refused_front instructions refusal) }
{
    let (slot, number) = (refusal.slot, refusal.reason.number());
    let mut text = format!(in alloc; "{{\"accepted\":false,\"instruction_count\":{instructions}")?;
    write!(text, ",\"slot\":{slot},\"reason\":{number}")?;
    Ok(text)
}
