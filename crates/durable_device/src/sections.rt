//! The sections of a base: first one for each slot, then one for each place of a run.

ghost use Rattle.std.specs.Prelude.{◌≡◌, IfOk, IsErrOf, length, map};
ghost use Rattle.durable_machine.specs.Batches.{bytes_of};
ghost use Rattle.nvme_entry.specs.declared.program_slot.TheConstants.{PROGRAM_SLOTS};
ghost use Rattle.zone_resources.specs.declared.holds.TheConstants.{RUNS};
ghost use Rattle.image_base.specs.declared.sections.TheConstants.{SECTIONS};
ghost use Rattle.kept_device.specs.Kept.{place_told, slot_told};
ghost use Rattle.durable_device.specs.Machine.{SpellPrograms, SpellRuns};
ghost use Rattle.durable_device.specs.Spelled.{SpellKept, SpellNoPrograms, SpellNoRuns, SpellNothingKept};

use image_base::SECTIONS;
use kept_device::{
    KeptProgram, KeptRun, SectionFault, program_section, read_program, read_run, run_section,
};
use nvme_entry::PROGRAM_SLOTS;
use runner::KeptDevice;
use std::alloc::{AllocError, Global};
use zone_resources::RUNS;

// One for each slot, and one for each place of a run.
const _: () = prove!(SECTIONS == PROGRAM_SLOTS + RUNS);

/// What the sections of a base spell.
///
/// # Errors
///
/// They spell nothing, or no memory.
pub fn kept_in(alloc: Global, sections: &[Vec<u8>]) -> Result<KeptDevice, SectionFault>
    requires { length sections.now ≡ SECTIONS }
    ensures spelled { IfOk result (SpellKept (bytes_of sections.now)) }
    ensures programs { IfOk result (λ kept. length kept.programs.items ≡ PROGRAM_SLOTS) }
    ensures runs { IfOk result (λ kept. length kept.runs.items ≡ RUNS) }
    ensures damaged { IsErrOf result SectionFault.Damaged → SpellNothingKept (bytes_of sections.now) }
{
    let programs = programs_in(alloc, &sections[..PROGRAM_SLOTS])?;
    let runs = runs_in(alloc, &sections[PROGRAM_SLOTS..])?;
    Ok(KeptDevice { programs, runs })
}

/// What the sections of slots spell.
///
/// # Errors
///
/// One of them spells nothing, or no memory.
fn programs_in(
    alloc: Global,
    sections: &[Vec<u8>],
) -> Result<Vec<Option<KeptProgram>>, SectionFault>
    ensures spelled { IfOk result (λ programs. SpellPrograms (bytes_of sections.now) (map slot_told programs.items)) }
    ensures damaged { IsErrOf result SectionFault.Damaged → SpellNoPrograms (bytes_of sections.now) }
{
    let mut programs = Vec::new(alloc);
    for section in sections {
        programs
            .push(read_program(alloc, section)?)
            .map_err(AllocError::from)?;
    }
    Ok(programs)
}

/// What the sections of places spell.
///
/// # Errors
///
/// One of them spells nothing, or no memory.
fn runs_in(alloc: Global, sections: &[Vec<u8>]) -> Result<Vec<Option<KeptRun>>, SectionFault>
    ensures spelled { IfOk result (λ runs. SpellRuns (bytes_of sections.now) (map place_told runs.items)) }
    ensures damaged { IsErrOf result SectionFault.Damaged → SpellNoRuns (bytes_of sections.now) }
{
    let mut runs = Vec::new(alloc);
    for section in sections {
        runs.push(read_run(alloc, section)?)
            .map_err(AllocError::from)?;
    }
    Ok(runs)
}

/// The sections of what is kept of a device.
///
/// # Errors
///
/// No memory.
pub fn sections_of(alloc: Global, kept: &KeptDevice) -> Result<Vec<Vec<u8>>, AllocError>
    requires programs { length kept.now.programs.items ≡ PROGRAM_SLOTS }
    requires runs { length kept.now.runs.items ≡ RUNS }
    ensures number { IfOk result (λ sections. length sections.items ≡ SECTIONS) }
    ensures spelled { IfOk result (λ sections. SpellKept (bytes_of sections.items) kept.now) }
{
    let mut sections = program_sections(alloc, &kept.programs)?;
    sections.append(&mut run_sections(alloc, &kept.runs)?)?;
    Ok(sections)
}

/// The sections of slots.
///
/// # Errors
///
/// No memory.
fn program_sections(
    alloc: Global,
    programs: &[Option<KeptProgram>],
) -> Result<Vec<Vec<u8>>, AllocError>
    ensures { IfOk result (λ sections. SpellPrograms (bytes_of sections.items) (map slot_told programs.now)) }
{
    let mut sections = Vec::new(alloc);
    for kept in programs {
        sections.push(program_section(alloc, kept)?)?;
    }
    Ok(sections)
}

/// The sections of places.
///
/// # Errors
///
/// No memory.
fn run_sections(alloc: Global, runs: &[Option<KeptRun>]) -> Result<Vec<Vec<u8>>, AllocError>
    ensures { IfOk result (λ sections. SpellRuns (bytes_of sections.items) (map place_told runs.now)) }
{
    let mut sections = Vec::new(alloc);
    for kept in runs {
        sections.push(run_section(alloc, kept)?)?;
    }
    Ok(sections)
}
