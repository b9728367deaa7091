//! The section of a slot.

ghost use Rattle.std.specs.Prelude.{◌≡◌, Some, None, IfOk, OnOk, IsErrOf};
ghost use Rattle.kept_device.specs.Kept.{program_told, slot_told};
ghost use Rattle.kept_device.specs.Sections.{IsSpellable, program_section, slot_in};

use crate::fault::SectionFault;
use crate::kept::KeptProgram;
use crate::numbers::{add_number, add_scratch};
use byteorder::{ByteOrder, LittleEndian};
use program_interface::SCRATCH_BYTES;
use std::alloc::{AllocError, Global};

/// What a section spells of a slot.
///
/// # Errors
///
/// It spells nothing, or no memory.
pub fn read_program(alloc: Global, section: &[u8]) -> Result<Option<KeptProgram>, SectionFault>
    ensures read { IfOk result (λ found. slot_in section.now ≡ Some (slot_told found)) }
    ensures damaged { IsErrOf result SectionFault.Damaged → slot_in section.now ≡ None }
{
    if section.is_empty() {
        return Ok(None);
    }
    let Some((limit, behind)) = section.split_first_chunk::<4>() else {
        return Err(SectionFault::Damaged);
    };
    let Some((result, bytes)) = behind.split_first_chunk::<SCRATCH_BYTES>() else {
        return Err(SectionFault::Damaged);
    };
    Ok(Some(KeptProgram {
        bytes: Vec::from_slice(alloc, bytes)?,
        limit: LittleEndian::read_u32(limit),
        result: *result,
    }))
}

/// The section of a slot.
///
/// # Errors
///
/// No memory.
pub fn program_section(alloc: Global, kept: &Option<KeptProgram>) -> Result<Vec<u8>, AllocError>
    ensures spelled { IfOk result (λ section. section.items ≡ program_section (slot_told kept.now)) }
    ensures read { IfOk result (λ section. slot_in section.items ≡ Some (slot_told kept.now)) }
{
    match kept {
        Some(kept) => section_of(alloc, kept),
        None => Ok(Vec::new(alloc)),
    }
}

/// The section of a slot with a program.
fn section_of(alloc: Global, kept: &KeptProgram) -> Result<Vec<u8>, AllocError>
    ensures spelled { IfOk result (λ section. section.items ≡ program_section (Some (program_told kept.now))) }
    ensures spellable { OnOk result (IsSpellable (program_told kept.now)) }
{
    let mut section = Vec::new(alloc);
    add_number(&mut section, kept.limit)?;
    add_scratch(&mut section, &kept.result)?;
    section.extend_from_slice(kept.bytes.as_slice())?;
    Ok(section)
}
