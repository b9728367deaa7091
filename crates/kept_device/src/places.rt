//! The section of a place for a run.

ghost use Rattle.std.specs.Prelude.{◌≡◌, ◌≤◌, ◌+◌, Some, None, IfOk, OnOk, IsErrOf, IfSome, length, take, drop};
ghost use Rattle.program_interface.specs.declared.area.TheConstants.{SCRATCH_BYTES};
ghost use Rattle.nvme_entry.specs.Entry.{decoded};
ghost use Rattle.kept_device.specs.Kept.{place_told, run_told};
ghost use Rattle.kept_device.specs.Sections.{IsRunSection, IsSpellableRun, place_in, run_asked, run_by};

use crate::fault::SectionFault;
use crate::kept::KeptRun;
use crate::numbers::{add_number, add_scratch, add_short};
use byteorder::{ByteOrder, LittleEndian};
use nvme_entry::{Command, Entry, RunCommand};
use program_interface::SCRATCH_BYTES;
use std::alloc::{AllocError, Global};

/// Bytes of an entry (NVMe Base 2.0, 3.3.3.1).
const ENTRY_BYTES: usize = 64;

/// Bytes of a section before the scratch bytes.
const HEADER_BYTES: usize = 78;

/// Where the entry stands.
const ENTRY_AT: usize = 2;

/// What a section spells of a place.
///
/// # Errors
///
/// It spells nothing, or no memory.
pub fn read_run(alloc: Global, section: &[u8]) -> Result<Option<KeptRun>, SectionFault>
    ensures read { IfOk result (λ found. place_in section.now ≡ Some (place_told found)) }
    ensures damaged { IsErrOf result SectionFault.Damaged → place_in section.now ≡ None }
{
    if section.is_empty() {
        return Ok(None);
    }
    if section.len() < HEADER_BYTES + SCRATCH_BYTES {
        return Err(SectionFault::Damaged);
    }
    let entry = entry_in(section);
    let Some(command) = run_asked(&entry) else {
        return Err(SectionFault::Damaged);
    };
    let pending = pending_in(alloc, section)?;
    Ok(Some(run_in(section, &entry, command, pending)))
}

/// The run of a section, of whose entry this is asked, with these bytes of the block that isn't appended yet.
fn run_in(
    section: &[u8],
    entry: &[u8; ENTRY_BYTES],
    command: RunCommand,
    pending: Vec<u8>,
) -> KeptRun
    requires long { HEADER_BYTES + SCRATCH_BYTES ≤ length section.now }
    requires pending { pending.items ≡ drop (HEADER_BYTES + SCRATCH_BYTES) section.now }
    ensures { run_told result ≡ run_by section.now entry.now command }
{
    KeptRun {
        queue: LittleEndian::read_u16(section),
        cid: Entry::cid(entry),
        command,
        index: LittleEndian::read_u32(&section[66..]),
        scratch: scratch_in(section),
        pending,
        frames: LittleEndian::read_u32(&section[70..]),
        appended: LittleEndian::read_u32(&section[74..]),
    }
}

/// The entry in a section.
fn entry_in(section: &[u8]) -> [u8; ENTRY_BYTES]
    requires { HEADER_BYTES ≤ length section.now }
    ensures { result ≡ take 64 (drop 2 section.now) }
{
    let mut entry = [0; ENTRY_BYTES];
    entry.copy_from_slice(&section[ENTRY_AT..ENTRY_AT + ENTRY_BYTES]);
    entry
}

/// The scratch bytes in a section.
fn scratch_in(section: &[u8]) -> [u8; SCRATCH_BYTES]
    requires { HEADER_BYTES + SCRATCH_BYTES ≤ length section.now }
    ensures { result ≡ take SCRATCH_BYTES (drop HEADER_BYTES section.now) }
{
    let mut scratch = [0; SCRATCH_BYTES];
    scratch.copy_from_slice(&section[HEADER_BYTES..HEADER_BYTES + SCRATCH_BYTES]);
    scratch
}

/// The bytes in a section of the block that isn't appended yet.
fn pending_in(alloc: Global, section: &[u8]) -> Result<Vec<u8>, AllocError>
    requires { HEADER_BYTES + SCRATCH_BYTES ≤ length section.now }
    ensures { IfOk result (λ pending. pending.items ≡ drop (HEADER_BYTES + SCRATCH_BYTES) section.now) }
{
    let (_, pending) = section.split_at(HEADER_BYTES + SCRATCH_BYTES);
    Vec::from_slice(alloc, pending)
}

/// The Run that an entry asks for; `None` where it asks for something else.
fn run_asked(entry: &[u8; ENTRY_BYTES]) -> Option<RunCommand>
    ensures { result ≡ run_asked (decoded entry.now) }
{
    match Entry::decode(entry) {
        Ok(Command::Run(command)) => Some(command),
        Ok(Command::Standard(_)) => None,
        Ok(Command::Load(_)) => None,
        Ok(Command::Result(_)) => None,
        Err(_) => None,
    }
}

/// The section of a place.
///
/// # Errors
///
/// No memory.
#[tactic(auto, using(crate::proofs::Sections::runs_read_back))]
pub fn run_section(alloc: Global, kept: &Option<KeptRun>) -> Result<Vec<u8>, AllocError>
    ensures spelled { IfSome kept.now (λ run. IfOk result (λ section. IsRunSection section.items (run_told run))) }
    ensures read { IfOk result (λ section. place_in section.items ≡ Some (place_told kept.now)) }
{
    match kept {
        Some(kept) => section_of(alloc, kept),
        None => Ok(Vec::new(alloc)),
    }
}

/// The section of a run.
fn section_of(alloc: Global, kept: &KeptRun) -> Result<Vec<u8>, AllocError>
    ensures spelled { IfOk result (λ section. IsRunSection section.items (run_told kept.now)) }
    ensures spellable { OnOk result (IsSpellableRun (run_told kept.now)) }
{
    let entry = Entry::encode(Command::Run(kept.command), kept.cid);
    let mut section = Vec::new(alloc);
    add_short(&mut section, kept.queue)?;
    section.extend_from_slice(&entry)?;
    add_number(&mut section, kept.index)?;
    add_number(&mut section, kept.frames)?;
    add_number(&mut section, kept.appended)?;
    add_scratch(&mut section, &kept.scratch)?;
    section.extend_from_slice(kept.pending.as_slice())?;
    Ok(section)
}
