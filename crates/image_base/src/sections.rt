//! The sections of a base.

ghost use Rattle.std.specs.Prelude.{◌≡◌, ◌++◌, IfOk, MatchOption, OnOk, length};
ghost use Rattle.durable_machine.specs.Events.{AreSized, spelled};
ghost use Rattle.durable_machine.specs.Batches.{bytes_of};
ghost use Rattle.image_base.specs.Base.{BeginNoSections, BeginSections};

use durable_machine::{add_event, first_event};
use std::alloc::{AllocError, Global};

/// How many sections a base has (profile): one for each slot of a device, and one for each place for a run.
pub const SECTIONS: usize = 16;

/// The sections at the front of bytes, and how many bytes stand behind them; `None` where there are none.
///
/// # Errors
///
/// No memory.
pub(crate) fn sections_in(
    alloc: Global,
    bytes: &[u8],
) -> Result<Option<(Vec<Vec<u8>>, usize)>, AllocError>
    ensures { IfOk result (λ found. MatchOption found
        (BeginNoSections bytes.now) (λ parts. BeginSections (bytes_of parts.0.items) parts.1 bytes.now)) }
{
    let mut sections = Vec::new(alloc);
    let mut rest = bytes;
    while sections.len() < SECTIONS {
        let Some((section, behind)) = first_event(rest) else {
            return Ok(None);
        };
        sections.push(Vec::from_slice(alloc, section)?)?;
        rest = behind;
    }
    Ok(Some((sections, rest.len())))
}

/// Adds sections to a base.
///
/// # Errors
///
/// No memory.
pub(crate) fn add_sections(base: &mut Vec<u8>, sections: &[Vec<u8>]) -> Result<(), AllocError>
    ensures added { OnOk result (base.new.items ≡ base.old.items ++ spelled (bytes_of sections.now)) }
    ensures sized { OnOk result (AreSized (bytes_of sections.now)) }
{
    for section in sections {
        add_event(base, section.as_slice())?;
    }
    Ok(())
}
