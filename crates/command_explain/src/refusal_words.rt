//! Why a program was refused, in words.

use accepted_programs::Reason;
use ebpf_decode::FaultKind;
use std::alloc::AllocError;

/// Adds the number of a reason to refuse a program, as Load's completion has it, with the reason's words.
pub(crate) fn push_reason(number: u32, out: &mut String) -> Result<(), AllocError> {
    write!(out, "reason {number}")?;
    let Ok(number) = u8::try_from(number) else {
        return Ok(());
    };
    if let Some(reason) = Reason::from_number(number) {
        return write!(out, " ({reason})");
    }
    match FaultKind::from_number(number) {
        Some(kind) => write!(out, " ({kind})"),
        None => Ok(()),
    }
}
