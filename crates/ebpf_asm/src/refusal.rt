//! What a user is told of text that can't be assembled.

ghost use Rattle.ebpf_asm.specs.Refusal.{IsRefusalOf};

use crate::fault::Fault;
use text_lines::{Excerpt, line_behind, trim};
use thiserror::Error;

/// A fault of a text, and the line that has it.
#[derive(Clone, Copy, Debug, PartialEq, Eq, Error)]
#[error("line {}: {text}: {}", .fault.line, .fault.kind)]
pub struct AssemblyRefusal {
    /// The line's number, and what is wrong with it.
    pub fault: Fault,
    /// An excerpt of the line, without the blanks at its ends.
    pub text: Excerpt,
}

impl AssemblyRefusal {
    /// The refusal that tells this fault of a text, with an excerpt of the line that has it, without the blanks at its
    /// ends.
    pub fn of(fault: Fault, text: &[u8]) -> AssemblyRefusal
        ensures { IsRefusalOf fault text.now result }
    {
        let line = line_behind(text, fault.line.saturating_sub(1)).unwrap_or(&[]);
        AssemblyRefusal {
            fault,
            text: Excerpt::of(trim(line)),
        }
    }
}
