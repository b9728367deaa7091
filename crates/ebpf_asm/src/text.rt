//! The lines of a text.

ghost use Rattle.std.specs.Prelude.{◌≡◌, IfOk};
ghost use Rattle.ebpf_asm.specs.Assembly.{lines_of};
ghost use Rattle.ebpf_asm.specs.steps.LineView.{line_views};

use crate::line::{Line, read_line};
use std::alloc::{AllocError, Global};
use text_lines::first_line;

/// The lines of a text, each read apart from the others.
pub(crate) fn read_lines(alloc: Global, text: &[u8]) -> Result<Vec<Line<'_>>, AllocError>
    ensures { IfOk result (λ lines. line_views lines.items ≡ lines_of text.now) }
{
    let mut lines = Vec::new(alloc);
    let mut rest = text;
    while !rest.is_empty() {
        let (line, behind) = first_line(rest);
        lines.extend_from_slice(&[read_line(line)])?;
        rest = behind;
    }
    Ok(lines)
}
