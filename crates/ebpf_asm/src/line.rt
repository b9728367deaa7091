//! Lines: an optional label, an optional statement, an optional comment.

ghost use Rattle.std.specs.Prelude.{◌≡◌, option_copied};
ghost use Rattle.text_lines.specs.Cut.{cut_at};
ghost use Rattle.ebpf_asm.specs.Line.{line_of, split_label, labelled as labelled_line, slots_of_instruction};
ghost use Rattle.ebpf_asm.specs.steps.LineView.{line_view};

use crate::fault::FaultKind;
use crate::operand::label;
use crate::statement::read;
use instruction_set::Instruction;
use text_lines::{cut, is_all_ascii, trim, without_comment};

/// What a line has.
#[derive(Clone, Copy)]
pub struct Line<'a> {
    /// The label that it begins with.
    pub label: Option<&'a [u8]>,
    /// Its instruction, or why it has none.
    pub instruction: Result<Option<Instruction>, FaultKind>,
    /// The label that its instruction jumps to, which has the distance 0 then.
    pub target: Option<&'a [u8]>,
}

/// The line with these bytes. One that isn't ASCII is refused for that, in its comment too.
#[tactic(auto, unfolding(crate::specs::Line::line_of))]
pub(crate) fn read_line(bytes: &[u8]) -> Line<'_>
    ensures { line_view result ≡ line_of bytes.now }
{
    if !is_all_ascii(bytes) {
        return Line {
            label: None,
            instruction: Err(FaultKind::NotAscii),
            target: None,
        };
    }
    let (label, rest) = label_and_rest(trim(without_comment(bytes)));
    labelled(label, trim(rest))
}

/// A line with this label, and the statement that a text is, if it has a word.
fn labelled<'a>(label: Option<&'a [u8]>, text: &'a [u8]) -> Line<'a>
    ensures { line_view result ≡ labelled_line (option_copied label.entry) text.now }
{
    if text.is_empty() {
        return Line {
            label,
            instruction: Ok(None),
            target: None,
        };
    }
    match read(text) {
        Ok(statement) => Line {
            label,
            instruction: Ok(Some(statement.instruction)),
            target: statement.target,
        },
        Err(kind) => Line {
            label,
            instruction: Err(kind),
            target: None,
        },
    }
}

/// The label at the start, if a name stands before a colon, and the rest.
fn label_and_rest(text: &[u8]) -> (Option<&[u8]>, &[u8])
    ensures { (option_copied result.0, result.1.now) ≡ split_label text.now (cut_at 58 text.now) }
{
    if let Some((front, rest)) = cut(text, b':') {
        if let Some(name) = label(front) {
            return (Some(name), rest);
        }
    }
    (None, text)
}

/// How many slots an instruction takes, if there is one.
pub(crate) fn slots_of(instruction: &Result<Option<Instruction>, FaultKind>) -> usize
    ensures { result ≡ slots_of_instruction instruction.now }
{
    match instruction {
        Ok(Some(instruction)) => instruction.slots(),
        Ok(None) | Err(_) => 0,
    }
}
