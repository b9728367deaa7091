//! Reading a layout.

ghost use Rattle.std.specs.Prelude.{◌≡◌, ◌+◌, ◌++◌, [], ◌∷◌, slice_index, IfOk};
ghost use Rattle.std.specs.List.{list_all};
ghost use Rattle.std.specs.Result.{result_map_both};
ghost use Rattle.common_definitions.specs.Gives.{Gives};
ghost use Rattle.question_words.specs.Layout.{entries};
ghost use Rattle.question_words.specs.LayoutText.{begins_name, entry_of_line, field_after, is_field_name, is_taken_word, is_name_byte, layout_fault_of, layout_of, with_line};
ghost use Rattle.question_words.specs.declared.layout_text.LayoutFault.TheVariants.{Memory};

use crate::fault::FaultKind;
use crate::field::typed;
use crate::layout::{Layout, NamedField};
use record_questions::Field;
use std::alloc::{AllocError, AllocFailed, Global};
use text_lines::{cut, first_line, trim, without_comment, word};
use thiserror::Error;

/// What is wrong with a line of a layout.
#[derive(Clone, Copy, Debug, PartialEq, Eq, Error)]
pub enum LineKind {
    /// Its first word is no name.
    #[error("a name is expected: letters, digits and _, no digit first, and none of arg, bytes and in")]
    Name,
    /// An earlier line has its name.
    #[error("an earlier line has the same name")]
    Twice,
    /// After the name there is no field.
    #[error("after the name a field is expected, as in u32@8: {0}")]
    Field(FaultKind),
}

/// Why a layout isn't read.
#[derive(Clone, Copy, Debug, PartialEq, Eq, Error)]
pub enum LayoutFault {
    /// Memory ran out.
    #[error("no memory")]
    Memory,
    /// A line isn't of the form.
    #[error("line {number}: {kind}")]
    Line {
        /// The line's number, the first being 1.
        number: usize,
        /// What is wrong with it.
        kind: LineKind,
    },
}

impl From<AllocError> for LayoutFault {
    ghost from_gives = { λ _ e. e ≡ Memory };

    fn from(_error: AllocError) -> LayoutFault {
        LayoutFault::Memory
    }
}

impl<T: Drop> From<AllocFailed<T>> for LayoutFault {
    ghost from_gives = { λ _ e. e ≡ Memory };

    fn from(_error: AllocFailed<T>) -> LayoutFault {
        LayoutFault::Memory
    }
}

/// The layout that a text is: a name and a field on each line that isn't empty.
///
/// # Errors
///
/// The first line that is of another form or has a name a second time; want of memory.
#[tactic(auto, unfolding(crate::specs::LayoutText::layout_of))]
pub fn read_layout(alloc: Global, text: &[u8]) -> Result<Layout, LayoutFault>
    ensures { Gives layout_fault_of entries result (layout_of text.now) }
{
    let mut layout = Layout {
        fields: Vec::new(alloc),
    };
    let mut number = 0;
    let mut rest = text;
    while !rest.is_empty() {
        let (line, after) = first_line(rest);
        number += 1;
        layout = add_line(alloc, layout, number, line)?;
        rest = after;
    }
    Ok(layout)
}

/// A layout with what a line has.
fn add_line(
    alloc: Global,
    layout: Layout,
    number: usize,
    line: &[u8],
) -> Result<Layout, LayoutFault>
    ensures { Gives layout_fault_of entries result (with_line (entries layout) number line.now) }
{
    let text = trim(without_comment(line));
    if text.is_empty() {
        return Ok(layout);
    }
    let (name, field) = match named(text) {
        Ok(named) => named,
        Err(kind) => return Err(LayoutFault::Line { number, kind }),
    };
    if layout.field(name).is_some() {
        let kind = LineKind::Twice;
        return Err(LayoutFault::Line { number, kind });
    }
    Ok(with_field(alloc, layout, name, field)?)
}

/// A layout with one name more.
fn with_field(
    alloc: Global,
    layout: Layout,
    name: &[u8],
    field: Field,
) -> Result<Layout, AllocError>
    ensures { IfOk result (λ after. entries after ≡ entries layout ++ (name.now, field) ∷ []) }
{
    let Layout { mut fields } = layout;
    let name = Vec::from_slice(alloc, name)?;
    fields.push(NamedField { name, field })?;
    Ok(Layout { fields })
}

/// The name and the field of a line.
fn named(text: &[u8]) -> Result<(&[u8], Field), LineKind>
    ensures { result_map_both (λ named. (named.0.now, named.1)) (λ kind. kind) result ≡ entry_of_line text.now }
{
    let (name, rest) = word(text);
    if !is_name(name) {
        return Err(LineKind::Name);
    }
    let field = described(trim(rest))?;
    Ok((name, field))
}

/// The field that is after a name.
fn described(text: &[u8]) -> Result<Field, LineKind>
    ensures { result ≡ field_after text.now }
{
    let Some((kind, at)) = cut(text, b'@') else {
        return Err(LineKind::Field(FaultKind::Type));
    };
    match typed(kind, at) {
        Ok(field) => Ok(field),
        Err(fault) => Err(LineKind::Field(fault)),
    }
}

/// Can a field have this name?
fn is_name(word: &[u8]) -> bool
    ensures { result ≡ is_field_name word.now }
{
    begins(word) && has_name_bytes(word) && !is_taken(word)
}

/// Does a word begin as names do?
fn begins(word: &[u8]) -> bool
    ensures { result ≡ begins_name (slice_index word.now 0) }
{
    match word {
        [first, ..] => first.is_ascii_alphabetic() || *first == b'_',
        [] => false,
    }
}

fn has_name_bytes(word: &[u8]) -> bool
    ensures { result ≡ list_all is_name_byte word.now }
{
    word.iter()
        .all(|byte| byte.is_ascii_alphanumeric() || *byte == b'_')
}

/// Is it a word that questions have of their own?
fn is_taken(word: &[u8]) -> bool
    ensures { result ≡ is_taken_word word.now }
{
    matches!(word, b"arg" | b"bytes" | b"in")
}
