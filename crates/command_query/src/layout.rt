//! Layouts: files of text that say where the records of a block are, and name what is in them.

ghost use Rattle.std.specs.Prelude.{◌≡◌};

use crate::adding::add;
use crate::columns::{Column, Kind};
use crate::layout_fault::LayoutFault;
use crate::refused::refused;
use command_files::{Failure, Files, MOST_OF_TEXT, Shown, read};
use question_words::{
    FaultKind, Layout, LayoutFault as FieldFault, LineKind, NamedField, read_layout,
};
use record_questions::Field;
use std::alloc::{AllocError, Global};
use std::str;
use text_lines::decimal;

/// Where the records of a block are.
#[derive(Clone, Copy, Debug, PartialEq, Eq)]
pub(crate) struct Shape {
    /// How many bytes of a block come before its first record.
    pub(crate) first: u16,
    /// The number of bytes of each record.
    pub(crate) size: u16,
    /// How many records of a block there are, where that isn't as many as fit.
    pub(crate) count: Option<u16>,
}

/// Where the records of a block are, and what they have.
#[derive(Drop)]
pub(crate) struct RecordLayout {
    /// Where they are.
    pub(crate) shape: Shape,
    /// What they have, in the order of the layout.
    pub(crate) columns: Vec<Column>,
}

impl RecordLayout {
    /// The column with a name.
    pub(crate) fn column(&self, name: &str) -> Option<&Column> {
        for column in &self.columns {
            if column.name.as_str() == name {
                return Some(column);
            }
        }
        None
    }

    /// The names of numbers, by which a condition speaks of them.
    pub(crate) fn names(&self, alloc: Global) -> Result<Layout, AllocError> {
        let mut fields = Vec::new(alloc);
        for column in &self.columns {
            if let Kind::Number(field) = column.kind {
                let name = column.name.as_bytes().to_vec(alloc)?;
                fields.push(NamedField { name, field })?;
            }
        }
        Ok(Layout { fields })
    }
}

/// What is read of a layout so far.
#[derive(Drop)]
struct Begun {
    shape: Option<Shape>,
    columns: Vec<Column>,
}

/// The layout that a file has.
///
/// # Errors
///
/// The file can't be read, or isn't text; its first line that is wrong; or want of memory.
pub(crate) fn load<'a, F: Files>(
    alloc: Global,
    path: &'a str,
    files: &mut F,
) -> Result<RecordLayout, Failure<'a>>
    ensures made { F.made files.new ≡ F.made files.old }
    ensures contents { F.contents files.new ≡ F.contents files.old }
{
    let file = read(path, MOST_OF_TEXT, files)?;
    match str::from_utf8(file.as_slice()) {
        Ok(text) => layout_in(alloc, path, text),
        Err(_) => Err(refused(format!(in alloc; "{}: a layout is text", Shown(path)))),
    }
}

/// The layout that a text is.
fn layout_in<'a>(alloc: Global, path: &'a str, text: &str) -> Result<RecordLayout, Failure<'a>> {
    let mut begun = Begun {
        shape: None,
        columns: Vec::new(alloc),
    };
    for (index, line) in text.lines().enumerate() {
        let words = words_of(alloc, line)?;
        match read_line(alloc, words.as_slice(), &mut begun) {
            Ok(()) => {}
            Err(fault) => return Err(wrong_line(alloc, path, index.saturating_add(1), fault)),
        }
    }
    let Begun { shape, columns } = begun;
    match shape {
        Some(shape) => Ok(RecordLayout { shape, columns }),
        None => Err(wrong_line(alloc, path, 1, LayoutFault::NoRecords)),
    }
}

/// The failure of a line of a layout.
fn wrong_line<'a>(alloc: Global, path: &'a str, line: usize, fault: LayoutFault) -> Failure<'a> {
    if fault == LayoutFault::Memory {
        return Failure::NoMemory;
    }
    match format!(in alloc; "{fault}") {
        Ok(told) => Failure::WordsRefused {
            path,
            line,
            status: 3,
            told,
        },
        Err(_) => Failure::NoMemory,
    }
}

/// The words of a line, up to its comment.
fn words_of(alloc: Global, line: &str) -> Result<Vec<&str>, AllocError> {
    let front = match line.split_once(";") {
        Some((front, _)) => front,
        None => line,
    };
    let mut words = Vec::new(alloc);
    for word in front.split_whitespace() {
        words.push(word)?;
    }
    Ok(words)
}

/// Reads the words of a line, after what is begun.
fn read_line(alloc: Global, words: &[&str], begun: &mut Begun) -> Result<(), LayoutFault> {
    let (first, rest) = match words {
        [first, rest @ ..] => (*first, rest),
        [] => return Ok(()),
    };
    if first == "records" {
        return read_shape(rest, begun);
    }
    let Some(shape) = begun.shape else {
        return Err(LayoutFault::NoRecords);
    };
    let kind = kind_in(alloc, first, rest)?;
    if kind.end() > u32::from(shape.size) {
        return Err(LayoutFault::PassesRecord {
            end: kind.end(),
            size: shape.size,
        });
    }
    if has_column(begun.columns.as_slice(), first) {
        return Err(LayoutFault::Field(LineKind::Twice));
    }
    let name = String::from_str(alloc, first)?;
    add(&mut begun.columns, Column { name, kind })?;
    Ok(())
}

/// Is there a column with this name?
fn has_column(columns: &[Column], name: &str) -> bool {
    columns.iter().any(|column| column.name.as_str() == name)
}

/// Reads where the records are.
fn read_shape(words: &[&str], begun: &mut Begun) -> Result<(), LayoutFault> {
    if begun.shape.is_some() {
        return Err(LayoutFault::RecordsTwice);
    }
    let Some((size, rest)) = first_number(words) else {
        return Err(LayoutFault::Records);
    };
    let (first, rest) = number_after("from", rest)?;
    let (count, rest) = number_after("count", rest)?;
    if !rest.is_empty() {
        return Err(LayoutFault::Records);
    }
    if size == 0 || count == Some(0) {
        return Err(LayoutFault::NoBytes);
    }
    begun.shape = Some(Shape {
        first: first.unwrap_or(0),
        size,
        count,
    });
    Ok(())
}

/// The number that comes first, and the words after it.
fn first_number<'s, 't>(words: &'s [&'t str]) -> Option<(u16, &'s [&'t str])> {
    match words {
        [number, rest @ ..] => match short(number) {
            Some(number) => Some((number, rest)),
            None => None,
        },
        [] => None,
    }
}

/// The number after a word, where that comes first, and the words after them.
fn number_after<'s, 't>(
    key: &str,
    words: &'s [&'t str],
) -> Result<(Option<u16>, &'s [&'t str]), LayoutFault> {
    match words {
        [first, number, rest @ ..] if *first == key => match short(number) {
            Some(number) => Ok((Some(number), rest)),
            None => Err(LayoutFault::Records),
        },
        _ => Ok((None, words)),
    }
}

/// The number that decimal digits write, up to 65535.
fn short(word: &str) -> Option<u16> {
    match decimal(word.as_bytes()) {
        Some(number) if number < 0x1_0000 => Some(number as u16),
        _ => None,
    }
}

/// What a column of this name has, by the words after the name: a type, and @ with an offset, also without a blank between them.
fn kind_in(alloc: Global, name: &str, words: &[&str]) -> Result<Kind, LayoutFault> {
    let (kind, at) = match words {
        [] => return Err(LayoutFault::of(FaultKind::Type)),
        [both] => match both.split_once("@") {
            Some(parts) => parts,
            None => return Err(LayoutFault::of(FaultKind::Offset)),
        },
        [kind, at] => match at.strip_prefix("@") {
            Some(at) => (*kind, at),
            None => return Err(LayoutFault::of(FaultKind::Offset)),
        },
        _ => return Err(LayoutFault::After),
    };
    if let Some(digits) = kind.strip_prefix("text") {
        let size = length(digits)?;
        let offset = field_of(alloc, name, "u8", at)?.offset;
        return Ok(Kind::Text { offset, size });
    }
    if let Some(digits) = kind.strip_prefix("bytes") {
        let size = length(digits)?;
        let offset = field_of(alloc, name, "u8", at)?.offset;
        return Ok(Kind::Bytes { offset, size });
    }
    Ok(Kind::Number(field_of(alloc, name, kind, at)?))
}

/// How many bytes of text there are: one at least.
fn length(digits: &str) -> Result<u16, LayoutFault> {
    match short(digits) {
        Some(size) if size > 0 => Ok(size),
        _ => Err(LayoutFault::Length),
    }
}

/// The field of this name, type and offset, as the layout of a condition has it.
fn field_of(alloc: Global, name: &str, kind: &str, at: &str) -> Result<Field, LayoutFault> {
    let line = format!(in alloc; "{name} {kind}@{at}")?;
    match read_layout(alloc, line.as_bytes()) {
        Ok(layout) => match layout.fields.first() {
            Some(named) => Ok(named.field),
            None => Err(LayoutFault::of(FaultKind::Type)),
        },
        Err(FieldFault::Line { kind, .. }) => Err(LayoutFault::Field(kind)),
        Err(FieldFault::Memory) => Err(LayoutFault::Memory),
    }
}
