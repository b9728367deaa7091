//! Names of files (DWARF 5, 6.2.4.1; DWARF 4, 6.2.4).

use crate::cursor::{Cursor, text_at};
use crate::unit::Unit;

/// The bytes that names are told in.
#[derive(Clone, Copy)]
pub(crate) struct Texts<'a> {
    /// Those of `.debug_line`.
    pub table: &'a [u8],
    /// Those of `.debug_line_str`.
    pub line_texts: &'a [u8],
    /// Those of `.debug_str`.
    pub texts: &'a [u8],
}

/// What the entries of a table have, in order: pairs of what is told and how.
#[derive(Clone, Copy)]
struct Format<'a> {
    pairs: Cursor<'a>,
    count: u8,
}

/// The content of an entry that is its name (`DW_LNCT_path`).
const PATH: u64 = 1;

/// Reads the format of a table's entries.
fn format_at<'a>(cursor: &mut Cursor<'a>) -> Option<Format<'a>> {
    let count = cursor.byte()?;
    let pairs = *cursor;
    for _ in 0..count {
        let _ = cursor.unsigned()?;
        let _ = cursor.unsigned()?;
    }
    Some(Format { pairs, count })
}

/// Reads what is told in a form (`DW_FORM_`); a text, where it is one.
fn value<'a>(texts: Texts<'a>, cursor: &mut Cursor<'a>, form: u64) -> Option<Option<&'a [u8]>> {
    match form {
        0x08 => return Some(Some(cursor.text()?)),
        0x1f => return Some(Some(text_at(texts.line_texts, cursor.fixed(4)?)?)),
        0x0e => return Some(Some(text_at(texts.texts, cursor.fixed(4)?)?)),
        0x0b => cursor.skip(1)?,
        0x05 => cursor.skip(2)?,
        0x06 => cursor.skip(4)?,
        0x07 => cursor.skip(8)?,
        0x1e => cursor.skip(16)?,
        0x0f => {
            let _ = cursor.unsigned()?;
        }
        0x09 => {
            let length = cursor.unsigned()?;
            cursor.skip(length)?;
        }
        _ => return None,
    }
    Some(None)
}

/// Reads an entry; its name, where it has one.
fn entry<'a>(
    texts: Texts<'a>,
    cursor: &mut Cursor<'a>,
    format: Format<'a>,
) -> Option<Option<&'a [u8]>> {
    let mut pairs = format.pairs;
    let mut name = None;
    for _ in 0..format.count {
        let content = pairs.unsigned()?;
        let form = pairs.unsigned()?;
        let told = value(texts, cursor, form)?;
        if content == PATH {
            name = told;
        }
    }
    Some(name)
}

/// Reads so many entries; the name of the last.
fn last_entry<'a>(
    texts: Texts<'a>,
    cursor: &mut Cursor<'a>,
    format: Format<'a>,
    count: u64,
) -> Option<Option<&'a [u8]>> {
    let mut name = None;
    for _ in 0..count.min(texts.table.len() as u64) {
        name = entry(texts, cursor, format)?;
    }
    Some(name)
}

/// The name of a file of version 5, where numbers count from 0 on.
fn counted_name<'a>(texts: Texts<'a>, mut cursor: Cursor<'a>, file: u64) -> Option<&'a [u8]> {
    let folders = format_at(&mut cursor)?;
    let count = cursor.unsigned()?;
    let _ = last_entry(texts, &mut cursor, folders, count)?;
    let files = format_at(&mut cursor)?;
    let count = cursor.unsigned()?;
    if file >= count {
        return None;
    }
    last_entry(texts, &mut cursor, files, file.saturating_add(1))?
}

/// Leaves texts out up to an empty one.
fn skip_texts(cursor: &mut Cursor<'_>) -> Option<()> {
    for _ in 0..cursor.bytes.len() {
        if cursor.text()?.is_empty() {
            return Some(());
        }
    }
    None
}

/// The name of a file of an earlier version, where numbers count from 1 on, and an empty name ends them.
fn listed_name<'a>(mut cursor: Cursor<'a>, file: u64) -> Option<&'a [u8]> {
    skip_texts(&mut cursor)?;
    for number in 1..cursor.bytes.len() {
        let name = cursor.text()?;
        if name.is_empty() {
            return None;
        }
        let _ = cursor.unsigned()?;
        let _ = cursor.unsigned()?;
        let _ = cursor.unsigned()?;
        if number as u64 == file {
            return Some(name);
        }
    }
    None
}

/// The name of the file with a number of a unit.
pub(crate) fn file_name<'a>(texts: Texts<'a>, unit: &Unit, file: u64) -> Option<&'a [u8]> {
    let cursor = Cursor {
        bytes: texts.table.split_at(unit.end.min(texts.table.len())).0,
        at: unit.tables,
    };
    if unit.version >= 5 {
        counted_name(texts, cursor, file)
    } else {
        listed_name(cursor, file)
    }
}
