//! Which line each instruction was made of.

ghost use Rattle.std.specs.Prelude.{◌<◌, IfSome};
ghost use Rattle.ebpf_object.specs.Objects.{section_count};

use crate::cursor::Cursor;
use crate::file_names::{Texts, file_name};
use crate::machine::{Effect, Machine};
use crate::unit::{Unit, unit_at};
use ebpf_object::Object;
use std::alloc::{AllocError, Global};

/// Instructions from one on, and the line that they were made of.
#[derive(Clone, Copy, Debug, PartialEq, Eq)]
pub struct Row {
    /// The section of the first instruction.
    section: usize,
    /// Its first byte there.
    byte: u64,
    /// The first byte of the table that tells of it.
    unit: usize,
    /// The number of the file that it was made of.
    file: u64,
    /// The line of that file, from 1 on; 0 where it was made of none.
    pub line: u64,
    /// Does the row stand behind the last instruction of several?
    is_end: bool,
}

impl Row {
    /// Do both rows tell of the same file?
    pub fn is_of_file_of(&self, other: &Row) -> bool {
        self.unit == other.unit && self.file == other.file
    }
}

/// The lines of an object.
#[derive(Drop)]
pub struct Lines<'a> {
    texts: Texts<'a>,
    rows: Vec<Row>,
}

/// The bit of a section's attributes that says that its bytes are compressed (`SHF_COMPRESSED`).
const COMPRESSED: usize = 0x800;

/// The number of the section with this name.
fn section_with(object: &Object<'_>, name: &[u8]) -> Option<usize>
    ensures { IfSome result (λ number. number < section_count object.now.bytes.now) }
{
    for number in 0..object.section_count() {
        if object.section_name(number) == name {
            return Some(number);
        }
    }
    None
}

/// The bytes of the section with this name; none, where there is no such, or its bytes are compressed.
fn contents_of<'a>(object: &Object<'a>, name: &[u8]) -> &'a [u8] {
    match section_with(object, name) {
        Some(number) if object.section(number).flags & COMPRESSED == 0 => object.contents(number),
        _ => &[],
    }
}

/// Adds a row of what the machine's registers have, where the instruction has a section.
fn push_row(
    rows: &mut Vec<Row>,
    machine: Machine,
    unit: usize,
    is_end: bool,
) -> Result<(), AllocError> {
    let Some(section) = machine.section else {
        return Ok(());
    };
    rows.extend_from_slice(&[Row {
        section,
        byte: machine.byte,
        unit,
        file: machine.file,
        line: machine.line,
        is_end,
    }])
}

/// Adds the rows of a unit, up to where it is damaged; whether it isn't.
fn push_unit(
    rows: &mut Vec<Row>,
    object: &Object<'_>,
    table: usize,
    bytes: &[u8],
    begin: usize,
    unit: &Unit,
) -> Result<bool, AllocError> {
    let mut cursor = Cursor {
        bytes: bytes.split_at(unit.end.min(bytes.len())).0,
        at: unit.program,
    };
    let mut machine = Machine::new();
    for _ in unit.program..unit.end {
        if cursor.at >= unit.end {
            break;
        }
        match machine.step(object, table, unit, &mut cursor) {
            None => return Ok(false),
            Some(Effect::Nothing) => {}
            Some(Effect::Row) => push_row(rows, machine, begin, false)?,
            Some(Effect::End) => {
                push_row(rows, machine, begin, true)?;
                machine = Machine::new();
            }
        }
    }
    Ok(true)
}

/// Adds the rows of all units, up to where they are damaged; whether they aren't.
fn push_units(
    rows: &mut Vec<Row>,
    object: &Object<'_>,
    table: usize,
    bytes: &[u8],
) -> Result<bool, AllocError> {
    let mut cursor = Cursor { bytes, at: 0 };
    for _ in 0..bytes.len() {
        let begin = cursor.at;
        if begin >= bytes.len() {
            break;
        }
        let Some(unit) = unit_at(&mut cursor) else {
            return Ok(false);
        };
        if !push_unit(rows, object, table, bytes, begin, &unit)? {
            return Ok(false);
        }
    }
    Ok(true)
}

impl<'a> Lines<'a> {
    /// The lines that an object tells; none, where what tells them is damaged.
    ///
    /// # Errors
    ///
    /// Want of memory.
    pub fn read(alloc: Global, object: &Object<'a>) -> Result<Lines<'a>, AllocError> {
        let texts = Texts {
            table: contents_of(object, b".debug_line"),
            line_texts: contents_of(object, b".debug_line_str"),
            texts: contents_of(object, b".debug_str"),
        };
        let mut rows = Vec::new(alloc);
        if let Some(table) = section_with(object, b".debug_line") {
            if !push_units(&mut rows, object, table, texts.table)? {
                rows = Vec::new(alloc);
            }
        }
        Ok(Lines { texts, rows })
    }

    /// Has it no line of any instruction?
    pub fn is_empty(&self) -> bool {
        self.rows.is_empty()
    }

    /// The line that the instruction was made of that begins at this byte of a section; where it was made of none, that of the last one
    /// before that was made of any.
    pub fn row(&self, section: usize, byte: usize) -> Option<Row> {
        let mut told = None;
        for (number, row) in self.rows.iter().enumerate() {
            if row.is_end || row.section != section {
                told = None;
            } else {
                if row.line != 0 {
                    told = Some(*row);
                }
                if row.byte <= byte as u64 && self.is_before_next(number, byte) {
                    return told;
                }
            }
        }
        None
    }

    /// The first line that is told of the instruction that begins at this byte of a section: of a function's first one that of the
    /// function itself, also where what it was made of stands elsewhere.
    pub fn first_row(&self, section: usize, byte: usize) -> Option<Row> {
        for row in self.rows.iter() {
            if row.section == section && row.byte == byte as u64 && row.line != 0 && !row.is_end {
                return Some(*row);
            }
        }
        None
    }

    /// Does the row behind one tell of instructions behind this byte?
    fn is_before_next(&self, number: usize, byte: usize) -> bool {
        match self.rows.get(number.saturating_add(1)) {
            Some(next) => (byte as u64) < next.byte,
            None => false,
        }
    }

    /// The name of the file that a row tells of, as it was compiled.
    pub fn file_name(&self, row: &Row) -> Option<&'a [u8]> {
        let mut cursor = Cursor {
            bytes: self.texts.table,
            at: row.unit,
        };
        let unit = unit_at(&mut cursor)?;
        file_name(self.texts, &unit, row.file)
    }
}
