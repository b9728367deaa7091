//! Rows as text: lines with commas, JSON, or the bytes as they are.

ghost use Rattle.std.specs.Prelude.{◌≡◌, ◌++◌, [], codes, OnOk};
ghost use Rattle.std.specs.Fmt.{signed_decimal};
ghost use Rattle.command_query.specs.Cells.{AddsNumber};

use crate::cells::Cell;
use command_files::Shown;
use std::alloc::{AllocError, Global};
use std::io::{self, Write};

/// The form in which rows are printed.
#[derive(Clone, Copy, Debug, PartialEq, Eq)]
pub(crate) enum Form {
    /// A line with the names of the columns, and one for each row, with commas.
    Lines,
    /// A JSON list of objects.
    Json,
    /// The bytes of each record, one after another.
    Raw,
}

/// What is to be printed of an answer, in room that is used again.
#[derive(Drop)]
pub(crate) struct Printed {
    /// The form.
    form: Form,
    /// Is there a row before the next?
    has_rows: bool,
    /// What is to be printed next.
    bytes: Vec<u8>,
}

impl Printed {
    /// Nothing yet, in a form.
    pub(crate) fn new(alloc: Global, form: Form) -> Printed {
        Printed {
            form,
            has_rows: false,
            bytes: Vec::new(alloc),
        }
    }

    /// Adds the name of a column, where the form has a line of them.
    pub(crate) fn push_name(&mut self, index: usize, name: &str) -> Result<(), AllocError> {
        if self.form != Form::Lines {
            return Ok(());
        }
        push_comma(index, &mut self.bytes)?;
        push_quoted(name, &mut self.bytes)
    }

    /// Adds what comes between the names and the first row.
    pub(crate) fn end_names(&mut self) -> Result<(), AllocError> {
        match self.form {
            Form::Lines => push("\n", &mut self.bytes),
            Form::Json => push("[", &mut self.bytes),
            Form::Raw => Ok(()),
        }
    }

    /// Adds what comes before a row.
    pub(crate) fn begin_row(&mut self) -> Result<(), AllocError> {
        let first = !self.has_rows;
        self.has_rows = true;
        match self.form {
            Form::Json if first => push("{", &mut self.bytes),
            Form::Json => push(",\n{", &mut self.bytes),
            Form::Lines | Form::Raw => Ok(()),
        }
    }

    /// Adds what a row has in the column with this name.
    pub(crate) fn push_cell(
        &mut self,
        index: usize,
        name: &str,
        cell: Cell<'_>,
    ) -> Result<(), AllocError> {
        match self.form {
            Form::Lines => {
                push_comma(index, &mut self.bytes)?;
                push_cell(cell, &mut self.bytes)
            }
            Form::Json => {
                push_comma(index, &mut self.bytes)?;
                push_string(name, &mut self.bytes)?;
                push(":", &mut self.bytes)?;
                push_value(cell, &mut self.bytes)
            }
            Form::Raw => Ok(()),
        }
    }

    /// Adds what comes after a row: of the form of bytes, these of its record.
    pub(crate) fn end_row(&mut self, record: &[u8]) -> Result<(), AllocError> {
        match self.form {
            Form::Lines => push("\n", &mut self.bytes),
            Form::Json => push("}", &mut self.bytes),
            Form::Raw => self.bytes.extend_from_slice(record),
        }
    }

    /// Adds what comes after the last row.
    pub(crate) fn end(&mut self) -> Result<(), AllocError> {
        match self.form {
            Form::Json => push("]\n", &mut self.bytes),
            Form::Lines | Form::Raw => Ok(()),
        }
    }

    /// Prints what was added since it was printed last.
    pub(crate) fn print<O: Write>(&mut self, out: &mut O) -> io::Result<()> {
        out.write_all(self.bytes.as_slice())?;
        self.bytes.clear();
        Ok(())
    }
}

/// Adds a text.
fn push(text: &str, out: &mut Vec<u8>) -> Result<(), AllocError>
    ensures { OnOk result (out.new.items ≡ out.old.items ++ text.now) }
{
    out.extend_from_slice(text.as_bytes())
}

/// Adds what separates a column from the one before it.
fn push_comma(index: usize, out: &mut Vec<u8>) -> Result<(), AllocError> {
    if index > 0 {
        return push(",", out);
    }
    Ok(())
}

/// Adds a cell of a line.
fn push_cell(cell: Cell<'_>, out: &mut Vec<u8>) -> Result<(), AllocError>
    ensures { OnOk result (AddsNumber [] cell.entry out.old.items out.new.items) }
{
    match cell {
        Cell::Number(number) => push_number(number, out),
        Cell::Text(text) => push_quoted(text, out),
        Cell::Bytes(bytes) => push_digits(bytes, out),
        Cell::Nothing => push("", out),
    }
}

/// Adds a cell as a JSON value.
fn push_value(cell: Cell<'_>, out: &mut Vec<u8>) -> Result<(), AllocError>
    ensures { OnOk result (AddsNumber (codes "null") cell.entry out.old.items out.new.items) }
{
    match cell {
        Cell::Number(number) => push_number(number, out),
        Cell::Text(text) => push_string(text, out),
        Cell::Bytes(bytes) => {
            push("\"", out)?;
            push_digits(bytes, out)?;
            push("\"", out)
        }
        Cell::Nothing => push("null", out),
    }
}

/// Adds a number in decimal digits, with a `-` before those of a number below zero.
fn push_number(number: i128, out: &mut Vec<u8>) -> Result<(), AllocError>
    ensures { OnOk result (out.new.items ≡ out.old.items ++ signed_decimal number) }
{
    stored(write!(out, "{number}"))
}

/// Adds bytes in hexadecimal.
fn push_digits(bytes: &[u8], out: &mut Vec<u8>) -> Result<(), AllocError> {
    push("0x", out)?;
    for byte in bytes {
        let byte = *byte;
        stored(write!(out, "{byte:02x}"))?;
    }
    Ok(())
}

/// Adds a text of a line: between quotes, unless it has nothing but letters, digits and marks of which none has a meaning there.
fn push_quoted(text: &str, out: &mut Vec<u8>) -> Result<(), AllocError> {
    if is_plain(text) {
        return push_shown(text, out);
    }
    push("\"", out)?;
    for (number, piece) in text.split('"').enumerate() {
        if number > 0 {
            push("\"\"", out)?;
        }
        push_shown(piece, out)?;
    }
    push("\"", out)
}

/// Adds a text of which a terminal obeys nothing.
fn push_shown(text: &str, out: &mut Vec<u8>) -> Result<(), AllocError> {
    let shown = Shown(text);
    stored(write!(out, "{shown}"))
}

/// Does a text stand in a line without quotes? Its control characters are shown by plain ones.
fn is_plain(text: &str) -> bool {
    let bytes = text.as_bytes();
    !bytes.is_empty() && bytes.iter().all(|byte| is_plain_byte(*byte))
}

/// Does a byte of a text stand in a line without quotes?
fn is_plain_byte(byte: u8) -> bool {
    match byte {
        b'"' | b'\'' | b',' => false,
        _ => byte.is_ascii_graphic() || byte.is_ascii_control(),
    }
}

/// Adds a text as a JSON string.
fn push_string(text: &str, out: &mut Vec<u8>) -> Result<(), AllocError> {
    push("\"", out)?;
    for character in text.chars() {
        push_character(character, out)?;
    }
    push("\"", out)
}

/// Adds a character of a JSON string.
fn push_character(character: char, out: &mut Vec<u8>) -> Result<(), AllocError> {
    let code = u32::from(character);
    match character {
        '"' => push("\\\"", out),
        '\\' => push("\\\\", out),
        _ if character.is_control() => stored(write!(out, "\\u{code:04x}")),
        _ => stored(write!(out, "{character}")),
    }
}

/// What writing to memory comes to.
fn stored(written: io::Result<()>) -> Result<(), AllocError>
    ensures { OnOk result (written ≡ Ok tt) }
{
    match written {
        Ok(()) => Ok(()),
        Err(_) => Err(AllocError),
    }
}
