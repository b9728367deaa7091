//! Where in the source an instruction stands, as a user is told it.

use command_files::Shown;
use ebpf_gather::Origin;
use ebpf_lines::{Lines, Row};
use ebpf_object::{Function, Object};
use std::alloc::{AllocError, Global};
use std::fmt;
use std::str::from_utf8;

/// An object, and the lines that its instructions were made of.
#[derive(Drop)]
pub(crate) struct Source<'a, 'b> {
    pub object: &'b Object<'a>,
    pub lines: Lines<'a>,
}

/// What a slot of a program was made of, of those of the object's functions.
pub(crate) fn origin_of_slot(origins: &[Option<Origin>], slot: usize) -> Option<Origin> {
    *origins.get(slot)?
}

/// A text of an object as one that can be shown.
fn text(bytes: &[u8]) -> &str {
    match from_utf8(bytes) {
        Ok(text) => text,
        Err(_) => "?",
    }
}

/// The name of a symbol.
pub(crate) fn symbol_name<'a>(object: &Object<'a>, symbol: usize) -> &'a str {
    if symbol >= object.symbol_count() {
        return "?";
    }
    text(object.symbol_name(symbol))
}

/// A line of a file, where it is told, and a slot of a function.
#[derive(Clone, Copy)]
pub(crate) struct Place<'a> {
    line: Option<(&'a str, u64)>,
    function: &'a str,
    slot: usize,
}

impl fmt::Display for Place<'_> {
    fn fmt<W: fmt::Write>(&self, f: &mut fmt::Formatter<W>) -> fmt::Result {
        let function = Shown(self.function);
        match self.line {
            Some((file, line)) => {
                let file = Shown(file);
                write!(f, "{file}, line {line}, in {function}")
            }
            None => {
                let slot = self.slot;
                write!(f, "{function}, slot {slot}")
            }
        }
    }
}

impl<'a> Source<'a, '_> {
    /// The function that a symbol stands for.
    fn function(&self, symbol: usize) -> Option<Function> {
        if symbol < self.object.symbol_count() {
            self.object.function(symbol)
        } else {
            None
        }
    }

    /// The line of a slot.
    fn row(&self, origin: Origin) -> Option<Row> {
        let function = self.function(origin.symbol)?;
        let byte = function
            .offset
            .saturating_add(origin.slot.saturating_mul(8));
        self.lines.row(function.section, byte)
    }

    /// Where a slot of a function stands.
    pub fn place(&self, origin: Origin) -> Place<'a> {
        let line = match self.row(origin) {
            Some(row) => match self.lines.file_name(&row) {
                Some(name) => Some((text(name), row.line)),
                None => None,
            },
            None => None,
        };
        Place {
            line,
            function: symbol_name(self.object, origin.symbol),
            slot: origin.slot,
        }
    }

    /// The file and the line of a slot of the object's, with a colon between, where they are told.
    pub fn line_of(&self, origin: Option<Origin>) -> Option<(&'a str, u64)> {
        self.place(origin?).line
    }

    /// The same, where it is a slot of the object's.
    pub fn place_of(&self, origin: Option<Origin>) -> Option<Place<'a>> {
        match origin {
            Some(origin) => Some(self.place(origin)),
            None => None,
        }
    }

    /// What is said behind a refusal, where no line could be told.
    pub fn hint(&self) -> &'static str {
        if self.lines.is_empty() {
            "; behind `clang -g` the line is told"
        } else {
            ""
        }
    }
}

/// An object with its lines.
pub(crate) fn source_of<'a, 'b>(
    alloc: Global,
    object: &'b Object<'a>,
) -> Result<Source<'a, 'b>, AllocError> {
    Ok(Source {
        object,
        lines: Lines::read(alloc, object)?,
    })
}
