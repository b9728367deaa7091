//! The text of help, laid out for a terminal.

use std::alloc::{AllocError, Global};

/// How many columns a line has.
const COLUMNS: usize = 80;

/// How far to the right the text of a list may begin, for its further lines to begin there too.
const MOST_INDENT: usize = 40;

/// What the further lines of an example stand to the right of its first.
const EXAMPLE_INDENT: usize = 4;

/// How a line goes on in a next one.
#[derive(Clone, Copy)]
struct Fold {
    /// The column at which the next line begins.
    indent: usize,
    /// Is it a command, which a shell reads on where a line ends with a backslash?
    command: bool,
}

/// A text in lines of at most 80 columns, as far as its words allow it. A longer line is folded between two words. What follows the word
/// of a list begins where that line's text does; what follows in a command is set to the right.
///
/// # Errors
///
/// Want of memory.
pub fn laid_out(alloc: Global, text: &str) -> Result<String, AllocError> {
    let mut laid = String::new(alloc);
    for line in text.lines() {
        if line.len() <= COLUMNS {
            laid.push_str(line)?;
        } else {
            push_folded(line, fold_of(line), &mut laid)?;
        }
        laid.push_str("\n")?;
    }
    Ok(laid)
}

/// Adds a line that is longer.
fn push_folded(line: &str, fold: Fold, laid: &mut String) -> Result<(), AllocError> {
    let (columns, end) = if fold.command {
        (COLUMNS - 2, " \\\n")
    } else {
        (COLUMNS, "\n")
    };
    // How many columns are taken.
    let mut column = 0;
    for (number, word) in line.split(' ').enumerate() {
        let joined = end_of(column, word).saturating_add(1);
        if number == 0 {
            column = word.len();
        } else if joined <= columns || word.is_empty() {
            laid.push_str(" ")?;
            column = joined;
        } else {
            laid.push_str(end)?;
            push_spaces(fold.indent, laid)?;
            column = end_of(fold.indent, word);
        }
        laid.push_str(word)?;
    }
    Ok(())
}

/// The column behind a word that begins at this one.
fn end_of(column: usize, word: &str) -> usize {
    column.saturating_add(word.len())
}

/// How a line goes on.
fn fold_of(line: &str) -> Fold {
    let mut first = None;
    let mut gap = false;
    let mut column: usize = 0;
    for word in line.split(' ') {
        if word.is_empty() {
            gap = first.is_some();
        } else if first.is_none() {
            if word == "zscli" {
                let indent = column.saturating_add(EXAMPLE_INDENT);
                return Fold {
                    indent,
                    command: true,
                };
            }
            first = Some(column);
        } else if gap && column <= MOST_INDENT {
            return Fold {
                indent: column,
                command: false,
            };
        }
        column = end_of(column, word).saturating_add(1);
    }
    let indent = if line.starts_with("Usage: ") {
        "Usage: ".len()
    } else {
        first.unwrap_or(0)
    };
    Fold {
        indent,
        command: false,
    }
}

/// Adds so many spaces.
fn push_spaces(spaces: usize, out: &mut String) -> Result<(), AllocError> {
    for _space in 0..spaces {
        out.push_str(" ")?;
    }
    Ok(())
}
