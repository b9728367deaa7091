//! What the user is told of words that are wrong, and of a line of them.

use clap::Command;
use clap::error::ErrorKind;
use command_files::{Conclusion, Failure, conclude};
use std::alloc::{AllocError, Global};

/// The failure of words that are wrong in this way, as the text says.
pub(crate) fn wrong_words<'a>(line: &mut Command<'a>, kind: ErrorKind, text: &str) -> Failure<'a> {
    match line.error(kind, text) {
        Ok(error) => Failure::from(error),
        Err(error) => Failure::from(error),
    }
}

/// The failure of a line of a file with this name, whose words have one of their own: the line's number, and the first lines of
/// what is told of the words.
pub(crate) fn wrong_line<'a>(
    alloc: Global,
    path: &'a str,
    line: usize,
    failure: Failure<'_>,
) -> Failure<'a> {
    if let Failure::NoMemory = failure {
        return Failure::NoMemory;
    }
    match told_of(alloc, failure) {
        Ok((status, told)) => Failure::WordsRefused {
            path,
            line,
            status,
            told,
        },
        Err(_) => Failure::NoMemory,
    }
}

/// The exit status of a failure, and what is told of it.
fn told_of(alloc: Global, failure: Failure<'_>) -> Result<(u8, String), AllocError> {
    let mut told = Vec::new(alloc);
    let Conclusion {
        status,
        told: written,
    } = conclude(Err(failure), &mut told);
    match written {
        Ok(()) => {}
        Err(_) => return Err(AllocError),
    }
    match String::from_utf8(told) {
        Ok(text) => Ok((status, String::from_str(alloc, first_lines(text.as_str()))?)),
        Err(_) => Ok((status, String::new(alloc))),
    }
}

/// What stands before the first empty line of a text, without the word that a command line's begins with.
fn first_lines(text: &str) -> &str {
    let text = text.strip_prefix("error: ").unwrap_or(text);
    match text.split_once("\n\n") {
        Some((front, _)) => front,
        None => text.strip_suffix("\n").unwrap_or(text),
    }
}
