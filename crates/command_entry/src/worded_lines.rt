//! Lines of words.

use crate::entry;
use std::alloc::{AllocError, Global};
use std::str;
use text_lines::{first_line, without_comment};

/// A line of a file that has words.
#[derive(Drop)]
pub(crate) struct WordedLine<'a> {
    /// Its number, the first line being 1.
    pub(crate) number: usize,
    /// The line as it stands.
    pub(crate) text: &'a [u8],
    /// The name of the command `entry`, and behind it the words.
    pub(crate) words: Vec<&'a str>,
}

impl WordedLine<'_> {
    /// Does it name an event that is no submission?
    pub(crate) fn is_event(&self) -> bool {
        match self.words.get(1) {
            Some(word) => *word == "turn" || *word == "fault",
            None => false,
        }
    }
}

/// The lines of a file that have words, besides their comments.
///
/// # Errors
///
/// Want of memory.
pub(crate) fn worded_lines(alloc: Global, file: &[u8]) -> Result<Vec<WordedLine<'_>>, AllocError> {
    let mut lines = Vec::new(alloc);
    let mut rest = file;
    let mut number = 1;
    while !rest.is_empty() {
        let (text, behind) = first_line(rest);
        let words = words_of(alloc, without_comment(text))?;
        if words.len() > 1 {
            lines.push(WordedLine {
                number,
                text,
                words,
            })?;
        }
        rest = behind;
        number += 1;
    }
    Ok(lines)
}

/// The name of the command `entry`, and behind it the words of a line. Of one that isn't text the line's bytes are no
/// words: a word stands for them that is no kind of entry.
fn words_of(alloc: Global, line: &[u8]) -> Result<Vec<&str>, AllocError> {
    let mut words = Vec::new(alloc);
    words.push(entry::NAME)?;
    match str::from_utf8(line) {
        Ok(line) => {
            for word in line.split_whitespace() {
                words.push(word)?;
            }
        }
        Err(_) => words.push("(no text)")?,
    }
    Ok(words)
}
