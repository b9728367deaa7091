//! The lines of a text that aren't read yet.

ghost use Rattle.std.specs.Prelude.{◌+◌, ◌<◌, ◌^◌, length};

use crate::words::number_after;
use text_lines::first_line;

/// The lines of a text that aren't read yet.
#[derive(Clone, Copy)]
pub(crate) struct Unread<'a> {
    pub(crate) rest: &'a [u8],
    /// The number of the first of them.
    pub(crate) number: usize,
    ghost counted: { number + length rest.now < 2 ^ 64 },
}

impl<'a> Unread<'a> {
    ghost use Rattle.std.specs.Prelude.{◌≡◌, OnSome, option_copied};
    ghost use Rattle.std.specs.Str.Lines.{lines};
    ghost use Rattle.link_notes.specs.Unread.{first_number, first_of, left_of, past, past_number};

    /// The lines of a text, of which none is read.
    pub(crate) fn new(text: &'a [u8]) -> Unread<'a>
        ensures { left_of result ≡ (1, lines text.now) }
    {
        Unread {
            rest: text,
            number: 1,
        }
    }

    /// The first line, which is read then; `None` where none is left.
    pub(crate) fn line(&mut self) -> Option<&'a [u8]>
        ensures shorter { OnSome result (length self.new.rest.now < length self.old.rest.now) }
        ensures line { option_copied result ≡ first_of (left_of self.old).1 }
        ensures rest { left_of self.new ≡ past (left_of self.old) }
    {
        if self.rest.is_empty() {
            return None;
        }
        let (line, rest) = first_line(self.rest);
        self.rest = rest;
        self.number += 1;
        Some(line)
    }

    /// The number behind a key, where the first line is these two, which is read then.
    pub(crate) fn number(&mut self, key: &[u8]) -> Option<u32>
        ensures number { result ≡ first_number key.now (left_of self.old) }
        ensures rest { left_of self.new ≡ past_number key.now (left_of self.old) }
    {
        let mut behind = *self;
        let number = number_after(key, behind.line()?)?;
        *self = behind;
        Some(number)
    }
}
