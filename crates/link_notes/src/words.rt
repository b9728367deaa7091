//! The words of a line.

ghost use Rattle.std.specs.Prelude.{◌≡◌, option_copied, option_map};
ghost use Rattle.link_notes.specs.Unread.{after, number_after};
ghost use Rattle.link_notes.specs.Reading.{ascii_of, number_before};

use std::str;
use text_lines::{cut, decimal, is_all_ascii};

/// The text behind a key, where a text begins with it.
fn after<'a>(key: &[u8], text: &'a [u8]) -> Option<&'a [u8]>
    ensures { option_copied result ≡ after key.now text.now }
{
    text.strip_prefix(key)
}

/// The number behind a key, where a line is these two.
pub(crate) fn number_after(key: &[u8], line: &[u8]) -> Option<u32>
    ensures { result ≡ number_after key.now line.now }
{
    decimal(after(key, line)?)
}

/// The number between a key, with which a text begins, and a space, and the text behind that.
pub(crate) fn number_before<'a>(key: &[u8], text: &'a [u8]) -> Option<(u32, &'a [u8])>
    ensures { option_map (λ parts. (parts.0, parts.1.now)) result ≡ number_before key.now text.now }
{
    let (word, behind) = cut(after(key, text)?, b' ')?;
    let number = decimal(word)?;
    Some((number, behind))
}

/// A text of ASCII alone.
pub(crate) fn ascii(text: &[u8]) -> Option<&str>
    ensures { option_copied result ≡ ascii_of text.now }
{
    if is_all_ascii(text) {
        str::from_utf8(text).ok()
    } else {
        None
    }
}
