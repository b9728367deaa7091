//! Where a text is cut: at a byte, behind its first word, and at the blanks of its ends. Blanks are spaces and tabs.

ghost use Rattle.std.specs.Prelude.{◌≡◌, ◌<◌, ◌==◌, length, position, option_map, IfSome, drop};
ghost use Rattle.std.specs.List.{position_or_len, before_first};
ghost use Rattle.text_lines.specs.Cut.{cut_at, is_blank_byte, without_first_blanks, without_end_blanks, trimmed};

use memchr::{memchr, memchr2};

/// The text before the first such byte and the text behind it; `None` where there is no such byte.
pub fn cut(text: &[u8], byte: u8) -> Option<(&[u8], &[u8])>
    ensures { option_map (λ parts. (parts.0.now, parts.1.now)) result ≡ cut_at byte text.now }
{
    let at = first(text, byte)?;
    Some((&text[..at], &text[at + 1..]))
}

fn first(text: &[u8], byte: u8) -> Option<usize>
    ensures value { result ≡ position (λ b. b == byte) text.now }
    ensures within { IfSome result (λ at. at < length text.now) }
{
    memchr(byte, text)
}

/// What stands before the first blank, and the text from that blank on. A text that begins with a
/// word begins with the first of these.
pub fn word(text: &[u8]) -> (&[u8], &[u8])
    ensures word { result.0.now ≡ before_first is_blank_byte text.now }
    ensures rest { result.1.now ≡ drop (position_or_len is_blank_byte text.now) text.now }
{
    text.split_at(first_blank(text).unwrap_or(text.len()))
}

fn first_blank(text: &[u8]) -> Option<usize>
    ensures value { result ≡ position is_blank_byte text.now }
    ensures within { IfSome result (λ at. at < length text.now) }
{
    memchr2(b' ', b'\t', text)
}

/// A space or a tab.
fn is_blank(byte: u8) -> bool
    ensures { result ≡ is_blank_byte byte }
{
    byte == b' ' || byte == b'\t'
}

/// The text without the blanks at its ends.
pub fn trim(text: &[u8]) -> &[u8]
    ensures { result.now ≡ trimmed text.now }
{
    trim_end(trim_start(text))
}

/// The text without the blanks in front.
pub fn trim_start(text: &[u8]) -> &[u8]
    ensures { result.now ≡ without_first_blanks text.now }
{
    let mut inside = text;
    while let [byte, rest @ ..] = inside {
        if !is_blank(*byte) {
            break;
        }
        inside = rest;
    }
    inside
}

fn trim_end(text: &[u8]) -> &[u8]
    ensures { result.now ≡ without_end_blanks text.now }
{
    let mut inside = text;
    while let [rest @ .., byte] = inside {
        if !is_blank(*byte) {
            break;
        }
        inside = rest;
    }
    inside
}
