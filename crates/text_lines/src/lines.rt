//! The lines of a text.

ghost use Rattle.std.specs.Prelude.{◌≡◌, ◌<◌, ◌==◌, ◌∷◌, length, slice_get, option_copied};
ghost use Rattle.std.specs.List.{after_first, list_all};
ghost use Rattle.std.specs.Char.{is_ascii};
ghost use Rattle.std.specs.Str.Lines.{lines as text_lines, strip_carriage_return};
ghost use Rattle.text_lines.specs.Cut.{uncommented};

use crate::cutting::cut;

/// The first line of a text without the `\n` or `\r\n` that ends it, and the text behind it. Lines are those of the
/// standard library's definition.
pub fn first_line(text: &[u8]) -> (&[u8], &[u8])
    requires { 0 < length text.now }
    ensures lines { text_lines text.now ≡ result.0.now ∷ text_lines result.1.now }
    ensures behind { result.1.now ≡ after_first (λ b. b == 10) text.now }
    ensures shorter { length result.1.now < length text.now }
{
    match cut(text, b'\n') {
        Some((line, behind)) => (without_return(line), behind),
        None => text.split_at(text.len()),
    }
}

/// The line behind so many lines of a text, where there is one.
pub fn line_behind(text: &[u8], lines: usize) -> Option<&[u8]>
    ensures { option_copied result ≡ slice_get (text_lines text.now) lines }
{
    let mut rest = text;
    let mut before = lines;
    while !rest.is_empty() {
        let (line, behind) = first_line(rest);
        if before == 0 {
            return Some(line);
        }
        rest = behind;
        before -= 1;
    }
    None
}

/// A line without the carriage return at its end.
fn without_return(line: &[u8]) -> &[u8]
    ensures { result.now ≡ strip_carriage_return line.now }
{
    match line {
        [front @ .., b'\r'] => front,
        _ => line,
    }
}

/// Is each byte of a line below 128?
pub fn is_all_ascii(line: &[u8]) -> bool
    ensures { result ≡ list_all is_ascii line.now }
{
    line.is_ascii()
}

/// What stands before the first `;` of a line, or the line where it has none.
pub fn without_comment(line: &[u8]) -> &[u8]
    ensures { result.now ≡ uncommented line.now }
{
    match cut(line, b';') {
        Some((front, _)) => front,
        None => line,
    }
}
