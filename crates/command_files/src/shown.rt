//! Names and words as a terminal shows them.

ghost use Rattle.std.specs.Prelude.{◌≡◌, ◌<◌, false, Some};
ghost use Rattle.std.specs.Fmt.{WritesOnOk, digit_glyph};
ghost use Rattle.command_files.specs.Shown.{escaped_byte, shown, shown_char};

use std::fmt::{self, Write};

/// A name or a word, which a terminal shows and never obeys: a control character is shown as the bytes of its UTF-8, each
/// as `\x` and two hexadecimal digits, and all else as it is.
#[derive(Clone, Copy)]
pub struct Shown<'a>(pub &'a str);

impl fmt::Display for Shown<'_> {
    ghost output = { λ name. Some (shown name.0.now) };

    fn fmt<W: fmt::Write>(&self, f: &mut fmt::Formatter<W>) -> fmt::Result {
        write_text(f, self.0)
    }
}

/// Writes a text as a terminal shows it.
pub(crate) fn write_text<W: fmt::Write>(f: &mut fmt::Formatter<W>, text: &str) -> fmt::Result
    ensures { WritesOnOk W.write_str_gives f.old result (shown text.now) f.new }
{
    for character in text.chars() {
        write_character(f, character)?;
    }
    Ok(())
}

fn write_character<W: fmt::Write>(f: &mut fmt::Formatter<W>, character: char) -> fmt::Result
    ensures { WritesOnOk W.write_str_gives f.old result (shown_char character) f.new }
{
    let code = u32::from(character);
    if !character.is_control() {
        f.write_char(character)
    } else if code < 0x80 {
        write_byte(f, code as u8)
    } else {
        // In UTF-8 it has two bytes, of which the second is its code.
        write_byte(f, 0xC2)?;
        write_byte(f, code as u8)
    }
}

fn write_byte<W: fmt::Write>(f: &mut fmt::Formatter<W>, byte: u8) -> fmt::Result
    ensures { WritesOnOk W.write_str_gives f.old result (escaped_byte byte) f.new }
{
    f.write_str("\\x")?;
    f.write_char(digit(byte / 16))?;
    f.write_char(digit(byte % 16))
}

fn digit(value: u8) -> char
    requires { value < 16 }
    ensures glyph { result ≡ digit_glyph false value }
    ensures ascii { result < 128 }
{
    char::from(if value < 10 {
        b'0' + value
    } else {
        b'a' - 10 + value
    })
}
