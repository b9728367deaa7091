//! Texts in pieces.

ghost use Rattle.std.specs.Prelude.{OnOk, Some};
ghost use Rattle.std.specs.Io.KnownBytes.{Appends};
ghost use Rattle.command_files.specs.Pieces.{piece_text, pieces_text};

use crate::shown::write_text;
use std::fmt;
use std::io::{self, Write};

/// A piece of a text.
#[derive(Clone, Copy)]
pub(crate) enum Piece<'a> {
    /// A text, as it is.
    Plain(&'a str),
    /// A name or a word, as a terminal shows it.
    Named(&'a str),
    /// A text, and behind it a number in decimal digits.
    Number(&'a str, u64),
    /// Nothing.
    Nothing,
}

/// The pieces of a text, of which none has more.
pub(crate) type Pieces<'a> = [Piece<'a>; 7];

impl fmt::Display for Piece<'_> {
    ghost output = { λ piece. Some (piece_text piece) };

    fn fmt<W: fmt::Write>(&self, f: &mut fmt::Formatter<W>) -> fmt::Result {
        match *self {
            Piece::Plain(text) => f.write_str(text),
            Piece::Named(text) => write_text(f, text),
            Piece::Number(text, number) => write!(f, "{text}{number}"),
            Piece::Nothing => Ok(()),
        }
    }
}

/// Prints pieces, one behind another.
///
/// # Errors
///
/// Those of the stream.
pub(crate) fn print_pieces<W: Write>(out: &mut W, pieces: &[Piece<'_>]) -> io::Result<()>
    ensures { OnOk result (Appends (W.contents out.old) (W.contents out.new) (pieces_text pieces.now)) }
{
    for piece in pieces {
        write!(out, "{piece}")?;
    }
    Ok(())
}
