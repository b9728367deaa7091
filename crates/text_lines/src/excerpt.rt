//! The beginning of a text, kept to be shown.

ghost use Rattle.text_lines.specs.Excerpt.{IsExcerptOf};

use std::fmt;

/// The most bytes of an excerpt.
const MOST: usize = 40;

/// The first bytes of a text, at most 40, which a sentence shows when the text itself is gone.
///
/// It is shown on one line between quotation marks: quotation marks, `\` and what is not printable ASCII as Rust
/// escapes them, and `..` behind the last mark where the text goes on.
#[derive(Clone, Copy, Debug, PartialEq, Eq)]
pub struct Excerpt {
    bytes: [u8; MOST],
    kept: usize,
    goes_on: bool,
}

impl Excerpt {
    /// The excerpt of a text: its first 40 bytes, or all where it has fewer, and whether it goes on.
    pub fn of(text: &[u8]) -> Excerpt
        ensures { IsExcerptOf text.now result }
    {
        let kept = MOST.min(text.len());
        let mut bytes = [0; MOST];
        bytes[..kept].copy_from_slice(&text[..kept]);
        Excerpt {
            bytes,
            kept,
            goes_on: MOST < text.len(),
        }
    }
}

impl fmt::Display for Excerpt {
    fn fmt<W: fmt::Write>(&self, f: &mut fmt::Formatter<W>) -> fmt::Result {
        let behind = if self.goes_on { ".." } else { "" };
        let kept = self.bytes.get(..self.kept).unwrap_or(&self.bytes);
        write!(f, "\"{}\"{behind}", kept.escape_ascii())
    }
}
