//! Laws of the definitions that the contracts of this crate cite. Each function does nothing: what
//! it ensures is the law.

ghost use Rattle.text_lines.specs.Laws.{CutIsAfterFirstPart, LastLineIsWhole, LinesAreCut, NothingHasNoLine, SomePartIsThere, TrimmedTextsAreBetweenBlanks, UncutIsOnePart};

/// A text is cut into parts one cut at a time, so that there is a part always.
pub fn parts_are_cut()
    ensures uncut { UncutIsOnePart }
    ensures cut { CutIsAfterFirstPart }
    ensures some { SomePartIsThere }
{}

/// A text is cut into lines one newline at a time; a carriage return in front of the newline is
/// no part of the line. What is behind the last newline is a line, where there is anything.
pub fn lines_are_cut()
    ensures cut { LinesAreCut }
    ensures last { LastLineIsWhole }
    ensures none { NothingHasNoLine }
{}

/// A text is blanks, its trimmed text, which neither begins nor ends with a blank, and blanks; nothing
/// else stands so in it.
pub fn trimmed_texts_are_between_blanks()
    ensures { TrimmedTextsAreBetweenBlanks }
{}
