//! The laws of questions in words. The functions do nothing: what they ensure is the laws.

ghost use Rattle.question_words.specs.Laws.{NamesRead, OtherBytesRead, QuotesRead, RangesRead, ReadIsCondition, SetsRead, TextsRead, WordsHavePrecedence, WordsReadBack};

/// What is printed of a condition is read as the same, whatever the layout, where its numbers fit their fields, its bytes are one or
/// more, and its text has at most `MOST_BYTES` bytes.
pub fn words_read_back()
    ensures { WordsReadBack }
{}

/// Without parentheses `!` takes the condition next to it, `&&` is before `||`, and of two that are the same the first is before the
/// second.
pub fn words_have_precedence()
    ensures { WordsHavePrecedence }
{}

/// Bytes by `!=` are read as the opposite of the same by `==`.
pub fn other_bytes_are_read()
    ensures { OtherBytesRead }
{}

/// A name of the layout is read as its field.
pub fn names_are_read()
    ensures { NamesRead }
{}

/// Of a condition that is read of bytes, by a layout whose fields' offsets are below 2^16, numbers fit their fields and bytes are one or
/// more, so that what is printed of it is read back.
pub fn read_is_condition()
    ensures { ReadIsCondition }
{}

/// A field that is in a range is the first bound or more, and less than the second or, by `..=`, the second or less.
pub fn ranges_are_read()
    ensures { RangesRead }
{}

/// A field that is in a set is one of its elements: the comparisons of the elements are joined by `||`, in order.
pub fn sets_are_read()
    ensures { SetsRead }
{}

/// Bytes between quotes are read as they are: without quotes among them, and one or more.
pub fn quotes_are_read()
    ensures { QuotesRead }
{}

/// A field is compared by `==` or `!=` with a text of as many bytes: the record has these where the field is, or others.
pub fn texts_are_read()
    ensures { TextsRead }
{}
