//! How a text is cut into words.

ghost use Rattle.std.specs.Prelude.{◌≡◌, ◌<◌, ◌≤◌, ◌==◌, ◌&&◌, true, not, length, take, drop, position, slice_index, IfSome};
ghost use Rattle.std.specs.List.{position_or_len};
ghost use Rattle.question_words.specs.Cutting.{is_word_byte, is_pair, quoted_width, symbol_width, width};

/// The first word of a text, and the text after it. A blank is a word too.
pub(crate) fn first_word(text: &[u8]) -> (&[u8], &[u8])
    requires { 0 < length text.now }
    ensures word { result.0.now ≡ take (width text.now) text.now }
    ensures rest { result.1.now ≡ drop (width text.now) text.now }
    ensures shorter { length result.1.now < length text.now }
{
    text.split_at(word_bytes(text))
}

/// How many bytes the first word has.
fn word_bytes(text: &[u8]) -> usize
    requires { 0 < length text.now }
    ensures value { result ≡ width text.now }
    ensures some { 0 < result }
    ensures within { result ≤ length text.now }
{
    if is_in_word(text[0]) {
        name_bytes(text)
    } else if text[0] == b'"' {
        quoted_bytes(text)
    } else {
        symbol_bytes(text)
    }
}

/// How many bytes a text in quotes has, with them.
fn quoted_bytes(text: &[u8]) -> usize
    requires { 0 < length text.now }
    ensures value { result ≡ quoted_width text.now }
    ensures some { 0 < result }
    ensures within { result ≤ length text.now }
{
    let inside = &text[1..];
    match quote_at(inside) {
        Some(at) => at + 2,
        None => text.len(),
    }
}

/// The first quote.
fn quote_at(text: &[u8]) -> Option<usize>
    ensures value { result ≡ position (λ byte. byte == 34) text.now }
    ensures within { IfSome result (λ at. at < length text.now) }
{
    text.iter().position(|byte| *byte == b'"')
}

/// How many bytes a word has that begins with no byte of names.
fn symbol_bytes(text: &[u8]) -> usize
    requires { 0 < length text.now }
    ensures value { result ≡ symbol_width (slice_index text.now 0) (slice_index text.now 1) (slice_index text.now 2) }
    ensures some { 0 < result }
    ensures within { result ≤ length text.now }
{
    if !begins_with_pair(text) {
        1
    } else if begins_with_dot_before_equals(text) {
        3
    } else {
        2
    }
}

/// How many bytes of names come first, where one does.
#[tactic(auto, using(crate::proofs::FirstWords::name_some))]
fn name_bytes(text: &[u8]) -> usize
    requires { is_word_byte (slice_index text.now 0) ≡ true }
    ensures value { result ≡ position_or_len (λ byte. not (is_word_byte byte)) text.now }
    ensures some { 0 < result }
    ensures within { result ≤ length text.now }
{
    name_end(text).unwrap_or(text.len())
}

/// The first byte that no name has.
fn name_end(text: &[u8]) -> Option<usize>
    ensures value { result ≡ position (λ byte. not (is_word_byte byte)) text.now }
    ensures within { IfSome result (λ at. at < length text.now) }
{
    text.iter().position(|byte| !is_in_word(*byte))
}

/// Do two bytes that belong together come first?
fn begins_with_pair(text: &[u8]) -> bool
    ensures { result ≡ is_pair (slice_index text.now 0) (slice_index text.now 1) }
{
    matches!(
        text,
        [b'&', b'&', ..]
            | [b'|', b'|', ..]
            | [b'.', b'.', ..]
            | [b'=', b'=', ..]
            | [b'!', b'=', ..]
            | [b'<', b'=', ..]
            | [b'>', b'=', ..]
    )
}

/// Is a dot first, and `=` third, as in `..=`?
fn begins_with_dot_before_equals(text: &[u8]) -> bool
    ensures { result ≡ (slice_index text.now 0 == 46 && slice_index text.now 2 == 61) }
{
    matches!(text, [b'.', _, b'=', ..])
}

/// Is it a byte of names, numbers and fields?
pub(crate) fn is_in_word(byte: u8) -> bool
    ensures { result ≡ is_word_byte byte }
{
    byte.is_ascii_alphanumeric() || byte == b'_' || byte == b'@' || byte == b'-'
}
