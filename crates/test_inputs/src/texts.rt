//! Texts with parts that repeat.

use std::alloc::Global;
use std::test::Fail;

/// The parts of a text without what stands between them, each as often as it says: `0*128` is `0` 128 times.
///
/// # Errors
///
/// Want of memory, or a `*` behind which no number stands.
pub fn repeated(alloc: Global, parts: &str, between: char) -> Result<String, Fail> {
    let mut text = String::new(alloc);
    for part in parts.split(between) {
        let (again, times) = part.split_once('*').unwrap_or((part, "1"));
        text.push_str(again.repeat(alloc, times.parse::<usize>()?)?.as_str())?;
    }
    Ok(text)
}
