//! Questions that aren't asked.

use command_files::Failure;
use std::alloc::AllocError;

/// The failure of a question, with why in a sentence; want of memory where there was none for the sentence.
pub(crate) fn refused<'a>(sentence: Result<String, AllocError>) -> Failure<'a> {
    match sentence {
        Ok(told) => Failure::QuestionRefused(told),
        Err(_) => Failure::NoMemory,
    }
}
