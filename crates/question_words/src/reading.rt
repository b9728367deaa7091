//! Reading a question.

ghost use Rattle.std.specs.Prelude.{◌≡◌, length};
ghost use Rattle.common_definitions.specs.Gives.{Gives};
ghost use Rattle.question_words.specs.Condition.{said};
ghost use Rattle.question_words.specs.Cutting.{cuts};
ghost use Rattle.question_words.specs.Fault.{fault_of};
ghost use Rattle.question_words.specs.Layout.{entries};
ghost use Rattle.question_words.specs.Reading.{at_start, condition_of, read_words};

use crate::cutting::first_word;
use crate::fault::{FaultKind, ReadFault, fault};
use crate::layout::Layout;
use crate::stage::{Reading, Stage, finish, step};
use record_questions::Predicate;
use std::alloc::Global;

/// The most bytes of a question.
pub const MOST_BYTES: usize = 4096;

/// The condition that a text is, where names are those of a layout.
///
/// # Errors
///
/// The first word that doesn't fit, by its column, and what is possible there; want of memory.
#[tactic(auto, unfolding(crate::specs::Reading::condition_of))]
pub fn read(alloc: Global, layout: &Layout, text: &[u8]) -> Result<Predicate, ReadFault>
    ensures { Gives fault_of said result (condition_of (entries layout.now) text.now) }
{
    if MOST_BYTES < text.len() {
        return Err(fault(1, FaultKind::TooLong));
    }
    read_text(alloc, layout, text)
}

/// The same, of any number of bytes.
fn read_text(alloc: Global, layout: &Layout, text: &[u8]) -> Result<Predicate, ReadFault>
    ensures { Gives fault_of said result (read_words (entries layout.now) (length text.now) (cuts text.now) at_start) }
{
    let mut reading = Reading {
        stage: Stage::Wanted,
        before: Vec::new(alloc),
    };
    let mut rest = text;
    while !rest.is_empty() {
        let column = text.len() - rest.len() + 1;
        let (word, after) = first_word(rest);
        reading = step(alloc, layout, column, word, reading)?;
        rest = after;
    }
    finish(alloc, text.len() + 1, reading)
}
