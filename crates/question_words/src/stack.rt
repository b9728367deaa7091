//! What is open before the place that is read.

ghost use Rattle.std.specs.Prelude.{◌≡◌, [], ◌∷◌, ◌+◌, length, MatchOption, OnOk};
ghost use Rattle.question_words.specs.steps.Views.{open_view, opens};

use record_questions::Predicate;
use std::alloc::AllocError;

/// What is open: it takes the condition after it.
#[derive(Drop)]
pub(crate) enum Open {
    /// A `!`.
    Not,
    /// A `(`.
    Parenthesis,
    /// A condition and an `&&`.
    And(Predicate),
    /// A condition and an `||`.
    Or(Predicate),
}

/// Opens one more.
pub(crate) fn put(before: &mut Vec<Open>, part: Open) -> Result<(), AllocError>
    ensures { OnOk result (opens before.new.items ≡ open_view part ∷ opens before.old.items) }
{
    before.push(part)?;
    Ok(())
}

/// Takes what was opened last.
pub(crate) fn take(before: &mut Vec<Open>) -> Option<Open>
    ensures { MatchOption result
        ((opens before.old.items ≡ []) × (opens before.new.items ≡ []))
        (λ part. (opens before.old.items ≡ open_view part ∷ opens before.new.items)
        × (length before.old.items ≡ length before.new.items + 1)) }
{
    before.pop()
}
