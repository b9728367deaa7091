//! Laws of the definitions. Each function does nothing: what it ensures is the law.

ghost use Rattle.record_questions.specs.Laws.{AnswersBlocks};
ghost use Rattle.record_questions.specs.Tallies.{TalliesAreTotals, WordsAreTallied};

/// Over every block of the length, every context and every scratch, a question's program that never traps emits the answer, a frame for
/// each record that matches, in order, and tallies these records in scratch.
pub fn answers_blocks()
    ensures { AnswersBlocks }
{}

/// Each tally's word of scratch comes to what it was with the records one after another.
pub fn words_are_tallied()
    ensures { WordsAreTallied }
{}

/// Begun at 0, a tally is the number of the records or the sum of a field, modulo 2^64, or the least or the greatest of a field.
pub fn tallies_are_totals()
    ensures { TalliesAreTotals }
{}
