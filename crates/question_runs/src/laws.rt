//! Laws of questions that are asked of a device. Each function does nothing: what it ensures is the law.

ghost use Rattle.question_runs.specs.Answered.{QuestionsAreAnswered, RunsAnswer};
ghost use Rattle.question_runs.specs.Loaded.{CompiledQuestionsLoad, LoadedQuestionsStay};
ghost use Rattle.question_runs.specs.Met.{QuestionIsMet};
ghost use Rattle.question_runs.specs.Words.{ResultsHaveWords};

use device_meaning::laws::domains_judge_soundly;
use ebpf_decode::laws::spelled_is_decoded;
use interval_domain::Intervals;
use record_questions::laws::{answers_blocks, tallies_are_totals, words_are_tallied};

/// A Load that comes with the program that `compile` gives of a question, for the sizes that it was compiled for, is refused only for its
/// data, its limit or its slot, or for want of memory.
pub fn compiled_questions_load()
    ensures { CompiledQuestionsLoad }
{
    spelled_is_decoded();
}

/// Once a Load of such a program succeeded, its slot has it, until another Load of the slot succeeds.
pub fn loaded_questions_stay()
    ensures { LoadedQuestionsStay }
{
    domains_judge_soundly::<Intervals>();
    spelled_is_decoded();
}

/// What Result gives of a question has a word for each tally of each group: what the tally comes to over the records that match and are of
/// the group, which is their number or the sum of a field, modulo 2^64, or the least or the greatest of a field.
pub fn results_have_words()
    ensures { ResultsHaveWords }
{
    domains_judge_soundly::<Intervals>();
    words_are_tallied();
    tallies_are_totals();
}

/// In each state that events leave, and in which a slot has such a program: a Run of the slot that is admitted is answered, whatever
/// events come between its turns and after them. Its completion has the number of the records that match, or 0 where nothing of them
/// is emitted, and the number of blocks. The blocks are read until the destination is reset or goes offline, and unpack to the
/// records that match, in their order, cut to what was asked. Result gives a word for each tally of each group of these records, their
/// number, or the sum, the least or the greatest of a field, until a run of the slot ends or a Load of it succeeds.
pub fn runs_answer()
    ensures { RunsAnswer }
{
    domains_judge_soundly::<Intervals>();
    answers_blocks();
    results_have_words();
}

/// The same from a Load on: where a Load of the program succeeded, and whatever events came since, none of them another Load of
/// the slot that succeeds.
pub fn questions_are_answered()
    ensures { QuestionsAreAnswered }
{
    loaded_questions_stay();
    runs_answer();
}

/// There is a question of which that law speaks: in a state that events leave its program was loaded, and a Run of two blocks is admitted.
/// Of the four records of these blocks two match by the run's argument, and the word of the count is 2.
pub fn question_is_met()
    ensures { QuestionIsMet }
{}
