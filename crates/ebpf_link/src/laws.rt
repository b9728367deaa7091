//! Laws of guards. Each function does nothing: what it ensures is the law.

ghost use Rattle.ebpf_link.specs.Ends.{MarkingGuardsHaveTheirEnds, SilentGuardsHaveTheirEnds};
ghost use Rattle.ebpf_link.specs.Marking.{GuardsLeaveTheirMarks};

/// Where guards write nothing, each leads to an end that leaves the word of its kind in R0.
pub fn silent_guards_have_their_ends()
    ensures { SilentGuardsHaveTheirEnds }
{}

/// Where guards write, each leads to an end that gives R0 its word, and from there to what writes its mark.
#[tactic(auto, using(crate::proofs::EndLemmas::marking_guards_have_their_ends))]
pub fn marking_guards_have_their_ends()
    ensures { MarkingGuardsHaveTheirEnds }
{}

/// What writes a mark leaves the guard's number, its slot and the block's index in scratch, and the word of the guard's kind in R0.
pub fn guards_leave_their_marks()
    ensures { GuardsLeaveTheirMarks }
{}
