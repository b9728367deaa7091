//! Laws of the definitions. Each function does nothing: what it ensures is the law.

ghost use Rattle.accepted_programs.specs.Laws.{AcceptedAccessesLie, AcceptedEmitsNoMore, AcceptedEndsByItself, AcceptedFailsNowhere, AcceptedNeverTraps, FactsAreMet, JudgesByBounds, JudgesWithoutSums, RefusalIsFirst, RefusalIsInside};
ghost use Rattle.accepted_programs.specs.Numbers.{CellsAreWords};

use word_domain::Domain;

/// A program that is accepted over any domain never traps: over every block of the length that it was
/// accepted for, every context and every scratch, a block run of it ends by EXIT, after at most as
/// many steps as it has instructions, with a group within the limit.
pub fn accepted_never_traps<D: Domain>()
    ensures { AcceptedNeverTraps D.operations }
{
    D::sound();
}

/// A block run of a program that is accepted ends by itself, and not for want of fuel: with any fuel that is at least the
/// program's number of instructions it ends by EXIT, after at most as many steps as the program has instructions, with a group
/// within the limit, and is the one with just as much fuel.
pub fn accepted_ends_by_itself<D: Domain>()
    ensures { AcceptedEndsByItself D.operations }
{
    D::sound();
}

/// A block run of a program that is accepted emits no more than its group is known to have at some slot.
pub fn accepted_emits_no_more<D: Domain>()
    ensures { AcceptedEmitsNoMore D.operations }
{
    D::sound();
}

/// What a program that is accepted loads, stores or emits lies where it is known to at its slot, in each block run that comes
/// there: in that area, and at that offset where one is known.
pub fn accepted_accesses_lie<D: Domain>()
    ensures { AcceptedAccessesLie D.operations }
{
    D::sound();
}

/// The slot of a refusal is one of the program's, and so below the most slots that a program has.
pub fn refusal_is_inside<D: Domain>()
    ensures { RefusalIsInside D.operations }
{}

/// A refusal tells the lowest slot with facts at which an instruction fails a check, and of the reasons that
/// hold there the one with the least number.
pub fn refusal_is_first<D: Domain>()
    ensures { RefusalIsFirst D.operations }
{}

/// An instruction of a program that is accepted fails no check, wherever there are facts.
pub fn accepted_fails_nowhere<D: Domain>()
    ensures { AcceptedFailsNowhere D.operations }
{}

/// What is known at a slot is true of each block run that comes there by slots of which none is refused: the words of
/// its registers and of the stack belong to the facts, and its group is within the bound. So it is also where that
/// slot is refused itself, as the first of a program that is refused.
pub fn facts_are_met<D: Domain>()
    ensures { FactsAreMet D.contains D.operations }
{
    D::sound();
}

/// Where an address counts as any word, as over intervals, a record fits an area only by the bounds of its address and of its length,
/// and never by their sum.
pub fn judges_by_bounds<D: Domain>()
    ensures { JudgesByBounds D.is_fact D.operations }
{}

/// Where a domain doesn't track sums of registers, nothing is known of registers together at any slot of a program: it is judged as
/// if there were no sums.
pub fn judges_without_sums<D: Domain>()
    ensures { JudgesWithoutSums D.operations }
{}

/// What is known of the stack is known of its words of eight bytes, of which there are 64 (profile).
pub fn cells_are_words()
    ensures { CellsAreWords }
{}
