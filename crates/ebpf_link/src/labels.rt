//! The labels of what is laid out beside the slots: numbers behind theirs.

ghost use Rattle.std.specs.Prelude.{◌≡◌, length};
ghost use Rattle.ebpf_link.specs.Ends.{mark_label};
ghost use Rattle.ebpf_link.specs.Guards.{guard_label};

use instruction_set::Instruction;

/// More guards than are laid out.
pub(crate) const MOST_GUARDS: usize = 1 << 20;

/// The way on which an address isn't in an area.
pub(crate) fn other_way(slots: &[Option<Instruction>]) -> usize {
    slots.len()
}

/// What writes which guard ended a block run.
pub(crate) fn mark_label(slots: &[Option<Instruction>]) -> usize
    ensures { result ≡ mark_label (length slots.now) }
{
    slots.len() + 1
}

/// The end to which the guard at a place among all leads.
pub(crate) fn guard_label(slots: &[Option<Instruction>], place: usize) -> usize
    ensures { result ≡ guard_label (length slots.now) place }
{
    slots.len() + 2 + place.min(MOST_GUARDS)
}

/// How many labels there are, those of the slots counted.
pub(crate) fn label_count(slots: &[Option<Instruction>], guards: usize) -> usize {
    slots.len() + 2 + guards.min(MOST_GUARDS)
}

/// The place of the guard to whose end a label leads.
pub(crate) fn guard_of(slots: &[Option<Instruction>], label: usize) -> Option<usize> {
    label.checked_sub(slots.len() + 2)
}
