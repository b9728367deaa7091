//! Laws of notes. Each function does nothing: what it ensures is the law.

ghost use Rattle.link_notes.specs.Laws.{PrintedNotesReadBack};

/// Notes whose places and texts are printable ASCII, and whose places have no blank, are read back from what they are printed as.
#[tactic(auto, using(crate::proofs::ReadBack::printed_notes_read_back))]
pub fn printed_notes_read_back()
    ensures { PrintedNotesReadBack }
{}
