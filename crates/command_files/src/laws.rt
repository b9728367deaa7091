//! Laws of the definitions that the contracts of this crate cite. Each function does nothing: what
//! it ensures is the law.

ghost use Rattle.command_files.specs.Laws.{OrdinaryTextsAreShownAsTheyAre};

/// A text without control characters is shown as it is.
pub fn ordinary_texts_are_shown_as_they_are()
    ensures { OrdinaryTextsAreShownAsTheyAre }
{}
