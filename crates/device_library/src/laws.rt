//! Laws of the definitions that the contracts of this crate cite. Each function does nothing: what it ensures is the law.

ghost use Rattle.device_library.specs.LoopLaws.{AnswersAreRead, OperationsAreRead};
ghost use Rattle.device_library.specs.Numbers.{NumbersAreTheHeaders};
ghost use Rattle.device_library.specs.Turns.{TurnsAreOneByOne};

/// The kinds and results have the numbers of the header.
pub fn numbers_are_the_headers()
    ensures { NumbersAreTheHeaders }
{}

/// Turns at once come to what they come to one by one.
pub fn turns_are_one_by_one()
    ensures { TurnsAreOneByOne }
{}

/// Each operation is read back from what C is told of it, so no two are told alike.
pub fn operations_are_read()
    ensures { OperationsAreRead }
{}

/// Each answer can be said, and is read so.
pub fn answers_are_read()
    ensures { AnswersAreRead }
{}
