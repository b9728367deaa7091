//! Laws of the definitions that the contracts of this crate cite. Each function does nothing: what it ensures is the law.

ghost use Rattle.handed_file.specs.Laws.{FirstCallsAreCovered, WaitingCallsAreCovered};

/// What a crash leaves while the host makes calls that it was handed, or when one fails, is covered by what is known of the file behind
/// all of them.
pub fn first_calls_are_covered()
    ensures { FirstCallsAreCovered }
{}

/// A commit is a list of calls that wait: while they are made, a crash leaves the device before it or the one after, and once they are
/// made, the one after.
pub fn waiting_calls_are_covered()
    ensures { WaitingCallsAreCovered }
{}
