//! Laws of the definitions. Each function does nothing: what it ensures is the law.

ghost use Rattle.common_definitions.specs.FirstCheck.{FirstFailedIsFirst, NoFaultWhereNoneFails};

/// Of an ordered list of checks the first that fails decides: the fault that is told is its own.
pub fn first_failed_is_first<F>()
    ensures { FirstFailedIsFirst F }
{}

/// An ordered list of checks has no fault just where none of them fails.
pub fn no_fault_where_none_fails<F>()
    ensures { NoFaultWhereNoneFails F }
{}
