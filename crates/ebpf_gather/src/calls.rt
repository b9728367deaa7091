//! The tree of a function's calls.

ghost use Rattle.std.specs.Prelude.{◌≡◌, ◌<◌, ◌≤◌, ◌+◌, IfOk, IfSome, MatchResult};
ghost use Rattle.ebpf_gather.specs.CallTrees.{IsShallow, body_slots, few_slots, slots_at, tree_slots};
ghost use Rattle.ebpf_object.specs.Functions.{LiesIn};

use crate::fault::CallFault;
use crate::reference::{Reference, reference_of};
use ebpf_object::{Function, Object};
use program_interface::MOST_SLOTS;

/// How many functions a chain of calls may have.
pub const MOST_CALLS: usize = 8;

/// So many slots, unless that is more than a program can have.
fn few_slots(slots: usize) -> Result<usize, CallFault>
    ensures value { result ≡ few_slots slots }
    ensures few { IfOk result (λ slots. slots ≤ MOST_SLOTS) }
{
    if slots <= MOST_SLOTS {
        Ok(slots)
    } else {
        Err(CallFault::TooLong)
    }
}

/// The slots that a slot of a function stands for but itself: those of the function that it calls, where no chain of calls from that
/// has more than so many functions.
#[cycle(tree)]
fn slots_at(
    object: &Object<'_>,
    function: Function,
    slot: usize,
    depth: usize,
) -> Result<usize, CallFault>
    requires inside { LiesIn object.now.bytes.now function }
    requires there { slot < function.slots }
    ensures value { let called = tree_slots object.now.bytes.now object.now.symbols depth in
        result ≡ slots_at called object.now.bytes.now object.now.symbols function slot }
    ensures few { IfOk result (λ slots. slots ≤ MOST_SLOTS) }
{
    match reference_of(object, function, slot) {
        Ok(Reference::Function(callee)) => tree_slots(object, callee, depth),
        Ok(_) => Ok(0),
        Err(fault) => Err(CallFault::Reference(function, slot, fault)),
    }
}

/// The slots of a function and of all that it calls, where no chain of calls from what it calls has more than so many functions.
#[cycle(tree)]
fn body_slots(object: &Object<'_>, function: Function, depth: usize) -> Result<usize, CallFault>
    requires { LiesIn object.now.bytes.now function }
    ensures value { let called = tree_slots object.now.bytes.now object.now.symbols depth in
        result ≡ body_slots called object.now.bytes.now object.now.symbols function }
    ensures few { IfOk result (λ slots. slots ≤ MOST_SLOTS) }
{
    let mut slots = 0;
    for slot in 0..function.slots {
        let called = slots_at(object, function, slot, depth)?;
        slots = few_slots(slots + 1 + called)?;
    }
    Ok(slots)
}

/// The slots of a function and of all that it calls, each as often as it is called, where no chain of calls has more than so many
/// functions.
#[cycle(tree)]
fn tree_slots(object: &Object<'_>, function: Function, depth: usize) -> Result<usize, CallFault>
    requires { LiesIn object.now.bytes.now function }
    ensures value { result ≡ tree_slots object.now.bytes.now object.now.symbols depth function }
    ensures few { IfOk result (λ slots. slots ≤ MOST_SLOTS) }
{
    if depth == 0 {
        return Err(CallFault::TooDeep(function));
    }
    body_slots(object, function, depth - 1)
}

/// How many slots a function has with all that it calls, each as often as it is called.
///
/// # Errors
///
/// The first fault, by slots, and within a function that is called before what comes behind the call: a slot that refers to nothing
/// that a program can have, a chain of more than [`MOST_CALLS`] calls, or more slots than a program can have.
pub fn called_slots(object: &Object<'_>, function: Function) -> Result<usize, CallFault>
    requires { LiesIn object.now.bytes.now function }
    ensures value { result ≡ tree_slots object.now.bytes.now object.now.symbols MOST_CALLS function }
    // Then no chain of calls has more functions: none of them calls itself, directly or by others.
    ensures shallow { IfOk result (λ _. IsShallow object.now.bytes.now object.now.symbols MOST_CALLS function) }
{
    tree_slots(object, function, MOST_CALLS)
}
