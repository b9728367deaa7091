//! Deeds, and calls that are none, by what they keep.

ghost use Rattle.std.specs.Prelude.{◌≡◌, ◌<◌, ◌+◌, ◌*◌, true, false, ℕ, List, IfOk, OnErr, OnOk};
ghost use Rattle.tcp_loop.specs.Deeds.{Closed};
ghost use Rattle.tcp_loop.specs.Holding.{Keeps, Makes};
ghost use Rattle.tcp_loop.specs.Kept.{Answered, Attending, Due, Folding, Pending, Placing, Resting, Settled, Stopped, Told};
ghost use Rattle.tcp_loop.specs.Orderly.{HasGrown, IsOrderly};
ghost use Rattle.tcp_loop.specs.declared.clock.Clock.{Clock};
ghost use Rattle.tcp_loop.specs.declared.operation.Answer.{Answer};
ghost use Rattle.tcp_loop.specs.declared.operation.Operation.TheVariants as operation;
ghost use Rattle.tcp_loop.specs.declared.stage.Part.TheVariants as part;

use crate::operation::PLACES;
use crate::target::{KeptTarget, RUNS};
use std::alloc::AllocError;
use stored_file::FileError;

/// Gives the next run a turn, and says whether there is one.
///
/// # Errors
///
/// No memory for the journal.
pub(crate) fn turn<T: KeptTarget>(target: &mut T) -> Result<bool, AllocError>
    ensures attends { OnOk result ((waiting : List (List ℕ)) (clock : Clock) → Keeps T.means Resting (T.at target.old) waiting clock
        (Attending 0) (T.at target.new) waiting clock) }
    ensures keeps { (waiting : List (List ℕ)) (clock : Clock) → Keeps T.means Resting (T.at target.old) waiting clock
        Resting (T.at target.new) waiting clock }
    ensures grows { (o : IsOrderly T.means T.free) → HasGrown T.means T.free o (T.at target.old).state (T.at target.new).state }
{
    match target.turn() {
        Ok(given) => Ok(given),
        Err(error) => Err(error),
    }
}

/// Gives a run a turn that was kept, and says whether there was one.
///
/// # Errors
///
/// No memory for the journal.
pub(crate) fn resume<T: KeptTarget>(target: &mut T, run: usize) -> Result<bool, AllocError>
    requires { run < RUNS }
    ensures keeps { (waiting : List (List ℕ)) (clock : Clock) → Keeps T.means Resting (T.at target.old) waiting clock
        Resting (T.at target.new) waiting clock }
    ensures grows { (o : IsOrderly T.means T.free) → HasGrown T.means T.free o (T.at target.old).state (T.at target.new).state }
{
    match target.resume(run) {
        Ok(given) => Ok(given),
        Err(error) => Err(error),
    }
}

/// Says that a connection is closed.
pub(crate) fn close<T: KeptTarget>(target: &mut T, number: usize)
    requires { number < PLACES }
    ensures made { (waiting : List (List ℕ)) (clock : Clock) (carried came : List ℕ) (answer : Answer) → Makes T.means
        (record { asked = operation.Close number; carried = carried; answer = answer; came = came })
        Resting (T.at target.old) waiting clock Resting (T.at target.new) waiting clock }
    ensures did { T.means.does (Closed number) (T.at target.old).state (T.at target.new).state }
{
    target.close(number);
}

/// Says that so many milliseconds went by.
pub(crate) fn tick<T: KeptTarget>(target: &mut T, milliseconds: u32)
    ensures keeps { (waiting : List (List ℕ)) (clock clock' : Clock) → clock'.last ≡ clock.last
        → clock.untold ≡ milliseconds * 1000 + clock'.untold → (clock.untold < 2000000 → clock'.untold < 1000000)
        → Keeps T.means Settled (T.at target.old) waiting clock Resting (T.at target.new) waiting clock' }
    ensures grows { (o : IsOrderly T.means T.free) → HasGrown T.means T.free o (T.at target.old).state (T.at target.new).state }
{
    target.tick(milliseconds);
}

/// Commits what was done.
///
/// # Errors
///
/// No memory, or the disk's.
pub(crate) fn commit<T: KeptTarget>(target: &mut T) -> Result<(), FileError>
    ensures done { OnOk result ((waiting : List (List ℕ)) (clock : Clock) → Keeps T.means Due (T.at target.old) waiting clock
        Pending (T.at target.new) waiting clock) }
    ensures failed { OnErr result ((waiting : List (List ℕ)) (clock : Clock) → Keeps T.means Due (T.at target.old) waiting clock
        Stopped (T.at target.new) waiting clock) }
    ensures same { (T.at target.new).state ≡ (T.at target.old).state }
{
    match target.commit() {
        Ok(()) => Ok(()),
        Err(error) => Err(error),
    }
}

/// Says that the next call is done.
pub(crate) fn call_done<T: KeptTarget>(target: &mut T)
    ensures keeps { (waiting : List (List ℕ)) (clock : Clock) → Keeps T.means Answered (T.at target.old) waiting clock
        Told (T.at target.new) waiting clock }
    ensures same { (T.at target.new).state ≡ (T.at target.old).state }
{
    target.call_done();
}

/// Has the file that was wanted take the place of the one that is held, and says whether it does. Then the call for that is the next one.
///
/// # Errors
///
/// No memory, or the disk's.
pub(crate) fn fold<T: KeptTarget>(target: &mut T) -> Result<bool, FileError>
    ensures put { IfOk result (λ put. put ≡ true
        → (waiting : List (List ℕ)) (clock : Clock) → Keeps T.means Folding (T.at target.old) waiting clock
        (Placing part.Named) (T.at target.new) waiting clock) }
    ensures not_put { IfOk result (λ put. put ≡ false
        → (waiting : List (List ℕ)) (clock : Clock) → Keeps T.means Folding (T.at target.old) waiting clock
        (Placing part.Discarded) (T.at target.new) waiting clock) }
    ensures failed { OnErr result ((waiting : List (List ℕ)) (clock : Clock) → Keeps T.means Folding (T.at target.old) waiting clock
        Stopped (T.at target.new) waiting clock) }
    ensures same { (T.at target.new).state ≡ (T.at target.old).state }
{
    match target.fold() {
        Ok(put) => {
            if put {
                target.call_done();
                return Ok(true);
            }
            Ok(false)
        }
        Err(error) => Err(error),
    }
}

/// Has what is to be done before the end wait as calls.
///
/// # Errors
///
/// No memory.
pub(crate) fn finish<T: KeptTarget>(target: &mut T) -> Result<(), AllocError>
    ensures done { OnOk result ((waiting : List (List ℕ)) (clock : Clock) → Keeps T.means Due (T.at target.old) waiting clock
        Pending (T.at target.new) waiting clock) }
    ensures failed { OnErr result ((waiting : List (List ℕ)) (clock : Clock) → Keeps T.means Due (T.at target.old) waiting clock
        Stopped (T.at target.new) waiting clock) }
    ensures same { (T.at target.new).state ≡ (T.at target.old).state }
{
    match target.finish() {
        Ok(()) => Ok(()),
        Err(error) => Err(error),
    }
}
