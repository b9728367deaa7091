//! A number that is kept in a file: its events are noted, done and committed.

ghost use Rattle.std.specs.Prelude.{OnOk};
ghost use Rattle.durable_machine_tests.specs.Kept.{IsKept};

use crate::Number;
use durable_machine::{Durable, Machine, Store};
use std::alloc::{AllocError, Global};
use stored_file::{FileError, TearingFile};

/// Does events, and commits them together.
pub fn serve(
    alloc: Global,
    store: &mut Durable<Number, TearingFile>,
    events: &[Vec<u8>],
) -> Result<(), FileError>
    requires { IsKept store.old }
    ensures { OnOk result (IsKept store.new) }
{
    for event in events {
        apply(alloc, store, event)?;
    }
    commit(alloc, store)
}

/// Does an event. It is noted first; the note is taken back where the event changed nothing.
pub fn apply(
    alloc: Global,
    store: &mut Durable<Number, TearingFile>,
    event: &[u8],
) -> Result<(), AllocError>
    requires { IsKept store.old }
    ensures { OnOk result (IsKept store.new) }
{
    let before = Store::<Number>::note(&mut store.events, event, &[], &[])?;
    let done = store.machine.apply(alloc, event)?;
    if !done.changes {
        Store::<Number>::take_back(&mut store.events, before);
    }
    Ok(())
}

/// Commits what was done.
pub fn commit(alloc: Global, store: &mut Durable<Number, TearingFile>) -> Result<(), FileError>
    requires { IsKept store.old }
    ensures { OnOk result (IsKept store.new) }
{
    Store::<Number>::commit(&mut store.events, alloc)?;
    Ok(())
}
