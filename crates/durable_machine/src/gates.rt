//! The sectors of gates.

ghost use Rattle.std.specs.Prelude.{◌≡◌};
ghost use Rattle.durable_machine.specs.Journal.{IsOpenGate, closed_gate};

use stored_file::SECTOR;

/// A closed gate: nothing is written in it.
pub(crate) fn closed_sector() -> [u8; SECTOR]
    ensures { result ≡ closed_gate }
{
    [0; SECTOR]
}

/// An open gate. It is written all over, so that a few bytes that change on a disk don't close it.
pub(crate) fn open_sector() -> [u8; SECTOR]
    ensures { IsOpenGate result }
{
    [1; SECTOR]
}
