//! The machine of a file that is only read.

ghost use Rattle.std.specs.Prelude.{IfOk, IfErr};
ghost use Rattle.durable_machine.specs.Files.{IsItsState};
ghost use Rattle.durable_machine.specs.Refused.{IsRefused};

use crate::finding::find;
use crate::{Fault, Machine};
use std::alloc::Global;
use stored_file::SliceReading;

/// The machine in the state that the bytes of a file stand for. It is that of [`Durable::open_read`](crate::Durable::open_read), which
/// the same bytes open and refuse; but nothing is brought to a disk.
///
/// # Errors
///
/// The bytes don't begin with a base in whole sectors, or have what no crash leaves: then they stand for no state. Or no memory.
pub fn machine_in<M: Machine + Drop>(alloc: Global, file: &[u8]) -> Result<M, Fault>
    ensures state { IfOk result (λ machine. IsItsState M.loads M.next file.now machine) }
    ensures refused { IfErr result (λ fault. IsRefused M.loads M.next file.now fault) }
{
    let found = find(alloc, &mut SliceReading::new(file))?;
    Ok(found.machine)
}
