//! What the user is told of how serving ended.

ghost use Rattle.command_serve.specs.Served.{IsToldOf};
ghost use Rattle.command_serve.specs.steps.Told.{IsTold};

use crate::opening::failed;
use crate::serve::INPUT;
use command_files::{Failure, FileCause};
use device_serve::ServeFault;
use event_frames::StreamFault;
use stored_file::FileError;

/// What the command comes to, by how serving ended.
pub(crate) fn told<'a>(path: &'a str, done: Result<(), ServeFault>) -> Result<(), Failure<'a>>
    ensures { IsTold path.now done result }
{
    match done {
        Ok(()) => Ok(()),
        Err(fault) => Err(failure_of(path, fault)),
    }
}

/// What the user is told where the input is served no further.
fn failure_of<'a>(path: &'a str, fault: ServeFault) -> Failure<'a>
    ensures { IsToldOf path.now fault result }
{
    match fault {
        ServeFault::Read => Failure::CannotRead(INPUT, FileCause::Other),
        ServeFault::Stream(StreamFault::Byte { place, field }) => {
            Failure::StreamRefused { place, field }
        }
        ServeFault::Stream(StreamFault::CutOff { place }) => Failure::StreamCutOff { place },
        ServeFault::Line { number, fault } => Failure::LineRefused {
            path: INPUT,
            line: number,
            fault,
        },
        ServeFault::Write => Failure::CannotPrint,
        ServeFault::Disk => failed(path, FileError::Failed),
        ServeFault::Stream(StreamFault::Memory) | ServeFault::Memory | ServeFault::Save => {
            Failure::NoMemory
        }
    }
}
