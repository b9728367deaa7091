//! An operation that C is to make.

ghost use Rattle.std.specs.Prelude.{◌≡◌};
ghost use Rattle.device_library.specs.Operations.{head, head_of, is_beside, reads_of, writes_of};

use crate::flags::bytes_of;
use tcp_loop::{Operation, PLACES, Which};

/// What is told of an operation beside its bytes.
#[derive(Clone, Copy)]
pub struct OperationHead {
    /// Which it is.
    pub kind: u32,
    /// A place, an offset, a length or milliseconds; else 0.
    pub number: usize,
    /// Whether it is for the new file, hosts are waited for, a line has a cause, or all was done before the end; else no.
    pub flag: bool,
}

/// An operation, as C is told it.
pub(crate) fn head_of(operation: Operation) -> OperationHead
    ensures { result ≡ head_of operation }
{
    match operation {
        Operation::Poll {
            watched,
            milliseconds,
        } => head(0, milliseconds as usize, watched.accepts),
        Operation::Signal => head(1, 0, false),
        Operation::Now => head(2, 0, false),
        Operation::Accept { place } => head(3, place, false),
        Operation::Read { place } => head(4, place, false),
        Operation::Write { place } => head(5, place, false),
        Operation::Close { place } => head(6, place, false),
        Operation::Pwrite { file, at } => head(7, at, is_beside(file)),
        Operation::Ftruncate { len } => head(8, len, false),
        Operation::Fsync { file } => head(9, 0, is_beside(file)),
        Operation::Create => head(10, 0, false),
        Operation::Rename => head(11, 0, false),
        Operation::SyncFolder => head(12, 0, false),
        Operation::Discard => head(13, 0, false),
        Operation::Log { cause } => head(14, 0, cause),
        Operation::End { done } => head(15, 0, done),
    }
}

fn head(kind: u32, number: usize, flag: bool) -> OperationHead
    ensures { result ≡ head kind number flag }
{
    OperationHead { kind, number, flag }
}

/// Is it the new file?
fn is_beside(file: Which) -> bool
    ensures { result ≡ is_beside file }
{
    match file {
        Which::Held => false,
        Which::Beside => true,
    }
}

/// 1 for each place on which bytes may come, where something is waited for.
pub(crate) fn reads_of(operation: Operation) -> [u8; PLACES]
    ensures { result ≡ reads_of operation }
{
    match operation {
        Operation::Poll { watched, .. } => bytes_of(watched.reads),
        _ => [0; PLACES],
    }
}

/// 1 for each that may take bytes.
pub(crate) fn writes_of(operation: Operation) -> [u8; PLACES]
    ensures { result ≡ writes_of operation }
{
    match operation {
        Operation::Poll { watched, .. } => bytes_of(watched.writes),
        _ => [0; PLACES],
    }
}
