//! Whole files, and what the user is told of a file that fails.

ghost use Rattle.std.specs.Prelude.{◌≡◌, ◌≢◌, ◌≤◌, ◌*◌, ◌^◌, IfErr, IfOk, None, OnOk, OnErr, length};
ghost use Rattle.program_interface.specs.BlockSize.{block_size as size_of_bytes};
ghost use Rattle.command_files.specs.Crash.{LeavesOthers};
ghost use Rattle.command_files.specs.Made.{AreAsTold, HasReplaced, then_made};
ghost use Rattle.command_files.specs.UserTold.{IsUnread, IsUnwritten, told_unread, told_unwritten};

use crate::failure::Failure;
use crate::files::{FileFault, Files};
use program_interface::{BlockSize, LARGEST_BLOCK};

/// All bytes of a file, of which it has at most so many times 2^20; of standard input where the name is `-`. Where it can't be read, its
/// name is told. No file changes.
///
/// # Errors
///
/// [`Failure::CannotRead`] with its name, or [`Failure::NoMemory`].
pub fn read<'a, F: Files>(
    path: &'a str,
    mebibytes: u32,
    files: &mut F,
) -> Result<Vec<u8>, Failure<'a>>
    ensures made { F.made files.new ≡ F.made files.old }
    ensures tried { F.tried files.new ≡ F.tried files.old }
    ensures contents { F.contents files.new ≡ F.contents files.old }
    ensures modes { F.modes files.new ≡ F.modes files.old }
    ensures held { F.held files.new ≡ F.held files.old }
    ensures bytes { IfOk result (λ file. AreAsTold (F.contents files.old path.now) file.items) }
    ensures within { IfOk result (λ file. length file.items ≤ mebibytes * 2 ^ 20) }
    ensures unread { IfErr result (IsUnread path.entry) }
    ensures not_printing { result ≢ Err Failure.CannotPrint }
{
    match files.read(path, mebibytes) {
        Ok(bytes) => Ok(bytes),
        Err(fault) => Err(cannot_read(path, fault)),
    }
}

/// Makes a file of these bytes, in place of the one with this name, and leaves each other as it was. Where it can't be
/// written, none is made, each has the bytes that it had, and its name is told.
///
/// # Errors
///
/// [`Failure::CannotWrite`] with its name, or [`Failure::NoMemory`].
pub fn write<'a, F: Files>(path: &'a str, bytes: &[u8], files: &mut F) -> Result<(), Failure<'a>>
    ensures made { OnOk result (F.made files.new ≡ then_made (F.made files.old) path.now bytes.now) }
    ensures kept { OnErr result (F.made files.new ≡ F.made files.old) }
    ensures crash { LeavesOthers path.now (F.tried files.old) (F.tried files.new) }
    ensures replaced { OnOk result (HasReplaced path.now bytes.now (F.contents files.old) (F.contents files.new)) }
    ensures contents { OnErr result (F.contents files.new ≡ F.contents files.old) }
    ensures unwritten { IfErr result (IsUnwritten path.entry) }
{
    match files.write(path, bytes) {
        Ok(()) => Ok(()),
        Err(fault) => Err(cannot_write(path, fault)),
    }
}

/// The size of the block that a file of so many bytes is. Where no block has as many, this number and the file's name
/// are told.
///
/// # Errors
///
/// [`Failure::NotABlock`] with its name where no block has as many.
pub fn size_as_block<'a>(path: &'a str, bytes: usize) -> Result<BlockSize, Failure<'a>>
    ensures same { IfOk result (λ block. block ≡ bytes) }
    ensures most { OnOk result (bytes ≤ LARGEST_BLOCK) }
    ensures told { IfErr result (λ failure. failure ≡ Failure.NotABlock path.entry bytes) }
    ensures refused { OnErr result (size_of_bytes bytes ≡ None) }
{
    let size = match u32::try_from(bytes) {
        Ok(bytes) => BlockSize::new(bytes),
        Err(_) => None,
    };
    match size {
        Some(size) => {
            // Brings in the most bytes that a block has.
            let _ = size.bytes();
            Ok(size)
        }
        None => Err(Failure::NotABlock { path, bytes }),
    }
}

/// The failure of reading a file: its name and the cause, or that memory is wanting.
pub fn cannot_read<'a>(path: &'a str, fault: FileFault) -> Failure<'a>
    ensures told { result ≡ told_unread path.entry fault }
    ensures unread { IsUnread path.entry result }
    ensures not_printing { result ≢ Failure.CannotPrint }
{
    match fault {
        FileFault::Failed(cause) => Failure::CannotRead(path, cause),
        FileFault::Memory => Failure::NoMemory,
    }
}

/// The failure of writing a file: its name and the cause, or that memory is wanting.
pub fn cannot_write<'a>(path: &'a str, fault: FileFault) -> Failure<'a>
    ensures told { result ≡ told_unwritten path.entry fault }
    ensures unwritten { IsUnwritten path.entry result }
    ensures not_printing { result ≢ Failure.CannotPrint }
{
    match fault {
        FileFault::Failed(cause) => Failure::CannotWrite(path, cause),
        FileFault::Memory => Failure::NoMemory,
    }
}
