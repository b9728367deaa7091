//! What is whole of a journal becomes a new file.

ghost use Rattle.std.specs.Prelude.{◌≡◌, ◌<◌, ◌^◌, ◌-◌, IfErr, IfOk, OnErr, OnOk, Some};
ghost use Rattle.std.specs.Io.KnownBytes.{Appends};
ghost use Rattle.common_definitions.specs.Failures.{CountsFailure};
ghost use Rattle.image_text.specs.Streams.{Takes};
ghost use Rattle.command_files.specs.Crash.{AreWritten, LeavesOldOrNew};
ghost use Rattle.command_files.specs.Made.{then_made};
ghost use Rattle.command_files.specs.Surroundings.{KeepsAll, Replaces};
ghost use Rattle.command_files.specs.UserTold.{IsUnwritten};
ghost use Rattle.command_serve.specs.Salvaging.{AreSaved, IsNewFile, IsNotMade, IsSavedOf, IsUnsaved, Salvages, SalvagingFails, saved_line};

use crate::opening::refused;
use command_files::{Failure, FileCause, Files, cannot_read, cannot_write};
use command_images::device_file::read_held;
use command_images::image_file;
use device_salvage::Saved;
use image_text::{Sink, StreamFault};
use std::alloc::Global;
use std::io::{self, Write};

/// Makes a new file of a journal, damaged or not: a base of the device after the batches that stand whole, and an empty journal. How many
/// these are, and how many others are left out, is printed before. The journal stays as it is.
///
/// # Errors
///
/// The journal is in use, can't be read or has no base of this device; a file of the new name is there; the new file can't be written;
/// standard output fails; or memory is wanting. No file is made then, but for what [`Files::finish`] says.
pub(crate) fn salvage<'a, F: Files, O: Write>(
    alloc: Global,
    path: &'a str,
    to: &'a str,
    files: &mut F,
    out: &mut O,
) -> Result<(), Failure<'a>>
    ensures salvaged { OnOk result (Salvages F.Writer.tells (F.contents files.old path.now) to.now
        (F.made files.old) (F.made files.new) (O.contents out.old) (O.contents out.new)) }
    ensures new_file { OnOk result (IsNewFile path.now to.now (F.contents files.old to.now)) }
    ensures failed { IfErr result (SalvagingFails (F.contents files.old path.now) path.now to.now) }
    ensures crash { let held = F.contents files.old path.now in
        LeavesOldOrNew to.now (AreSaved F.Writer.tells held) (F.tried files.old) (F.tried files.new) }
    ensures replaced { OnOk result (Replaces F.Files to.now files.old files.new) }
    ensures kept { OnErr result (KeepsAll F.Files files.old files.new) }
{
    match saved_of(alloc, path, files) {
        Ok(saved) => put_new(&saved, path, to, files, out),
        Err(failure) => Err(failure),
    }
}

/// Makes a new file of what is saved of a journal. What is left out is printed before.
fn put_new<'a, F: Files, O: Write>(
    saved: &Saved,
    path: &str,
    to: &'a str,
    files: &mut F,
    out: &mut O,
) -> Result<(), Failure<'a>>
    ensures saved { OnOk result (F.Writer.tells → F.made files.new ≡ then_made (F.made files.old) to.now saved.now.file.items) }
    ensures said { OnOk result (Appends (O.contents out.old) (O.contents out.new)
        (saved_line saved.now.end saved.now.whole saved.now.readable)) }
    ensures new_file { OnOk result (IsNewFile path.now to.now (F.contents files.old to.now)) }
    ensures failed { IfErr result (IsNotMade to.entry) }
    ensures crash { LeavesOldOrNew to.now (AreWritten F.Writer.tells saved.now.file.items) (F.tried files.old) (F.tried files.new) }
    ensures replaced { OnOk result (Replaces F.Files to.now files.old files.new) }
    ensures kept { OnErr result (KeepsAll F.Files files.old files.new) }
{
    if let Err(failure) = hold_new(path, to, files) {
        return Err(failure);
    }
    match print(saved.end, saved.whole, saved.readable, out) {
        Ok(()) => put(&saved.file, to, files),
        Err(_) => Err(Failure::CannotPrint),
    }
}

/// What is saved of the journal with this name. It is held while it is read.
fn saved_of<'a, F: Files>(alloc: Global, path: &'a str, files: &mut F) -> Result<Saved, Failure<'a>>
    ensures saved { IfOk result (λ saved.
        IsSavedOf (F.contents files.old path.now) saved.end saved.whole saved.readable saved.file.items) }
    ensures failed { IfErr result (IsUnsaved (F.contents files.old path.now) path.now) }
    ensures made { F.made files.new ≡ F.made files.old }
    ensures contents { F.contents files.new ≡ F.contents files.old }
    ensures modes { F.modes files.new ≡ F.modes files.old }
    ensures tried { F.tried files.new ≡ F.tried files.old }
{
    match image_file::hold(path, files) {
        Ok(()) => saved_of_held(alloc, path, files),
        Err(failure) => Err(failure),
    }
}

/// What is saved of the journal whose name is held.
fn saved_of_held<'a, F: Files>(
    alloc: Global,
    path: &'a str,
    files: &mut F,
) -> Result<Saved, Failure<'a>>
    requires { F.held files.old ≡ Some path.now }
    ensures saved { IfOk result (λ saved.
        IsSavedOf (F.contents files.old path.now) saved.end saved.whole saved.readable saved.file.items) }
    ensures failed { IfErr result (IsUnsaved (F.contents files.old path.now) path.now) }
    ensures made { F.made files.new ≡ F.made files.old }
    ensures contents { F.contents files.new ≡ F.contents files.old }
    ensures modes { F.modes files.new ≡ F.modes files.old }
    ensures tried { F.tried files.new ≡ F.tried files.old }
{
    // A file that isn't there has no bytes, and is reported.
    if let Err(fault) = files.open_held(path) {
        return Err(cannot_read(path, fault));
    }
    match read_held(path, files) {
        Ok(bytes) => saved_in(alloc, path, &bytes),
        Err(failure) => Err(failure),
    }
}

/// What is saved of the bytes of a journal.
fn saved_in<'a>(alloc: Global, path: &'a str, bytes: &[u8]) -> Result<Saved, Failure<'a>>
    ensures saved { IfOk result (λ saved.
        IsSavedOf (Some bytes.now) saved.end saved.whole saved.readable saved.file.items) }
    ensures failed { IfErr result (IsUnsaved (Some bytes.now) path.now) }
{
    match device_salvage::salvage(alloc, bytes) {
        Ok(saved) => Ok(saved),
        Err(fault) => Err(refused(alloc, path, bytes, fault)),
    }
}

/// Holds the name of a new file: no file with bytes has it.
fn hold_new<'a, F: Files>(path: &str, to: &'a str, files: &mut F) -> Result<(), Failure<'a>>
    ensures new_file { OnOk result (IsNewFile path.now to.now (F.contents files.old to.now)) }
    ensures held { OnOk result (F.held files.new ≡ Some to.now) }
    ensures unwritten { IfErr result (IsUnwritten to.entry) }
    ensures made { F.made files.new ≡ F.made files.old }
    ensures contents { F.contents files.new ≡ F.contents files.old }
    ensures modes { F.modes files.new ≡ F.modes files.old }
    ensures tried { F.tried files.new ≡ F.tried files.old }
{
    if path == to {
        return Err(Failure::CannotWrite(to, FileCause::Exists));
    }
    if let Err(fault) = files.hold(to) {
        return Err(cannot_write(to, fault));
    }
    match files.first_bytes(to, 1) {
        Ok(first) if first.is_empty() => Ok(()),
        Ok(_) => Err(Failure::CannotWrite(to, FileCause::Exists)),
        Err(fault) => Err(cannot_write(to, fault)),
    }
}

/// Prints how many batches are whole, where they end, and how many others are left out.
fn print<O: Write>(end: usize, whole: usize, readable: usize, out: &mut O) -> io::Result<()>
    ensures { OnOk result (Appends (O.contents out.old) (O.contents out.new) (saved_line end whole readable)) }
{
    writeln!(
        out,
        "batches up to number {whole} are whole, up to byte {end}; {readable} after it are left out"
    )
}

/// Makes a file of these bytes, of the name that is held.
fn put<'a, F: Files>(bytes: &[u8], path: &'a str, files: &mut F) -> Result<(), Failure<'a>>
    requires { F.held files.old ≡ Some path.now }
    ensures saved { OnOk result (F.Writer.tells → F.made files.new ≡ then_made (F.made files.old) path.now bytes.now) }
    ensures unwritten { IfErr result (IsUnwritten path.entry) }
    ensures crash { LeavesOldOrNew path.now (AreWritten F.Writer.tells bytes.now) (F.tried files.old) (F.tried files.new) }
    ensures replaced { OnOk result (Replaces F.Files path.now files.old files.new) }
    ensures kept { OnErr result (KeepsAll F.Files files.old files.new) }
{
    let mut file = match files.begin(path) {
        Ok(file) => file,
        Err(fault) => return Err(cannot_write(path, fault)),
    };
    if write_all(&mut file, bytes).is_err() {
        return Err(Failure::CannotWrite(path, files.discard(file)));
    }
    match files.finish(path, file) {
        Ok(()) => Ok(()),
        Err(fault) => Err(cannot_write(path, fault)),
    }
}

/// Hands all bytes to a sink.
fn write_all<W: Sink>(sink: &mut W, bytes: &[u8]) -> Result<(), StreamFault>
    requires { W.failures sink.old < 2 ^ 64 - 1 }
    ensures text { W.tells → Takes (W.taken sink.old) (W.taken sink.new) bytes.now result }
    ensures failures { CountsFailure (W.failures sink.old) (W.failures sink.new) result }
{
    let mut rest = bytes;
    while !rest.is_empty() {
        let count = sink.write(rest)?;
        rest = &rest[count..];
    }
    Ok(())
}
