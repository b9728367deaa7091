//! Files of the system that are written at once: beside the one that a name leads to, whose place the new one takes, or where that stands.

ghost use Rattle.std.specs.Prelude.{◌≡◌, [], ◌∷◌, ◌++◌, OnErr, OnOk, string_bytes};
ghost use Rattle.placed_file.specs.Placing.{after_rename, begun};
ghost use Rattle.command_files.specs.Crash.{LeavesOldOrNew, LeavesOthers};
ghost use Rattle.command_files.specs.Made.{told_made};

use crate::file_cause::FileCause;
use crate::files::FileFault;
use crate::held_file::leads_to_a_stream;
use crate::unfinished::{FileWriter, HeldName, begin_beside, place_under};
use placed_file::{Attempts, Progress, Written};
use std::fs::File;
use std::{fs, rt};

/// Writes a file of these bytes beside the one that a name leads to, and gives it the name: whenever this ends, the name leads to all of
/// the old bytes or to all of the new.
///
/// # Errors
///
/// The name leads to no ordinary file ([`FileCause::NotOrdinary`]), or is that of a stream which is open; or those of the system.
pub(crate) fn write_beside<R: rt::Files<File = File> + AllocGlobal>(
    rt: &R,
    path: &str,
    bytes: &[u8],
    tried: &mut Attempts,
) -> Result<(), FileFault>
    ensures made { OnOk result
        (told_made tried.new.attempts ≡ told_made tried.old.attempts ++ record { path = path.now; bytes = bytes.now } ∷ []) }
    ensures kept { OnErr result (told_made tried.new.attempts ≡ told_made tried.old.attempts) }
    ensures crash { LeavesOldOrNew path.now (λ new. new ≡ bytes.now) tried.old.attempts tried.new.attempts }
{
    if leads_to_a_stream(rt, path)? {
        return Err(FileFault::Failed(FileCause::NotOrdinary));
    }
    let held = HeldName::of(rt, path)?;
    let mut file = begin_beside(rt, &held)?;
    let done = write_under(rt, &held, bytes, &mut file, tried);
    if done.is_err() {
        // What failed is told; a failure to remove the file would hide it.
        let _ = fs::remove_file(rt, file.name.as_str());
    }
    done
}

/// Writes bytes to a file of none yet, and gives it the name that is held.
fn write_under<R: rt::Files<File = File>>(
    rt: &R,
    held: &HeldName,
    bytes: &[u8],
    file: &mut FileWriter,
    tried: &mut Attempts,
) -> Result<(), FileFault>
    requires { file.old.written.bytes ≡ [] }
    ensures made { OnOk result (told_made tried.new.attempts
        ≡ told_made tried.old.attempts ++ record { path = string_bytes held.now.name; bytes = bytes.now } ∷ []) }
    ensures kept { OnErr result (told_made tried.new.attempts ≡ told_made tried.old.attempts) }
    ensures crash { LeavesOldOrNew (string_bytes held.now.name) (λ new. new ≡ bytes.now) tried.old.attempts tried.new.attempts }
{
    file.hand_over(bytes)?;
    put_under(rt, held, file, tried)
}

/// Gives a file that is written the name that is held.
///
/// # Errors
///
/// Those of the system, also where a write to it failed.
pub(crate) fn put_under<R: rt::Files<File = File>>(
    rt: &R,
    held: &HeldName,
    file: &mut FileWriter,
    tried: &mut Attempts,
) -> Result<(), FileFault>
    ensures made { OnOk result (told_made tried.new.attempts
        ≡ told_made tried.old.attempts ++ record { path = string_bytes held.now.name; bytes = file.old.written.bytes } ∷ []) }
    ensures kept { OnErr result (told_made tried.new.attempts ≡ told_made tried.old.attempts) }
    ensures crash { LeavesOldOrNew
        (string_bytes held.now.name) (λ new. new ≡ file.old.written.bytes) tried.old.attempts tried.new.attempts }
{
    file.complete()?;
    let (done, progress) = place_under(rt, held, file);
    tried.add(held.name.as_bytes(), &file.written, &progress, done.is_ok());
    done
}

/// Writes these bytes to where a name leads: to a pipe, to a device, or over a file that stands there.
///
/// # Errors
///
/// Those of the system. A beginning of the bytes may be written then.
pub(crate) fn write_there<R: rt::Files>(
    rt: &R,
    path: &str,
    bytes: &[u8],
    tried: &mut Attempts,
) -> Result<(), FileFault>
    ensures made { OnOk result
        (told_made tried.new.attempts ≡ told_made tried.old.attempts ++ record { path = path.now; bytes = bytes.now } ∷ []) }
    ensures kept { OnErr result (told_made tried.new.attempts ≡ told_made tried.old.attempts) }
    ensures crash { LeavesOthers path.now tried.old.attempts tried.new.attempts }
{
    let mut written = Written::new();
    written.add(bytes);
    let done = fs::write(rt, path, bytes);
    tried.add(
        path.as_bytes(),
        &written,
        &in_its_place(done.is_ok()),
        done.is_ok(),
    );
    Ok(done?)
}

/// What was done for a file that is written where it stands: a crash may leave anything of it.
fn in_its_place(done: bool) -> Progress
    ensures { result ≡ after_rename done begun }
{
    let mut progress = Progress::begun();
    progress.note_rename(done);
    progress
}
