//! What C asks about the calls for a file, in one way of a device and of a target.

ghost use Rattle.std.specs.Prelude.{◌≡◌, [], None, Some, IfSome, IsNone};
ghost use Rattle.std.specs.Option.{option_map_or};
ghost use Rattle.handed_file.specs.Handed.{waiting};
ghost use Rattle.handed_file.specs.Handing.{call_bytes, call_kind, call_place};
ghost use Rattle.device_library.specs.Files.{TellsNext, next_of};

use crate::kind::Question;
use crate::put::{behind, put};
use handed_file::{FileCall, HandedFile};

/// Answers a question about the call that C is to make next: there is none where all are done, or the file has to be opened again.
pub fn tell_next(
    failed: bool,
    file: &HandedFile,
    question: Question,
    from: usize,
    out: &mut [u8],
) -> usize
    ensures { TellsNext question (next_of failed (waiting file.now)) from out.old out.new result }
{
    match question {
        Question::Next => kind_of_next(failed, file),
        Question::Place => place_of_next(failed, file),
        Question::Size => bytes_of_next(failed, file).len(),
        Question::Bytes => put(behind(bytes_of_next(failed, file), from), out),
    }
}

/// The call that C is to make next.
fn next(failed: bool, file: &HandedFile) -> Option<&FileCall>
    ensures none { IsNone result → next_of failed (waiting file.now) ≡ None }
    ensures first { IfSome result (λ call. next_of failed (waiting file.now) ≡ Some call.now) }
{
    if failed {
        return None;
    }
    file.next()
}

/// Which call it is; 0 for none.
fn kind_of_next(failed: bool, file: &HandedFile) -> usize
    ensures { result ≡ option_map_or call_kind (next_of failed (waiting file.now)) 0 }
{
    match next(failed, file) {
        Some(call) => call.kind(),
        None => 0,
    }
}

/// At which offset, or to which length.
fn place_of_next(failed: bool, file: &HandedFile) -> usize
    ensures { result ≡ option_map_or call_place (next_of failed (waiting file.now)) 0 }
{
    match next(failed, file) {
        Some(call) => call.place(),
        None => 0,
    }
}

/// The bytes that are written by it, or are those of the new file that wants room.
fn bytes_of_next(failed: bool, file: &HandedFile) -> &[u8]
    ensures { result.now ≡ option_map_or call_bytes (next_of failed (waiting file.now)) [] }
{
    match next(failed, file) {
        Some(call) => call.bytes(),
        None => &[],
    }
}
