//! What the user is told of a file that fails, or of what it has.

ghost use Rattle.std.specs.Prelude.{◌≡◌, codes, ◌∷◌, ◌++◌, []};
ghost use Rattle.command_files.specs.FileCause.{cause_words};
ghost use Rattle.command_files.specs.JournalFault.{fault_words};
ghost use Rattle.command_files.specs.Lines.{cause_sentence, damage_line, device_text, journal_line, journal_told, not_a_block_text, not_an_image_text};
ghost use Rattle.command_files.specs.Pieces.{pieces_text, text_with};
ghost use Rattle.command_files.specs.Shown.{shown};

use crate::file_cause::FileCause;
use crate::journal_fault::JournalFault;
use crate::pieces::Piece::{Named, Nothing, Number, Plain};
use crate::pieces::Pieces;

/// A file that fails: why, where that is known, and the line for scripts, which begins so.
pub(crate) fn of_cause<'p>(path: &'p str, cause: FileCause, script: &'p str) -> Pieces<'p>
    ensures { pieces_text result ≡ cause_sentence (shown path.now) cause ++ (script.now ++ shown path.now ++ 10 ∷ []) }
{
    match cause {
        FileCause::Other => of_script(script, path),
        FileCause::LargerThan(mebibytes) => of_large(path, mebibytes, script),
        _ => of_file(path, cause, script),
    }
}

/// The line for scripts alone.
fn of_script<'p>(script: &'p str, path: &'p str) -> Pieces<'p>
    ensures { pieces_text result ≡ script.now ++ shown path.now ++ 10 ∷ [] }
{
    [
        Plain(script),
        Named(path),
        Plain("\n"),
        Nothing,
        Nothing,
        Nothing,
        Nothing,
    ]
}

/// A file that fails, with these words of its cause.
fn of_file<'p>(path: &'p str, cause: FileCause, script: &'p str) -> Pieces<'p>
    ensures { pieces_text result
        ≡ (shown path.now ++ codes ": " ++ cause_words cause ++ 10 ∷ []) ++ (script.now ++ shown path.now ++ 10 ∷ []) }
{
    let words = cause.words();
    [
        Named(path),
        Plain(": "),
        Plain(words),
        Plain("\n"),
        Plain(script),
        Named(path),
        Plain("\n"),
    ]
}

/// A file that has more bytes than are read of it.
fn of_large<'p>(path: &'p str, mebibytes: u32, script: &'p str) -> Pieces<'p>
    ensures { pieces_text result
        ≡ cause_sentence (shown path.now) (FileCause.LargerThan mebibytes) ++ (script.now ++ shown path.now ++ 10 ∷ []) }
{
    [
        Named(path),
        Number(": larger than ", mebibytes as u64),
        Plain(" MiB, the most that is read of it\n"),
        Plain(script),
        Named(path),
        Plain("\n"),
        Nothing,
    ]
}

/// A file that isn't replaced by an image, since it has bytes that are none.
pub(crate) fn of_no_image(path: &str) -> Pieces<'_>
    ensures { pieces_text result ≡ text_with [] (not_an_image_text (shown path.now)) }
{
    [
        Named(path),
        Plain(": it has bytes that are no image; `--force` replaces it\ncannot write "),
        Named(path),
        Plain("\n"),
        Nothing,
        Nothing,
        Nothing,
    ]
}

/// A file of so many bytes, as which there is no block.
pub(crate) fn of_no_block(path: &str, bytes: usize) -> Pieces<'_>
    ensures { pieces_text result ≡ text_with [] (not_a_block_text (shown path.now) bytes) }
{
    [
        Named(path),
        Number(": ", bytes as u64),
        Plain(" bytes; a block has a power of 2 from 512 to 16384\ngeometry refused 1\n"),
        Nothing,
        Nothing,
        Nothing,
        Nothing,
    ]
}

/// A journal in which something is wrong at a byte.
pub(crate) fn of_journal(path: &str, place: usize, fault: JournalFault) -> Pieces<'_>
    ensures { pieces_text result ≡ journal_told (shown path.now) place fault }
{
    match fault {
        JournalFault::NoBase => of_place(path, place, "no whole base of a device"),
        JournalFault::OpenGate => {
            of_place(
                path,
                place,
                "an open gate, and no whole batch of events after it",
            )
        }
        JournalFault::Damaged { whole, readable } => of_damage(path, place, whole, readable),
        JournalFault::Undone => {
            of_place(
                path,
                place,
                "an event that changes nothing when it is done again",
            )
        }
        JournalFault::MadeBy { version, profile } => of_maker(path, place, version, profile),
    }
}

/// A journal that is damaged at a byte, with how many batches are whole before it, and readable after it.
fn of_damage(path: &str, place: usize, whole: usize, readable: usize) -> Pieces<'_>
    ensures { pieces_text result ≡ damage_line (shown path.now) place (fault_words (JournalFault.Damaged whole readable)) }
{
    [
        Named(path),
        Number(": damaged at byte ", place as u64),
        Number(": batches up to number ", whole as u64),
        Number(" are whole, ", readable as u64),
        Number(
            " after it are readable; `zscli fold IMAGE --salvage TO` saves the whole ones\njournal refused ",
            place as u64,
        ),
        Plain("\n"),
        Nothing,
    ]
}

/// A journal that this version of the device made, with this profile.
fn of_maker(path: &str, place: usize, version: u64, profile: u64) -> Pieces<'_>
    ensures { pieces_text result ≡ journal_line (shown path.now) place (fault_words (JournalFault.MadeBy version profile)) }
{
    [
        Named(path),
        Number(", byte ", place as u64),
        Number(": made by version ", version),
        Number(" of the device (profile ", profile),
        Number("); open it with that\njournal refused ", place as u64),
        Plain("\n"),
        Nothing,
    ]
}

/// A journal of which these words say what is wrong at a byte.
fn of_place<'p>(path: &'p str, place: usize, words: &'p str) -> Pieces<'p>
    ensures { pieces_text result ≡ journal_line (shown path.now) place words.now }
{
    [
        Named(path),
        Number(", byte ", place as u64),
        Plain(": "),
        Plain(words),
        Number("\njournal refused ", place as u64),
        Plain("\n"),
        Nothing,
    ]
}

/// A journal whose device has more than an image keeps.
pub(crate) fn of_device(path: &str) -> Pieces<'_>
    ensures { pieces_text result ≡ text_with [] (device_text (shown path.now)) }
{
    let words =
        ": its device has a program or a run, which no image keeps; `serve --durable` keeps them\ndevice refused\n";
    [
        Named(path),
        Plain(words),
        Nothing,
        Nothing,
        Nothing,
        Nothing,
        Nothing,
    ]
}
