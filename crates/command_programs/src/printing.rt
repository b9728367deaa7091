//! Texts on standard output.

ghost use Rattle.std.specs.Prelude.{◌≡◌, IfErr, OnOk};
ghost use Rattle.std.specs.Io.KnownBytes.{Appends};

use command_files::{Failure, printed};
use std::io::Write;

/// Prints bytes, and nothing else.
///
/// # Errors
///
/// [`Failure::CannotPrint`].
pub(crate) fn print<'a, O: Write>(bytes: &[u8], out: &mut O) -> Result<(), Failure<'a>>
    ensures printed { OnOk result (Appends (O.contents out.old) (O.contents out.new) bytes.now) }
    ensures failed { IfErr result (λ failure. failure ≡ Failure.CannotPrint) }
{
    printed(out.write_all(bytes))
}
