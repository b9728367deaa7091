//! What a crash leaves of a change.

ghost use Rattle.std.specs.Prelude.{◌≡◌, ◌<◌, ◌≤◌, ℕ, length, vec_len, IfOk};
ghost use Rattle.stored_file.specs.File.{Torn, Cut};
ghost use Rattle.stored_file.specs.Unsynced.{IsLeftOf};

use crate::change::Change;
use crate::choices::Choices;
use crate::written::written;
use std::alloc::{AllocError, Global};

/// What a crash may leave of a change of a file.
pub(crate) fn left_by(
    alloc: Global,
    old: &[u8],
    change: &Change,
    choices: &mut Choices,
) -> Result<Vec<u8>, AllocError>
    ensures { IfOk result (λ left. IsLeftOf change.now old.now left.items) }
{
    match change {
        Change::Written { at, bytes } => torn(alloc, old, *at, bytes.as_slice(), choices),
        Change::Shortened(len) => {
            let least = old.len().min(*len);
            let left = least + choices.up_to(old.len() - least);
            old[..left].to_vec(alloc)
        }
        Change::Renewed { at, bytes } if choices.up_to(1) == 1 && *at <= old.len() => {
            written(alloc, old, *at, bytes)
        }
        Change::Renewed { .. } => old.to_vec(alloc),
        Change::Settled(bytes) => bytes.to_vec(alloc),
    }
}

/// What a crash may leave of a write.
fn torn(
    alloc: Global,
    old: &[u8],
    at: usize,
    bytes: &[u8],
    choices: &mut Choices,
) -> Result<Vec<u8>, AllocError>
    ensures { IfOk result (λ left. Torn at (length bytes.now) old.now left.items) }
{
    if at > old.len() {
        return old.to_vec(alloc);
    }
    let (front, behind) = old.split_at(at);
    if bytes.len() < behind.len() {
        let mut left = front.to_vec(alloc)?;
        left.extend_from_slice(choices.torn(alloc, behind, bytes)?.as_slice())?;
        left.extend_from_slice(&behind[bytes.len()..])?;
        Ok(left)
    } else {
        let length = behind.len() + choices.up_to(bytes.len() - behind.len());
        let mut left = front.to_vec(alloc)?;
        left.extend_from_slice(choices.torn(alloc, behind, &bytes[..length])?.as_slice())?;
        Ok(left)
    }
}
