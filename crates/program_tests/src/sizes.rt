//! The sizes of runs, told by numbers.

ghost use Rattle.std.specs.Prelude.{◌≡◌, IfOk};

use program_interface::{BlockSize, RunSizes};
use std::test::Fail;

/// The sizes of runs over blocks of so many bytes, with groups of at most `limit`.
///
/// # Errors
///
/// No block has so many bytes, or such a group fits no block.
pub fn sizes(block: u32, limit: u32) -> Result<RunSizes, Fail>
    ensures { IfOk result (λ sizes. (sizes.limit ≡ limit) × (sizes.block ≡ block)) }
{
    let Some(block) = BlockSize::new(block) else {
        return Err(Fail::from("no block size"));
    };
    let Some(sizes) = RunSizes::new(block, limit) else {
        return Err(Fail::from("a group that fits no block"));
    };
    Ok(sizes)
}
