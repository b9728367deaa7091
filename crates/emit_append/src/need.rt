//! How many output blocks groups can come to.

ghost use Rattle.std.specs.Prelude.{◌≡◌, ◌≤◌, ◌<◌, ◌+◌, ◌^◌};
ghost use Rattle.emit_append.specs.Need.{need, need_behind};

use program_interface::RunSizes;

/// Enough output blocks for so many groups of at most the limit's bytes each, however long each of them is; some of
/// them need as many.
pub fn blocks_needed(groups: u32, sizes: RunSizes) -> u32
    ensures { result ≡ need groups sizes }
{
    let block = sizes.block().bytes();
    let limit = sizes.limit();
    if limit == 0 {
        return 0;
    }
    groups.div_ceil(block / limit)
}

/// Enough output blocks for so many groups of at most the limit's bytes each behind so many bytes of a block that is begun, however
/// long each of the groups is; the block that is begun is one of them.
pub fn blocks_needed_behind(begun: u32, groups: u32, sizes: RunSizes) -> u32
    requires inside { begun ≤ sizes.block }
    requires few { groups + 1 < 2 ^ 32 }
    ensures { result ≡ need_behind begun groups sizes }
{
    if begun == 0 {
        return blocks_needed(groups, sizes);
    }
    let limit = sizes.limit();
    if limit == 0 {
        return 1;
    }
    let fit = (sizes.block().bytes() - begun) / limit;
    1 + blocks_needed(groups.saturating_sub(fit), sizes)
}
