//! Laws of the definitions: what they mean, in words of their own. Each function does nothing: what it ensures is the law.

ghost use Rattle.emit_append.specs.Unpacking.{PackedFramesReadBack, RefusedIsLowest, UnpackedIsFrames};
ghost use Rattle.emit_append.specs.GoingOn.{PackingGoesOn};
ghost use Rattle.emit_append.specs.Need.{NeedBehindFalls, NeedBehindGrows, NeedBehindIsEnough, NeedGrows, NeedIsEnough, NeedIsMet};
ghost use Rattle.emit_append.specs.OutputBlocks.{OutputBlocksAreBytes, OutputBlocksAreWhole};
ghost use Rattle.emit_append.specs.PackedLaw.{PackedAsDescribed};
ghost use Rattle.emit_append.specs.Packer.{LendingIsFinishing, LendingIsPutting, PuttingIsPacking};

/// Where each group fits into a block, the groups that have bytes stand in the blocks whole and in order, at
/// least one in each, the rest of a block is zeros and shorter than the next group. This holds of the packing
/// alone.
pub fn packed_as_described()
    ensures { PackedAsDescribed }
{}

/// Each output block has the block size's bytes, and no more are pending, where each group fits into
/// a block.
pub fn output_blocks_are_whole()
    ensures { OutputBlocksAreWhole }
{}

/// Groups of bytes come to blocks of bytes: what fills a block up is a byte too.
pub fn output_blocks_are_bytes()
    ensures { OutputBlocksAreBytes }
{}

/// Packing goes on from what is pending as from a first group: the blocks, those released, and what
/// is pending in the end.
pub fn packing_goes_on()
    ensures { PackingGoesOn }
{}

/// Groups put one after another give all blocks of their packing but the last, and finishing gives
/// that one too.
pub fn putting_is_packing()
    ensures { PuttingIsPacking }
{}

/// A caller that adds a group, which fits into a block, where there is room, and else takes the pending block with its zeros,
/// clears the packer and adds the group then, has put it: the blocks and the packer are those of
/// putting.
pub fn lending_is_putting()
    ensures { LendingIsPutting }
{}

/// A caller that takes the pending block with its zeros, where something is pending, has finished.
pub fn lending_is_finishing()
    ensures { LendingIsFinishing }
{}

/// No packing of groups within the limit, which is at most a block, has more blocks than `blocks_needed` tells.
pub fn need_is_enough()
    ensures { NeedIsEnough }
{}

/// Some groups within the limit, which is at most a block, come to as many blocks as `blocks_needed` tells.
pub fn need_is_met()
    ensures { NeedIsMet }
{}

/// More groups need no fewer blocks.
pub fn need_grows()
    ensures { NeedGrows }
{}

/// No packing of groups within the limit, which is at most a block, has more blocks behind bytes of a block that is begun than
/// `blocks_needed_behind` tells.
pub fn need_behind_is_enough()
    ensures { NeedBehindIsEnough }
{}

/// More groups need no fewer blocks there, and what was enough stays enough: with each group that is put, so many blocks fewer are
/// needed as it releases, at least.
pub fn need_behind_falls()
    ensures more { NeedBehindGrows }
    ensures one_fewer { NeedBehindFalls }
{}

/// What is packed of groups of frames, none of a record without bytes, reads back as the records of all of them, in order,
/// where each group fits into a block.
pub fn packed_frames_read_back()
    ensures { PackedFramesReadBack }
{}

/// Bytes unpack to records where they are blocks of the records' frames and zeros, and nowhere else.
pub fn unpacked_is_frames()
    ensures { UnpackedIsFrames }
{}

/// The byte that is refused is the lowest one: output blocks can begin with the bytes before it, and
/// not with those up to the byte behind it, as the two bytes of a length are told by the first. Where
/// all blocks are read, it is the first byte of the part that is left.
pub fn refused_is_lowest()
    ensures { RefusedIsLowest }
{}
