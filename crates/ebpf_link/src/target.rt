//! What a program is made for.

use program_interface::BlockSize;

/// What becomes of a loop of which not all rounds can be laid out.
#[derive(Clone, Copy, PartialEq, Eq)]
pub enum LoopRule {
    /// No program is made.
    Whole,
    /// It has as many rounds as there are slots for.
    Cut,
}

/// Where in scratch a guard that ends a block run writes which one it was.
#[derive(Clone, Copy)]
pub enum MarkRule {
    /// The last bytes into which nothing is stored.
    Found,
    /// From this byte on.
    At(usize),
    /// Nowhere.
    Silent,
}

/// What a program is made for.
#[derive(Clone, Copy)]
pub struct Target {
    /// The size of the blocks.
    pub block: BlockSize,
    /// The most bytes that are emitted for a block, frame lengths counted.
    pub limit: usize,
    /// What becomes of a loop that isn't whole.
    pub rule: LoopRule,
    /// Where guards write.
    pub marks: MarkRule,
    /// Is arithmetic of 32 bits made such of 64 bits where that does the same? Profile 3 knows sums of words alone.
    pub widens: bool,
}

impl Target {
    /// Blocks of a size, of which as much is emitted as can be, with whole loops, and guards that write where there is room.
    pub fn of(block: BlockSize) -> Target {
        Target {
            block,
            limit: block.bytes() as usize,
            rule: LoopRule::Whole,
            marks: MarkRule::Found,
            widens: false,
        }
    }
}
