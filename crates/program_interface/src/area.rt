//! The areas of memory.

ghost use Rattle.std.specs.Prelude.{◌≡◌};
ghost use Rattle.program_interface.specs.Area.{address_of, is_writable, length_of};

/// The bytes of the context.
pub const CONTEXT_BYTES: usize = 32;

/// The bytes of the stack.
pub const STACK_BYTES: usize = 512;

/// The bytes of the scratch area.
pub const SCRATCH_BYTES: usize = 1024;

/// An area of memory, with an address of its own (profile). A program sees no other memory.
#[derive(Clone, Copy, Debug, PartialEq, Eq)]
pub enum Area {
    /// At 1_0000_0000h, to read: what the program is told of the block and its run.
    Context,
    /// At 2_0000_0000h, to read: the block's bytes.
    Block,
    /// At 3_0000_0000h, to read and write, zeros at each block.
    Stack,
    /// At 4_0000_0000h, to read and write, zeros at the start of a run and kept over its blocks.
    Scratch,
}

impl Area {
    /// The address of the area's first byte.
    #[inline(always)]
    pub fn address(self) -> u64
        ensures { result ≡ address_of self }
    {
        match self {
            Area::Context => 0x1_0000_0000,
            Area::Block => 0x2_0000_0000,
            Area::Stack => 0x3_0000_0000,
            Area::Scratch => 0x4_0000_0000,
        }
    }

    /// The area's length in bytes, beside a block of this many.
    #[inline(always)]
    pub fn length(self, block: usize) -> usize
        ensures { result ≡ length_of block self }
    {
        match self {
            Area::Context => CONTEXT_BYTES,
            Area::Block => block,
            Area::Stack => STACK_BYTES,
            Area::Scratch => SCRATCH_BYTES,
        }
    }

    /// May a program store to it?
    #[inline(always)]
    pub fn is_writable(self) -> bool
        ensures { result ≡ is_writable self }
    {
        match self {
            Area::Context | Area::Block => false,
            Area::Stack | Area::Scratch => true,
        }
    }
}
