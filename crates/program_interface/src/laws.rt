//! Laws of the definitions. Each function does nothing: what it ensures is the law.

ghost use Rattle.program_interface.specs.Context.{ContextsTell};
ghost use Rattle.program_interface.specs.Numbers.{NumbersAreTheInterfaces};

/// A program reads in the bytes of its context the block's LBA, its index, the run's number of
/// blocks, a block's size and the run's argument, each at its place.
pub fn contexts_tell()
    ensures { ContextsTell }
{}

/// The sizes of blocks and areas, the numbers of registers, the helper's number, the bytes of a frame's length and the
/// most slots of a program are those of the interface.
pub fn numbers_are_the_interfaces()
    ensures { NumbersAreTheInterfaces }
{}
