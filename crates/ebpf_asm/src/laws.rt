//! Laws of assembly text. Each function does nothing: what it ensures is the law.

ghost use Rattle.ebpf_asm.specs.Laws.{MnemonicsReadBack, RegistersReadBack, ImmediatesReadBack, WideValuesReadBack, MemoryOperandsReadBack, ShortDistancesReadBack, LongDistancesReadBack, ListingsAssemble, SlotsStandInFront, AssembledIsProgram, LinesAreInOrder, FaultIsLowest, BlanksDontCount, CommentsDontCount};

/// What a text assembles to is nothing, where it has no instructions, or the bytes of a program.
pub fn assembled_is_program()
    ensures { AssembledIsProgram }
{}

/// The bytes of a text are the spellings of its lines' instructions in their order, and a jump to a label leads to the
/// slot of that label, where the next instruction begins if there is one.
pub fn lines_are_in_order()
    ensures { LinesAreInOrder }
{}

/// The fault of a text is that of the lowest line that has one by itself, or where none has, of the lowest that jumps amiss.
pub fn fault_is_lowest()
    ensures { FaultIsLowest }
{}

/// The listing of a program assembles to its bytes.
pub fn listings_assemble()
    ensures { ListingsAssemble }
{}

/// In the listing with slots each instruction's line stands behind its slot; without these it is the listing.
pub fn slots_stand_in_front()
    ensures { SlotsStandInFront }
{}

/// The text of each mnemonic is that mnemonic's and no other's.
pub fn mnemonics_read_back()
    ensures { MnemonicsReadBack }
{}

/// Each register is read as it is listed.
pub fn registers_read_back()
    ensures { RegistersReadBack }
{}

/// Each immediate is read as it is listed.
pub fn immediates_read_back()
    ensures { ImmediatesReadBack }
{}

/// Each wide value is read as it is listed.
pub fn wide_values_read_back()
    ensures { WideValuesReadBack }
{}

/// Each memory operand is read as it is listed.
pub fn memory_operands_read_back()
    ensures { MemoryOperandsReadBack }
{}

/// Each distance is read as it is listed, one of 16 bits and one of 32.
pub fn distances_read_back()
    ensures short { ShortDistancesReadBack }
    ensures long { LongDistancesReadBack }
{}

/// Blanks around a line, and a comment of ASCII behind it, change nothing of what the line has.
pub fn blanks_and_comments_dont_count()
    ensures blanks { BlanksDontCount }
    ensures comments { CommentsDontCount }
{}
