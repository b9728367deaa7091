//! Laws of the definitions that the contracts of this crate cite. Each function does nothing: what
//! it ensures is the law.

ghost use Rattle.instruction_set.specs.Laws.{BeginsInside};
ghost use Rattle.instruction_set.specs.Numbers.{CodesAreTheStandards};
ghost use Rattle.instruction_set.specs.OpcodeTable.{AccessesAreTheStandards, ArithmeticIsTheStandards, JumpsAreTheStandards};

/// A slot where an instruction begins is in the program.
pub fn begins_inside()
    ensures { BeginsInside }
{}

/// The classes, the modes and the codes of which opcodes are made have the numbers of RFC 9669.
pub fn codes_are_the_standards()
    ensures { CodesAreTheStandards }
{}

/// The first byte of an instruction is the opcode that RFC 9669 has for it in its table, whatever its operands.
pub fn opcodes_are_the_standards()
    ensures arithmetic { ArithmeticIsTheStandards }
    ensures jumps { JumpsAreTheStandards }
    ensures accesses { AccessesAreTheStandards }
{}
