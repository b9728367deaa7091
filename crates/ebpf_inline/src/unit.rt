//! Functions that call one another, and constant data.

ghost use Rattle.std.specs.Prelude.{◌≡◌, ◌<◌, vec_len};
ghost use Rattle.ebpf_inline.specs.Units.{frame_bytes, slots_of};

use instruction_set::{Instruction, Register};

/// What a slot of a function is.
#[derive(Clone, Copy, Debug, PartialEq, Eq)]
pub enum FunctionSlot {
    /// An instruction begins there that refers to nothing outside its function.
    Begins(Instruction),
    /// The second slot of a wide instruction, or of an address.
    Inside,
    /// A call of the function with this number (RFC 9669, 4.3.2).
    Calls(usize),
    /// A wide instruction begins there that gives the address of data (RFC 9669, 5.4).
    Address {
        /// The register that it writes.
        dst: Register,
        /// The number of the data's section.
        section: usize,
        /// The byte of the section, or the one behind its last.
        byte: usize,
    },
}

/// A function.
#[derive(Drop)]
pub struct FunctionBody {
    /// Its slots.
    pub slots: Vec<FunctionSlot>,
    /// The bytes of its frame: those below R10 that are its own. A multiple of 8.
    pub frame_bytes: usize,
}

/// Functions that call one another, and the constant data that they give addresses of.
#[derive(Drop)]
pub struct TranslationUnit {
    /// The functions, by their numbers.
    pub functions: Vec<FunctionBody>,
    /// The bytes of data, by sections.
    pub sections: Vec<Vec<u8>>,
    /// The number of the function that a block run starts with.
    pub start: usize,
}

/// The slots of the function with this number.
pub fn slots_of(unit: &TranslationUnit, function: usize) -> &[FunctionSlot]
    requires { function < vec_len unit.now.functions }
    ensures { result.now ≡ slots_of unit.now function }
{
    &unit.functions[function].slots
}

/// The bytes of its frame.
pub fn frame_bytes(unit: &TranslationUnit, function: usize) -> usize
    requires { function < vec_len unit.now.functions }
    ensures { result ≡ frame_bytes unit.now function }
{
    unit.functions[function].frame_bytes
}
