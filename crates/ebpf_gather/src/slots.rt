//! The slots of a function.

ghost use Rattle.std.specs.Prelude.{◌<◌, IfSome};
ghost use Rattle.ebpf_object.specs.Functions.{LiesIn};
ghost use Rattle.ebpf_object.specs.Sections.{section_at};
ghost use Rattle.ebpf_object.specs.Symbols.{symbol_count};

use crate::fault::{GatherFault, ReferenceFault, SlotProblem};
use crate::library::library_function;
use crate::reference::{Reference, reference_of};
use crate::wanted::{LibraryCall, Wanted, number_of, symbol_of};
use ebpf_decode::{read, slot_at};
use ebpf_inline::FunctionSlot;
use ebpf_object::{Function, Object, Symbol, SymbolKind};
use instruction_set::{Instruction, Operation, Register, Source};
use program_interface::{MOST_SLOTS, REGISTERS, STACK_BYTES};
use std::alloc::{AllocError, Global};

/// What was found so far.
#[derive(Drop)]
pub(crate) struct Found {
    /// The functions, by their numbers.
    pub functions: Vec<Wanted>,
    /// The numbers of the sections of data, by theirs in the program.
    pub sections: Vec<usize>,
    /// What slots and data have the addresses of, each once.
    pub uses: Vec<Use>,
}

/// A slot of the function of a symbol.
#[derive(Clone, Copy)]
pub(crate) struct Place {
    pub symbol: usize,
    pub slot: usize,
}

/// Bytes of a section that are used, as those of a table, and the first slot by which they are.
#[derive(Clone, Copy)]
pub(crate) struct Use {
    /// The section's number in the program.
    pub section: usize,
    pub first: usize,
    pub end: usize,
    pub by: Place,
}

impl Found {
    /// Notes that the variable that has a byte of a section is used; the whole section, where none is known that has it.
    pub fn note_use(
        &mut self,
        object: &Object<'_>,
        number: usize,
        byte: usize,
        by: Place,
    ) -> Result<(), AllocError> {
        let Some(section) = self.sections.get(number) else {
            return Ok(());
        };
        let (first, end) = variable_at(object, *section, byte);
        let is_there = self.uses.iter().any(|used| used.section == number
            && used.first == first
            && used.end == end);
        if is_there {
            return Ok(());
        }
        self.uses.extend_from_slice(&[Use {
            section: number,
            first,
            end,
            by,
        }])
    }
}

/// Is a symbol that of a variable which has this byte of a section?
fn has(symbol: &Symbol, section: usize, byte: usize) -> bool {
    symbol.kind == SymbolKind::Data
        && symbol.place == ebpf_object::Place::Section(section)
        && symbol.value <= byte
        && byte - symbol.value < symbol.size
}

/// The bytes of the variable that has a byte of a section: the first, and the one behind the last. Where none has it, all of the section.
fn variable_at(object: &Object<'_>, section: usize, byte: usize) -> (usize, usize) {
    for number in 0..object.symbol_count() {
        let symbol = object.symbol(number);
        if has(&symbol, section, byte) {
            return (symbol.value, symbol.value.saturating_add(symbol.size));
        }
    }
    (0, usize::MAX)
}

/// Why a slot isn't made.
#[derive(Drop)]
pub(crate) enum SlotFault {
    Memory(AllocError),
    Problem(SlotProblem),
}

impl From<AllocError> for SlotFault {
    fn from(error: AllocError) -> SlotFault {
        SlotFault::Memory(error)
    }
}

/// The function of a symbol.
pub(crate) fn function_of(object: &Object<'_>, symbol: usize) -> Option<Function>
    ensures inside { IfSome result (λ function. LiesIn object.now.bytes.now function) }
{
    if symbol < object.symbol_count() {
        object.function(symbol)
    } else {
        None
    }
}

/// The opcode by which clang calls what a register has the address of.
const CALL_BY_REGISTER: u8 = 0x8d;

/// The instruction at a slot.
fn instruction_at(code: &[u8], slot: usize) -> Result<Instruction, SlotProblem>
    requires { slot < MOST_SLOTS }
{
    let Some(fields) = slot_at(code, slot) else {
        return Err(SlotProblem::Instruction(ebpf_decode::FaultKind::Empty));
    };
    match read(&fields, slot_at(code, slot + 1)) {
        Ok(instruction) => Ok(instruction),
        Err(_) if fields.opcode == CALL_BY_REGISTER => Err(SlotProblem::CallByAddress),
        Err(kind) => Err(SlotProblem::Instruction(kind)),
    }
}

/// The number that an instruction moves to R3.
fn third_argument(instruction: &Instruction) -> Option<i32> {
    match *instruction {
        Instruction::Arithmetic {
            operation: Operation::Move,
            dst,
            source: Source::Immediate(value),
            ..
        } if dst == Register::R3 => Some(value),
        _ => None,
    }
}

/// May something else than the slot before come to a slot behind one, up to another?
fn is_entered(code: &[u8], slots: usize, behind: usize, last: usize) -> bool {
    for slot in 0..slots.min(MOST_SLOTS) {
        let Ok(instruction) = instruction_at(code, slot) else {
            continue;
        };
        if let Some(distance) = instruction.distance() {
            let target = Instruction::target(slot, distance);
            if target > behind.min(MOST_SLOTS) as i64 && target <= last.min(MOST_SLOTS) as i64 {
                return true;
            }
        }
    }
    false
}

/// The number that R3 has at a slot, where the slots before it tell.
fn known_length(code: &[u8], slots: usize, slot: usize) -> Option<usize>
    requires { slot < MOST_SLOTS }
{
    for back in 1..slot + 1 {
        let Ok(instruction) = instruction_at(code, slot - back) else {
            return None;
        };
        if let Some(value) = third_argument(&instruction) {
            if value < 0
                || value as usize > STACK_BYTES
                || is_entered(code, slots, slot - back, slot)
            {
                return None;
            }
            return Some(value as usize);
        }
        if instruction.writes(Register::R3) || instruction.distance().is_some() {
            return None;
        }
    }
    None
}

/// The call of a function that isn't in the object.
fn library_call(
    object: &Object<'_>,
    function: Function,
    slot: usize,
    symbol: usize,
) -> Result<LibraryCall, SlotProblem>
    requires inside { LiesIn object.now.bytes.now function }
    requires slot { slot < MOST_SLOTS }
{
    if symbol >= object.symbol_count() {
        return Err(SlotProblem::Missing(symbol));
    }
    let Some(called) = library_function(object.symbol_name(symbol)) else {
        return Err(SlotProblem::Missing(symbol));
    };
    match known_length(object.code(function), function.slots, slot) {
        Some(bytes) => Ok(LibraryCall {
            function: called,
            bytes,
        }),
        None => Err(SlotProblem::Length(symbol)),
    }
}

/// The register that a slot writes.
fn destination(code: &[u8], slot: usize) -> Register {
    match slot_at(code, slot) {
        Some(fields) if usize::from(fields.dst) < REGISTERS => Register::from_number(fields.dst),
        _ => Register::FRAME_POINTER,
    }
}

/// What stands at a slot of a function.
fn slot_of(
    object: &Object<'_>,
    function: Function,
    slot: usize,
    found: &mut Found,
) -> Result<FunctionSlot, SlotFault>
    requires inside { LiesIn object.now.bytes.now function }
    requires there { slot < function.slots }
    requires few { slot < MOST_SLOTS }
{
    let reference = match reference_of(object, function, slot) {
        Ok(reference) => reference,
        Err(fault) => return Err(SlotFault::Problem(SlotProblem::Reference(fault))),
    };
    match reference {
        Reference::Nothing => match instruction_at(object.code(function), slot) {
            Ok(instruction) => Ok(FunctionSlot::Begins(instruction)),
            Err(problem) => Err(SlotFault::Problem(problem)),
        },
        Reference::Data { section, byte } => Ok(FunctionSlot::Address {
            dst: destination(object.code(function), slot),
            section: number_of(&mut found.sections, section)?,
            byte,
        }),
        Reference::Function(callee) => match symbol_of(object, callee) {
            Some(symbol) => Ok(FunctionSlot::Calls(number_of(
                &mut found.functions,
                Wanted::Symbol(symbol),
            )?)),
            None => Err(SlotFault::Problem(SlotProblem::Reference(ReferenceFault::NoFunction))),
        },
        Reference::Missing(symbol) => match library_call(object, function, slot, symbol) {
            Ok(call) => Ok(FunctionSlot::Calls(number_of(
                &mut found.functions,
                Wanted::Library(call),
            )?)),
            Err(problem) => Err(SlotFault::Problem(problem)),
        },
    }
}

/// Does the last slot begin what takes two?
fn is_open(slots: &[FunctionSlot]) -> bool {
    match slots.last() {
        Some(FunctionSlot::Begins(instruction)) => instruction.slots() == 2,
        Some(FunctionSlot::Address { .. }) => true,
        _ => false,
    }
}

/// What stands at a slot of the function of a symbol, where `second` tells that it is the second of two.
fn made_at(
    object: &Object<'_>,
    symbol: usize,
    function: Function,
    slot: usize,
    second: bool,
    found: &mut Found,
) -> Result<FunctionSlot, GatherFault>
    requires inside { LiesIn object.now.bytes.now function }
    requires there { slot < function.slots }
    requires few { slot < MOST_SLOTS }
{
    if second {
        return Ok(FunctionSlot::Inside);
    }
    match slot_of(object, function, slot, found) {
        Ok(made) => {
            if let FunctionSlot::Address { section, byte, .. } = made {
                found.note_use(object, section, byte, Place { symbol, slot })?;
            }
            Ok(made)
        }
        Err(SlotFault::Memory(error)) => Err(GatherFault::Memory(error)),
        Err(SlotFault::Problem(problem)) => Err(GatherFault::Slot {
            function: symbol,
            slot,
            problem,
        }),
    }
}

/// Adds a slot.
fn push(slots: &mut Vec<FunctionSlot>, made: FunctionSlot) -> Result<(), AllocError> {
    slots.extend_from_slice(&[made])
}

/// The slots of the function of a symbol.
pub(crate) fn function_slots(
    alloc: Global,
    object: &Object<'_>,
    symbol: usize,
    found: &mut Found,
) -> Result<Vec<FunctionSlot>, GatherFault> {
    let Some(function) = function_of(object, symbol) else {
        return Ok(Vec::new(alloc));
    };
    if function.slots > MOST_SLOTS {
        return Err(GatherFault::TooMany);
    }
    let mut slots = Vec::new(alloc);
    for slot in 0..function.slots {
        let second = is_open(&slots);
        let made = made_at(object, symbol, function, slot, second, found)?;
        push(&mut slots, made)?;
    }
    Ok(slots)
}
