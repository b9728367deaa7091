//! The machine whose program a line table is (DWARF 5, 6.2.2 and 6.2.5).

use crate::cursor::Cursor;
use crate::unit::Unit;
use ebpf_object::{Object, Place};

/// The machine's registers, as far as lines are told by them.
#[derive(Clone, Copy)]
pub(crate) struct Machine {
    /// The section of the instruction, where the address has one.
    pub section: Option<usize>,
    /// The instruction's first byte there.
    pub byte: u64,
    /// The number of the file.
    pub file: u64,
    /// The line.
    pub line: u64,
}

/// What an opcode adds to the table.
pub(crate) enum Effect {
    /// Nothing.
    Nothing,
    /// A row, of what the registers have.
    Row,
    /// A row behind the last instruction of several.
    End,
}

impl Machine {
    /// What the registers have at first.
    pub fn new() -> Machine {
        Machine {
            section: None,
            byte: 0,
            file: 1,
            line: 1,
        }
    }

    /// Goes on by so many instructions of the least length.
    fn advance(&mut self, unit: &Unit, instructions: u64) {
        self.byte = self.byte.wrapping_add(unit.step.wrapping_mul(instructions));
    }

    /// By how many instructions and lines a special opcode goes on, beyond the least.
    fn special_steps(unit: &Unit, opcode: u8) -> Option<(u64, u64)> {
        if unit.line_range == 0 || opcode < unit.opcode_base {
            return None;
        }
        let number = opcode - unit.opcode_base;
        let instructions = u64::from(number / unit.line_range);
        let lines = u64::from(number % unit.line_range);
        Some((instructions, lines))
    }

    /// A special opcode: the address and the line go on, and a row is added.
    fn special(&mut self, unit: &Unit, opcode: u8) -> Option<Effect> {
        let (instructions, lines) = Machine::special_steps(unit, opcode)?;
        self.advance(unit, instructions);
        self.line = self.line.wrapping_add(unit.line_base).wrapping_add(lines);
        Some(Effect::Row)
    }

    /// An extended opcode, which tells its length.
    fn extended(
        &mut self,
        object: &Object<'_>,
        table: usize,
        cursor: &mut Cursor<'_>,
    ) -> Option<Effect> {
        let length = cursor.unsigned()?;
        let mut inner = *cursor;
        cursor.skip(length)?;
        if length == 0 {
            return Some(Effect::Nothing);
        }
        match inner.byte()? {
            1 => Some(Effect::End),
            2 if length == 9 => {
                self.set_address(object, table, inner)?;
                Some(Effect::Nothing)
            }
            _ => Some(Effect::Nothing),
        }
    }

    /// The address becomes that of a symbol that a relocation of these 8 bytes names, and so much more as they have.
    fn set_address(
        &mut self,
        object: &Object<'_>,
        table: usize,
        mut cursor: Cursor<'_>,
    ) -> Option<()> {
        let at = cursor.at;
        let byte = cursor.fixed(8)?;
        self.section = None;
        if let Some((_, _, relocation)) = object.change(table, at) {
            let symbol = object.symbol(relocation.symbol);
            if let Place::Section(section) = symbol.place {
                self.section = Some(section);
                self.byte = byte.wrapping_add(symbol.value as u64);
            }
        }
        Some(())
    }

    /// A standard opcode.
    fn standard(&mut self, unit: &Unit, cursor: &mut Cursor<'_>, opcode: u8) -> Option<Effect> {
        match opcode {
            1 => return Some(Effect::Row),
            2 => {
                let instructions = cursor.unsigned()?;
                self.advance(unit, instructions);
            }
            3 => self.line = self.line.wrapping_add(cursor.signed()?),
            4 => self.file = cursor.unsigned()?,
            8 => {
                let (instructions, _) = Machine::special_steps(unit, 255)?;
                self.advance(unit, instructions);
            }
            9 => self.byte = self.byte.wrapping_add(cursor.fixed(2)?),
            _ => skip_operands(unit, cursor, opcode)?,
        }
        Some(Effect::Nothing)
    }

    /// Does what the next opcode of a unit's program says; `None` where that is damaged.
    pub fn step(
        &mut self,
        object: &Object<'_>,
        table: usize,
        unit: &Unit,
        cursor: &mut Cursor<'_>,
    ) -> Option<Effect> {
        let opcode = cursor.byte()?;
        if opcode >= unit.opcode_base {
            self.special(unit, opcode)
        } else if opcode == 0 {
            self.extended(object, table, cursor)
        } else {
            self.standard(unit, cursor, opcode)
        }
    }
}

/// Leaves the operands of an opcode out, of which a unit tells the count.
fn skip_operands(unit: &Unit, cursor: &mut Cursor<'_>, opcode: u8) -> Option<()> {
    let at = unit
        .operands
        .saturating_add(usize::from(opcode))
        .saturating_sub(1);
    let count = *cursor.bytes.get(at)?;
    for _ in 0..count {
        let _ = cursor.unsigned()?;
    }
    Some(())
}
