//! Headers of line tables (DWARF 5, 6.2.4).

use crate::cursor::Cursor;

/// The line table of what was compiled at once.
#[derive(Clone, Copy)]
pub(crate) struct Unit {
    /// The version of its format.
    pub version: u64,
    /// The byte behind its last.
    pub end: usize,
    /// The first byte of its program.
    pub program: usize,
    /// The bytes of the shortest instruction.
    pub step: u64,
    /// By how much the least special opcode moves the line, as the word of two's complement.
    pub line_base: u64,
    /// So many special opcodes move the address alike.
    pub line_range: u8,
    /// The least special opcode.
    pub opcode_base: u8,
    /// The first byte of the counts of operands of the opcodes below it.
    pub operands: usize,
    /// The first byte of the tables of folders and files.
    pub tables: usize,
}

/// The word of two's complement of a number of 8 bits with a sign.
fn extended(byte: u8) -> u64 {
    let word = u64::from(byte);
    if byte < 128 {
        word
    } else {
        word.wrapping_sub(256)
    }
}

/// The bytes of the unit that begins here, and its version.
fn begin<'a>(cursor: &mut Cursor<'a>) -> Option<(Cursor<'a>, u64)> {
    let length = cursor.fixed(4)?;
    let from = cursor.at;
    // From here on a length of 64 bits follows, which no object of eBPF needs.
    if length >= 0xffff_fff0 {
        return None;
    }
    cursor.skip(length)?;
    let mut inner = Cursor {
        bytes: cursor.bytes.split_at(cursor.at.min(cursor.bytes.len())).0,
        at: from,
    };
    let version = inner.fixed(2)?;
    if version < 2 || version > 5 {
        return None;
    }
    Some((inner, version))
}

/// The unit whose header begins here. The cursor goes to its end.
pub(crate) fn unit_at(cursor: &mut Cursor<'_>) -> Option<Unit> {
    let (mut inner, version) = begin(cursor)?;
    if version >= 5 {
        // The bytes of an address, and of a segment's number.
        inner.skip(2)?;
    }
    let length = inner.fixed(4)?;
    let mut program = inner;
    program.skip(length)?;
    let step = inner.fixed(1)?;
    if version >= 4 {
        // How many operations an instruction has.
        inner.skip(1)?;
    }
    // Whether statements begin with each row at first.
    inner.skip(1)?;
    let line_base = extended(inner.byte()?);
    let line_range = inner.byte()?;
    let opcode_base = inner.byte()?;
    let operands = inner.at;
    inner.skip(u64::from(opcode_base.max(1) - 1))?;
    Some(Unit {
        version,
        end: inner.bytes.len(),
        program: program.at,
        step,
        line_base,
        line_range,
        opcode_base,
        operands,
        tables: inner.at,
    })
}
