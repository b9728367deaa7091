//! The same as fields of a JSON object. Their values are numbers, `null`, and words and texts of instructions in which no
//! character has to be escaped.

use crate::facts::{ReadRegister, Told};
use crate::refused_instruction::{Detail, RefusedInstruction};
use instruction_set::Register;
use program_interface::Area;
use std::alloc::AllocError;
use word_domain::Offsets;

impl RefusedInstruction {
    /// Adds the reason's words, the instruction, which has this text, the reason's numbers, and what is known of each
    /// register that the instruction reads, as fields behind others.
    pub(crate) fn push_fields(&self, text: &str, out: &mut String) -> Result<(), AllocError> {
        let reason = self.reason;
        write!(out, ",\"words\":\"{reason}\",\"instruction\":\"{text}\"")?;
        push_numbers(self.slots, self.detail(), out)?;
        let [first, second] = self.known.registers;
        out.push_str(",\"registers\":[")?;
        push_known("", first, out)?;
        push_known(",", second, out)?;
        out.push_str("]")
    }
}

/// Adds the numbers of the reason, of a program of so many slots.
fn push_numbers(slots: usize, detail: Detail, out: &mut String) -> Result<(), AllocError> {
    match detail {
        Detail::Plain => Ok(()),
        Detail::Target(target) => write!(out, ",\"target\":{target},\"slot_count\":{slots}"),
        Detail::Address {
            base,
            bytes,
            allowed,
        } => push_access(base, bytes, allowed, out),
        Detail::ReadOnly { base, bytes } => push_access(base, bytes, None, out),
        Detail::Helper(helper) => write!(out, ",\"helper\":{helper}"),
        Detail::Room(room) => push_longest(room, out),
        Detail::Limit {
            emitted,
            record,
            limit,
        } => write!(
            out,
            ",\"emitted\":{emitted},\"record\":{record},\"limit\":{limit}"
        ),
    }
}

/// Adds the register of an address, the bytes that are accessed there, and where it may point.
fn push_access(
    base: Register,
    bytes: u8,
    allowed: Option<Offsets>,
    out: &mut String,
) -> Result<(), AllocError> {
    let number = base.number();
    write!(out, ",\"base\":{number},\"bytes\":{bytes},\"allowed\":")?;
    match allowed {
        Some(offsets) => {
            out.push_str("{")?;
            push_offsets(offsets, out)
        }
        None => out.push_str("null"),
    }
}

/// Adds how many bytes an emit can take, if that is known.
fn push_longest(room: Option<i64>, out: &mut String) -> Result<(), AllocError> {
    match room {
        Some(room) => {
            let longest = room.max(0);
            write!(out, ",\"longest\":{longest}")
        }
        None => out.push_str(",\"longest\":null"),
    }
}

/// Adds what is known of a register as an object, behind this, if there is one.
fn push_known(
    before: &str,
    read: Option<ReadRegister>,
    out: &mut String,
) -> Result<(), AllocError> {
    let Some(ReadRegister { register, told }) = read else {
        return Ok(());
    };
    let number = register.number();
    write!(out, "{before}{{\"register\":{number},")?;
    match told {
        Told::Words(bounds) => {
            let (low, high) = (bounds.low, bounds.high);
            write!(out, "\"low\":{low},\"high\":{high}}}")
        }
        Told::Address(offsets) => push_offsets(offsets, out),
    }
}

/// Adds the area and the distances of an address, and the end of their object.
fn push_offsets(offsets: Offsets, out: &mut String) -> Result<(), AllocError> {
    let Offsets { area, low, high } = offsets;
    let area = word_of(area);
    write!(out, "\"area\":\"{area}\",\"low\":{low},\"high\":{high}}}")
}

/// The word of an area.
fn word_of(area: Area) -> &'static str {
    match area {
        Area::Context => "context",
        Area::Block => "block",
        Area::Stack => "stack",
        Area::Scratch => "scratch",
    }
}
