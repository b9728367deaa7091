//! What a user is told of bytes that are no program.

ghost use Rattle.std.specs.Prelude.{◌≡◌};
ghost use Rattle.ebpf_decode.specs.Refusal.{program_refusal_of};

use crate::decoding::slot_at;
use crate::fault::{Fault, FaultKind};
use crate::opcode::{LeftOut, Opcode};
use instruction_set::Fields;
use std::fmt;

/// The opcode of a call of the function whose address a register has. RFC 9669 has none.
const CALL_BY_REGISTER: u8 = 0x8d;

/// A fault of a program's bytes, with what stands there.
#[derive(Clone, Copy, Debug, PartialEq, Eq)]
pub struct ProgramRefusal {
    /// The slot, and what is wrong there.
    pub fault: Fault,
    /// How many bytes there are.
    pub bytes: usize,
    /// The fields of the fault's slot, where there is one.
    pub fields: Option<Fields>,
}

impl ProgramRefusal {
    /// What stands in these bytes where [`decode`](crate::decode) finds this fault: how many bytes there are, and which
    /// fields the fault's slot has, where it is there.
    pub fn of(fault: Fault, bytes: &[u8]) -> ProgramRefusal
        ensures { result ≡ program_refusal_of fault bytes.now }
    {
        ProgramRefusal {
            fault,
            bytes: bytes.len(),
            fields: slot_at(bytes, fault.slot),
        }
    }
}

impl fmt::Display for ProgramRefusal {
    fn fmt<W: fmt::Write>(&self, f: &mut fmt::Formatter<W>) -> fmt::Result {
        let Fault { slot, kind } = self.fault;
        match (kind, self.fields) {
            (FaultKind::Length | FaultKind::Empty | FaultKind::TooLong, _) | (_, None) => {
                write!(f, "{} bytes: {kind}", self.bytes)
            }
            (_, Some(fields)) => {
                write!(f, "slot {slot}: opcode {:02x}h", fields.opcode)?;
                show_instruction(f, kind, fields)
            }
        }
    }
}

/// Shows what is wrong with an instruction, behind its opcode.
fn show_instruction<W: fmt::Write>(
    f: &mut fmt::Formatter<W>,
    kind: FaultKind,
    fields: Fields,
) -> fmt::Result {
    let Fields {
        opcode,
        dst,
        src,
        offset,
        immediate,
    } = fields;
    match kind {
        FaultKind::Opcode if opcode == CALL_BY_REGISTER => write!(
            f,
            ": a call by register, which RFC 9669 does not have"
        ),
        FaultKind::NotInProfile => write!(f, ": {}, which is left out here", left_out(opcode)),
        FaultKind::Register => write!(f, ", registers {dst} and {src}: {kind}"),
        FaultKind::UnusedField if Opcode::named(opcode) == Some(Opcode::LoadImmediate) => write!(
            f,
            ", registers {dst} and {src}, offset {offset}: {kind}, here or in the second slot"
        ),
        FaultKind::UnusedField | FaultKind::Value => write!(
            f,
            ", registers {dst} and {src}, offset {offset}, immediate {immediate}: {kind}"
        ),
        _ => write!(f, ": {kind}"),
    }
}

/// The instruction that is left out and has this opcode (RFC 9669, 4.3, 5.3, 5.4 and 5.5).
fn left_out(opcode: u8) -> &'static str {
    match Opcode::named(opcode) {
        Some(Opcode::LoadImmediate) => {
            "a wide instruction that loads something else than a number"
        }
        Some(Opcode::Call) => "a call of something else than a helper by its number",
        Some(Opcode::LeftOut(LeftOut::Atomic)) => "an atomic operation",
        Some(Opcode::LeftOut(LeftOut::Packet)) => "a packet load",
        _ => "an instruction",
    }
}
