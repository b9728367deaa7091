//! Why an instruction is refused, in words: the reason with its numbers, and what is known of the registers.

use crate::facts::ReadRegister;
use crate::refused_instruction::{Detail, RefusedInstruction};
use accepted_programs::Reason;
use command_files::Counted;
use instruction_set::Register;
use program_interface::FRAME_LENGTH_BYTES;
use std::alloc::AllocError;
use word_domain::Offsets;

impl RefusedInstruction {
    /// Adds the instruction, which has this text, behind its slot, and then the reason and what is known there.
    pub(crate) fn push_lines(&self, text: &str, out: &mut String) -> Result<(), AllocError> {
        let (slot, reason) = (self.slot, self.reason);
        write!(out, "{slot:4}  {text}\n{reason}: ")?;
        self.push_detail(out)?;
        let [first, second] = self.known.registers;
        push_known(first, out)?;
        push_known(second, out)
    }

    fn push_detail(&self, out: &mut String) -> Result<(), AllocError> {
        match self.detail() {
            Detail::Plain => out.push_str(plain_words(self.reason)),
            Detail::Target(target) => self.push_target(target, out),
            Detail::Address {
                base,
                bytes,
                allowed,
            } => push_address(base, bytes, allowed, out),
            Detail::ReadOnly { base, .. } => push_read_only(base, out),
            Detail::Helper(helper) => writeln!(out, "it calls {helper}"),
            Detail::Room(room) => push_room(room, out),
            Detail::Limit {
                emitted,
                record,
                limit,
            } => push_limit(emitted, record, limit, out),
        }
    }

    /// Where a jump leads.
    fn push_target(&self, target: i128, out: &mut String) -> Result<(), AllocError> {
        let slots = self.slots as i128;
        write!(out, "to slot {target}")?;
        if target < 0 || target >= slots {
            writeln!(out, ", of {slots} slots")
        } else if self.reason == Reason::JumpOutside {
            out.push_str(", a wide instruction's second\n")
        } else {
            out.push_str("\n")
        }
    }
}

/// What is known of a register, on a line, if there is one.
fn push_known(read: Option<ReadRegister>, out: &mut String) -> Result<(), AllocError> {
    match read {
        Some(read) => writeln!(out, "{read}"),
        None => Ok(()),
    }
}

/// What a reason without numbers means.
fn plain_words(reason: Reason) -> &'static str {
    match reason {
        Reason::FallsOff => "no instruction stands behind it\n",
        _ => "a program can only read it\n",
    }
}

/// Where a register has to point, so that an access of so many bytes lies in its area.
fn push_address(
    base: Register,
    bytes: u8,
    allowed: Option<Offsets>,
    out: &mut String,
) -> Result<(), AllocError> {
    let number = base.number();
    let Some(allowed) = allowed else {
        return writeln!(out, "r{number} is not known to be an address");
    };
    if bytes > 0 {
        let bytes = Counted(u64::from(bytes), "byte");
        write!(out, "for {bytes} ")?;
    }
    writeln!(out, "r{number} must be {allowed}")
}

/// That a register can't be stored through.
fn push_read_only(base: Register, out: &mut String) -> Result<(), AllocError> {
    let number = base.number();
    writeln!(out, "r{number} leads to what a program can only read")
}

/// How many bytes an emit can take.
fn push_room(room: Option<i64>, out: &mut String) -> Result<(), AllocError> {
    match room {
        None => out.push_str("r1 is not known to be an address\n"),
        Some(most) if most < 1 => out.push_str("no byte is known to lie at r1\n"),
        Some(most) => writeln!(out, "r2 must be 1 to {most}"),
    }
}

/// What the group has with this emit, and what it may have.
fn push_limit(emitted: u64, record: u64, limit: u32, out: &mut String) -> Result<(), AllocError> {
    let length = FRAME_LENGTH_BYTES as u64;
    let after = u128::from(emitted) + u128::from(length) + u128::from(record);
    let (before, record) = (Counted(emitted, "byte"), Counted(record, "byte"));
    writeln!(
        out,
        "behind {before}, {length} for its length and {record} come to {after}, and {limit} may be emitted"
    )
}
