//! Objects, as a compiler makes them, where a program is wanted.

use crate::failure::Failure;
use ebpf_decode::{Fault, FaultKind, ProgramRefusal};
use std::fmt;

/// Do bytes that are no program begin as an ELF file does (gABI, chapter 4, ELF Identification)? 7Fh and "ELF" are the fields of a slot
/// that has no instruction.
fn is_object(refusal: &ProgramRefusal) -> bool {
    match refusal.fields {
        Some(fields) => {
            refusal.fault.slot == 0
                && fields.opcode == 0x7f
                && fields.dst == 5
                && fields.src == 4
                && fields.offset == 0x464c
        }
        None => false,
    }
}

/// What is wrong with a file that is no program; of an object, what makes a program of it.
#[derive(Drop)]
pub(crate) struct ProgramWords(pub(crate) ProgramRefusal);

impl fmt::Display for ProgramWords {
    fn fmt<W: fmt::Write>(&self, f: &mut fmt::Formatter<W>) -> fmt::Result {
        let refusal = self.0;
        if is_object(&refusal) {
            write!(
                f,
                "an ELF file, and no program: `zscli link` makes one of an object"
            )
        } else {
            write!(f, "{refusal}")
        }
    }
}

/// What is told of a file of these bytes that is an object, and so no program; `None` of any other.
pub fn object_refusal<'a>(path: &'a str, bytes: &[u8]) -> Option<Failure<'a>> {
    let fault = Fault {
        slot: 0,
        kind: FaultKind::Opcode,
    };
    let refusal = ProgramRefusal::of(fault, bytes);
    if is_object(&refusal) {
        Some(Failure::ProgramRefused { path, refusal })
    } else {
        None
    }
}
