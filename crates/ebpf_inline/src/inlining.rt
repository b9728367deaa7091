//! Functions and data as one program.

ghost use Rattle.std.specs.Prelude.{◌≡◌, ◌≤◌, vec_len};
ghost use Rattle.common_definitions.specs.Gives.{Gives};
ghost use Rattle.ebpf_inline.specs.Linked.{hindrance, linked, start_frame, unless_long};
ghost use Rattle.program_interface.specs.declared.TheConstants.{MOST_SLOTS};
ghost use Rattle.program_interface.specs.declared.area.TheConstants.{STACK_BYTES};

use crate::body::push_body;
use crate::data::{all_data, push_data};
use crate::fault::InlineFault;
use crate::frame::{Frame, MOST_FRAMES};
use crate::sizes::tree_slots;
use crate::unit::TranslationUnit;
use crate::unit_fault::UnitFault;
use instruction_set::Instruction;
use program_interface::{MOST_SLOTS, STACK_BYTES};
use std::alloc::Global;

/// The frame of the function that a block run starts with.
fn start_frame(unit: &TranslationUnit) -> Frame
    ensures { result ≡ start_frame unit.now }
{
    Frame {
        function: unit.start,
        depth: MOST_FRAMES,
        below: 0,
    }
}

/// What hinders functions whose slots are so many, beside so many bytes of data.
fn length_fault(bytes: usize, slots: usize) -> Option<UnitFault>
    requires bytes { bytes ≤ STACK_BYTES }
    requires slots { slots ≤ MOST_SLOTS }
    ensures { result ≡ unless_long bytes slots }
{
    if bytes / 4 + slots > MOST_SLOTS {
        return Some(UnitFault::TooLong);
    }
    None
}

/// The slots of the program that has all functions of a unit, each as often as it is called, and the data at the stack's lowest bytes.
///
/// # Errors
///
/// The unit can't be made one program: the function to start with isn't there, the data doesn't fit, or the first fault by the slots of
/// that function, and within a function that is called before what comes behind the call. Or there is no memory for it.
pub fn inline(
    alloc: Global,
    unit: &TranslationUnit,
) -> Result<Vec<Option<Instruction>>, InlineFault>
    ensures { Gives hindrance (λ slots. slots.items) result (linked unit.now) }
{
    if unit.start >= unit.functions.len() {
        return Err(InlineFault::Hindered(UnitFault::NoStart));
    }
    let data = all_data(alloc, &unit.sections)?;
    let room = STACK_BYTES - data.len();
    let start = start_frame(unit);
    let count = tree_slots(unit, room, start)?;
    if let Some(fault) = length_fault(data.len(), count) {
        return Err(InlineFault::Hindered(fault));
    }
    let mut slots = Vec::new(alloc);
    push_data(&mut slots, &data)?;
    push_body(alloc, &mut slots, unit, room, start, false)?;
    Ok(slots)
}
