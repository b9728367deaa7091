//! Labels: a map from names to slots.

ghost use Rattle.std.specs.Prelude.{◌≡◌, ℕ, List, OnOk, Some, option_copied, option_and_then, is_some, if◌then◌else◌};
ghost use Rattle.std.specs.Str.{bytes_eq};
ghost use Rattle.ebpf_asm.specs.steps.Labels.{label_in, with_label};

use std::alloc::AllocError;
use std::collections::BTreeMap;

/// The slots that labels name.
pub type Labels<'a> = BTreeMap<&'a [u8], usize>;

/// The slot that a label names.
pub(crate) fn slot_of(labels: &Labels<'_>, name: &[u8]) -> Option<usize>
    ensures { result ≡ label_in labels.now name.now }
{
    labels.get(name).copied()
}

/// Does the map have this label?
pub(crate) fn is_defined(labels: &Labels<'_>, label: Option<&[u8]>) -> bool
    ensures { result ≡ is_some (option_and_then (label_in labels.now) (option_copied label.entry)) }
{
    match label {
        Some(name) => slot_of(labels, name).is_some(),
        None => false,
    }
}

/// Has the label, if there is one, name the slot.
pub(crate) fn define<'a>(
    labels: &mut Labels<'a>,
    label: Option<&'a [u8]>,
    slot: usize,
) -> Result<(), AllocError>
    ensures { OnOk result ((name : List ℕ) → label_in labels.new name ≡ with_label (label_in labels.old) (option_copied label.entry) slot name) }
{
    match label {
        Some(name) => put(labels, name, slot),
        None => Ok(()),
    }
}

fn put<'a>(labels: &mut Labels<'a>, name: &'a [u8], slot: usize) -> Result<(), AllocError>
    ensures { OnOk result ((other : List ℕ) → label_in labels.new other ≡ (if bytes_eq name.now other then Some slot else label_in labels.old other)) }
{
    labels.insert(name, slot)?;
    Ok(())
}
