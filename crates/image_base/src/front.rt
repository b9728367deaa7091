//! The front of a base: the magic, and the label, which says who made it.

ghost use Rattle.std.specs.Prelude.{◌≡◌, ◌<◌, ◌++◌, List, ℕ, IfSome, MatchOption, OnOk, length};
ghost use Rattle.durable_machine.specs.Bases.{BeginsNoBase};
ghost use Rattle.durable_machine.specs.Events.{number_bytes};
ghost use Rattle.image_base.specs.Base.{BeginsNoLabel, IsAfterLabel, IsBaseOf, IsMadeByNoOther, IsMadeByOther, label_of, magic, our_label};

use std::alloc::AllocError;

/// The first bytes of a base (profile).
pub const MAGIC: [u8; 8] = *b"ZNSJRN01";

/// How many bytes of a file say who made it.
pub const FRONT: usize = 25;

/// The first byte of a label (profile).
pub(crate) const LABEL: u8 = 2;

/// Who makes journals: a device, by what the events in them mean.
#[derive(Clone, Copy, Debug, PartialEq, Eq)]
pub struct Maker {
    /// The version of the device's meaning: what events do, and what is replied (profile).
    pub version: u64,
    /// The profile by which Load accepts programs.
    pub profile: u64,
}

/// This device. What changes what an event does changes the version.
pub const THIS_DEVICE: Maker = Maker {
    version: 1,
    profile: 2,
};

/// Who made the journal at the front of a file, where that is a device with another meaning or profile than this one's: it is no journal
/// of this device then.
pub fn other_maker(file: &[u8]) -> Option<Maker>
    ensures made { MatchOption result (IsMadeByNoOther file.now) (λ maker. IsMadeByOther maker file.now) }
    ensures no_base { IfSome result (λ maker. BeginsNoBase IsBaseOf file.now) }
{
    let after = after_magic(file)?;
    let (maker, _) = label_in(after)?;
    if maker == THIS_DEVICE {
        return None;
    }
    Some(maker)
}

/// What is after the magic and the label; `None` where the file doesn't begin with the magic, or where another device made it.
pub(crate) fn after_label(file: &[u8]) -> Option<&[u8]>
    ensures { MatchOption result
        ((after : List ℕ) → IsAfterLabel file.now after → ⊥) (λ after. IsAfterLabel file.now after.now) }
{
    let after = after_magic(file)?;
    let Some((maker, rest)) = label_in(after) else {
        return Some(after);
    };
    if maker != THIS_DEVICE {
        return None;
    }
    Some(rest)
}

/// Adds the magic and this device's label to a base.
///
/// # Errors
///
/// No memory.
pub(crate) fn add_front(base: &mut Vec<u8>) -> Result<(), AllocError>
    ensures { OnOk result (base.new.items ≡ base.old.items ++ (magic ++ our_label)) }
{
    base.extend_from_slice(&MAGIC)?;
    base.push(LABEL)?;
    base.extend_from_slice(&THIS_DEVICE.version.to_le_bytes())?;
    base.extend_from_slice(&THIS_DEVICE.profile.to_le_bytes())?;
    Ok(())
}

/// What is after the magic; `None` where the file doesn't begin with it.
fn after_magic(file: &[u8]) -> Option<&[u8]>
    ensures { MatchOption result
        ((after : List ℕ) → file.now ≡ magic ++ after → ⊥) (λ after. file.now ≡ magic ++ after.now) }
{
    let Some((front, after)) = file.split_first_chunk::<8>() else {
        return None;
    };
    if *front != MAGIC {
        return None;
    }
    Some(after)
}

/// Who a label at the front of bytes names, and what is after it; `None` where no label is there.
fn label_in(bytes: &[u8]) -> Option<(Maker, &[u8])>
    ensures { MatchOption result (BeginsNoLabel bytes.now) (λ found. bytes.now ≡ label_of found.0 ++ found.1.now) }
{
    let (first, numbers) = bytes.split_first()?;
    if *first != LABEL {
        return None;
    }
    let (version, more) = number_in(numbers)?;
    let (profile, rest) = number_in(more)?;
    Some((Maker { version, profile }, rest))
}

/// The number at the front of bytes, and what is after it; `None` where they end before.
pub(crate) fn number_in(bytes: &[u8]) -> Option<(u64, &[u8])>
    ensures { MatchOption result (length bytes.now < 8) (λ found. bytes.now ≡ number_bytes found.0 ++ found.1.now) }
{
    let (digits, rest) = bytes.split_first_chunk::<8>()?;
    Some((u64::from_le_bytes(*digits), rest))
}
