//! The names that come of a UUID.

ghost use Rattle.std.specs.Prelude.{◌≡◌, ◌++◌, ◌∷◌, IfOk, OnOk, length, take};
ghost use Rattle.hex.specs.Hex.{encode_lower};
ghost use Rattle.tcp_admin.specs.Identity.{IsNamedBy, uuid_name};

use crate::subsystem::{QualifiedName, Subsystem};
use std::alloc::{AllocError, Global};

/// What stands before the UUID in its name (NVMe Base 2.0, 4.5).
const UUID_NAME: &[u8] = b"nqn.2014-08.org.nvmexpress:uuid:";

impl Subsystem {
    /// A subsystem with the names of a UUID, a model and a firmware revision.
    ///
    /// # Errors
    ///
    /// No memory for its name.
    pub fn with_uuid(
        alloc: Global,
        uuid: &[u8],
        model: [u8; 40],
        firmware: [u8; 8],
    ) -> Result<Subsystem, AllocError>
        requires { length uuid.now ≡ 16 }
        ensures { IfOk result (IsNamedBy uuid.now) }
    {
        Ok(Subsystem {
            nqn: name(alloc, uuid)?,
            serial_number: serial_number(uuid),
            model,
            firmware,
            nguid: identifier(uuid),
        })
    }
}

/// NGUID.
fn identifier(uuid: &[u8]) -> [u8; 16]
    requires { length uuid.now ≡ 16 }
    ensures { result ≡ uuid.now }
{
    let mut bytes = [0; 16];
    bytes.copy_from_slice(uuid);
    bytes
}

/// SUBNQN.
fn name(alloc: Global, uuid: &[u8]) -> Result<QualifiedName, AllocError>
    requires { length uuid.now ≡ 16 }
    ensures { IfOk result (λ name. name ≡ uuid_name uuid.now) }
{
    let bytes = name_bytes(alloc, uuid)?;
    QualifiedName::new(alloc, bytes.as_slice())
}

/// The bytes of the NVMe Qualified Name of a UUID.
#[tactic(auto, using(crate::proofs::Names::joined))]
fn name_bytes(alloc: Global, uuid: &[u8]) -> Result<Vec<u8>, AllocError>
    requires { length uuid.now ≡ 16 }
    ensures { IfOk result (λ name. name.items ≡ uuid_name uuid.now) }
{
    let mut name = Vec::from_slice(alloc, UUID_NAME)?;
    add_digits(alloc, &mut name, &uuid[..4])?;
    add_group(alloc, &mut name, &uuid[4..6])?;
    add_group(alloc, &mut name, &uuid[6..8])?;
    add_group(alloc, &mut name, &uuid[8..10])?;
    add_group(alloc, &mut name, &uuid[10..])?;
    Ok(name)
}

/// Adds a hyphen, and the digits of bytes.
fn add_group(alloc: Global, name: &mut Vec<u8>, bytes: &[u8]) -> Result<(), AllocError>
    ensures { OnOk result (name.new.items ≡ name.old.items ++ 45 ∷ encode_lower bytes.now) }
{
    name.push(b'-')?;
    add_digits(alloc, name, bytes)
}

/// Adds the digits of bytes, two of each.
fn add_digits(alloc: Global, name: &mut Vec<u8>, bytes: &[u8]) -> Result<(), AllocError>
    ensures { OnOk result (name.new.items ≡ name.old.items ++ encode_lower bytes.now) }
{
    let digits = hex::encode(alloc, bytes)?;
    name.extend_from_slice(digits.as_bytes())
}

/// The serial number: the first ten bytes of the UUID.
fn serial_number(uuid: &[u8]) -> [u8; 20]
    requires { length uuid.now ≡ 16 }
    ensures { result ≡ encode_lower (take 10 uuid.now) }
{
    let mut digits = [0; 20];
    let _ = hex::encode_to_slice(&uuid[..10], &mut digits);
    digits
}
