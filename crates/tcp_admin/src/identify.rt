//! Identify.

ghost use Rattle.std.specs.Prelude.{◌≡◌};
ghost use Rattle.common_definitions.specs.Checks.{first_failed, unless_failed};
ghost use Rattle.tcp_admin.specs.Identify.{identified, identify_checks, may_name, namespace_in, structure_bytes, structure_in, structure_of};

use crate::admin::MOST_ADMIN_DATA;
use crate::answer::check_length;
use crate::fields::u32_at;
use crate::structures;
use crate::structures::{Page, ZONED};
use crate::subsystem::{NamespaceFormat, Subsystem};
use tcp_pdus::ENTRY_BYTES;
use zone_state::Status;

/// The data structures that CNS and CSI name (NVMe Base 2.0, 5.17.1).
#[derive(Clone, Copy, Debug, PartialEq, Eq)]
pub(crate) enum Structure {
    /// Identify Namespace.
    Namespace,
    /// Identify Controller.
    Controller,
    /// The list of active namespaces.
    NamespaceList,
    /// The list of active namespaces of a command set.
    NamespaceListOf(u8),
    /// Namespace Identification Descriptors.
    NamespaceDescriptors,
    /// Identify Namespace of zoned namespaces.
    ZonedNamespace,
    /// Identify Controller of the NVM command set.
    NvmController,
    /// Identify Controller of zoned namespaces.
    ZonedController,
    /// Identify I/O Command Set.
    CommandSets,
}

impl Structure {
    /// The structure that CNS and CSI name, if there is one.
    fn of(cns: u8, csi: u8) -> Option<Structure>
        ensures { result ≡ structure_of cns csi }
    {
        match (cns, csi) {
            (0x00, _) => Some(Structure::Namespace),
            (0x01, _) => Some(Structure::Controller),
            (0x02, _) => Some(Structure::NamespaceList),
            (0x03, _) => Some(Structure::NamespaceDescriptors),
            (0x05, 2) => Some(Structure::ZonedNamespace),
            (0x06, 0) => Some(Structure::NvmController),
            (0x06, 2) => Some(Structure::ZonedController),
            (0x07, _) => Some(Structure::NamespaceListOf(csi)),
            (0x1C, _) => Some(Structure::CommandSets),
            _ => None,
        }
    }

    /// The structure that an Identify asks for.
    fn read(entry: &[u8; ENTRY_BYTES]) -> Result<Structure, Status>
        ensures { result ≡ structure_in entry.now }
    {
        Structure::of(entry[40], entry[47]).ok_or(Status::INVALID_FIELD_IN_COMMAND)
    }

    /// May NSID be this? What is told of a namespace is told of namespace 1; a list begins above any but the two highest identifiers.
    fn may_name(self, nsid: u32) -> bool
        ensures { result ≡ may_name self nsid }
    {
        match self {
            Structure::Namespace | Structure::NamespaceDescriptors | Structure::ZonedNamespace =>
                nsid == 1,
            Structure::NamespaceList | Structure::NamespaceListOf(_) => nsid < 0xFFFF_FFFE,
            Structure::Controller
            | Structure::NvmController
            | Structure::ZonedController
            | Structure::CommandSets => true,
        }
    }

    /// Its bytes, for the controller with this identifier.
    fn bytes(self, nsid: u32, id: u16, subsystem: &Subsystem, format: &NamespaceFormat) -> Page
        ensures { result ≡ structure_bytes self nsid id subsystem.now format.now }
    {
        match self {
            Structure::Namespace => structures::namespace(subsystem, format),
            Structure::Controller => structures::controller(id, subsystem),
            Structure::NamespaceList => structures::list(nsid == 0),
            Structure::NamespaceListOf(csi) => structures::list(nsid == 0 && csi == ZONED),
            Structure::NamespaceDescriptors => structures::descriptors(subsystem),
            Structure::ZonedNamespace => structures::zoned_namespace(format),
            Structure::NvmController => structures::nvm_controller(),
            Structure::ZonedController => structures::zoned_controller(),
            Structure::CommandSets => structures::command_sets(),
        }
    }

    /// The checks of NSID, and of how long the data is to be.
    fn check(self, entry: &[u8; ENTRY_BYTES]) -> Result<(), Status>
        ensures { result ≡ unless_failed (first_failed (identify_checks self entry.now)) tt }
    {
        if !self.may_name(namespace(entry)) {
            return Err(Status::INVALID_NAMESPACE_OR_FORMAT);
        }
        check_length(entry, MOST_ADMIN_DATA)
    }
}

/// NSID.
fn namespace(entry: &[u8; ENTRY_BYTES]) -> u32
    ensures { result ≡ namespace_in entry.now }
{
    u32_at(entry, 4)
}

/// The data structure that an Identify asks for, of the controller with this identifier.
///
/// # Errors
///
/// That of the first check that fails: Invalid Field in Command where CNS and CSI name no structure; Invalid Namespace or Format
/// where NSID isn't 1 and the structure is a namespace's, or is one of the two highest and the structure is a list; Data SGL Length
/// Invalid.
pub(crate) fn identify(
    entry: &[u8; ENTRY_BYTES],
    id: u16,
    subsystem: &Subsystem,
    format: &NamespaceFormat,
) -> Result<Page, Status>
    ensures { result ≡ identified entry.now id subsystem.now format.now }
{
    let structure = Structure::read(entry)?;
    structure.check(entry)?;
    Ok(structure.bytes(namespace(entry), id, subsystem, format))
}
