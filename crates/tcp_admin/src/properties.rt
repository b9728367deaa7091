//! The properties of controllers, and the Fabrics commands that get and set them.

ghost use Rattle.std.specs.Prelude.{◌≡◌};
ghost use Rattle.tcp_admin.specs.Properties.{can_start, configured, got, has_command_sets, has_defaults, has_sizes, is_enabled, property_at, property_in, requests_after, set_by, set_result, set_state, shut_down_by, shutdown_notification, started, started_by, status_after, status_number, stopped_by, value_of};

use crate::controller::{Controller, ControllerStatus};
use crate::fields::u32_at;
use tcp_pdus::ENTRY_BYTES;
use zone_state::Status;

/// CAP: MQES 127, CQR, TO 20, CSS with the NVM command set and with one or more I/O command sets (NVMe Base 2.0, 3.1.3.1).
const CAPABILITIES: u64 = 0x0820_1401_007F;

/// VS: 1.4 (NVMe Base 2.0, 3.1.3.2).
pub(crate) const VERSION: u32 = 0x0001_0400;

/// The properties that there are (NVMe Base 2.0, 3.1.3).
#[derive(Clone, Copy, Debug, PartialEq, Eq)]
pub(crate) enum Property {
    /// CAP, Controller Capabilities.
    Capabilities,
    /// VS, Version.
    Version,
    /// CC, Controller Configuration, the one that can be set.
    Configuration,
    /// CSTS, Controller Status.
    CurrentStatus,
}

impl Property {
    /// The property at an offset, of the size that ATTRIB tells: 0 for 4 bytes, 1 for 8.
    fn at(offset: u32, size: u8) -> Option<Property>
        ensures { result ≡ property_at offset size }
    {
        match (offset, size) {
            (0x00, 1) => Some(Property::Capabilities),
            (0x08, 0) => Some(Property::Version),
            (0x14, 0) => Some(Property::Configuration),
            (0x1C, 0) => Some(Property::CurrentStatus),
            _ => None,
        }
    }

    /// The property that a Property Get or Property Set names.
    fn read(entry: &[u8; ENTRY_BYTES]) -> Result<Property, Status>
        ensures { result ≡ property_in entry.now }
    {
        Property::at(u32_at(entry, 44), entry[40] % 8).ok_or(Status::INVALID_FIELD_IN_COMMAND)
    }
}

impl ControllerStatus {
    /// CSTS.
    fn number(self) -> u32
        ensures { result ≡ status_number self }
    {
        let ready = if self.is_ready { 1 } else { 0 };
        let fatal = if self.is_fatal { 2 } else { 0 };
        let shut_down = if self.is_shut_down { 8 } else { 0 };
        ready + fatal + shut_down
    }

    /// The status once CC is set.
    fn after(self, old: u32, new: u32) -> ControllerStatus
        ensures { result ≡ status_after old new self }
    {
        self.started_by(old, new).shut_down_by(new).stopped_by(new)
    }

    /// EN becomes 1: the controller is ready, or has failed.
    fn started_by(self, old: u32, new: u32) -> ControllerStatus
        ensures { result ≡ started_by old new self }
    {
        if is_enabled(new) && !is_enabled(old) {
            self.started(new)
        } else {
            self
        }
    }

    fn started(self, new: u32) -> ControllerStatus
        ensures { result ≡ started new self }
    {
        if can_start(new) {
            ControllerStatus {
                is_ready: true,
                ..self
            }
        } else {
            ControllerStatus {
                is_fatal: true,
                ..self
            }
        }
    }

    /// A shutdown that is asked for is complete at once, since nothing has to be saved.
    fn shut_down_by(self, new: u32) -> ControllerStatus
        ensures { result ≡ shut_down_by new self }
    {
        if shutdown_notification(new) == 0 {
            self
        } else {
            ControllerStatus {
                is_shut_down: true,
                ..self
            }
        }
    }

    /// EN is 0: it is neither ready nor failed.
    fn stopped_by(self, new: u32) -> ControllerStatus
        ensures { result ≡ stopped_by new self }
    {
        if is_enabled(new) {
            self
        } else {
            ControllerStatus {
                is_ready: false,
                is_fatal: false,
                ..self
            }
        }
    }
}

/// EN of CC.
fn is_enabled(cc: u32) -> bool
    ensures { result ≡ is_enabled cc }
{
    cc % 2 == 1
}

/// SHN of CC.
fn shutdown_notification(cc: u32) -> u32
    ensures { result ≡ shutdown_notification cc }
{
    cc / 0x4000 % 4
}

/// Can the controller run with this CC: are entries of 64 and 16 bytes, and is all else as CAP says?
fn can_start(cc: u32) -> bool
    ensures { result ≡ can_start cc }
{
    has_sizes(cc) && has_defaults(cc) && has_command_sets(cc)
}

/// Are IOSQES 6 and IOCQES 4?
fn has_sizes(cc: u32) -> bool
    ensures { result ≡ has_sizes cc }
{
    cc / 0x1_0000 % 16 == 6 && cc / 0x10_0000 % 16 == 4
}

/// Are SHN, AMS and MPS 0?
fn has_defaults(cc: u32) -> bool
    ensures { result ≡ has_defaults cc }
{
    shutdown_notification(cc) == 0 && cc / 0x800 % 8 == 0 && cc / 0x80 % 16 == 0
}

/// Is CSS that of the NVM command set, or of all command sets that are supported?
fn has_command_sets(cc: u32) -> bool
    ensures { result ≡ has_command_sets cc }
{
    let command_sets = cc / 0x10 % 8;
    command_sets == 0 || command_sets == 6
}

/// The event requests that are still kept.
fn requests_after(status: ControllerStatus, requests: u8) -> u8
    ensures { result ≡ requests_after status requests }
{
    if status.is_just_ready() { requests } else { 0 }
}

impl Controller {
    /// Executes a Property Get (NVMe Base 2.0, 6.5), and gives the value, which is in Dwords 0 and 1 of the completion.
    ///
    /// # Errors
    ///
    /// Invalid Field in Command for an offset at which no property is, or another size than the property's.
    pub fn property_get(&self, entry: &[u8; ENTRY_BYTES]) -> Result<u64, Status>
        ensures { result ≡ got entry.now self.now }
    {
        let property = Property::read(entry)?;
        Ok(self.value_of(property))
    }

    /// The value of a property.
    fn value_of(&self, property: Property) -> u64
        ensures { result ≡ value_of property self.now }
    {
        match property {
            Property::Capabilities => CAPABILITIES,
            Property::Version => u64::from(VERSION),
            Property::Configuration => u64::from(self.configuration),
            Property::CurrentStatus => u64::from(self.status.number()),
        }
    }

    /// Executes a Property Set (NVMe Base 2.0, 6.6): of CC, which may start the controller, stop it or shut it down. Where it isn't
    /// ready behind that, its event requests are dropped, and whoever has its I/O queues closes them.
    ///
    /// # Errors
    ///
    /// Invalid Field in Command for an offset at which no property is, another size than the property's, or a property that can't
    /// be set; nothing has changed then.
    pub fn property_set(&mut self, entry: &[u8; ENTRY_BYTES]) -> Result<(), Status>
        ensures status { result ≡ set_result (set_by entry.now self.old) }
        ensures state { self.new ≡ set_state (set_by entry.now self.old) self.old }
    {
        match Property::read(entry)? {
            Property::Configuration => {
                self.configure(u32_at(entry, 48));
                Ok(())
            }
            Property::Capabilities | Property::Version | Property::CurrentStatus => {
                Err(Status::INVALID_FIELD_IN_COMMAND)
            }
        }
    }

    /// Sets CC.
    fn configure(&mut self, cc: u32)
        ensures { self.new ≡ configured cc self.old }
    {
        self.status = self.status.after(self.configuration, cc);
        self.configuration = cc;
        self.event_requests = requests_after(self.status, self.event_requests);
    }
}
