//! A target with the device behind it.

ghost use Rattle.std.specs.Prelude.{◌≡◌, IfOk};
ghost use Rattle.image_store.specs.Namespace.{shape};
ghost use Rattle.tcp_device.specs.Format.{IsFormatOf};
ghost use Rattle.tcp_device.specs.State.{begun, begun_on, with_target};

use crate::pending::PendingCommand;
use nvme_entry::MOST_TRANSFER;
use runner::Device;
use std::alloc::{AllocError, Global};
use std::marker::Model;
use tcp_admin::{NamespaceFormat, Subsystem};
use tcp_target::Target;
use zns_commands::Image;
use zone_resources::RUNS;

/// An NVMe/TCP target with the device behind it. It takes no memory but that of [`ServedTarget::new`], and what a Load keeps of its
/// program.
#[derive(Drop)]
pub struct ServedTarget {
    pub(crate) device: Device,
    pub(crate) target: Target,
    /// The commands of the active runs, by the numbers of these.
    pub(crate) pending: [Option<PendingCommand>; RUNS],
    /// From which number on the next turn looks for a run.
    pub(crate) next: usize,
    /// Room for the data that a command gives.
    pub(crate) output: Vec<u8>,
}

impl Model for ServedTarget {
    ghost use Rattle.tcp_device.specs.State.{ServedState};
    ghost use Rattle.tcp_device.specs.steps.Room.{HasRoom};

    ghost Value = { ServedState };

    ghost view = { λ s. record { device = s.device; target = s.target; pending = s.pending; next = s.next } };

    ghost invariant = { λ s. HasRoom s.next s.output.items };
}

impl ServedTarget {
    /// A device with the namespace of an image, and a target without connections before it, which tells hosts the format of that
    /// namespace.
    ///
    /// # Errors
    ///
    /// No memory for what it keeps.
    pub fn new(
        alloc: Global,
        image: Image,
        subsystem: Subsystem,
        format: NamespaceFormat,
    ) -> Result<ServedTarget, AllocError>
        requires format { IsFormatOf (shape image) format }
        ensures { IfOk result (λ served. served ≡ begun image subsystem format) }
    {
        ServedTarget::on(alloc, Device::new(alloc, image), subsystem, format)
    }

    /// A target without connections before a device, which tells hosts the format of its namespace. No connection waits for the runs
    /// that the device has; [`ServedTarget::resume`] gives them turns.
    ///
    /// # Errors
    ///
    /// No memory for what it keeps.
    pub fn on(
        alloc: Global,
        device: Device,
        subsystem: Subsystem,
        format: NamespaceFormat,
    ) -> Result<ServedTarget, AllocError>
        requires format { IsFormatOf (shape device.namespace) format }
        ensures { IfOk result (λ served. served ≡ begun_on device subsystem format) }
    {
        Ok(ServedTarget {
            device,
            target: Target::new(alloc, subsystem, format)?,
            pending: [None; RUNS],
            next: 0,
            output: vec![in alloc; 0; MOST_TRANSFER]?,
        })
    }

    /// The device.
    pub fn device(&self) -> &Device
        ensures { result.now ≡ self.now.device }
    {
        &self.device
    }

    /// The target before it.
    pub fn target(&self) -> &Target
        ensures { result.now ≡ self.now.target }
    {
        &self.target
    }

    /// Has the target be another subsystem from now on, as before its first connection.
    pub fn set_subsystem(&mut self, subsystem: Subsystem)
        ensures { self.new ≡ with_target (record self.old.target { subsystem = subsystem }) self.old }
    {
        self.target.set_subsystem(subsystem);
    }
}
