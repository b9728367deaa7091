//! A namespace that takes commands.

ghost use Rattle.std.specs.Prelude.{◌≡◌, ◌≤◌, ◌<◌, length, drop};
ghost use Rattle.image_store.specs.Geometry.{IsShape};
ghost use Rattle.image_store.specs.Namespace.{appended, shape, IsNamespace};
ghost use Rattle.zns_commands.specs.Address.{counted_zone_at};
ghost use Rattle.zns_commands.specs.Effect.{effect_of_answer};
ghost use Rattle.zns_commands.specs.Append.{TakesBlocks};
ghost use Rattle.zns_commands.specs.Fault.{zone_fault_refusal, faulted};
ghost use Rattle.zns_commands.specs.Meaning.{meaning};

use crate::answer::Answer;
use crate::append::append;
use crate::fault::fault;
use crate::read::read;
use crate::receive::receive;
use crate::send::send;
use crate::write::write;
use image_store::{Geometry, Image, Zone};
use nvme_entry::{MOST_TRANSFER, StandardCommand};
use std::marker::Model;
use zone_resources::Holds;
use zone_state::{FaultRefused, FaultState};

/// A zoned namespace. A clause sees its zones, each with its state and its written blocks.
#[derive(Drop)]
pub struct Namespace {
    image: Image,
}

impl Model for Namespace {
    ghost use Rattle.image_store.specs.Namespace.{ZonedNamespace};

    ghost Value = { ZonedNamespace };

    ghost view = { λ n. n.image };
}

impl Namespace {
    /// The namespace that an image holds.
    pub fn new(image: Image) -> Namespace
        ensures { result ≡ image }
    {
        Namespace { image }
    }

    /// The image that holds the namespace.
    pub fn image(&self) -> &Image
        ensures { result.now ≡ self.now }
    {
        &self.image
    }

    /// The shape of the namespace. In each namespace the open and active zones are within the limits, each zone's state
    /// fits its written blocks, and each block is whole.
    pub fn geometry(&self) -> Geometry
        ensures value { result ≡ shape self.now }
        ensures known { IsShape result }
        ensures sound { IsNamespace self.now }
    {
        self.image.geometry()
    }

    /// The zone with this number, without its blocks.
    pub fn zone(&self, zone: u32) -> Zone
        requires { zone < length self.now.zones }
        ensures { result ≡ counted_zone_at self.now zone }
    {
        self.image.zone(zone)
    }

    /// Writes whole blocks, one or more, at the write pointer of an open zone that has room for them. Where
    /// they are no more than a transfer may be, an Append of them to that zone that meets no hold leaves the
    /// same: the law [`added_blocks_are_appended`](crate::laws::added_blocks_are_appended).
    pub fn append_blocks(&mut self, zone: u32, bytes: &[u8])
        requires { TakesBlocks self.old zone bytes.now }
        ensures { self.new ≡ appended self.old zone bytes.now }
    {
        // Brings in what holds of each namespace.
        let _ = self.geometry();
        self.image.append(zone, bytes);
    }

    /// Executes a command, with the data that stands beside its entry, under the holds of the active runs. Its status,
    /// dwords and data and the namespace behind it are those of its meaning: an ordered list of checks, of which the
    /// first that fails decides and leaves all as it was, and else one effect. The data that the command gives goes to
    /// the front of `output`, which has room for the largest transfer; what lies behind it stays.
    pub fn execute(
        &mut self,
        command: &StandardCommand,
        input: &[u8],
        output: &mut [u8],
        holds: &Holds,
    ) -> Answer
        requires { MOST_TRANSFER ≤ length output.old }
        ensures meaning { effect_of_answer result self.new output.new ≡ meaning self.old holds.now command.now input.now }
        ensures most { result.length ≤ MOST_TRANSFER }
        ensures rest { drop result.length output.new ≡ drop result.length output.old }
    {
        execute(&mut self.image, command, input, output, holds)
    }

    /// Takes a zone fault (profile): the zone comes into the fault's state, its resources are freed, and Offline
    /// forgets its blocks. It is refused, and changes nothing, where there is no such zone, a run uses it, or Read Only
    /// would follow Offline.
    ///
    /// # Errors
    ///
    /// [`FaultRefused`] for a zone that there isn't, for one that an active run uses, and for Read
    /// Only where the zone is Offline; nothing has changed then.
    pub fn fault(&mut self, zone: u32, state: FaultState, holds: &Holds) -> Result<(), FaultRefused>
        ensures refusal { result ≡ zone_fault_refusal self.old holds.now zone state }
        ensures state { self.new ≡ faulted self.old holds.now zone state }
    {
        fault(&mut self.image, zone, state, holds)
    }
}

/// What [`Namespace::execute`] does to the image of a namespace.
fn execute(
    image: &mut Image,
    command: &StandardCommand,
    input: &[u8],
    output: &mut [u8],
    holds: &Holds,
) -> Answer
    requires { MOST_TRANSFER ≤ length output.old }
    ensures meaning { effect_of_answer result image.new output.new ≡ meaning image.old holds.now command.now input.now }
    ensures most { result.length ≤ MOST_TRANSFER }
    ensures rest { drop result.length output.new ≡ drop result.length output.old }
{
    match *command {
        StandardCommand::Write { lba, blocks } => { write(image, holds, lba, blocks, input) }
        StandardCommand::Read { lba, blocks } => read(image, lba, blocks, input, output),
        StandardCommand::Send {
            lba,
            action,
            select_all,
        } => send(image, holds, lba, action, select_all, input),
        StandardCommand::Receive {
            lba,
            dwords,
            filter,
            partial,
        } => receive(image, lba, dwords, filter, partial, input, output),
        StandardCommand::Append { lba, blocks } => append(image, holds, lba, blocks, input),
    }
}
