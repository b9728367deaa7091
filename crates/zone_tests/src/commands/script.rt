//! Scripts: what happens to a small namespace, step by step, and what is seen of it.

ghost use Rattle.std.specs.Prelude.{◌≤◌};

use std::alloc::Global;
use std::process::Abort;
use std::test::Fail;
use zns_commands::{
    Answer, BlockCount, FaultState, Geometry, Holds, Image, Limits, MOST_TRANSFER, Namespace,
    StandardCommand, Status,
};
use zone_state::{Action, ZoneState};

/// The bytes of a block.
const BLOCK: usize = 512;

/// What a command that is done is answered.
pub const OK: Status = Status::SUCCESS;

/// A step of a script.
#[derive(Clone, Copy, Debug)]
pub enum Step {
    /// Another new namespace, of which nothing is written.
    Begin,
    /// A command with so many bytes of data beside it, and the status that it is answered.
    Execute(StandardCommand, usize, Status),
    /// A zone fault, and whether it is taken.
    Fault(u32, FaultState, bool),
    /// The data of the last command: so many blocks that were written, and then so many of zeros.
    Gives(u16, u16),
    /// The states of the zones.
    Leaves([ZoneState; 4]),
}

/// An Append of blocks.
pub fn append(lba: u64, blocks: u16, status: Status) -> Step
    requires { 1 ≤ blocks }
{
    let bytes = BLOCK * usize::from(blocks);
    let blocks = BlockCount::from_zero_based(blocks - 1);
    Step::Execute(StandardCommand::Append { lba, blocks }, bytes, status)
}

/// A Write of blocks.
pub fn write(lba: u64, blocks: u16, status: Status) -> Step
    requires { 1 ≤ blocks }
{
    let bytes = BLOCK * usize::from(blocks);
    let blocks = BlockCount::from_zero_based(blocks - 1);
    Step::Execute(StandardCommand::Write { lba, blocks }, bytes, status)
}

/// A Read of blocks.
pub fn read(lba: u64, blocks: u16, status: Status) -> Step
    requires { 1 ≤ blocks }
{
    let blocks = BlockCount::from_zero_based(blocks - 1);
    Step::Execute(StandardCommand::Read { lba, blocks }, 0, status)
}

/// An action on the zone of an address.
pub fn send(lba: u64, action: Action, status: Status) -> Step {
    let command = StandardCommand::Send {
        lba,
        action,
        select_all: false,
    };
    Step::Execute(command, 0, status)
}

/// Four zones of 8 blocks, 6 of them writable; 2 zones may be open and 3 active.
fn namespace(alloc: Global) -> Result<Namespace, Fail> {
    let limits = Limits {
        open_limit: 2,
        active_limit: 3,
    };
    let geometry = Geometry::new(BLOCK as u32, 4, 8, 6, limits)?;
    Ok(Namespace::new(Image::empty(alloc, geometry)?))
}

/// Takes the steps in turn, on a new namespace, of which nothing is written.
pub fn play(rt: &impl Abort, alloc: Global, steps: &[Step]) -> Result<(), Fail> {
    let mut stage = Stage {
        alloc,
        namespace: namespace(alloc)?,
        data: vec![in alloc; 7; 8 * BLOCK]?,
        output: vec![in alloc; 1; MOST_TRANSFER]?,
        last: Answer::success(0, 0),
        number: 0,
    };
    for (number, step) in steps.iter().enumerate() {
        stage.number = number;
        stage.take(rt, step)?;
    }
    Ok(())
}

/// A script on its way.
#[derive(Drop)]
struct Stage {
    alloc: Global,
    namespace: Namespace,
    data: Vec<u8>,
    output: Vec<u8>,
    last: Answer,
    /// The number of the step, from 0 on.
    number: usize,
}

impl Stage {
    fn take(&mut self, rt: &impl Abort, step: &Step) -> Result<(), Fail> {
        let number = self.number;
        match *step {
            Step::Begin => self.namespace = namespace(self.alloc)?,
            Step::Execute(command, beside, status) => self.execute(rt, &command, beside, status)?,
            Step::Fault(zone, state, taken) => {
                let result = self.namespace.fault(zone, state, &Holds::none());
                assert_eq!(rt; result.is_ok(), taken, "step {number}");
            }
            Step::Gives(written, zeros) => self.assert_given(rt, written, zeros),
            Step::Leaves(states) => self.assert_states(rt, states),
        }
        Ok(())
    }

    /// Executes a command. One that is refused must leave the zones as they were.
    fn execute(
        &mut self,
        rt: &impl Abort,
        command: &StandardCommand,
        beside: usize,
        status: Status,
    ) -> Result<(), Fail> {
        let zones = self.namespace.image().zones().to_vec(self.alloc)?;
        let input = self.data.get(..beside).unwrap_or(&[]);
        let output = self.output.as_mut_slice();
        assert_eq!(rt; output.len(), MOST_TRANSFER);
        self.last = self
            .namespace
            .execute(command, input, output, &Holds::none());
        assert_eq!(rt;
            self.last.status,
            status,
            "step {}: {command:?}",
            self.number
        );
        if status != OK {
            assert_eq!(rt; self.namespace.image().zones(), zones.as_slice());
        }
        Ok(())
    }

    fn assert_given(&self, rt: &impl Abort, written: u16, zeros: u16) {
        let stored = self.data.get(..BLOCK * usize::from(written)).unwrap_or(&[]);
        let given = self.output.get(..self.last.length).unwrap_or(&[]);
        assert_eq!(rt; given.len(), stored.len() + BLOCK * usize::from(zeros));
        assert!(rt; given.starts_with(stored), "step {}", self.number);
        assert!(rt; given.iter().skip(stored.len()).all(|byte| *byte == 0));
    }

    fn assert_states(&self, rt: &impl Abort, states: [ZoneState; 4]) {
        for (zone, state) in self.namespace.image().zones().iter().zip(states) {
            assert_eq!(rt; zone.state(), state, "step {}", self.number);
        }
    }
}
