//! Which answers a command can have.

ghost use Rattle.std.specs.Prelude.{◌≡◌};
ghost use Rattle.command_explain.specs.steps.Fitting.{can_succeed, can_succeed_standard, has_no_dwords, is_of_blocks};

use nvme_entry::{BlockCount, Command, Completion, StandardCommand, Status};
use program_interface::{BLOCK_SIZES, SCRATCH_BYTES};

/// Can a command have this completion, with so many bytes of data? Of a refusal it is known already that it has none.
pub(crate) fn can_answer(completion: &Completion, bytes: usize, command: &Command) -> bool
    ensures { completion.now.status ≡ Status.SUCCESS → result ≡ can_succeed completion.now bytes command.now }
{
    if completion.status == Status::SUCCESS {
        can_succeed(completion, bytes, command)
    } else if completion.status == Status::PROGRAM_REFUSED {
        matches!(command, Command::Load(_))
    } else {
        has_no_dwords(completion)
    }
}

/// Can a command succeed with this completion?
fn can_succeed(completion: &Completion, bytes: usize, command: &Command) -> bool
    ensures { result ≡ can_succeed completion.now bytes command.now }
{
    match command {
        Command::Standard(command) => can_succeed_standard(completion, bytes, command),
        Command::Run(_) => bytes == 0,
        Command::Load(_) => has_no_dwords(completion) && bytes == 0,
        Command::Result(_) => has_no_dwords(completion) && bytes == SCRATCH_BYTES,
    }
}

fn can_succeed_standard(completion: &Completion, bytes: usize, command: &StandardCommand) -> bool
    ensures { result ≡ can_succeed_standard completion.now bytes command.now }
{
    match command {
        StandardCommand::Append { .. } => bytes == 0,
        StandardCommand::Read { blocks, .. } => {
            has_no_dwords(completion) && is_of_blocks(bytes, *blocks)
        }
        StandardCommand::Receive { dwords, .. } => {
            has_no_dwords(completion) && bytes == dwords.bytes()
        }
        _ => has_no_dwords(completion) && bytes == 0,
    }
}

/// Are Dwords 0 and 1 of a completion 0?
pub(crate) fn has_no_dwords(completion: &Completion) -> bool
    ensures { result ≡ has_no_dwords completion.now }
{
    completion.dw0 == 0 && completion.dw1 == 0
}

/// Are so many bytes as many blocks, of one of the sizes that blocks have?
fn is_of_blocks(bytes: usize, blocks: BlockCount) -> bool
    ensures { result ≡ is_of_blocks bytes blocks }
{
    let blocks = u64::from(blocks.get());
    BLOCK_SIZES
        .iter()
        .any(|size| blocks * u64::from(*size) == bytes as u64)
}
