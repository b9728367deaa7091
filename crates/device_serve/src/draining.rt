//! Turns that end all runs.

ghost use Rattle.std.specs.Prelude.{◌≡◌, ◌≤◌, ◌++◌, ◌⊎◌, ℕ, List, length, OnErr, OnOk};
ghost use Rattle.nvme_entry.specs.declared.command.TheConstants.{MOST_TRANSFER};
ghost use Rattle.device_events.specs.Replies.{ReplyWithData};
ghost use Rattle.device_meaning.specs.Happenings.{turned};
ghost use Rattle.device_serve.specs.EndingRuns.{EndsRuns, EndsSome};

use crate::kept::KeptDevice;
use device_meaning::laws::domains_judge_soundly;
use durable_device::FrameDevice;
use durable_machine::Store;
use interval_domain::Intervals;
use nvme_entry::MOST_TRANSFER;
use runner::{Event, Reply};
use std::alloc::AllocError;

/// Spells replies.
pub(crate) trait Spells {
    /// How a reply with its data is spelled.
    ghost spelled: { ReplyWithData → List ℕ };

    /// Adds a reply with its data to an answer.
    ///
    /// # Errors
    ///
    /// No memory. Then the answer is as it was.
    fn add(&mut self, answer: &mut Vec<u8>, reply: Reply, bytes: &[u8]) -> Result<(), AllocError>
        requires few { length bytes.now ≤ MOST_TRANSFER }
        ensures added { OnOk result (answer.new.items ≡ answer.old.items ++ spelled (record { reply = reply; bytes = bytes.now })) }
        ensures unanswered { OnErr result (answer.new.items ≡ answer.old.items) };
}

/// Gives turns, always to the run of the lowest number, until no run is left, and adds the reply to each to the answer.
///
/// # Errors
///
/// No memory. Then some turns are given, and all of them are answered, or all but the last.
pub(crate) fn end_runs<S: Store<FrameDevice> + Drop, P: Spells>(
    kept: &mut KeptDevice<S>,
    spelling: &mut P,
    output: &mut [u8],
    answer: &mut Vec<u8>,
) -> Result<(), AllocError>
    requires room { length output.old ≡ MOST_TRANSFER }
    requires kept { S.keeps kept.old.device.value (S.waits kept.old.events) (S.disk kept.old.events) }
    ensures kept { S.keeps kept.new.device.value (S.waits kept.new.events) (S.disk kept.new.events) }
    ensures same { S.disk kept.new.events ≡ S.disk kept.old.events }
    ensures ended { OnOk result (EndsRuns P.spelled kept.old.device.value kept.new.device.value answer.old.items answer.new.items) }
    ensures stopped { OnErr result (EndsSome P.spelled kept.old.device.value kept.new.device.value answer.old.items answer.new.items) }
{
    // Brings in that each turn leaves a run fewer turns.
    domains_judge_soundly::<Intervals>();
    while let Some(run) = kept.device.lowest_run() {
        give_turn(kept, run, spelling, output, answer)?;
    }
    Ok(())
}

/// Gives a run a turn, and adds the reply to the answer.
fn give_turn<S: Store<FrameDevice> + Drop, P: Spells>(
    kept: &mut KeptDevice<S>,
    run: u8,
    spelling: &mut P,
    output: &mut [u8],
    answer: &mut Vec<u8>,
) -> Result<(), AllocError>
    requires room { length output.old ≡ MOST_TRANSFER }
    requires kept { S.keeps kept.old.device.value (S.waits kept.old.events) (S.disk kept.old.events) }
    ensures kept { S.keeps kept.new.device.value (S.waits kept.new.events) (S.disk kept.new.events) }
    ensures same { S.disk kept.new.events ≡ S.disk kept.old.events }
    ensures turned { OnOk result (kept.new.device.value ≡ (turned kept.old.device.value run).state) }
    ensures answered { OnOk result (answer.new.items ≡ answer.old.items ++ P.spelled (turned kept.old.device.value run).reply) }
    ensures perhaps { OnErr result ((kept.new.device.value ≡ kept.old.device.value)
        ⊎ (kept.new.device.value ≡ (turned kept.old.device.value run).state)) }
    ensures unanswered { OnErr result (answer.new.items ≡ answer.old.items) }
{
    let reply = kept.apply(&Event::Turn { run }, output)?;
    spelling.add(answer, reply, &output[..reply.data_length()])
}
