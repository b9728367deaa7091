//! The device, to which events happen.

ghost use Rattle.std.specs.Prelude.{◌≡◌, ◌≢◌, true, false, ◌≤◌, ◌<◌, ◌+◌, ◌*◌, ◌^◌, is_some, length, map, take, drop, OnOk, IfErr, IfOk, IfSome, MatchOption};
ghost use Rattle.device_meaning.specs.Judging.{judge_by};
ghost use Rattle.nvme_entry.specs.Entry.{decoded};
ghost use Rattle.nvme_entry.specs.declared.command.TheConstants.{MOST_BLOCKS};
ghost use Rattle.device_events.specs.Replies.{data_length};
ghost use Rattle.device_meaning.specs.Draining.{HasDrained, HasStoppedDraining, lowest_run, turns_left};
ghost use Rattle.device_meaning.specs.Events.{HasHappened, HasServed, HasStopped};
ghost use Rattle.device_meaning.specs.State.{new_state};
ghost use Rattle.device_meaning.specs.Reached.{IsReached};
ghost use Rattle.common_definitions.specs.Failures.{CountsFailure};
ghost use Rattle.nvme_entry.specs.declared.program_slot.TheConstants.{PROGRAM_SLOTS};
ghost use Rattle.zone_resources.specs.declared.holds.TheConstants.{RUNS};
ghost use Rattle.kept_device.specs.Kept.{place_told, slot_told};
ghost use Rattle.runner.specs.Restored.{IsRestoredBy, TellNoneBy};
ghost use Rattle.runner.specs.Stored.{asks_for_stored};
ghost use Rattle.runner.specs.Taken.{HasTakenBy};
ghost use Rattle.runner.specs.Turns.{turned_on};
ghost use Rattle.runner.specs.steps.ServedOne.{HasServedOne};

use crate::device_state::DeviceState;
use crate::restoring::{KeptDevice, kept_of, state_again};
use crate::submission::{StoredReply, Submission, read, submit};
use crate::turn::{turn, turns};
use device_events::{Event, NotTaken, Out, Reply};
use device_meaning::laws::domains_judge_soundly;
use interval_domain::Intervals;
use kept_device::{KeptProgram, KeptRun};
use nvme_entry::MOST_TRANSFER;
use program_interface::LARGEST_BLOCK;
use std::alloc::{AllocError, Global};
use std::marker::Model;
use verified_run::Stack;
use word_domain::Domain;
use zns_commands::{Image, Namespace};
use zone_resources::RUNS;

/// A reply was refused.
#[derive(Clone, Copy, Debug, PartialEq, Eq)]
pub struct Stopped {
    /// How many events are done, the one with the refused reply being the last of them.
    pub done: usize,
}

/// A device with one namespace, slots for programs, and places for active runs. A clause sees its state.
#[derive(Drop)]
pub struct Device<D: Domain = Intervals> {
    /// What a Load takes its memory from.
    alloc: Global,
    state: DeviceState<D>,
    /// The stack of a turn's program.
    stack: Stack,
    /// Where a turn's program emits to.
    group: [u8; LARGEST_BLOCK],
}

impl<D: Domain> Model for Device<D> {
    ghost use Rattle.device_meaning.specs.Judging.{judge_by};
    ghost use Rattle.device_meaning.specs.Reached.{IsReached};
    ghost use Rattle.device_meaning.specs.State.{State};

    ghost Value = { State };

    ghost view = { λ d. d.state };

    ghost invariant = { λ d. IsReached (judge_by D.operations) d.state };
}

impl<D: Domain> Device<D> {
    /// A device with the namespace of an image, without a program or a run, in a state that events leave.
    pub fn new(alloc: Global, image: Image) -> Device<D>
        ensures value { result ≡ new_state image }
        ensures reached { IsReached (judge_by D.operations) result }
    {
        let state = DeviceState::new(Namespace::new(image));
        Device::begun(alloc, state)
    }

    /// A device with the namespace of this one, without a program or a run, whose Load judges over another domain. It is in a state that
    /// events leave.
    pub fn renewed<E: Domain>(self) -> Device<E>
        ensures value { result ≡ new_state self.namespace }
        ensures reached { IsReached (judge_by E.operations) result }
    {
        let Device { alloc, state, .. } = self;
        let DeviceState { namespace, .. } = state;
        let new = DeviceState::new(namespace);
        Device::begun(alloc, new)
    }

    /// A device in a state that events leave, which has yet to do its first event.
    fn begun(alloc: Global, state: DeviceState<D>) -> Device<D>
        requires { IsReached (judge_by D.operations) state }
        ensures value { result ≡ state }
        ensures reached { IsReached (judge_by D.operations) result }
    {
        Device {
            alloc,
            state,
            stack: Stack::new(),
            group: [0; LARGEST_BLOCK],
        }
    }

    /// The device that is told by a namespace and what was kept beside it: its programs are accepted again, and its runs go on. `None`
    /// where they tell none. It is in a state that events leave.
    ///
    /// # Errors
    ///
    /// No memory.
    pub fn restored(
        alloc: Global,
        image: Image,
        programs: &[Option<KeptProgram>],
        runs: &[Option<KeptRun>],
    ) -> Result<Option<Device<D>>, AllocError>
        requires programs { length programs.now ≡ PROGRAM_SLOTS }
        requires runs { length runs.now ≡ RUNS }
        ensures restored { IfOk result (λ found. MatchOption found
            (TellNoneBy (judge_by D.operations) image (map slot_told programs.now) (map place_told runs.now))
            (IsRestoredBy (judge_by D.operations) image (map slot_told programs.now) (map place_told runs.now))) }
        ensures reached { IfOk result (λ found. IfSome found (IsReached (judge_by D.operations))) }
    {
        domains_judge_soundly::<D>();
        let Some(state) = state_again(alloc, image, programs, runs)? else {
            return Ok(None);
        };
        Ok(Some(Device::begun(alloc, state)))
    }

    /// What is kept of the device beside its namespace. With that it tells the same device.
    ///
    /// # Errors
    ///
    /// No memory.
    pub fn kept(&self, alloc: Global) -> Result<KeptDevice, AllocError>
        ensures { IfOk result (λ kept. IsRestoredBy (judge_by D.operations)
            self.now.namespace (map slot_told kept.programs.items) (map place_told kept.runs.items) self.now) }
    {
        kept_of(alloc, &self.state)
    }

    /// The namespace as an image. The device is in a state that events leave.
    pub fn image(&self) -> &Image
        ensures value { result.now ≡ self.now.namespace }
        ensures reached { IsReached (judge_by D.operations) self.now }
    {
        self.state.namespace().image()
    }

    /// Has it neither a program nor a run, as one that was just made?
    pub fn is_new(&self) -> bool
        ensures new { result ≡ true → self.now ≡ new_state self.now.namespace }
        ensures other { result ≡ false → self.now ≢ new_state self.now.namespace }
    {
        self.state.is_new()
    }

    /// Does one event: the reply with its data, and the state behind it, are those that the definitions of
    /// `device_meaning` say. The data of the reply goes to the front of `output`, which has room for the largest
    /// transfer; what lies behind it stays. The device is then in a state that events leave.
    pub fn apply(&mut self, event: &Event, output: &mut [u8]) -> Reply
        requires { MOST_TRANSFER ≤ length output.old }
        ensures happened { HasHappened (judge_by D.operations) event.now self.old self.new
            (record { reply = result; bytes = take (data_length result) output.new }) }
        ensures rest { drop (data_length result) output.new ≡ drop (data_length result) output.old }
        ensures within { data_length result ≤ length output.new }
        ensures reached { IsReached (judge_by D.operations) self.new }
    {
        match event {
            Event::Submit {
                queue,
                entry,
                input,
            } => {
                let submission = Submission::new(*queue, entry, input.as_slice());
                submit(self.alloc, &mut self.state, &submission, output)
            }
            Event::Turn { run } => turn(&mut self.state, &mut self.stack, &mut self.group, *run),
            Event::Fault { zone, state } => self.state.fault(*zone, *state),
        }
    }

    /// Does the event of an entry that is submitted to a queue with data beside it, as [`Device::apply`] does, from the
    /// data where it lies. `output` is as there. The device is then in a state that events leave.
    pub fn submit(&mut self, queue: u16, entry: &[u8; 64], input: &[u8], output: &mut [u8]) -> Reply
        requires { MOST_TRANSFER ≤ length output.old }
        ensures submitted { HasTakenBy (judge_by D.operations) queue entry.now input.now self.old self.new
            (record { reply = result; bytes = take (data_length result) output.new }) }
        ensures rest { drop (data_length result) output.new ≡ drop (data_length result) output.old }
        ensures within { data_length result ≤ length output.new }
        ensures reached { IsReached (judge_by D.operations) self.new }
    {
        let submission = Submission::new(queue, entry, input);
        submit(self.alloc, &mut self.state, &submission, output)
    }

    /// Does the event of an entry as [`Device::submit`] does, and gives the data of the reply as it lies in the image: where
    /// the entry is a Read that isn't refused and whose blocks are all written. `None` for every other entry, whose event is
    /// yet to be done.
    pub fn read<'a>(&'a self, queue: u16, entry: &[u8; 64], input: &[u8]) -> Option<StoredReply<'a>>
        ensures stored { is_some result ≡ asks_for_stored self.now.namespace (decoded entry.now) input.now }
        ensures submitted { IfSome result (λ given. HasTakenBy (judge_by D.operations) queue entry.now input.now self.now self.now
            (record { reply = given.reply; bytes = given.bytes.now })) }
        ensures length { IfSome result (λ given. data_length given.reply ≡ length given.bytes.now) }
        ensures most { IfSome result (λ given. length given.bytes.now ≤ MOST_TRANSFER) }
    {
        let submission = Submission::new(queue, entry, input);
        read(&self.state, &submission)
    }

    /// Does one event, and hands out the reply with its data.
    ///
    /// # Errors
    ///
    /// `out` refuses the reply.
    fn serve_one<O: Out>(
        &mut self,
        event: &Event,
        output: &mut [u8],
        out: &mut O,
    ) -> Result<(), NotTaken>
        requires room { MOST_TRANSFER ≤ length output.old }
        requires counts { O.refusals out.old + 1 < 2 ^ 64 }
        ensures served { HasServedOne (judge_by D.operations) event.now self.old self.new (O.took out.old out.new) result }
        ensures refused { CountsFailure (O.refusals out.old) (O.refusals out.new) result }
        ensures reached { IsReached (judge_by D.operations) self.new }
    {
        let reply = self.apply(event, output);
        out.take(reply, &output[..reply.data_length()])
    }

    /// Does events in order, and hands out the reply to each with its data: the replies, and the state behind them, are
    /// those of the definitions. It stops at the first reply that `out` refuses, whose event is done. `output` has room
    /// for the largest transfer, and `out` can count one refusal more. The device is then in a state that events leave.
    ///
    /// # Errors
    ///
    /// Stops at the first reply that `out` refuses.
    pub fn serve<O: Out>(
        &mut self,
        events: &[Event],
        output: &mut [u8],
        out: &mut O,
    ) -> Result<(), Stopped>
        requires room { MOST_TRANSFER ≤ length output.old }
        requires counts { O.refusals out.old + 1 < 2 ^ 64 }
        ensures served { OnOk result (HasServed (judge_by D.operations) events.now self.old self.new (O.took out.old out.new)) }
        ensures stopped { IfErr result (λ stopped.
            HasStopped (judge_by D.operations) events.now self.old self.new (O.took out.old out.new) stopped.done) }
        ensures refused { CountsFailure (O.refusals out.old) (O.refusals out.new) result }
        ensures reached { IsReached (judge_by D.operations) self.new }
    {
        for (index, event) in events.iter().enumerate() {
            match self.serve_one(event, output, out) {
                Ok(()) => {}
                Err(_) => return Err(Stopped { done: index + 1 }),
            }
        }
        // Brings in that the device is in a state that events leave, also where it was given none.
        let _ = self.image();
        Ok(())
    }

    /// Gives a run a turn, and up to `more` after it as long as it has turns left: the reply, which has no data, is that to the
    /// last of them. The device is then in a state that events leave.
    pub fn turns(&mut self, run: u8, more: usize) -> Reply
        ensures reply { result ≡ (turned_on more self.old run).reply.reply }
        ensures state { self.new ≡ (turned_on more self.old run).state }
        ensures no_data { data_length result ≡ 0 }
        ensures reached { IsReached (judge_by D.operations) self.new }
    {
        turns(&mut self.state, &mut self.stack, &mut self.group, run, more)
    }

    /// The number of the run that a turn is given next, where all runs are to end: the lowest.
    pub fn lowest_run(&self) -> Option<u8>
        ensures lowest { result ≡ lowest_run self.now }
        ensures reached { IsReached (judge_by D.operations) self.now }
        ensures few { turns_left self.now.places ≤ MOST_BLOCKS * RUNS }
    {
        self.state.lowest_run()
    }

    /// Gives turns, always to the run of the lowest number, until no run is left, and hands out the reply to each: the
    /// replies, and the state behind them, are those of the definitions. It stops at the first reply that `out`
    /// refuses. `output` and `out` are as in [`Device::serve`]. The device is then in a state that events leave.
    ///
    /// # Errors
    ///
    /// Stops at the first reply that `out` refuses.
    pub fn drain<O: Out>(&mut self, output: &mut [u8], out: &mut O) -> Result<(), Stopped>
        requires room { MOST_TRANSFER ≤ length output.old }
        requires counts { O.refusals out.old + 1 < 2 ^ 64 }
        ensures drained { OnOk result (HasDrained self.old self.new (O.took out.old out.new)) }
        ensures stopped { IfErr result (λ stopped. HasStoppedDraining self.old self.new (O.took out.old out.new) stopped.done) }
        ensures refused { CountsFailure (O.refusals out.old) (O.refusals out.new) result }
        ensures reached { IsReached (judge_by D.operations) self.new }
    {
        domains_judge_soundly::<D>();
        let mut done = 0;
        while let Some(run) = self.lowest_run() {
            done += 1;
            match self.serve_one(&Event::Turn { run }, output, out) {
                Ok(()) => {}
                Err(_) => return Err(Stopped { done }),
            }
        }
        Ok(())
    }
}
