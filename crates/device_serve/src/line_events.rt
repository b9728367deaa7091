//! The events of lines, and the turns after them.

ghost use Rattle.std.specs.Prelude.{◌≡◌, ◌∷◌, [], length, IfErr, IfOk, OnErr, OnOk};
ghost use Rattle.nvme_entry.specs.declared.command.TheConstants.{MOST_TRANSFER};
ghost use Rattle.device_meaning.specs.Events.{HasServed};
ghost use Rattle.device_meaning.specs.Judging.{interval_judge};
ghost use Rattle.event_text.specs.Lines.{reply_line};
ghost use Rattle.device_serve.specs.EndingRuns.{EndsRuns, EndsSome};
ghost use Rattle.device_serve.specs.LineStream.{Does, FailsIn, HasAnswered};
ghost use Rattle.device_serve.specs.LineSteps.{FailsAt, IsPerhapsDone, ServesLine, ServesText, StopsAt};

use crate::draining::{Spells, end_runs};
use crate::fault::ServeFault;
use crate::kept::KeptDevice;
use crate::line_spelling::LineSpelling;
use durable_device::FrameDevice;
use durable_machine::Store;
use event_text::{EventFault, event_of};
use nvme_entry::MOST_TRANSFER;
use runner::Event;
use std::alloc::{AllocError, Global};
use text_lines::first_line;

/// Does the events of lines, and spells the replies.
#[derive(Drop)]
pub(crate) struct LineDoer {
    /// What events take their memory from.
    alloc: Global,
    /// Whether turns are given after each event, until no run is left.
    drains: bool,
    /// Where the data of a reply goes.
    output: Vec<u8>,
    spelling: LineSpelling,
}

impl LineDoer {
    /// Room for the largest transfer, and for the longest line.
    ///
    /// # Errors
    ///
    /// No memory.
    pub(crate) fn new(alloc: Global, drains: bool) -> Result<LineDoer, AllocError>
        ensures room { IfOk result (λ doer. length doer.output.items ≡ MOST_TRANSFER) }
        ensures drains { IfOk result (λ doer. doer.drains ≡ drains) }
    {
        let output = vec![in alloc; 0; MOST_TRANSFER]?;
        let spelling = LineSpelling::new(alloc)?;
        Ok(LineDoer {
            alloc,
            drains,
            output,
            spelling,
        })
    }

    /// Does the events of the lines of a text, before which so many lines stand, and gives how many lines stand before what follows it.
    /// The line of each reply is added to the answer.
    ///
    /// # Errors
    ///
    /// A line is rejected, or memory is wanting.
    pub(crate) fn serve_text<S: Store<FrameDevice> + Drop>(
        &mut self,
        kept: &mut KeptDevice<S>,
        before: usize,
        text: &[u8],
        answer: &mut Vec<u8>,
    ) -> Result<usize, ServeFault>
        requires room { length self.old.output.items ≡ MOST_TRANSFER }
        requires kept { S.keeps kept.old.device.value (S.waits kept.old.events) (S.disk kept.old.events) }
        ensures room { length self.new.output.items ≡ MOST_TRANSFER }
        ensures drains { self.new.drains ≡ self.old.drains }
        ensures kept { S.keeps kept.new.device.value (S.waits kept.new.events) (S.disk kept.new.events) }
        ensures same { S.disk kept.new.events ≡ S.disk kept.old.events }
        ensures done { IfOk result (λ after. ServesText self.old.drains text.now before after
            kept.old.device.value kept.new.device.value answer.old.items answer.new.items) }
        ensures failed { IfErr result (λ fault. FailsIn self.old.drains text.now before fault
            kept.old.device.value kept.new.device.value answer.old.items answer.new.items) }
    {
        let mut rest = text;
        let mut count = before;
        while !rest.is_empty() {
            let (line, behind) = first_line(rest);
            let number = count.saturating_add(1);
            self.serve_line(kept, number, line, answer)?;
            rest = behind;
            count = number;
        }
        Ok(count)
    }

    /// Does the event of a line with this number, where it has one.
    fn serve_line<S: Store<FrameDevice> + Drop>(
        &mut self,
        kept: &mut KeptDevice<S>,
        number: usize,
        line: &[u8],
        answer: &mut Vec<u8>,
    ) -> Result<(), ServeFault>
        requires room { length self.old.output.items ≡ MOST_TRANSFER }
        requires kept { S.keeps kept.old.device.value (S.waits kept.old.events) (S.disk kept.old.events) }
        ensures room { length self.new.output.items ≡ MOST_TRANSFER }
        ensures drains { self.new.drains ≡ self.old.drains }
        ensures kept { S.keeps kept.new.device.value (S.waits kept.new.events) (S.disk kept.new.events) }
        ensures same { S.disk kept.new.events ≡ S.disk kept.old.events }
        ensures done { OnOk result (ServesLine self.old.drains line.now
            kept.old.device.value kept.new.device.value answer.old.items answer.new.items) }
        ensures failed { IfErr result (λ fault. FailsAt self.old.drains line.now number fault
            kept.old.device.value kept.new.device.value answer.old.items answer.new.items) }
    {
        match event_of(self.alloc, line) {
            Ok(Some(event)) => match self.serve_event(kept, &event, answer) {
                Ok(()) => Ok(()),
                Err(_) => Err(ServeFault::Memory),
            },
            Ok(None) => Ok(()),
            Err(EventFault::Refused(fault)) => Err(ServeFault::Line { number, fault }),
            Err(EventFault::Memory) => Err(ServeFault::Memory),
        }
    }

    /// Does an event, and where it is asked for gives turns after it until no run is left. The line of each reply is added to the
    /// answer.
    ///
    /// # Errors
    ///
    /// No memory.
    fn serve_event<S: Store<FrameDevice> + Drop>(
        &mut self,
        kept: &mut KeptDevice<S>,
        event: &Event,
        answer: &mut Vec<u8>,
    ) -> Result<(), AllocError>
        requires room { length self.old.output.items ≡ MOST_TRANSFER }
        requires kept { S.keeps kept.old.device.value (S.waits kept.old.events) (S.disk kept.old.events) }
        ensures room { length self.new.output.items ≡ MOST_TRANSFER }
        ensures drains { self.new.drains ≡ self.old.drains }
        ensures kept { S.keeps kept.new.device.value (S.waits kept.new.events) (S.disk kept.new.events) }
        ensures same { S.disk kept.new.events ≡ S.disk kept.old.events }
        ensures done { OnOk result (Does self.old.drains (event.now ∷ []) kept.old.device.value kept.new.device.value
            (HasAnswered answer.old.items answer.new.items)) }
        ensures stopped { OnErr result (StopsAt self.old.drains event.now kept.old.device.value kept.new.device.value
            answer.old.items answer.new.items) }
    {
        self.apply(kept, event, answer)?;
        if !self.drains {
            return Ok(());
        }
        self.drain(kept, answer)
    }

    /// Does an event, and adds the line of the reply to the answer.
    fn apply<S: Store<FrameDevice> + Drop>(
        &mut self,
        kept: &mut KeptDevice<S>,
        event: &Event,
        answer: &mut Vec<u8>,
    ) -> Result<(), AllocError>
        requires room { length self.old.output.items ≡ MOST_TRANSFER }
        requires kept { S.keeps kept.old.device.value (S.waits kept.old.events) (S.disk kept.old.events) }
        ensures room { length self.new.output.items ≡ MOST_TRANSFER }
        ensures drains { self.new.drains ≡ self.old.drains }
        ensures kept { S.keeps kept.new.device.value (S.waits kept.new.events) (S.disk kept.new.events) }
        ensures same { S.disk kept.new.events ≡ S.disk kept.old.events }
        ensures done { OnOk result (HasServed interval_judge (event.now ∷ []) kept.old.device.value kept.new.device.value
            (HasAnswered answer.old.items answer.new.items)) }
        ensures perhaps { OnErr result (IsPerhapsDone event.now kept.old.device.value kept.new.device.value) }
        ensures unanswered { OnErr result (answer.new.items ≡ answer.old.items) }
    {
        let output = self.output.as_mut_slice();
        answer_event(kept, event, &mut self.spelling, output, answer)
    }

    /// Gives turns, always to the run of the lowest number, until no run is left, and adds the line of each reply to the answer.
    ///
    /// # Errors
    ///
    /// No memory.
    pub(crate) fn drain<S: Store<FrameDevice> + Drop>(
        &mut self,
        kept: &mut KeptDevice<S>,
        answer: &mut Vec<u8>,
    ) -> Result<(), AllocError>
        requires room { length self.old.output.items ≡ MOST_TRANSFER }
        requires kept { S.keeps kept.old.device.value (S.waits kept.old.events) (S.disk kept.old.events) }
        ensures room { length self.new.output.items ≡ MOST_TRANSFER }
        ensures drains { self.new.drains ≡ self.old.drains }
        ensures kept { S.keeps kept.new.device.value (S.waits kept.new.events) (S.disk kept.new.events) }
        ensures same { S.disk kept.new.events ≡ S.disk kept.old.events }
        ensures ended { OnOk result (EndsRuns reply_line kept.old.device.value kept.new.device.value answer.old.items answer.new.items) }
        ensures stopped { OnErr result (EndsSome reply_line kept.old.device.value kept.new.device.value answer.old.items answer.new.items) }
    {
        let output = self.output.as_mut_slice();
        end_runs(kept, &mut self.spelling, output, answer)
    }
}

/// Does an event, whose data goes to `output`, and adds the line of the reply to the answer.
fn answer_event<S: Store<FrameDevice> + Drop>(
    kept: &mut KeptDevice<S>,
    event: &Event,
    spelling: &mut LineSpelling,
    output: &mut [u8],
    answer: &mut Vec<u8>,
) -> Result<(), AllocError>
    requires room { length output.old ≡ MOST_TRANSFER }
    requires kept { S.keeps kept.old.device.value (S.waits kept.old.events) (S.disk kept.old.events) }
    ensures kept { S.keeps kept.new.device.value (S.waits kept.new.events) (S.disk kept.new.events) }
    ensures same { S.disk kept.new.events ≡ S.disk kept.old.events }
    ensures done { OnOk result (HasServed interval_judge (event.now ∷ []) kept.old.device.value kept.new.device.value
        (HasAnswered answer.old.items answer.new.items)) }
    ensures perhaps { OnErr result (IsPerhapsDone event.now kept.old.device.value kept.new.device.value) }
    ensures unanswered { OnErr result (answer.new.items ≡ answer.old.items) }
{
    let reply = kept.apply_any(event, output)?;
    spelling.add(answer, reply, &output[..reply.data_length()])
}
