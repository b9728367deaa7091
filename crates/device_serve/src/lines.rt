//! The codec of lines.

ghost use Rattle.std.specs.Prelude.{◌≡◌, ◌≤◌, ◌<◌, ◌-◌, ◌++◌, ◌^◌, ℕ, List, Option, [], drop, length, take, IfErr, IfOk, OnOk};
ghost use Rattle.nvme_entry.specs.declared.command.TheConstants.{MOST_TRANSFER};
ghost use Rattle.device_serve.specs.Begun.{IsWithinLine};
ghost use Rattle.device_serve.specs.LineLaws.{lines_starve, lines_stay, lines_unread};
ghost use Rattle.device_serve.specs.LineStream.{DoesLinesAfter, EndsLines, FailsIn, IsReady, StopsLinesAfter, ends_in};
ghost use Rattle.device_serve.specs.LineSteps.{ServesText};

use crate::codec::{Codec, MOST_WAITING};
use crate::fault::ServeFault;
use crate::kept::KeptDevice;
use crate::line_events::LineDoer;
use durable_device::FrameDevice;
use durable_machine::Store;
use std::alloc::{AllocError, Global};
use text_lines::cut;

/// Reads the lines of a command file, which come in any pieces, and spells the line of each reply. Where it is asked for, turns are given
/// after each event until no run is left, the run of the lowest number first, and the lines of the replies to these are spelled too. At the
/// end of the stream that is done also where it isn't asked for. A last line without an end counts as a line.
#[derive(Drop)]
pub struct LineCodec {
    /// What came after the last line's end.
    unended: Vec<u8>,
    /// How many lines stand before it, where that is below the largest number of 64 bits.
    count: usize,
    doer: LineDoer,
}

impl LineCodec {
    /// The codec of a stream of which nothing has come. `drains` asks for turns after each event.
    ///
    /// # Errors
    ///
    /// No memory for the largest transfer and the longest line.
    pub fn new(alloc: Global, drains: bool) -> Result<LineCodec, AllocError>
        ensures ready { IfOk result IsReady }
        ensures none { IfOk result (λ codec. codec.unended.items ≡ []) }
        ensures first { IfOk result (λ codec. codec.count ≡ 0) }
        ensures drains { IfOk result (λ codec. codec.doer.drains ≡ drains) }
    {
        let doer = LineDoer::new(alloc, drains)?;
        Ok(LineCodec {
            unended: Vec::new(alloc),
            count: 0,
            doer,
        })
    }

    /// Does the events of the lines that end in a piece, until there is much to answer, and gives how many bytes of it these are. Where
    /// there isn't much, no line ends in what is left of the piece.
    fn take_ended<S: Store<FrameDevice> + Drop>(
        &mut self,
        kept: &mut KeptDevice<S>,
        piece: &[u8],
        answer: &mut Vec<u8>,
    ) -> Result<usize, ServeFault>
        requires ready { IsReady self.old }
        requires kept { S.keeps kept.old.device.value (S.waits kept.old.events) (S.disk kept.old.events) }
        ensures ready { IsReady self.new }
        ensures kept { S.keeps kept.new.device.value (S.waits kept.new.events) (S.disk kept.new.events) }
        ensures same { S.disk kept.new.events ≡ S.disk kept.old.events }
        ensures within { IfOk result (λ count. count ≤ length piece.now) }
        ensures some { IfOk result (λ count. count ≡ 0 → answer.new.items ≡ answer.old.items) }
        ensures unended { IfOk result (λ count. length answer.new.items < MOST_WAITING → ends_in (drop count piece.now) ≡ 0) }
        ensures done { IfOk result (λ count. DoesLinesAfter self.old kept.old.device.value answer.old.items (take count piece.now)
            self.new kept.new.device.value answer.new.items) }
        ensures failed { IfErr result (λ fault. FailsIn self.old.doer.drains (self.old.unended.items ++ piece.now) self.old.count fault
            kept.old.device.value kept.new.device.value answer.old.items answer.new.items) }
    {
        let mut count = 0;
        while answer.len() < MOST_WAITING {
            let rest = &piece[count..];
            let Some((front, _)) = cut(rest, b'\n') else {
                return Ok(count);
            };
            let size = front.len() + 1;
            self.serve_ended(kept, &rest[..size], answer)?;
            count += size;
        }
        Ok(count)
    }

    /// Does the event of a line that is what is unended, and then this text. Nothing is unended then.
    fn serve_ended<S: Store<FrameDevice> + Drop>(
        &mut self,
        kept: &mut KeptDevice<S>,
        text: &[u8],
        answer: &mut Vec<u8>,
    ) -> Result<(), ServeFault>
        requires ready { IsReady self.old }
        requires kept { S.keeps kept.old.device.value (S.waits kept.old.events) (S.disk kept.old.events) }
        ensures ready { IsReady self.new }
        ensures drains { self.new.doer.drains ≡ self.old.doer.drains }
        ensures kept { S.keeps kept.new.device.value (S.waits kept.new.events) (S.disk kept.new.events) }
        ensures same { S.disk kept.new.events ≡ S.disk kept.old.events }
        ensures none { OnOk result (self.new.unended.items ≡ []) }
        ensures served { OnOk result (ServesText self.old.doer.drains (self.old.unended.items ++ text.now) self.old.count self.new.count
            kept.old.device.value kept.new.device.value answer.old.items answer.new.items) }
        ensures failed { IfErr result (λ fault. FailsIn self.old.doer.drains (self.old.unended.items ++ text.now) self.old.count fault
            kept.old.device.value kept.new.device.value answer.old.items answer.new.items) }
    {
        if self.unended.is_empty() {
            self.count = self.doer.serve_text(kept, self.count, text, answer)?;
            return Ok(());
        }
        self.unended.extend_from_slice(text)?;
        self.serve_unended(kept, answer)
    }

    /// Does the events of the lines of what is unended. Nothing is unended then.
    fn serve_unended<S: Store<FrameDevice> + Drop>(
        &mut self,
        kept: &mut KeptDevice<S>,
        answer: &mut Vec<u8>,
    ) -> Result<(), ServeFault>
        requires few { self.old.count ≤ 2 ^ 64 - 1 }
        requires room { length self.old.doer.output.items ≡ MOST_TRANSFER }
        requires kept { S.keeps kept.old.device.value (S.waits kept.old.events) (S.disk kept.old.events) }
        ensures ready { IsReady self.new }
        ensures drains { self.new.doer.drains ≡ self.old.doer.drains }
        ensures kept { S.keeps kept.new.device.value (S.waits kept.new.events) (S.disk kept.new.events) }
        ensures same { S.disk kept.new.events ≡ S.disk kept.old.events }
        ensures none { self.new.unended.items ≡ [] }
        ensures served { OnOk result (ServesText self.old.doer.drains self.old.unended.items self.old.count self.new.count
            kept.old.device.value kept.new.device.value answer.old.items answer.new.items) }
        ensures failed { IfErr result (λ fault. FailsIn self.old.doer.drains self.old.unended.items self.old.count fault
            kept.old.device.value kept.new.device.value answer.old.items answer.new.items) }
    {
        let text = self.unended.as_slice();
        let done = self.doer.serve_text(kept, self.count, text, answer);
        self.unended.clear();
        self.count = done?;
        Ok(())
    }
}

impl<S: Store<FrameDevice> + Drop> Codec<S> for LineCodec {
    ghost is_ready = { IsReady };

    ghost does = { DoesLinesAfter };

    ghost ends = { EndsLines };

    ghost stops = { StopsLinesAfter };

    ghost within = { IsWithinLine };

    ghost stays = { lines_stay };

    ghost unread = { lines_unread };

    ghost starved = { lines_starve };

    fn take(
        &mut self,
        kept: &mut KeptDevice<S>,
        piece: &[u8],
        answer: &mut Vec<u8>,
    ) -> Result<usize, ServeFault> {
        let count = self.take_ended(kept, piece, answer)?;
        if answer.len() >= MOST_WAITING {
            return Ok(count);
        }
        self.unended.extend_from_slice(&piece[count..])?;
        Ok(piece.len())
    }

    /// Nothing is left to do: the turns after an event are given with it.
    fn rest(&mut self, _kept: &mut KeptDevice<S>, _answer: &mut Vec<u8>) -> Result<(), ServeFault> {
        Ok(())
    }

    fn end(&mut self, kept: &mut KeptDevice<S>, answer: &mut Vec<u8>) -> Result<(), ServeFault> {
        self.serve_unended(kept, answer)?;
        self.doer.drain(kept, answer)?;
        Ok(())
    }

    fn is_within(&self) -> bool {
        !self.unended.is_empty()
    }

    fn joins() {}
}
