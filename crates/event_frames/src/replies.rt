//! What answers requests, as frames.

ghost use Rattle.std.specs.Prelude.{◌≡◌, ◌≤◌, ◌+◌, ◌<◌, ◌^◌, ◌++◌, length, take, vec_capacity, IfOk, OnErr, OnOk};
ghost use Rattle.std.proofs.Common.{◌∙◌, refl};
ghost use Rattle.std.specs.Io.KnownBytes.{Appends};
ghost use Rattle.common_definitions.specs.Failures.{CountsFailure};
ghost use Rattle.device_events.proofs.Proved.{prints_in_parts, prints_none};
ghost use Rattle.event_frames.specs.Frames.{drained_frame, frame_of, reply_frame, reply_header, saved_frame};
ghost use Rattle.event_frames.specs.Written.{Took, written_by};

use crate::frame_header::{HEADER_BYTES, header};
use device_events::{NotTaken, Out, Reply};
use nvme_entry::MOST_TRANSFER;
use std::alloc::{AllocError, Global};
use std::io;
use std::io::Write;

/// The most bytes of a reply's frame: a header, a completion and data.
const MOST_BYTES: usize = HEADER_BYTES + 16 + MOST_TRANSFER;

/// Room for the longest frame.
#[derive(Drop)]
pub struct FrameRoom {
    frame: Vec<u8>,
}

impl FrameRoom {
    /// Room for the longest frame.
    ///
    /// # Errors
    ///
    /// No memory for that frame.
    pub fn new(alloc: Global) -> Result<FrameRoom, AllocError>
        ensures { IfOk result (λ room. MOST_BYTES ≤ vec_capacity room.frame) }
    {
        let frame = Vec::with_capacity(alloc, MOST_BYTES)?;
        Ok(FrameRoom { frame })
    }
}

/// Writes the frame of each reply, in one write.
#[derive(Drop)]
pub struct Frames<'a, W> {
    out: &'a mut W,
    frame: Vec<u8>,
    refusals: u64,
}

impl<'a, W: Write> Frames<'a, W> {
    /// A writer of frames, which makes each frame in this room. Nothing is written yet.
    pub fn over(room: FrameRoom, out: &'a mut W) -> Frames<'a, W>
        ensures same_writer { (result.out.ghost_name ≡ out.entry.ghost_name) × (result.out.now ≡ out.old) }
        ensures none_refused { ⟦<Frames<'a, W> as Out>⟧.refusals result ≡ 0 }
    {
        let FrameRoom { frame } = room;
        Frames {
            out,
            frame,
            refusals: 0,
        }
    }

    /// What it wrote to.
    pub fn into_writer(self) -> &'a mut W
        ensures same_writer { result.ghost_name ≡ self.entry.out.ghost_name }
        ensures value { result.now ≡ self.entry.out.now }
    {
        let Frames { out, .. } = self;
        out
    }
}

impl<W: Write> Out for Frames<'_, W> {
    ghost took = { λ old new replies. Took (written_by W.contents old) (written_by W.contents new) replies };

    ghost refusals = { λ frames. frames.refusals };

    ghost takes_none = { λ frames. (refl, prints_none reply_frame _) };

    ghost joins = { λ _ _ _ first later early late. (late.0 ∙ early.0, prints_in_parts reply_frame _ _ _ first later early.1 late.1) };

    /// Writes the frame of a reply and its data, and nothing else. Where it isn't written, the reply is refused and
    /// counted.
    fn take(&mut self, reply: Reply, bytes: &[u8]) -> Result<(), NotTaken>
        requires { self.old.refusals + 1 < 2 ^ 64 }
        ensures same_writer { self.new.out.ghost_name ≡ self.old.out.ghost_name }
        ensures written { OnOk result (Appends (W.contents self.old.out.now) (W.contents self.new.out.now) (frame_of reply bytes.now)) }
        ensures count { CountsFailure self.old.refusals self.new.refusals result }
    {
        match write(self.out, &mut self.frame, reply, bytes) {
            Ok(()) => Ok(()),
            Err(_) => {
                self.refusals += 1;
                Err(NotTaken)
            }
        }
    }

    fn refusals(&self) -> u64 {
        self.refusals
    }
}

/// Writes the frame of a reply in one write.
fn write<W: Write>(out: &mut W, frame: &mut Vec<u8>, reply: Reply, bytes: &[u8]) -> io::Result<()>
    ensures { OnOk result (Appends (W.contents out.old) (W.contents out.new) (frame_of reply bytes.now)) }
{
    if bytes.len() > MOST_TRANSFER {
        return Err(io::Error::from(io::ErrorKind::InvalidInput));
    }
    frame.clear();
    push_reply(frame, reply, bytes)?;
    out.write_all(frame.as_slice())
}

/// Adds the frame of a reply and its data, which is no more than a command moves.
///
/// # Errors
///
/// Want of memory: a part of the frame may have been added.
pub fn push_reply(frame: &mut Vec<u8>, reply: Reply, bytes: &[u8]) -> Result<(), AllocError>
    requires { length bytes.now < 2 ^ 32 }
    ensures added { OnOk result (frame.new.items ≡ frame.old.items ++ frame_of reply bytes.now) }
    ensures begins { take (length frame.old.items) frame.new.items ≡ frame.old.items }
{
    frame.extend_from_slice(&reply_header(&reply, bytes.len() as u32))?;
    match &reply {
        Reply::Complete { entry, .. } => frame.extend_from_slice(&entry.bytes())?,
        Reply::Pending { .. } | Reply::Idle | Reply::FaultTaken | Reply::FaultRefused => {}
    }
    frame.extend_from_slice(bytes)?;
    Ok(())
}

/// The header of a reply with so many bytes of data.
fn reply_header(reply: &Reply, size: u32) -> [u8; HEADER_BYTES]
    ensures { result ≡ reply_header reply.now size }
{
    match reply {
        Reply::Complete { queue, .. } => header(1, 0, *queue, 0, size),
        Reply::Pending { run } => header(2, *run, 0, 0, size),
        Reply::Idle => header(3, 0, 0, 0, size),
        Reply::FaultTaken => header(4, 0, 0, 0, size),
        Reply::FaultRefused => header(5, 0, 0, 0, size),
    }
}

/// Adds the frame that ends the answer to a drain, in which so many turns were given.
///
/// # Errors
///
/// Want of memory. Then nothing is added.
pub fn push_drained(frame: &mut Vec<u8>, turns: u32) -> Result<(), AllocError>
    ensures added { OnOk result (frame.new.items ≡ frame.old.items ++ drained_frame turns) }
    ensures refused { OnErr result (frame.new.items ≡ frame.old.items) }
{
    frame.extend_from_slice(&header(6, 0, 0, turns, 0))
}

/// Adds the frame that answers a save.
///
/// # Errors
///
/// Want of memory. Then nothing is added.
pub fn push_saved(frame: &mut Vec<u8>) -> Result<(), AllocError>
    ensures added { OnOk result (frame.new.items ≡ frame.old.items ++ saved_frame) }
    ensures refused { OnErr result (frame.new.items ≡ frame.old.items) }
{
    frame.extend_from_slice(&header(7, 0, 0, 0, 0))
}
