//! Replies as lines of text.

ghost use Rattle.std.specs.Prelude.{◌≡◌, ◌≤◌, ◌<◌, ◌+◌, ◌^◌, ◌++◌, length, vec_capacity, IfOk, OnOk};
ghost use Rattle.std.proofs.Common.{◌∙◌, refl};
ghost use Rattle.std.specs.Io.KnownBytes.{Appends, Keeps};
ghost use Rattle.hex.specs.Hex.{encode_lower};
ghost use Rattle.common_definitions.specs.Failures.{CountsFailure};
ghost use Rattle.device_events.proofs.Proved.{prints_in_parts, prints_none};
ghost use Rattle.event_text.specs.Lines.{Took, completion_text, data_text, printed_by, reply_line, line_text, reply_text};

use device_events::{NotTaken, Out, Reply};
use nvme_entry::MOST_TRANSFER;
use std::alloc::{AllocError, Global};
use std::io;
use std::io::Write;

/// The most bytes in a line: `cpl 65535 `, the completion, a space, the data and the line's end.
const LINE_BYTES: usize = 10 + 32 + 1 + 2 * MOST_TRANSFER + 1;

/// How many bytes are spelled at a time.
const CHUNK: usize = 128;

/// Room for the longest line.
#[derive(Drop)]
pub struct LineRoom {
    line: Vec<u8>,
}

impl LineRoom {
    /// Room for the longest line.
    ///
    /// # Errors
    ///
    /// No memory for that line.
    pub fn new(alloc: Global) -> Result<LineRoom, AllocError>
        ensures { IfOk result (λ room. LINE_BYTES ≤ vec_capacity room.line) }
    {
        let line = Vec::with_capacity(alloc, LINE_BYTES)?;
        Ok(LineRoom { line })
    }
}

/// Prints each reply on a line of its own, in one write.
#[derive(Drop)]
pub struct Lines<'a, W> {
    out: &'a mut W,
    line: Vec<u8>,
    refusals: u64,
}

impl<'a, W: Write> Lines<'a, W> {
    /// A printer of replies, which makes each line in this room. Nothing is printed yet.
    pub fn over(room: LineRoom, out: &'a mut W) -> Lines<'a, W>
        ensures same_writer { (result.out.ghost_name ≡ out.entry.ghost_name) × (result.out.now ≡ out.old) }
        ensures none_refused { ⟦<Lines<'a, W> as Out>⟧.refusals result ≡ 0 }
    {
        let LineRoom { line } = room;
        Lines {
            out,
            line,
            refusals: 0,
        }
    }

    /// Hands on at once what it printed.
    ///
    /// # Errors
    ///
    /// What it prints to can't hand it on.
    pub fn flush(&mut self) -> io::Result<()>
        ensures same_writer { self.new.out.ghost_name ≡ self.old.out.ghost_name }
        ensures same_count { self.new.refusals ≡ self.old.refusals }
        ensures kept { Keeps (W.contents self.old.out.now) (W.contents self.new.out.now) }
    {
        self.out.flush()
    }

    /// What it printed to.
    pub fn into_writer(self) -> &'a mut W
        ensures same_writer { result.ghost_name ≡ self.entry.out.ghost_name }
        ensures value { result.now ≡ self.entry.out.now }
    {
        let Lines { out, .. } = self;
        out
    }
}

impl<W: Write> Out for Lines<'_, W> {
    ghost took = { λ old new replies. Took (printed_by W.contents old) (printed_by W.contents new) replies };

    ghost refusals = { λ lines. lines.refusals };

    ghost takes_none = { λ lines. (refl, prints_none reply_line _) };

    ghost joins = { λ _ _ _ first later early late. (late.0 ∙ early.0, prints_in_parts reply_line _ _ _ first later early.1 late.1) };

    /// Prints the line of a reply and its data, and nothing else. Where it isn't printed, the reply is refused and
    /// counted.
    fn take(&mut self, reply: Reply, bytes: &[u8]) -> Result<(), NotTaken>
        requires { self.old.refusals + 1 < 2 ^ 64 }
        ensures same_writer { self.new.out.ghost_name ≡ self.old.out.ghost_name }
        ensures printed { OnOk result (Appends (W.contents self.old.out.now) (W.contents self.new.out.now) (line_text reply bytes.now)) }
        ensures count { CountsFailure self.old.refusals self.new.refusals result }
    {
        match print(self.out, &mut self.line, reply, bytes) {
            Ok(()) => Ok(()),
            Err(_) => {
                self.refusals += 1;
                Err(NotTaken)
            }
        }
    }

    fn refusals(&self) -> u64 {
        self.refusals
    }
}

/// Prints the line of a reply in one write.
fn print<W: Write>(out: &mut W, line: &mut Vec<u8>, reply: Reply, bytes: &[u8]) -> io::Result<()>
    ensures { OnOk result (Appends (W.contents out.old) (W.contents out.new) (line_text reply bytes.now)) }
{
    line.clear();
    push_line(line, reply, bytes)?;
    out.write_all(line.as_slice())
}

/// Adds the line of a reply with its data, and its end, after what is there.
///
/// # Errors
///
/// No memory: a part of the line may have been added.
pub fn push_line(line: &mut Vec<u8>, reply: Reply, bytes: &[u8]) -> io::Result<()>
    ensures { OnOk result (line.new.items ≡ line.old.items ++ line_text reply bytes.now) }
{
    push_reply(line, reply, bytes)?;
    line.push(b'\n')?;
    Ok(())
}

/// Adds a reply without the end of its line.
pub(crate) fn push_reply(line: &mut Vec<u8>, reply: Reply, bytes: &[u8]) -> io::Result<()>
    ensures { OnOk result (line.new.items ≡ line.old.items ++ reply_text reply bytes.now) }
{
    match reply {
        Reply::Complete { queue, entry, .. } => {
            push_completion(line, queue, &entry.bytes(), bytes)?;
        }
        Reply::Pending { run } => write!(line, "pending {run}")?,
        Reply::Idle => write!(line, "idle")?,
        Reply::FaultTaken => write!(line, "done")?,
        Reply::FaultRefused => write!(line, "refused")?,
    }
    Ok(())
}

/// Adds a completion of these bytes, with its data.
pub(crate) fn push_completion(
    line: &mut Vec<u8>,
    queue: u16,
    entry: &[u8; 16],
    bytes: &[u8],
) -> io::Result<()>
    ensures { OnOk result (line.new.items ≡ line.old.items ++ completion_text queue entry.now bytes.now) }
{
    write!(line, "cpl {queue} ")?;
    push_hex(line, entry)?;
    push_data(line, bytes)?;
    Ok(())
}

/// Adds a space and the digits of the data, where there is any.
pub(crate) fn push_data(line: &mut Vec<u8>, bytes: &[u8]) -> Result<(), AllocError>
    ensures { OnOk result (line.new.items ≡ line.old.items ++ data_text bytes.now) }
{
    if !bytes.is_empty() {
        line.push(b' ')?;
        push_hex(line, bytes)?;
    }
    Ok(())
}

/// Adds two lower case hexadecimal digits for each byte.
pub(crate) fn push_hex(line: &mut Vec<u8>, bytes: &[u8]) -> Result<(), AllocError>
    ensures { OnOk result (line.new.items ≡ line.old.items ++ encode_lower bytes.now) }
{
    let mut rest = bytes;
    while !rest.is_empty() {
        let (chunk, behind) = rest.split_at(rest.len().min(CHUNK));
        push_digits(line, chunk)?;
        rest = behind;
    }
    Ok(())
}

fn push_digits(line: &mut Vec<u8>, chunk: &[u8]) -> Result<(), AllocError>
    requires { length chunk.now ≤ CHUNK }
    ensures { OnOk result (line.new.items ≡ line.old.items ++ encode_lower chunk.now) }
{
    let mut digits = [0; 2 * CHUNK];
    let digits = &mut digits[..2 * chunk.len()];
    hex::encode_to_slice(chunk, digits).unwrap();
    line.extend_from_slice(digits)
}
