//! The command `demo`: a pushdown on a device in memory, in words.

use crate::events::events;
use crate::orders::BLOCK;
use crate::picture::push_zones;
use clap::ArgMatches;
use command_explain::{push_answer, push_command};
use command_files::{Counted, Failure, printed};
use command_words::{Argument, Takes, Words};
use device_events::{CompletionEntry, Event, Reply};
use image_store::{Geometry, Image, Limits};
use interval_domain::Intervals;
use nvme_entry::{Completion, Entry, MOST_TRANSFER, Status};
use runner::Device;
use std::alloc::{AllocError, Global};
use std::io::Write;

/// The command's name.
pub const NAME: &str = "demo";

const HEX: &str = "hex";

/// How the command stands on the command line.
pub static WORDS: Words = Words {
    name: NAME,
    about: "Shows a pushdown on a device in memory, in words",
    long_about: "\
Shows a pushdown: a filter runs beside four orders on a device in memory, and only those of one region are read back. For each \
event it prints what is asked and what is answered, and at the end the zones with what is in their blocks. No file is read or made.",
    example: "\
Example:

  zscli demo",
    arguments: &[Argument {
        id: HEX,
        long: HEX,
        short: None,
        takes: Takes::Nothing,
        help: "Print the bytes of each entry and of each completion too",
    }],
    one_of: &[],
};

/// Shows a pushdown on a device in memory.
///
/// # Errors
///
/// Standard output fails, or memory is wanting.
pub fn demo<'a, O: Write>(
    alloc: Global,
    matches: &ArgMatches<'a>,
    out: &mut O,
) -> Result<(), Failure<'a>> {
    let limits = Limits {
        open_limit: 3,
        active_limit: 3,
    };
    let geometry = match Geometry::new(BLOCK, 4, 64, 64, limits) {
        Ok(geometry) => geometry,
        Err(refusal) => return Err(Failure::GeometryRefused(refusal)),
    };
    let text = shown(alloc, geometry, matches.get_flag(HEX))?;
    printed(out.write_all(text.as_bytes()))
}

/// The demonstration on a device with this geometry.
fn shown(alloc: Global, geometry: Geometry, hex: bool) -> Result<String, AllocError> {
    let image = Image::empty(alloc, geometry)?;
    let mut device = Device::<Intervals>::new(alloc, image);
    let text = text_of(alloc, &mut device, hex);
    drop(device);
    text
}

/// All events of the demonstration, done on a device, and what they leave.
fn text_of(alloc: Global, device: &mut Device<Intervals>, hex: bool) -> Result<String, AllocError> {
    let mut text = String::new(alloc);
    for event in &events(alloc)? {
        push_answered(alloc, device, event, hex, &mut text)?;
    }
    text.push_str("\n")?;
    push_zones(alloc, device.image(), &mut text)?;
    Ok(text)
}

/// Does an event, and adds what is asked and what is answered.
fn push_answered(
    alloc: Global,
    device: &mut Device<Intervals>,
    event: &Event,
    hex: bool,
    out: &mut String,
) -> Result<(), AllocError> {
    let mut output = vec![in alloc; 0; MOST_TRANSFER]?;
    let reply = device.apply(event, output.as_mut_slice());
    push_event(alloc, event, hex, out)?;
    push_reply(alloc, event, &reply, output.as_slice(), hex, out)
}

/// Adds what is asked of the device.
fn push_event(alloc: Global, event: &Event, hex: bool, out: &mut String) -> Result<(), AllocError> {
    match event {
        Event::Submit { queue, entry, .. } => push_submission(alloc, *queue, entry, hex, out),
        Event::Turn { run } => writeln!(out, "a turn of run {run}"),
        Event::Fault { zone, state } => {
            let state = state.word();
            writeln!(out, "a fault of zone {zone}: {state}")
        }
    }
}

/// Adds the command of an entry, and where it came from.
fn push_submission(
    alloc: Global,
    queue: u16,
    entry: &[u8; 64],
    hex: bool,
    out: &mut String,
) -> Result<(), AllocError> {
    let cid = Entry::cid(entry);
    write!(out, "queue {queue}, command {cid}: ")?;
    match Entry::decode(entry) {
        Ok(command) => push_command(&command, out)?,
        Err(status) => write!(out, "{status}")?,
    }
    out.push_str("\n")?;
    push_bytes(alloc, hex, entry, out)
}

/// Adds what the device answers to an event, with `data` at the front of what it gave.
fn push_reply(
    alloc: Global,
    event: &Event,
    reply: &Reply,
    data: &[u8],
    hex: bool,
    out: &mut String,
) -> Result<(), AllocError> {
    match reply {
        Reply::Complete { entry, length, .. } => {
            let data = data.get(..*length).unwrap_or(data);
            push_completion(alloc, event, entry, data, out)?;
            push_bytes(alloc, hex, &entry.bytes(), out)
        }
        Reply::Pending { run } => push_pending(event, *run, out),
        Reply::Idle => out.push_str("  no such run\n"),
        Reply::FaultTaken => out.push_str("  done\n"),
        Reply::FaultRefused => out.push_str("  refused\n"),
    }
}

/// Adds that an event began a run, or did one of its turns.
fn push_pending(event: &Event, run: u8, out: &mut String) -> Result<(), AllocError> {
    match event {
        Event::Submit { .. } => writeln!(out, "  admitted as run {run}"),
        Event::Turn { .. } | Event::Fault { .. } => {
            out.push_str("  done for one block; more are left\n")
        }
    }
}

/// Adds a completion: of the event's own command, or of the run whose last turn it was.
fn push_completion(
    alloc: Global,
    event: &Event,
    entry: &CompletionEntry,
    data: &[u8],
    out: &mut String,
) -> Result<(), AllocError> {
    let completion = entry.completion();
    if completion.status != Status::SUCCESS {
        return push_refusal(alloc, completion.status, out);
    }
    let Event::Submit {
        entry: submitted,
        ..
    } = event
    else {
        return push_run(completion, out);
    };
    match Entry::decode(submitted) {
        Ok(command) => {
            out.push_str("  ")?;
            push_answer(&completion, data, &command, out)
        }
        Err(status) => writeln!(out, "  {status}"),
    }
}

/// Adds that a run has ended, by its completion.
fn push_run(completion: Completion, out: &mut String) -> Result<(), AllocError> {
    let queue = completion.queue;
    let cid = completion.cid;
    let records = Counted(u64::from(completion.dw0), "record");
    let blocks = Counted(u64::from(completion.dw1), "block");
    writeln!(
        out,
        "  the last block; queue {queue}, command {cid}: {records} in {blocks}"
    )
}

/// Adds why a command was refused, without the numbers of the status.
fn push_refusal(alloc: Global, status: Status, out: &mut String) -> Result<(), AllocError> {
    let text = status.to_string(alloc)?;
    let name = before(text.as_str(), " (type ");
    let sentence = after(text.as_str(), "): ");
    writeln!(out, "  refused: {name}: {sentence}")
}

/// A text up to the first mark.
fn before<'a>(text: &'a str, mark: &str) -> &'a str {
    match text.split_once(mark) {
        Some((front, _)) => front,
        None => text,
    }
}

/// A text after the first mark.
fn after<'a>(text: &'a str, mark: &str) -> &'a str {
    match text.split_once(mark) {
        Some((_, rest)) => rest,
        None => text,
    }
}

/// Adds bytes in hexadecimal, where these are asked for.
fn push_bytes(alloc: Global, hex: bool, bytes: &[u8], out: &mut String) -> Result<(), AllocError> {
    if !hex {
        return Ok(());
    }
    let digits = hex::encode(alloc, bytes)?;
    writeln!(out, "    {digits}")
}
