//! Command files: a list of events as text, one on a line.
//!
//! ```text
//! submit QUEUE ENTRY [DATA]   ; ENTRY: 128 hexadecimal digits, DATA: hexadecimal
//! turn RUN
//! fault ZONE readonly
//! fault ZONE offline
//! ```

ghost use Rattle.std.specs.Prelude.{◌≡◌, ◌^◌, IfOk, map, option_and_then};
ghost use Rattle.std.specs.Str.{bytes_eq};
ghost use Rattle.common_definitions.specs.Below.{below};
ghost use Rattle.common_definitions.specs.Gives.{Gives};
ghost use Rattle.zone_state.specs.Words.{fault_word};
ghost use Rattle.text_lines.specs.Number.{decimal_of};
ghost use Rattle.event_text.specs.Words.{words_of};
ghost use Rattle.event_text.specs.declared.command_file.EventFault.TheVariants.{Refused};
ghost use Rattle.event_text.specs.declared.command_file.ParseFault.TheVariants.{Memory};
ghost use Rattle.device_events.specs.ToldEvents.{told_of};
ghost use Rattle.event_text.specs.CommandFile.{submission_of, turn_of, fault_of, state_named, event_named as named_event, line_told, events_in, refused_line, worded_lines, GivesLine};
ghost use Rattle.event_text.specs.steps.ReadLines.{entry_fault as fault_of_entry, data_fault as fault_of_data, GivesEvent};

use crate::fault::LineFault;
use crate::words::Words;
use device_events::Event;
use hex::{FromHex, FromHexError};
use std::alloc::{AllocFailed, Global};
use text_lines::{Excerpt, decimal, first_line, is_all_ascii, without_comment};
use thiserror::Error;
use zone_state::FaultState;

/// Why a command file isn't read.
#[derive(Clone, Copy, Debug, PartialEq, Eq, Error)]
pub enum ParseFault {
    /// A line is refused.
    #[error("line {number}: {fault}")]
    Line {
        /// The line's number, the first being 1.
        number: usize,
        /// Why it is refused.
        fault: LineFault,
    },
    /// No memory for the events.
    #[error("no memory")]
    Memory,
}

/// Why a line isn't read.
#[derive(Clone, Copy, Debug, PartialEq, Eq)]
pub enum EventFault {
    /// It isn't of the form.
    Refused(LineFault),
    /// No memory for its event.
    Memory,
}

/// What a command file tells.
#[derive(Debug, Drop)]
pub struct CommandFile {
    /// Its events, in order.
    pub events: Vec<Event>,
    /// The numbers of the lines that tell them, the first line being 1.
    pub lines: Vec<usize>,
}

/// What a command file tells, by one scan: its events, in order, and the lines of these, which are the lines that have words; or the number
/// of the lowest line that is refused is told, with a fault.
///
/// # Errors
///
/// The lowest line that isn't of the form, or want of memory before one was found.
#[tactic(auto, using(crate::proofs::FileLemmas::event_read, crate::proofs::FileLemmas::nothing_read, crate::proofs::FileLemmas::line_refused, crate::proofs::FileLemmas::all_read, crate::proofs::FileLemmas::none_read, crate::proofs::WordedLines::event_counted, crate::proofs::WordedLines::nothing_counted, crate::proofs::WordedLines::all_counted, crate::proofs::WordedLines::none_counted))]
pub fn parse(alloc: Global, file: &[u8]) -> Result<CommandFile, ParseFault>
    ensures events { Gives refused_line (λ told. map told_of told.events.items) result (events_in file.now) }
    ensures lines { IfOk result (λ told. told.lines.items ≡ worded_lines file.now) }
{
    let mut events = Vec::new(alloc);
    let mut lines = Vec::new(alloc);
    let mut rest = file;
    let mut number = 1;
    while !rest.is_empty() {
        let (line, behind) = first_line(rest);
        match event_of(alloc, line) {
            Ok(Some(event)) => {
                events.push(event)?;
                lines.push(number)?;
            }
            Ok(None) => {}
            Err(EventFault::Refused(fault)) => return Err(ParseFault::Line { number, fault }),
            Err(EventFault::Memory) => return Err(ParseFault::Memory),
        }
        rest = behind;
        number += 1;
    }
    Ok(CommandFile { events, lines })
}

/// The event of a line without its end, or `None` where the line has no words.
///
/// # Errors
///
/// The line isn't of the form, or want of memory before that was found.
pub fn event_of(alloc: Global, line: &[u8]) -> Result<Option<Event>, EventFault>
    ensures { GivesLine result (line_told line.now) }
{
    if !is_all_ascii(line) {
        return Err(LineFault::NotAscii(other_bytes(line)).into());
    }
    let mut words = Words::new(without_comment(line));
    let Some(name) = words.next() else {
        return Ok(None);
    };
    let event = event_named(alloc, name, words)?;
    Ok(Some(event))
}

/// The line from its first byte that isn't ASCII on, to be shown.
fn other_bytes(line: &[u8]) -> Excerpt {
    let before = line.iter().take_while(|byte| byte.is_ascii()).count();
    Excerpt::of(line.get(before..).unwrap_or(line))
}

/// The event that a word names and the words behind it describe.
fn event_named(alloc: Global, name: &[u8], words: Words<'_>) -> Result<Event, EventFault>
    ensures { GivesEvent result (named_event name.now (words_of words.entry.rest.now)) }
{
    match name {
        b"submit" => submit(alloc, words),
        b"turn" => turn(words),
        b"fault" => fault(words),
        _ => Err(LineFault::NoSuchEvent(words.shown()).into()),
    }
}

fn submit(alloc: Global, words: Words<'_>) -> Result<Event, EventFault>
    ensures { GivesEvent result (submission_of (words_of words.entry.rest.now)) }
{
    let line = words.shown();
    let (queue, entry, input) = words.two_or_three().ok_or(LineFault::SubmitWords(line))?;
    let queue = queue_number(queue).ok_or(LineFault::Queue(Excerpt::of(queue)))?;
    let entry = <[u8; 64]>::from_hex(entry).map_err(|error| entry_fault(error, entry.len()))?;
    let input = hex::decode(alloc, input).map_err(|error| data_fault(error, input.len()))?;
    Ok(Event::Submit {
        queue,
        entry,
        input,
    })
}

/// A number below 2^16.
pub(crate) fn queue_number(word: &[u8]) -> Option<u16>
    ensures { result ≡ option_and_then (below (2 ^ 16)) (decimal_of word.now) }
{
    u16::try_from(decimal(word)?).ok()
}

/// Why an entry of so many characters spells no 64 bytes.
fn entry_fault(error: FromHexError, characters: usize) -> EventFault
    ensures { result ≡ fault_of_entry characters error }
{
    match error {
        FromHexError::OutOfMemory => EventFault::Memory,
        FromHexError::InvalidHexCharacter { c, index } => LineFault::EntryDigit {
            character: c,
            before: index,
        }
        .into(),
        _ => LineFault::EntryLength(characters).into(),
    }
}

/// Why data of so many characters spells no bytes.
fn data_fault(error: FromHexError, characters: usize) -> EventFault
    ensures { result ≡ fault_of_data characters error }
{
    match error {
        FromHexError::OutOfMemory => EventFault::Memory,
        FromHexError::InvalidHexCharacter { c, index } => LineFault::DataDigit {
            character: c,
            before: index,
        }
        .into(),
        _ => LineFault::DataLength(characters).into(),
    }
}

fn turn(words: Words<'_>) -> Result<Event, EventFault>
    ensures { GivesEvent result (turn_of (words_of words.entry.rest.now)) }
{
    let line = words.shown();
    let word = words.one().ok_or(LineFault::TurnWords(line))?;
    let run = run_number(word).ok_or(LineFault::Run(Excerpt::of(word)))?;
    Ok(Event::Turn { run })
}

/// A number below 2^8.
pub(crate) fn run_number(word: &[u8]) -> Option<u8>
    ensures { result ≡ option_and_then (below (2 ^ 8)) (decimal_of word.now) }
{
    u8::try_from(decimal(word)?).ok()
}

fn fault(words: Words<'_>) -> Result<Event, EventFault>
    ensures { GivesEvent result (fault_of (words_of words.entry.rest.now)) }
{
    let line = words.shown();
    let (zone, state) = words.two().ok_or(LineFault::FaultWords(line))?;
    let zone = decimal(zone).ok_or(LineFault::Zone(Excerpt::of(zone)))?;
    let state = fault_state(state).ok_or(LineFault::State(Excerpt::of(state)))?;
    Ok(Event::Fault { zone, state })
}

fn fault_state(word: &[u8]) -> Option<FaultState>
    ensures { result ≡ state_named word.now }
{
    if is_word_of(word, FaultState::ReadOnly) {
        Some(FaultState::ReadOnly)
    } else if is_word_of(word, FaultState::Offline) {
        Some(FaultState::Offline)
    } else {
        None
    }
}

/// Is the word that of this fault?
fn is_word_of(word: &[u8], fault: FaultState) -> bool
    ensures { result ≡ bytes_eq word.now (fault_word fault) }
{
    word == fault.word().as_bytes()
}

impl From<LineFault> for EventFault {
    ghost from_gives = { λ fault error. error ≡ Refused fault };

    fn from(fault: LineFault) -> EventFault {
        EventFault::Refused(fault)
    }
}

impl<T: Drop> From<AllocFailed<T>> for ParseFault {
    ghost from_gives = { λ _ error. error ≡ Memory };

    fn from(_error: AllocFailed<T>) -> ParseFault {
        ParseFault::Memory
    }
}
