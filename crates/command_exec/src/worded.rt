//! Replies that are printed in words as they come.

ghost use Rattle.std.specs.Prelude.{◌≡◌, IfOk};
ghost use Rattle.std.proofs.Common.{◌∙◌, refl};

use command_explain::push_reply_words;
use device_events::{Event, NotTaken, Out, Reply};
use std::alloc::{AllocError, Global};
use std::io::Write;
use zone_resources::RUNS;

/// Prints what each reply says, in one write. Which bytes these are isn't said.
#[derive(Drop)]
pub(crate) struct Worded<'a, W> {
    out: &'a mut W,
    alloc: Global,
    asked: Asked<'a>,
    refusals: u64,
}

impl<'a, W: Write> Worded<'a, W> {
    /// A printer of the replies to these events of a device without runs, and to the turns after them.
    pub(crate) fn new(alloc: Global, events: &'a [Event], out: &'a mut W) -> Worded<'a, W>
        ensures same_writer { (result.out.ghost_name ≡ out.entry.ghost_name) × (result.out.now ≡ out.old) }
        ensures none_refused { result.refusals ≡ 0 }
    {
        Worded {
            out,
            alloc,
            asked: Asked::new(events),
            refusals: 0,
        }
    }

    /// What it printed to.
    pub(crate) fn into_writer(self) -> &'a mut W
        ensures same_writer { result.ghost_name ≡ self.entry.out.ghost_name }
        ensures value { result.now ≡ self.entry.out.now }
    {
        let Worded { out, .. } = self;
        out
    }
}

impl<W: Write> Out for Worded<'_, W> {
    ghost took = { λ old new replies. new.out.ghost_name ≡ old.out.ghost_name };

    ghost refusals = { λ worded. worded.refusals };

    ghost takes_none = { λ worded. refl };

    ghost joins = { λ _ _ _ first later early late. late ∙ early };

    fn take(&mut self, reply: Reply, bytes: &[u8]) -> Result<(), NotTaken> {
        let answered = self.asked.entry_of(&reply);
        if print(self.alloc, self.out, &reply, bytes, answered) {
            Ok(())
        } else {
            self.refusals += 1;
            Err(NotTaken)
        }
    }

    fn refusals(&self) -> u64 {
        self.refusals
    }
}

/// Prints what a reply says, and says whether that went well.
fn print<W: Write>(
    alloc: Global,
    out: &mut W,
    reply: &Reply,
    bytes: &[u8],
    answered: Option<&[u8; 64]>,
) -> bool {
    match text_of(alloc, reply, bytes, answered) {
        Ok(text) => out.write_all(text.as_bytes()).is_ok(),
        Err(_) => false,
    }
}

/// What a reply says.
fn text_of(
    alloc: Global,
    reply: &Reply,
    bytes: &[u8],
    answered: Option<&[u8; 64]>,
) -> Result<String, AllocError> {
    let mut text = String::new(alloc);
    push_reply_words(reply, bytes, answered, &mut text)?;
    Ok(text)
}

/// Which entry a reply answers: the replies to events come first, in order.
#[derive(Drop)]
struct Asked<'a> {
    events: &'a [Event],
    /// How many replies came.
    taken: usize,
    /// Of each active run the event that started it.
    runs: [Option<usize>; RUNS],
}

impl<'a> Asked<'a> {
    /// No reply came yet.
    fn new(events: &'a [Event]) -> Asked<'a> {
        Asked {
            events,
            taken: 0,
            runs: [None; RUNS],
        }
    }

    /// The entry that the next reply answers, if it answers one.
    fn entry_of(&mut self, reply: &Reply) -> Option<&'a [u8; 64]> {
        let index = self.taken;
        self.taken = index.saturating_add(1);
        let submitted = match self.events.get(index) {
            Some(Event::Submit { .. }) => {
                self.note_run(reply, index);
                Some(index)
            }
            Some(Event::Turn { run }) => self.ended(reply, usize::from(*run)),
            Some(Event::Fault { .. }) => None,
            // The turns after the last event go to the lowest run.
            None => match self.lowest() {
                Some(run) => self.ended(reply, run),
                None => None,
            },
        };
        match self.events.get(submitted?) {
            Some(Event::Submit { entry, .. }) => Some(entry),
            _ => None,
        }
    }

    /// Notes which event started a run, where the reply says that it did.
    fn note_run(&mut self, reply: &Reply, index: usize) {
        if let Reply::Pending { run } = reply {
            if let Some(place) = self.runs.get_mut(usize::from(*run)) {
                *place = Some(index);
            }
        }
    }

    /// The event that started a run which ends with this reply.
    fn ended(&mut self, reply: &Reply, run: usize) -> Option<usize> {
        match reply {
            Reply::Complete { .. } => self.runs.get_mut(run)?.take(),
            _ => None,
        }
    }

    /// The lowest active run.
    fn lowest(&self) -> Option<usize> {
        self.runs.iter().position(|started| started.is_some())
    }
}
